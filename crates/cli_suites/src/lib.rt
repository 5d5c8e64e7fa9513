//! A whole application checked at once: the command `suite` of the program `term3270`, from a manifest or the paths of a folder
//! to a report of every screen.
#![tactic(auto)]

mod answers;
mod count;
mod escaped;
mod fault;
mod files;
mod folder;
mod found;
mod job;
mod json;
mod junit;
mod kept;
mod last_layout;
mod manifest;
mod named_jobs;
mod paths;
mod plain;
mod report;
mod rule;
mod settled;
mod suite;
mod tables;
mod text;
mod told;
mod values;

pub use fault::{ManifestError, ManifestFault, ManifestKey, Place, Why};
pub use files::Files;
pub use job::{Accepted, Job, Kind};
pub use manifest::{Manifest, manifest_in};
pub use report::Form;
pub use suite::{suite_folder, suite_jobs, suite_text};
