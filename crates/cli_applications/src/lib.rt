//! The manifest of an application: the screens through which a host leads terminals, read from TOML.
#![tactic(auto)]

mod attention;
mod fault;
mod led;
mod manifest;
mod plan;
mod screen;
mod tables;
mod values;

pub use fault::{ManifestError, ManifestFault, ManifestKey, Why};
pub use led::leads_to;
pub use manifest::manifest_in;
pub use screen::{Manifest, PlannedScreen};
