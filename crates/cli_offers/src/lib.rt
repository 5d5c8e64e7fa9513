//! What `serve` offers terminals beside the screen of a layout: an application that was judged, or records of any kind.
#![tactic(auto)]

mod any;
mod judging;
mod laws;
mod prepare;
mod sizes;
mod sources;
mod ways;

pub use any::any_application;
pub use laws::ways_law;
pub use prepare::{Prepared, prepare_application};
pub use sources::{Files, refusal};
