//! The command `draft` of the program `term3270`: a layout drafted from the screen that records show.
#![tactic(auto)]

mod drafting;
mod stop;

pub use drafting::{draft_text, run_draft};
