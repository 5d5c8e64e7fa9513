//! A layout drafted from the screen that records show.
#![tactic(auto)]

mod drafted;
mod drafting;
mod entries;
mod label;
mod laws;
mod mark;
mod name;
mod opening;
mod text;

pub use drafting::draft;
pub use laws::{drafts_law, free_name_law, label_law};
pub use opening::{Opened, open};
