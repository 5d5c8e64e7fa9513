//! Screen layouts: named fields with place, length and kind, read from TOML.
#![tactic(auto)]

mod entry;
mod fault;
mod field;
mod layout;
mod listed;
mod located;
mod name;
mod plain;
mod rows;
mod section;
mod size_text;
mod top;
mod values;

pub use entry::{Entry, Kind};
pub use fault::{LayoutError, LayoutFault, LayoutKey, Why};
pub use layout::Layout;
pub use size_text::size_of_text;
