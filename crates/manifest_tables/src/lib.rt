//! The tables of manifests in TOML, whatever their keys are: what a key holds, and what is wrong with it.
#![tactic(auto)]

mod key;
mod tables;
mod text;
mod values;

pub use key::{Flaw, Key};
pub use tables::are_tables;
pub use text::text_in;
pub use values::{is_plain, needed_at, needed_text, text_of, value_at, with_only};
