//! The command `bind` of the program `term3270`: answers of terminals, read back into the fields of a layout.
#![tactic(auto)]

mod bind;
mod fields;
mod lines;

pub use bind::{bind_answers, bind_texts, run_bind};
pub use fields::Form;
