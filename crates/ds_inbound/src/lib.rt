//! What a terminal sends: the answers to Read Modified and Read Buffer written, and answers read.
#![tactic(auto)]

mod characters;
mod field;
mod fields;
mod front;
mod inbound;
mod item;
mod laws;
mod refused;
mod write;

pub use characters::{Characters, chars};
pub use field::FieldSlice;
pub use fields::Fields;
pub use inbound::Inbound;
pub use laws::{answers_say_themselves, one_answer};
pub use refused::{Refused, Why};
pub use write::{push_address, push_run, write_buffer, write_inbound};
