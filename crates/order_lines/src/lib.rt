//! Records as lines of words, a command and then an order a line: printed, and read back.
#![tactic(auto)]

mod draft;
mod law;
mod owned_order;
mod print;
mod told;
mod words;

pub use draft::Draft;
pub use law::{draft_law, line_law, record_law, told_law};
pub use owned_order::OwnedOrder;
pub use print::{push_bytes, push_hex, push_record};
pub use told::{Told, read_line};
pub use words::cut;
