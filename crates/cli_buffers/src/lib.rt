//! The command `records --from buffer`: the record that leaves the screen which a terminal's buffer shows.
#![tactic(auto)]

mod buffer;
mod reading;
mod reason;
mod sizes;

pub use buffer::{buffer_text, run_buffers};
pub use reason::{BufferFlaw, BufferWhy, buffer_flaw};
pub use sizes::SizesLine;
