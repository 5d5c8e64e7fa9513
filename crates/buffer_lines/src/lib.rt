//! What s3270 answers to `ReadBuffer(Ebcdic)`, line by line, and the record that leaves the screen which it shows.
#![tactic(auto)]

mod cell;
mod flaw;
mod line;
mod record;
mod row;
mod screen;
mod status;
mod words;

pub use flaw::Flaw;
pub use line::{BufferLine, read_line};
pub use record::{push_cell, record_of};
pub use screen::{Open, Shot, Step};
pub use status::Status;
