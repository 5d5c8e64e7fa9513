//! A 3270 terminal without input and output: a screen that takes records and keys, and the bytes that it sends.
#![tactic(auto)]

mod keys;
mod refused;
mod reply;
mod strokes;
mod target;
mod terminal;

pub use refused::Refused;
pub use reply::{KeyReply, RecordReply};
pub use target::{RecordTarget, apply_record, read_record, take_record};
pub use terminal::Terminal;
