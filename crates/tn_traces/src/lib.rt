//! Streams of 3270 sessions as people have them, in traces of an emulator or captured: what a line
//! of one says, whether the session is enhanced, and what a record holds.
#![tactic(auto)]

mod line;
mod negotiated;
mod record;

pub use line::{Said, Side, stream_line, trace_line};
pub use negotiated::{Negotiated, Sender, is_tn3270e_off, negotiated_after};
pub use record::{Kept, read_record};
