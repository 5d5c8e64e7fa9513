//! The Telnet wire of a 3270 session: a byte stream into records, commands and subnegotiations, however it is cut;
//! records into bytes; and the header of a TN3270E record.
//!
//! RFC 854 and 855 (commands and subnegotiations), RFC 856 (a doubled IAC), RFC 885 (end of record), RFC 2355 (the
//! header). The crate reads and writes bytes in memory alone: it opens no socket and waits for nothing.
#![tactic(auto)]

mod codes;
mod deframer;
mod escape;
mod event;
mod framing;
mod header;
mod laws;
mod open_token;
mod run;

pub use codes::{EOR, IAC, RECORD_LIMIT, SB, SE, SUBNEGOTIATION_LIMIT, Verb};
pub use deframer::Deframer;
pub use event::{Event, Step, WireFault};
pub use framing::{frame, push_frame};
pub use header::{DataType, Header, HeaderFault};
pub use laws::{one_answer, one_fault, one_reading, parts_law};
