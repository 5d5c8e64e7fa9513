//! What a stream tells, and how it fails.

use crate::codes::Verb;
use thiserror::Error;

/// What a Telnet stream tells. Records and subnegotiations are lent by the deframer.
#[derive(Clone, Copy, Debug, PartialEq, Eq)]
pub enum Event<'a> {
    /// A whole record: its data, up to 32,768 bytes, with each doubled IAC as one byte (RFC 885).
    Record(&'a [u8]),
    /// A verb and its option, 00 to FF (RFC 854).
    Verb(Verb, u8),
    /// A subnegotiation: its option, and up to 256 bytes of parameters (RFC 855).
    Sub(u8, &'a [u8]),
    /// IAC and another command code, as that code. It stands for nothing here (RFC 854).
    Passed(u8),
}

/// What one call of [`Deframer::next`](crate::Deframer::next) found.
#[derive(Clone, Copy, Debug, PartialEq, Eq)]
pub enum Step<'a> {
    /// The input is used up, and told no event.
    NeedMore,
    /// The bytes taken told this.
    Event(Event<'a>),
}

/// Why a stream is refused. The limits are our own.
#[derive(Clone, Copy, Debug, PartialEq, Eq, Error)]
pub enum WireFault {
    /// A data byte after the 32,768 of its record.
    #[error("W1 RecordTooLong")]
    RecordTooLong,
    /// A byte after the 256 that a subnegotiation has behind its option.
    #[error("W2 SubTooLong")]
    SubTooLong,
    /// A subnegotiation with no option, or in one IAC followed by neither IAC nor SE (RFC 855).
    #[error("W3 BadSub")]
    BadSub,
}
