//! What a session agrees on, what a core tells, and why it refuses.

ghost use Rattle.std.specs.Prelude.{◌≡◌};
ghost use Rattle.tn_cores.specs.Steps.{told_after};

use crate::device::Device;
use arrayvec::ArrayVec;
use thiserror::Error;

/// The bytes that a core answers to one event: at most 64.
pub type Out = ArrayVec<u8, 64>;

/// What both ends of a session hold once they are ready.
#[derive(Clone, Copy, Debug, PartialEq, Eq)]
pub struct Agreed {
    /// TN3270E (RFC 2355); else classic TN3270 (RFC 1576).
    pub enhanced: bool,
    /// The terminal's device.
    pub device: Device,
    /// Records are answered by RESPONSE records (RFC 2355, section 10.4).
    pub responses: bool,
}

/// What an event means for the one who runs a core.
#[derive(Clone, Copy, Debug, PartialEq, Eq)]
pub enum Told {
    /// Nothing more than the reply.
    Nothing,
    /// The session is ready: it is told once.
    Ready(Agreed),
    /// The event is a record of the session.
    Record,
}

/// What an event tells that found this agreed before and left that after it.
pub(crate) fn told_after(before: Option<Agreed>, after: Option<Agreed>) -> Told
    ensures { result ≡ told_after before after }
{
    match (before, after) {
        (None, Some(agreed)) => Told::Ready(agreed),
        _ => Told::Nothing,
    }
}

/// Why a session ends. The cores answer the first five and `NoDevice`; the others are of runs over a line.
#[derive(Clone, Copy, Debug, PartialEq, Eq, Error)]
pub enum SessionFault {
    /// The host refused the device, for this reason (RFC 2355, section 7.1).
    #[error("N1 Rejected")]
    Rejected(u8),
    /// A list of functions that isn't the one asked for (RFC 2355, section 7.2).
    #[error("N2 WrongList")]
    WrongList,
    /// A subnegotiation of TERMINAL-TYPE or TN3270E that has no place there, or another form.
    #[error("N3 BadSubnegotiation")]
    BadSubnegotiation,
    /// The peer refuses an option that the session needs: its code.
    #[error("N4 OptionRefused")]
    OptionRefused(u8),
    /// A record before the session is ready.
    #[error("N5 NotReady")]
    NotReady,
    /// A RESPONSE that answers no record, or in another form.
    #[error("N6 BadResponse")]
    BadResponse,
    /// 1,000,000 reads in one session.
    #[error("N7 TooManyReads")]
    TooManyReads,
    /// A read or a write failed.
    #[error("N8 LineFault")]
    LineFault,
    /// No device fits the layout, or the peer has none that does.
    #[error("N9 NoDevice")]
    NoDevice,
    /// The line ended before an answer.
    #[error("N10 Closed")]
    Closed,
    /// The terminal refused a record, for this reason (RFC 2355, section 10.4).
    #[error("N11 TerminalRefused")]
    TerminalRefused(u8),
}
