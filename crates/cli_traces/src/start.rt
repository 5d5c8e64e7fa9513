//! Where a connection's records begin: plain text that a host sent before the last command of its
//! negotiation, and before any record, is no record's.

ghost use Rattle.std.specs.Prelude.{◌≡◌};
ghost use Rattle.tn_wire.specs.Calls.{told_of};
ghost use Rattle.cli_traces.specs.Start.{is_agreeing, is_cutting, is_session_option, may_cut, place_after, place_of, plain_after, start_after, start_with};

use tn_traces::Side;
use tn_wire::Event;

/// The option BINARY.
const BINARY: u8 = 0;

const TERMINAL_TYPE: u8 = 24;

const END_OF_RECORD: u8 = 25;

const TN3270E: u8 = 40;

/// How far a connection is from its first record.
#[derive(Clone, Copy, Debug, PartialEq, Eq)]
pub(crate) enum Start {
    /// The host sent no record yet.
    Agreeing,
    /// Nor did it, and a command of its negotiation came: what is open of its stream ends, if it is text.
    Cutting,
    /// The host sent a record.
    Begun,
}

/// Whether an option is one of those that make a session of records (RFC 1576; RFC 2355).
fn is_session_option(option: u8) -> bool
    ensures { result ≡ is_session_option option }
{
    option == BINARY || option == TERMINAL_TYPE || option == END_OF_RECORD || option == TN3270E
}

/// Whether an event is a command of the negotiation.
fn is_agreeing(event: &Event<'_>) -> bool
    ensures { result ≡ is_agreeing (told_of event.now) }
{
    match event {
        Event::Verb(_, option) => is_session_option(*option),
        Event::Sub(option, _) => is_session_option(*option),
        Event::Record(_) | Event::Passed(_) => false,
    }
}

impl Start {
    /// After an event of a side that is no record.
    pub(crate) fn after(self, side: Side, event: &Event<'_>) -> Start
        ensures { result ≡ start_after side self (told_of event.now) }
    {
        match (side, self) {
            (Side::Host, Start::Agreeing) if is_agreeing(event) => Start::Cutting,
            (_, start) => start,
        }
    }

    /// Whether what is open of a side's stream ends here, if it is text.
    pub(crate) fn is_cutting(self, side: Side) -> bool
        ensures { result ≡ is_cutting side self }
    {
        side == Side::Host && self == Start::Cutting
    }

    /// Whether text may still come.
    pub(crate) fn may_cut(self, side: Side) -> bool
        ensures { result ≡ may_cut side self }
    {
        side == Side::Host && self != Start::Begun
    }

    /// With a record of a side.
    pub(crate) fn with_record(self, side: Side) -> Start
        ensures { result ≡ start_with side self }
    {
        match side {
            Side::Host => Start::Begun,
            Side::Terminal => self,
        }
    }
}

/// Where in its token a stream stands (RFC 854).
#[derive(Clone, Copy, Debug, PartialEq, Eq)]
pub(crate) enum Place {
    /// Between two tokens.
    Data,
    /// After IAC.
    Command,
    /// After a verb, before its option.
    Verb,
    /// In a subnegotiation.
    Sub,
    /// After IAC in a subnegotiation.
    SubCommand,
}

/// After IAC and a byte.
fn place_of(byte: u8) -> Place
    ensures { result ≡ place_of byte }
{
    match byte {
        0xFB..=0xFE => Place::Verb,
        0xFA => Place::Sub,
        _ => Place::Data,
    }
}

impl Place {
    /// After one more byte.
    pub(crate) fn after(self, byte: u8) -> Place
        ensures { result ≡ place_after self byte }
    {
        match self {
            Place::Data if byte == 0xFF => Place::Command,
            Place::Data | Place::Verb => Place::Data,
            Place::Command => place_of(byte),
            Place::Sub if byte == 0xFF => Place::SubCommand,
            Place::SubCommand if byte == 0xF0 => Place::Data,
            Place::Sub | Place::SubCommand => Place::Sub,
        }
    }

    /// Whether what is open is text after one more byte, where it was so before: of seven bits.
    pub(crate) fn stays_plain(self, byte: u8, plain: bool) -> bool
        ensures { result ≡ plain_after self byte plain }
    {
        match self {
            Place::Data => plain && (byte < 0x80 || byte == 0xFF),
            Place::Command => byte != 0xFF && plain,
            Place::Verb | Place::Sub | Place::SubCommand => plain,
        }
    }
}
