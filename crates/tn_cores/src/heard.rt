//! What an event says to a session: subnegotiations are read once, before a table is looked at.

ghost use Rattle.std.specs.Prelude.{◌≡◌, ◌==◌, ◌<◌, not, length, drop, slice_index, position};
ghost use Rattle.std.specs.List.{list_any};
ghost use Rattle.tn_wire.specs.Calls.{told_of};
ghost use Rattle.tn_cores.specs.Heard.{heard, type_heard, enhanced_heard, reject_heard, naming, joined_of, is_join, functions_in};
ghost use Rattle.tn_cores.specs.HeardView.{heard_view, joined_view, naming_view};
ghost use Rattle.tn_cores.specs.Rows.{is_set, is_within};

use crate::option::TelnetOption;
use tn_wire::{Event, Verb};

/// What follows the name of a device (RFC 2355, section 7.1).
#[derive(Clone, Copy)]
pub(crate) enum Joined<'a> {
    /// Nothing.
    Alone,
    /// 00, ASSOCIATE.
    Associate,
    /// 01, CONNECT, and the name of a resource.
    Connect(&'a [u8]),
}

/// A list of functions as a set (RFC 2355, section 7.2).
#[derive(Clone, Copy)]
pub(crate) struct FunctionList {
    /// Whether RESPONSES is in it.
    pub(crate) responses: bool,
    /// Whether any other is.
    pub(crate) others: bool,
}

/// What an event says.
#[derive(Clone, Copy)]
pub(crate) enum Heard<'a> {
    /// A record.
    Record,
    /// A verb.
    Verb(Verb, TelnetOption),
    /// TERMINAL-TYPE SEND.
    SendType,
    /// TERMINAL-TYPE IS, and a name.
    TypeIs(&'a [u8]),
    /// SEND DEVICE-TYPE.
    SendDevice,
    /// DEVICE-TYPE REQUEST, a name, and what follows it.
    DeviceRequest(&'a [u8], Joined<'a>),
    /// DEVICE-TYPE IS, a name, and what follows it.
    DeviceIs(&'a [u8], Joined<'a>),
    /// DEVICE-TYPE REJECT REASON, and the reason.
    DeviceReject(u8),
    /// FUNCTIONS REQUEST.
    FunctionsRequest(FunctionList),
    /// FUNCTIONS IS.
    FunctionsAre(FunctionList),
    /// Another subnegotiation of TERMINAL-TYPE or TN3270E.
    Bad,
    /// Anything else.
    Nothing,
}

impl<'a> Heard<'a> {
    /// What the event says.
    pub(crate) fn of(event: &Event<'a>) -> Heard<'a>
        ensures { heard_view result ≡ heard (told_of event.now) }
    {
        match event {
            Event::Record(_bytes) => Heard::Record,
            Event::Verb(verb, option) => Heard::Verb(*verb, TelnetOption::from_code(*option)),
            Event::Sub(option, parameters) => match TelnetOption::from_code(*option) {
                TelnetOption::TerminalType => type_heard(parameters),
                TelnetOption::Tn3270e => enhanced_heard(parameters),
                _ => Heard::Nothing,
            },
            Event::Passed(_byte) => Heard::Nothing,
        }
    }
}

/// A subnegotiation of TERMINAL-TYPE (RFC 1091).
#[tactic(auto, unfolding(crate::specs::Heard::type_heard))]
fn type_heard(parameters: &[u8]) -> Heard<'_>
    ensures { heard_view result ≡ type_heard parameters.now }
{
    let Some((word, rest)) = parameters.split_first() else {
        return Heard::Bad;
    };
    match *word {
        0 => Heard::TypeIs(rest),
        1 if rest.is_empty() => Heard::SendType,
        _ => Heard::Bad,
    }
}

/// A subnegotiation of TN3270E (RFC 2355, section 7).
#[tactic(auto, unfolding(crate::specs::Heard::enhanced_heard))]
fn enhanced_heard(parameters: &[u8]) -> Heard<'_>
    ensures { heard_view result ≡ enhanced_heard parameters.now }
{
    let Some((first, rest)) = parameters.split_first() else {
        return Heard::Bad;
    };
    let Some((second, rest)) = rest.split_first() else {
        return Heard::Bad;
    };
    match (*first, *second) {
        (8, 2) if rest.is_empty() => Heard::SendDevice,
        (2, 7) => {
            let (name, joined) = parted(rest);
            Heard::DeviceRequest(name, joined)
        }
        (2, 4) => {
            let (name, joined) = parted(rest);
            Heard::DeviceIs(name, joined)
        }
        (2, 6) => reject_heard(rest),
        (3, 7) => Heard::FunctionsRequest(FunctionList::of(rest)),
        (3, 4) => Heard::FunctionsAre(FunctionList::of(rest)),
        _ => Heard::Bad,
    }
}

/// REASON and one byte.
fn reject_heard(words: &[u8]) -> Heard<'_>
    ensures { heard_view result ≡ reject_heard words.now }
{
    match words {
        [5, reason] => Heard::DeviceReject(*reason),
        _ => Heard::Bad,
    }
}

/// What the byte at the front joins to a name.
fn join_of(bytes: &[u8]) -> Joined<'_>
    requires { 0 < length bytes.now }
    ensures { joined_view result ≡ joined_of (slice_index bytes.now 0) (drop 1 bytes.now) }
{
    if bytes[0] == 0 {
        Joined::Associate
    } else {
        Joined::Connect(&bytes[1..])
    }
}

/// Where a name ends that something follows: at the first 00 or 01.
fn name_end(bytes: &[u8]) -> Option<usize>
    ensures { result ≡ position is_join bytes.now }
{
    bytes.iter().position(|byte| *byte <= 1)
}

/// A name before the first 00 or 01, and what follows it.
#[tactic(auto, unfolding(crate::specs::Heard::naming))]
fn parted(bytes: &[u8]) -> (&[u8], Joined<'_>)
    ensures { naming_view result.0.now result.1 ≡ naming bytes.now }
{
    match name_end(bytes) {
        None => (bytes, Joined::Alone),
        Some(end) => {
            let (name, after) = bytes.split_at(end);
            (name, join_of(after))
        }
    }
}

fn has_responses(list: &[u8]) -> bool
    ensures { result ≡ list_any (λ code. code == 2) list.now }
{
    list.iter().any(|code| *code == 2)
}

fn has_others(list: &[u8]) -> bool
    ensures { result ≡ list_any (λ code. not (code == 2)) list.now }
{
    list.iter().any(|code| *code != 2)
}

impl FunctionList {
    /// The list of functions that these bytes are.
    fn of(list: &[u8]) -> FunctionList
        ensures { result ≡ functions_in list.now }
    {
        FunctionList {
            responses: has_responses(list),
            others: has_others(list),
        }
    }

    /// Whether it is this set.
    pub(crate) fn is_set(self, responses: bool) -> bool
        ensures { result ≡ is_set self responses }
    {
        !self.others && self.responses == responses
    }

    /// Whether each of its functions is supported, RESPONSES where `supported` says so.
    pub(crate) fn is_within(self, supported: bool) -> bool
        ensures { result ≡ is_within self supported }
    {
        !self.others && (!self.responses || supported)
    }
}
