//! The token that is open, one byte at a time.

ghost use Rattle.std.specs.Prelude.{◌≡◌, ◌<◌, ◌≤◌, List, ℕ, [], ◌∷◌, ◌++◌, length, Ok, Err, None, vec_capacity};
ghost use Rattle.tn_wire.specs.Open.{content_of, TakesByte, HasRoom};

use crate::codes::{EOR, IAC, RECORD_LIMIT, SB, SE, SUBNEGOTIATION_LIMIT, Verb};
use crate::event::WireFault;
use arrayvec::ArrayVec;

/// The parameters of a subnegotiation.
pub(crate) type Parameters = ArrayVec<u8, SUBNEGOTIATION_LIMIT>;

/// How much has come of the token that is open.
#[derive(Clone, Copy)]
pub(crate) enum Open {
    /// Nothing: the next byte begins a token.
    Nothing,
    /// Nothing, and the data that is kept is a record that was told.
    Told,
    /// IAC.
    Escape,
    /// IAC and a verb.
    Command(Verb),
    /// IAC SB.
    Start,
    /// IAC SB IAC.
    StartEscape,
    /// IAC SB, an option, and the parameters so far.
    Inside(u8),
    /// The same, and then IAC.
    InsideEscape(u8),
}

/// An event without what it lends.
#[derive(Clone, Copy)]
pub(crate) enum Found {
    Record,
    Verb(Verb, u8),
    Sub(u8),
    Passed(u8),
}

/// What is open after a byte, and the event that it completes.
pub(crate) type Taken = Result<(Open, Option<Found>), WireFault>;

/// Adds a byte to the record that is open.
fn push_data(kept: &mut Vec<u8>, byte: u8) -> Taken
    requires { RECORD_LIMIT ≤ vec_capacity kept.old }
    ensures fits { length kept.old.items < RECORD_LIMIT
        → (result ≡ Ok (Open.Nothing, None)) × (kept.new.items ≡ kept.old.items ++ byte ∷ []) }
    ensures full { RECORD_LIMIT ≤ length kept.old.items
        → (result ≡ Err WireFault.RecordTooLong) × (kept.new.items ≡ kept.old.items) }
    ensures room { RECORD_LIMIT ≤ vec_capacity kept.new }
{
    if kept.len() < RECORD_LIMIT {
        kept.push(byte).unwrap();
        Ok((Open::Nothing, None))
    } else {
        Err(WireFault::RecordTooLong)
    }
}

/// Adds a byte to the parameters that are open.
fn push_parameter(parameters: &mut Parameters, option: u8, byte: u8) -> Taken
    ensures fits { length parameters.old.items < SUBNEGOTIATION_LIMIT
        → (result ≡ Ok (Open.Inside option, None))
        × (parameters.new.items ≡ parameters.old.items ++ byte ∷ []) }
    ensures full { SUBNEGOTIATION_LIMIT ≤ length parameters.old.items
        → (result ≡ Err WireFault.SubTooLong) × (parameters.new.items ≡ parameters.old.items) }
{
    if parameters.len() < SUBNEGOTIATION_LIMIT {
        parameters.push(byte);
        Ok((Open::Inside(option), None))
    } else {
        Err(WireFault::SubTooLong)
    }
}

/// Where no token is open.
fn take_first(kept: &mut Vec<u8>, byte: u8) -> Taken
    requires limit { length kept.old.items ≤ RECORD_LIMIT }
    requires room { RECORD_LIMIT ≤ vec_capacity kept.old }
    ensures takes { (ps : List ℕ)
        → TakesByte (content_of kept.old.items ps Open.Nothing) byte kept.new.items ps result }
    ensures limit { length kept.new.items ≤ RECORD_LIMIT }
    ensures room { RECORD_LIMIT ≤ vec_capacity kept.new }
{
    if byte == IAC {
        Ok((Open::Escape, None))
    } else {
        push_data(kept, byte)
    }
}

/// After IAC.
fn take_escaped(kept: &mut Vec<u8>, byte: u8) -> Taken
    requires limit { length kept.old.items ≤ RECORD_LIMIT }
    requires room { RECORD_LIMIT ≤ vec_capacity kept.old }
    ensures takes { (ps : List ℕ)
        → TakesByte (content_of kept.old.items ps Open.Escape) byte kept.new.items ps result }
    ensures limit { length kept.new.items ≤ RECORD_LIMIT }
    ensures room { RECORD_LIMIT ≤ vec_capacity kept.new }
{
    match byte {
        IAC => push_data(kept, IAC),
        EOR => Ok((Open::Told, Some(Found::Record))),
        SB => Ok((Open::Start, None)),
        _ => match Verb::from_byte(byte) {
            Some(verb) => Ok((Open::Command(verb), None)),
            None => Ok((Open::Nothing, Some(Found::Passed(byte)))),
        },
    }
}

/// After IAC SB.
fn take_option(parameters: &mut Parameters, byte: u8) -> Taken
    requires { length parameters.old.items ≤ SUBNEGOTIATION_LIMIT }
    ensures takes { (d : List ℕ) → length d ≤ RECORD_LIMIT
        → TakesByte (content_of d parameters.old.items Open.Start)
        byte d parameters.new.items result }
    ensures limit { length parameters.new.items ≤ SUBNEGOTIATION_LIMIT }
{
    if byte == IAC {
        Ok((Open::StartEscape, None))
    } else {
        parameters.clear();
        Ok((Open::Inside(byte), None))
    }
}

/// After IAC SB IAC.
fn take_escaped_option(parameters: &mut Parameters, byte: u8) -> Taken
    requires { length parameters.old.items ≤ SUBNEGOTIATION_LIMIT }
    ensures takes { (d : List ℕ) → length d ≤ RECORD_LIMIT
        → TakesByte (content_of d parameters.old.items Open.StartEscape)
        byte d parameters.new.items result }
    ensures limit { length parameters.new.items ≤ SUBNEGOTIATION_LIMIT }
{
    if byte == IAC {
        parameters.clear();
        Ok((Open::Inside(IAC), None))
    } else {
        Err(WireFault::BadSub)
    }
}

/// Inside a subnegotiation.
fn take_parameter(parameters: &mut Parameters, option: u8, byte: u8) -> Taken
    requires { length parameters.old.items ≤ SUBNEGOTIATION_LIMIT }
    ensures takes { (d : List ℕ) → length d ≤ RECORD_LIMIT
        → TakesByte (content_of d parameters.old.items (Open.Inside option))
        byte d parameters.new.items result }
    ensures limit { length parameters.new.items ≤ SUBNEGOTIATION_LIMIT }
{
    if byte == IAC {
        Ok((Open::InsideEscape(option), None))
    } else {
        push_parameter(parameters, option, byte)
    }
}

/// Inside a subnegotiation, after IAC.
fn take_escaped_parameter(parameters: &mut Parameters, option: u8, byte: u8) -> Taken
    requires { length parameters.old.items ≤ SUBNEGOTIATION_LIMIT }
    ensures takes { (d : List ℕ) → length d ≤ RECORD_LIMIT
        → TakesByte (content_of d parameters.old.items (Open.InsideEscape option))
        byte d parameters.new.items result }
    ensures limit { length parameters.new.items ≤ SUBNEGOTIATION_LIMIT }
{
    match byte {
        IAC => push_parameter(parameters, option, IAC),
        SE => Ok((Open::Nothing, Some(Found::Sub(option)))),
        _ => Err(WireFault::BadSub),
    }
}

/// Takes one byte.
pub(crate) fn take_byte(
    kept: &mut Vec<u8>,
    parameters: &mut Parameters,
    state: Open,
    byte: u8,
) -> Taken
    requires { HasRoom kept.old.items (vec_capacity kept.old) parameters.old.items }
    ensures takes { TakesByte (content_of kept.old.items parameters.old.items state)
        byte kept.new.items parameters.new.items result }
    ensures room { HasRoom kept.new.items (vec_capacity kept.new) parameters.new.items }
{
    match state {
        Open::Nothing => take_first(kept, byte),
        Open::Told => {
            kept.clear();
            take_first(kept, byte)
        }
        Open::Escape => take_escaped(kept, byte),
        Open::Command(verb) => Ok((Open::Nothing, Some(Found::Verb(verb, byte)))),
        Open::Start => take_option(parameters, byte),
        Open::StartEscape => take_escaped_option(parameters, byte),
        Open::Inside(option) => take_parameter(parameters, option, byte),
        Open::InsideEscape(option) => take_escaped_parameter(parameters, option, byte),
    }
}
