//! Why a line with characters is refused.

ghost use Rattle.std.specs.Prelude.{◌≡◌, ◌<◌, length, IfSome};
ghost use Rattle.cli_reasons.specs.CharacterLine.{byte_at, character_flaw, digit_why, first_uncoded, inside_why, is_uncoded, runs_flaw, stop_why, string_flaw};

use crate::flaw::{Flaw, Why};
use crate::order_line::order_flaw;
use crate::record_line::SizesBy;
use cli_characters::{Place, code_of, first_stop};

/// Why characters aren't good at a byte, or at the end.
fn inside_why(byte: Option<u8>) -> Why
    ensures { result ≡ inside_why byte }
{
    match byte {
        Some(byte) => Why::NoCharacter(byte),
        None => Why::OpenQuote,
    }
}

/// Why no digit stands where one is due.
fn digit_why(byte: Option<u8>) -> Why
    ensures { result ≡ digit_why byte }
{
    match byte {
        Some(byte) => Why::NotDigit(byte),
        None => Why::NoRun,
    }
}

/// Why a text isn't good where this was begun, at a byte or at the end.
fn stop_why(place: Place, byte: Option<u8>) -> Why
    ensures { result ≡ stop_why place byte }
{
    match place {
        Place::Begins | Place::Digits => digit_why(byte),
        Place::Inside => inside_why(byte),
        Place::Quote => Why::NoSpace,
        Place::Half(_) => Why::HalfByte,
    }
}

/// What stands at a place, or that the line ends there.
fn byte_at(line: &[u8], at: usize) -> Option<u8>
    ensures { result ≡ byte_at line.now at }
{
    if at < line.len() {
        Some(line[at])
    } else {
        None
    }
}

/// What is wrong with the runs of a text, which stand after five characters.
fn runs_flaw(operand: &[u8]) -> Flaw
    ensures { result ≡ runs_flaw operand.now }
{
    match first_stop(operand) {
        Some(stop) => {
            let why = stop_why(stop.place, byte_at(operand, stop.at));
            Flaw::at(stop.at + 6, why)
        }
        None => Flaw::at(6, Why::NoRun),
    }
}

/// What is wrong with a line that says no command and no order, of an input of `convert --back --chars`.
pub(crate) fn character_flaw(sizes: SizesBy, line: &[u8]) -> Flaw
    ensures { result ≡ character_flaw sizes line.now }
{
    if line.starts_with(b"TEXT ".as_slice()) {
        runs_flaw(&line[5..])
    } else {
        order_flaw(sizes, line)
    }
}

/// Whether a byte is none of the 95 characters.
fn is_uncoded(byte: u8) -> bool
    ensures { result ≡ is_uncoded byte }
{
    code_of(byte).is_none()
}

/// Where the first byte stands that is none of the 95 characters.
fn first_uncoded(characters: &[u8]) -> Option<usize>
    ensures first { result ≡ first_uncoded characters.now }
    ensures inside { IfSome result (λ place. place < length characters.now) }
{
    characters.iter().position(|byte| is_uncoded(*byte))
}

/// What is wrong with the characters of a string, which stand after seven.
pub(crate) fn string_flaw(characters: &[u8]) -> Flaw
    ensures { result ≡ string_flaw characters.now }
{
    match first_uncoded(characters) {
        Some(place) => Flaw::at(place + 8, Why::NoCharacter(characters[place])),
        None => Flaw::at(7, Why::NoString),
    }
}
