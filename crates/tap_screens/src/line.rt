//! What a line that is told of a session says.

ghost use Rattle.std.specs.Prelude.{◌≡◌, nat_eq, IfOk, option_map, position};
ghost use Rattle.tap_screens.specs.LineView.{line_seen};
ghost use Rattle.tap_screens.specs.Lines.{answered_in, line_told, name_in, other_told, shown_in, sizes_in};
ghost use Rattle.hex.specs.Hex.{decode_of};
ghost use Rattle.ds_codec.specs.Digits.{bytes_from};
ghost use Rattle.tn_cores.specs.Devices.{device_of};

use ds_codec::{Geometry, bytes_of_digits};
use std::alloc::{AllocError, Global};
use tn_session::Device;

/// What the terminal's records stand after.
const ANSWER: &[u8] = b"# answer ";

/// What the device's name stands after.
const DEVICE: &[u8] = b"# device ";

/// What a line says.
#[derive(Debug, Drop)]
pub(crate) enum TapLine {
    /// A record of the host's.
    Shows(Vec<u8>),
    /// A record of the terminal's.
    Answers(Vec<u8>),
    /// The sizes of the terminal.
    Sizes(Geometry),
    /// Something else.
    Nothing,
}

/// Where the device's name ends.
fn comma_in(words: &[u8]) -> Option<usize>
    ensures { result ≡ position (λ b. nat_eq b 0x2C) words.now }
{
    words.iter().position(|byte| *byte == b',')
}

fn name_in(words: &[u8]) -> &[u8]
    ensures { result.now ≡ name_in words.now }
{
    match comma_in(words) {
        None => words,
        Some(end) => &words[..end],
    }
}

fn answered_in(alloc: Global, digits: &[u8]) -> Result<TapLine, AllocError>
    ensures { IfOk result (λ told. line_seen told
        ≡ answered_in (bytes_from (decode_of digits.now))) }
{
    match bytes_of_digits(alloc, digits)? {
        Some(bytes) => Ok(TapLine::Answers(bytes)),
        None => Ok(TapLine::Nothing),
    }
}

fn shown_in(alloc: Global, digits: &[u8]) -> Result<TapLine, AllocError>
    ensures { IfOk result (λ told. line_seen told
        ≡ shown_in (bytes_from (decode_of digits.now))) }
{
    match bytes_of_digits(alloc, digits)? {
        Some(bytes) => Ok(TapLine::Shows(bytes)),
        None => Ok(TapLine::Nothing),
    }
}

fn sizes_in(words: &[u8]) -> TapLine
    ensures { line_seen result ≡ sizes_in (device_of (name_in words.now)) }
{
    match Device::from_name(name_in(words)) {
        Some(device) => TapLine::Sizes(device.geometry()),
        None => TapLine::Nothing,
    }
}

/// What a line says that is no answer.
fn other_told(alloc: Global, line: &[u8]) -> Result<TapLine, AllocError>
    ensures { IfOk result (λ told. line_seen told ≡ other_told line.now) }
{
    if line.starts_with(DEVICE) {
        Ok(sizes_in(&line[DEVICE.len()..]))
    } else {
        shown_in(alloc, line)
    }
}

/// What a line says.
pub(crate) fn line_told(alloc: Global, line: &[u8]) -> Result<TapLine, AllocError>
    ensures { IfOk result (λ told. line_seen told ≡ line_told line.now) }
{
    if line.starts_with(ANSWER) {
        answered_in(alloc, &line[ANSWER.len()..])
    } else {
        other_told(alloc, line)
    }
}
