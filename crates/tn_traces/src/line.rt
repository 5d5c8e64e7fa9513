//! What one line of a trace, or of a captured stream, says.

ghost use Rattle.std.specs.Prelude.{◌≡◌, ◌==◌, not, position, IfOk, OnOk};
ghost use Rattle.std.specs.List.{filter, list_any};
ghost use Rattle.hex.specs.Hex.{decode_of};
ghost use Rattle.tn_traces.specs.Held.{said_seen};
ghost use Rattle.tn_traces.specs.Line.{without_spaces, piece_or_bad, piece_said, is_stamp_byte, is_stamp, is_connected, side_of, after_offset, trace_said, stream_said};

use hex::FromHexError;
use std::alloc::{AllocError, Global};

/// The bytes of a time stamp.
const STAMP: usize = 19;

/// An end of a session.
#[derive(Clone, Copy, Debug, PartialEq, Eq)]
pub enum Side {
    /// The host, whose bytes a terminal reads.
    Host,
    /// The terminal, which writes to the host.
    Terminal,
}

/// What one line says.
#[derive(Debug, Drop)]
pub enum Said {
    /// Nothing of a stream.
    Nothing,
    /// A new connection begins after it.
    Connected,
    /// These bytes were sent by this side.
    Piece(Side, Vec<u8>),
    /// Its hexadecimal is none.
    Bad,
}

/// The text without its spaces.
fn digits_of(alloc: Global, text: &[u8]) -> Result<Vec<u8>, AllocError>
    ensures { IfOk result (λ digits. digits.items ≡ without_spaces text.now) }
{
    let mut digits = Vec::new(alloc);
    for byte in text {
        if *byte != b' ' {
            digits.push(*byte)?;
        }
    }
    Ok(digits)
}

/// The bytes that digits are.
fn decoded(alloc: Global, side: Side, digits: &[u8]) -> Result<Said, AllocError>
    ensures { IfOk result (λ said. said_seen said ≡ piece_or_bad side (decode_of digits.now)) }
{
    match hex::decode(alloc, digits) {
        Ok(bytes) => Ok(Said::Piece(side, bytes)),
        Err(FromHexError::OutOfMemory) => Err(AllocError),
        Err(_) => Ok(Said::Bad),
    }
}

/// The line of a captured stream: bytes of this side in hexadecimal, of either case; spaces are
/// ignored.
pub fn stream_line(alloc: Global, side: Side, line: &[u8]) -> Result<Said, AllocError>
    ensures { IfOk result (λ said. said_seen said ≡ stream_said side line.now) }
{
    let digits = digits_of(alloc, line)?;
    decoded(alloc, side, &digits)
}

fn is_stamp_byte(byte: u8) -> bool
    ensures { result ≡ is_stamp_byte byte }
{
    byte == b'.' || (b'0' <= byte && byte <= b'9')
}

fn has_other(bytes: &[u8]) -> bool
    ensures { result ≡ list_any (λ b. not (is_stamp_byte b)) bytes.now }
{
    bytes.iter().any(|byte| !is_stamp_byte(*byte))
}

fn is_stamp(bytes: &[u8]) -> bool
    ensures { result ≡ is_stamp bytes.now }
{
    !has_other(bytes)
}

/// Whether a line tells of a new connection.
fn is_connected(line: &[u8]) -> bool
    ensures { result ≡ is_connected line.now }
{
    if line.len() < STAMP {
        return false;
    }
    let (stamp, words) = line.split_at(STAMP);
    is_stamp(stamp) && words.starts_with(b" Connected to ")
}

/// The side whose bytes a line has.
fn side_of(line: &[u8]) -> Option<Side>
    ensures { result ≡ side_of line.now }
{
    if line.starts_with(b"< 0x") {
        Some(Side::Host)
    } else if line.starts_with(b"> 0x") {
        Some(Side::Terminal)
    } else {
        None
    }
}

fn first_space(text: &[u8]) -> Option<usize>
    ensures { result ≡ position (λ b. b == 0x20) text.now }
{
    text.iter().position(|byte| *byte == b' ')
}

/// What follows the offset at the front.
fn after_offset(text: &[u8]) -> &[u8]
    ensures { result.now ≡ after_offset text.now }
{
    match first_space(text) {
        None => &[],
        Some(place) => {
            let (_offset, after) = text.split_at(place);
            after
        }
    }
}

/// The line of a trace of x3270, s3270 or c3270, version 4: `< 0xN   HEX` has bytes that came from
/// the host, `> 0xN   HEX` bytes that went to it, and a time stamp with `Connected to` after it
/// tells of a new connection. Any other line says nothing. The offset is not looked at.
pub fn trace_line(alloc: Global, line: &[u8]) -> Result<Said, AllocError>
    ensures { IfOk result (λ said. said_seen said ≡ trace_said line.now) }
{
    match side_of(line) {
        Some(side) => stream_line(alloc, side, after_offset(&line[4..])),
        None if is_connected(line) => Ok(Said::Connected),
        None => Ok(Said::Nothing),
    }
}
