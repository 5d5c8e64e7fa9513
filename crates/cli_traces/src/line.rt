//! What one line adds to the text.

ghost use Rattle.std.specs.Prelude.{◌≡◌, ◌++◌, ℕ, List, IfOk, OnOk};
ghost use Rattle.std.specs.String.{string_bytes};
ghost use Rattle.cli_traces.specs.declared.line.Next.TheVariants.{Goes, Stops};
ghost use Rattle.cli_traces.specs.Following.{Adds, AddsByte, AddsBytes, AddsPiece, end_of_text};
ghost use Rattle.cli_traces.specs.Held.{following_seen, course_seen, AddsFault, IsReady};

use crate::asked::Asked;
use crate::follower::Follower;
use crate::reading::Task;
use crate::text::{header_name, push_connection, push_fault, push_open, push_refused, wire_name};
use std::alloc::{AllocError, Global};
use tn_session::RunFault;
use tn_traces::{Said, Side};

/// How a stream spells the end of what is open (RFC 885).
const RECORD_END: [u8; 2] = [0xFF, 0xEF];

/// What comes after a line.
#[derive(Clone, Copy)]
pub(crate) enum Next {
    /// The next line.
    Goes,
    /// The end: the line is refused, or a fault stands in it.
    Stops,
}

/// The line of a fault, unless memory was refused.
fn push_run_fault(out: &mut String, number: u64, fault: RunFault) -> Result<Next, AllocError>
    ensures text { OnOk result
        (AddsFault number fault (string_bytes out.old) (string_bytes out.new)) }
    ensures stops { IfOk result (λ next. next ≡ Stops) }
{
    match fault {
        RunFault::Wire(fault) => push_fault(out, number, wire_name(fault))?,
        RunFault::Header(fault) => push_fault(out, number, header_name(fault))?,
        RunFault::Session(_) => push_fault(out, number, "S1 OtherSize")?,
        _ => return Err(AllocError),
    }
    Ok(Next::Stops)
}

/// Takes a piece of what a side sent.
fn take_piece_line(
    asked: Asked,
    follower: &mut Follower,
    number: u64,
    side: Side,
    piece: &[u8],
    out: &mut String,
) -> Result<Next, AllocError>
    requires ready { IsReady follower.old }
    ensures adds { IfOk result (λ next. (text : List ℕ)
        × (string_bytes out.new ≡ string_bytes out.old ++ text)
        × AddsPiece asked number side (following_seen follower.old) piece.now text
        (course_seen next (following_seen follower.new))) }
    ensures ready { IfOk result (λ next. next ≡ Goes → IsReady follower.new) }
{
    let task = Task {
        asked,
        side,
        line: number,
    };
    match follower.take(task, piece, out) {
        Ok(()) => Ok(Next::Goes),
        Err(fault) => push_run_fault(out, number, fault),
    }
}

/// Ends the text before the session, where a command of the host's negotiation came.
fn end_text(
    asked: Asked,
    follower: &mut Follower,
    number: u64,
    side: Side,
    out: &mut String,
) -> Result<Next, AllocError>
    requires ready { IsReady follower.old }
    ensures adds { IfOk result (λ next. (text : List ℕ)
        × (string_bytes out.new ≡ string_bytes out.old ++ text)
        × AddsPiece asked number side (following_seen follower.old)
        (end_of_text side (following_seen follower.old).reading) text
        (course_seen next (following_seen follower.new))) }
    ensures ready { IfOk result (λ next. next ≡ Goes → IsReady follower.new) }
{
    if follower.ends_text(side) {
        take_piece_line(asked, follower, number, side, &RECORD_END, out)
    } else {
        Ok(Next::Goes)
    }
}

/// Takes a byte of what a side sent, while text may come.
fn take_byte(
    asked: Asked,
    follower: &mut Follower,
    number: u64,
    side: Side,
    byte: u8,
    out: &mut String,
) -> Result<Next, AllocError>
    requires ready { IsReady follower.old }
    ensures adds { IfOk result (λ next. (text : List ℕ)
        × (string_bytes out.new ≡ string_bytes out.old ++ text)
        × AddsByte asked number side (following_seen follower.old) byte text
        (course_seen next (following_seen follower.new))) }
    ensures ready { IfOk result (λ next. next ≡ Goes → IsReady follower.new) }
{
    follower.see(byte);
    match take_piece_line(asked, follower, number, side, &[byte], out)? {
        Next::Goes => end_text(asked, follower, number, side, out),
        Next::Stops => Ok(Next::Stops),
    }
}

/// Takes bytes that a side sent: one by one while text may come, and then the others.
pub(crate) fn take_bytes(
    asked: Asked,
    follower: &mut Follower,
    number: u64,
    side: Side,
    bytes: &[u8],
    out: &mut String,
) -> Result<Next, AllocError>
    requires ready { IsReady follower.old }
    ensures adds { IfOk result (λ next. (text : List ℕ)
        × (string_bytes out.new ≡ string_bytes out.old ++ text)
        × AddsBytes asked number side (following_seen follower.old) bytes.now text
        (course_seen next (following_seen follower.new))) }
    ensures ready { IfOk result (λ next. next ≡ Goes → IsReady follower.new) }
{
    let mut rest = bytes;
    'bytes: while let Some((byte, more)) = rest.split_first() {
        if !follower.may_cut(side) {
            return take_piece_line(asked, follower, number, side, rest, out);
        }
        match take_byte(asked, follower, number, side, *byte, out)? {
            Next::Goes => rest = more,
            Next::Stops => return Ok(Next::Stops),
        }
    }
    Ok(Next::Goes)
}

/// Takes the line of a number, from 1, and adds its text.
pub(crate) fn take_line(
    alloc: Global,
    asked: Asked,
    follower: &mut Follower,
    number: u64,
    line: &[u8],
    out: &mut String,
) -> Result<Next, AllocError>
    requires ready { IsReady follower.old }
    ensures adds { IfOk result (λ next. (text : List ℕ)
        × (string_bytes out.new ≡ string_bytes out.old ++ text)
        × Adds asked number (following_seen follower.old) line.now text
        (course_seen next (following_seen follower.new))) }
    ensures ready { IfOk result (λ next. next ≡ Goes → IsReady follower.new) }
{
    match asked.said(alloc, line)? {
        Said::Nothing => Ok(Next::Goes),
        Said::Connected => {
            push_open(out, follower.open_count(asked.side))?;
            push_connection(out, number)?;
            follower.reconnect(alloc)?;
            Ok(Next::Goes)
        }
        Said::Piece(side, bytes) => take_bytes(asked, follower, number, side, &bytes, out),
        Said::Bad => {
            push_refused(out, number)?;
            Ok(Next::Stops)
        }
    }
}
