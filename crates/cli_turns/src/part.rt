//! The text of a dialogue as one of the records up to a turn: what is no record of them is a comment, so that lines keep their
//! numbers.

ghost use Rattle.std.specs.Prelude.{◌≡◌, ◌+◌, ◌≤◌, IfOk, length};
ghost use Rattle.std.specs.List.{filter};
ghost use Rattle.cli_commands.specs.Lines.{lines_in};
ghost use Rattle.cli_turns.specs.Part.{line_shown, records_up_to, own_line, at_after, records_of, count_of};

use bstr::ByteSlice;
use cli_commands::{is_turn, left_after, push_line};
use std::alloc::{AllocError, Global};

/// A line, or the comment in its place, where so many turns up to the last are to come, from this one on.
fn line_shown(left: usize, line: &[u8]) -> &[u8]
    ensures { result.now ≡ line_shown left line.now }
{
    if is_turn(line) || left == 0 {
        b"#".as_slice()
    } else {
        line
    }
}

/// The text of a dialogue with the records of so many turns alone.
pub(crate) fn records_up_to(alloc: Global, turns: usize, text: &[u8]) -> Result<Vec<u8>, AllocError>
    ensures { IfOk result (λ bytes. bytes.items ≡ records_up_to turns text.now) }
{
    let mut out = Vec::new(alloc);
    let mut left = turns;
    for line in text.lines() {
        push_line(&mut out, line_shown(left, line))?;
        left = left_after(left, line);
    }
    Ok(out)
}

/// A line, or the comment in its place, where a turn is kept and the line is in this one.
fn own_line(turn: usize, at: usize, line: &[u8]) -> &[u8]
    ensures { result.now ≡ own_line turn at line.now }
{
    if !is_turn(line) && at == turn {
        line
    } else {
        b"#".as_slice()
    }
}

fn at_after(at: usize, line: &[u8]) -> usize
    ensures { result ≡ at_after at line.now }
{
    if is_turn(line) {
        at.saturating_add(1)
    } else {
        at
    }
}

/// The text of a dialogue with the records of a turn alone.
pub(crate) fn records_of(alloc: Global, turn: usize, text: &[u8]) -> Result<Vec<u8>, AllocError>
    ensures { IfOk result (λ bytes. bytes.items ≡ records_of turn text.now) }
{
    let mut out = Vec::new(alloc);
    let mut at = 0;
    for line in text.lines() {
        push_line(&mut out, own_line(turn, at, line))?;
        at = at_after(at, line);
    }
    Ok(out)
}

/// How many turns a text has, or this number where there are more.
pub(crate) fn count_of(most: usize, text: &[u8]) -> usize
    ensures { result ≡ count_of most text.now }
{
    let mut left = most;
    for line in text.lines() {
        left = left_after(left, line);
    }
    most - left
}
