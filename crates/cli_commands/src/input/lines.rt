//! Lines, numbered from 1 and taken in turn.

ghost use Rattle.std.specs.Prelude.{◌≡◌, ◌≤◌, ◌+◌, ℕ, List, IfErr, IfOk, MatchOption, Result, length, true, false};
ghost use Rattle.std.specs.Str.{is_utf8};
ghost use Rattle.cli_commands.specs.Causes.{ReadsNothing};
ghost use Rattle.cli_commands.specs.Lines.{lines_in, is_ignored};
ghost use Rattle.cli_commands.specs.Taking.{TakesAll, TakesNumbered, told_then};
ghost use Rattle.cli_commands.specs.declared.fault.CommandError.{CommandError};

use crate::fault::CommandError;
use bstr::ByteSlice;
use std::alloc::Global;

/// What lines tell, one after the other.
pub trait TakesLines: Drop {
    /// The line of a number, counted from 1, leads from what is told so far to this result.
    ghost takes: { ℕ → Self → List ℕ → Result Self CommandError → Type 0 };

    /// Takes the line of a number, counted from 1. After an error nothing is said of what is told.
    fn take(&mut self, alloc: Global, number: usize, line: &[u8]) -> Result<(), CommandError>
    where
        Self: Sized,
        ensures takes { takes number self.old line.now (told_then self.new result) }
        ensures unread { IfErr result ReadsNothing };
}

/// Takes the lines of a text in turn, of which the first has this number, up to the first fault; and tells the number of the
/// next line after them.
pub fn take_numbered<T: TakesLines>(
    alloc: Global,
    text: &[u8],
    first: usize,
    none: T,
) -> Result<(T, usize), CommandError>
    requires { first + length text.now ≤ 16777217 }
    ensures takes { TakesNumbered T.takes first none (lines_in text.now) result }
    ensures few { IfOk result (λ taken. taken.1 ≤ first + length text.now) }
    ensures unread { IfErr result ReadsNothing }
{
    let mut told = none;
    let mut number = first;
    for line in text.lines() {
        told.take(alloc, number, line)?;
        number += 1;
    }
    Ok((told, number))
}

/// Takes the lines of a text in turn, up to the first fault.
pub fn take_lines<T: TakesLines>(alloc: Global, text: &[u8], none: T) -> Result<T, CommandError>
    requires { length text.now ≤ 16777216 }
    ensures takes { TakesAll T.takes 1 none (lines_in text.now) result }
    ensures unread { IfErr result ReadsNothing }
{
    let (told, _next) = take_numbered(alloc, text, 1, none)?;
    Ok(told)
}

/// Whether a line is empty or a comment, which begins with `#`.
pub fn is_ignored(line: &[u8]) -> bool
    ensures { result ≡ is_ignored line.now }
{
    match line {
        [] => true,
        [first, ..] => *first == b'#',
    }
}

/// The text that a line is, if it is UTF-8.
pub fn text_of(line: &[u8]) -> Option<&str>
    ensures { MatchOption result (is_utf8 line.now ≡ false) (λ text. (text.now
        ≡ line.now) × (is_utf8 line.now ≡ true)) }
{
    match str::from_utf8(line) {
        Ok(text) => Some(text),
        Err(_) => None,
    }
}
