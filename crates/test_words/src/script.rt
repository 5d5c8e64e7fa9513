//! A script's lines, and what is printed of them.

ghost use Rattle.std.specs.Prelude.{IsOk};
ghost use Rattle.std.specs.Iterator.{IsFinite};
ghost use Rattle.test_words.specs.Read.{AreRead};

use crate::read::{is_answer, is_row};
use crate::row::Row;
use crate::standing::Standing;
use anyhow::Result;
use std::alloc::Global;
use std::io;

/// What answers the rows of a script.
pub trait Answers {
    /// Takes a line that says what the rows below it begin with; whether it is one.
    fn take_line(&mut self, row: &mut Row, verb: &str, words: &str) -> bool;

    /// Adds what a row answers.
    fn push_answer(&mut self, row: &mut Row, verb: &str, words: &str);

    /// The whole of a row and its answer, where they are made in another way than by `push_answer`; none of most.
    fn whole(&self, _alloc: Global, _line: &str) -> Result<Option<String>> {
        Ok(None)
    }
}

/// A line as it should stand: a row with what answers it, any other alone.
fn due<A: Answers>(alloc: Global, answers: &mut A, line: &str) -> Result<String> {
    if let Some(whole) = answers.whole(alloc, line)? {
        return Ok(whole);
    }
    let mut row = Row::new(alloc);
    row.word(line);
    let (verb, words) = line.split_once(' ').unwrap_or((line, ""));
    if is_row(line) && !answers.take_line(&mut row, verb, words) {
        let mut answer = Row::new(alloc);
        answers.push_answer(&mut answer, verb, words);
        row.answer(&answer);
    }
    row.finish()
}

/// Prints a row as it should stand, where it stands otherwise.
fn print_difference(rt: &impl Print, row: &Standing) -> Result<()> {
    if let Some(due) = row.difference() {
        println!(rt; "{due}")?;
    }
    Ok(())
}

/// Prints each row of a script that stands otherwise than it should, as it should stand. Ends at a line that can't be read, and
/// at a row whose words can't.
pub fn print_differences<L: Iterator<Item = io::Result<String>>, A: Answers>(
    rt: &impl Print,
    alloc: Global,
    lines: L,
    answers: &mut A,
) -> Result<()>
    requires { L.can_next lines × IsFinite (L.remaining lines) }
    ensures read { IsOk result → AreRead L.next_gives lines }
{
    let mut row = Standing::new(alloc);
    for line in lines {
        let stands = line?;
        if is_answer(stands.as_str()) {
            row.push_answer(stands.as_str())?;
        } else {
            print_difference(rt, &row)?;
            let due = due(alloc, answers, stands.as_str())?;
            row = Standing { stands, due };
        }
    }
    print_difference(rt, &row)
}
