//! Runs what scripts read, press and check over lines of a script of its own, and compares what they answer.
//!
//! The script is `stdin`, in which the answer of each row stands below it, after `= `. A row that is answered otherwise is printed as
//! it should stand, and nothing else is. The answers are those of s3270 4.1, or were worked out by hand from the rules of docs/PROFILE.md
//! and docs/FINDINGS.md. Data in place of test functions: it isn't proved.
//!
//! `screen 2x10 3x10` gives the sizes, `after RECORD; RECORD` the records of the screens that the lines below begin with, each on a new one,
//! and `pressed KEY, KEY` keys after them. `turns RECORD;RECORD|RECORD` are the records that made a screen, with `|` where the operator
//! sent, and after `not-kept` there are too many; `layout TEXT` is the layout that `check` takes, and `report json` the form of reports. `lu-name` and `left`
//! take bytes of a host. Every other line is a verb and its
//! words, arguments parted by `|`. In texts `\n` is a line's end. Lines of `#` say what comes.
#![tactic(auto)]

mod checks;
mod keys;
mod left;
mod lu_names;
mod readings;
mod setup;
mod texts;
mod words;

use crate::setup::{Setup, new_setup, take_line};
use anyhow::{Context, Result};
use test_words::{Answers, Row, print_differences};

/// What stands before and after a mark, or all and nothing where there is none.
pub(crate) fn parted<'a>(words: &'a str, mark: &str) -> (&'a str, &'a str) {
    match words.split_once(mark) {
        Some(parts) => parts,
        None => (words, ""),
    }
}

impl Answers for Setup {
    fn take_line(&mut self, row: &mut Row, verb: &str, words: &str) -> bool {
        take_line(row, self, verb, words)
    }

    fn push_answer(&mut self, row: &mut Row, verb: &str, words: &str) {
        let is_verb = readings::push_answer(row, self, verb, words)
            || checks::push_answer(row, self, verb, words)
            || keys::push_answer(row, self, verb, words)
            || lu_names::push_answer(row, verb, words)
            || left::push_answer(row, verb, words);
        row.word_if(!is_verb, "no such verb");
    }
}

fn main(rt: HostRuntime) -> Result<()> {
    let alloc = rt.alloc();
    let mut setup = new_setup(alloc).context("a terminal of 24 rows of 80")?;
    print_differences(&rt, alloc, rt.lines(alloc), &mut setup)
}
