//! Runs the codec, the wire, lists in the order of places, and the screen with its keys and answers over lines of a script, and
//! compares what they answer.
//!
//! The script is `stdin`, in which the answer of each row stands below it, after `= `. A row that is answered otherwise is printed as
//! it should stand, and nothing else is. The answers were worked out by hand from the rules of docs/PROFILE.md. Data in place of test
//! functions: it isn't proved.
//!
//! `addresses 16` or `addresses 14` says how addresses are spelled in the lines below, `screen 2x10 3x10` gives the sizes and
//! `after RECORD; RECORD` the records of the screens that they begin with, each on a new one. `places 800 store 7 1; list` makes
//! a list with room for the places below 800 and takes these steps, and `added 5 1; 2 7; 5 2` adds three entries to a plain list;
//! an entry is printed as its place and its mark, `7:1`. Every other line is a verb and its words. Bytes are words of
//! hexadecimal: `C1C2*100` are these two a hundred times, `110001^100` the same where the number of the last two goes on by one
//! each time, and `[C1*100]` is printed for a hundred equal ones. Lines of `#` say what comes.
//!
//! With a number as its argument the program takes no script, and measures the wire.
#![tactic(auto)]

mod bench;
mod codec;
mod codes;
mod lists;
mod marked;
mod screens;
mod steps;
mod streams;
mod structured;
mod wire_codes;
mod words;

use anyhow::Result;
use ds_codec::{Mode, Size};
use std::env;
use test_words::{Answers, Row, print_differences};

/// What the lines of a script begin with.
#[derive(Drop)]
pub(crate) struct Setup {
    default: Size,
    alternate: Size,
    mode: Mode,
    after: String,
}

/// What stands before and after a mark, or all and nothing where there is none.
pub(crate) fn parted<'a>(words: &'a str, mark: &str) -> (&'a str, &'a str) {
    match words.split_once(mark) {
        Some(parts) => parts,
        None => (words, ""),
    }
}

/// The size of a text such as `24x80`, whether a terminal can have it or not.
fn read_size(row: &mut Row, text: &str) -> Size {
    let (rows, cols) = row.cut(text, "x");
    let rows = row.read_short(rows);
    let cols = row.read_short(cols);
    Size { rows, cols }
}

fn set_sizes(row: &mut Row, setup: &mut Setup, sizes: &str) {
    let (default, alternate) = sizes.split_once(' ').unwrap_or((sizes, sizes));
    setup.default = read_size(row, default);
    setup.alternate = read_size(row, alternate);
}

fn set_mode(row: &mut Row, setup: &mut Setup, bits: &str) {
    match bits {
        "14" => setup.mode = Mode::Bits14,
        "16" => setup.mode = Mode::Bits16,
        _ => row.spoil(),
    }
}

fn set_after(row: &mut Row, setup: &mut Setup, records: &str) {
    match String::from_str(row.alloc(), records) {
        Ok(after) => setup.after = after,
        Err(_) => row.spoil(),
    }
}

/// Takes a line that says what the lines below begin with; whether it is one.
fn take_line(row: &mut Row, setup: &mut Setup, verb: &str, words: &str) -> bool {
    match verb {
        "screen" => set_sizes(row, setup, words),
        "addresses" => set_mode(row, setup, words),
        "after" => set_after(row, setup, words),
        _ => return false,
    }
    true
}

/// Adds what a verb of lists answers, or how many bytes are taken of about a megabyte; whether it is one of these.
fn push_listed(row: &mut Row, verb: &str, words: &str) -> bool {
    match verb {
        "places" => steps::push_steps(row, words),
        "added" => lists::push_added(row, words),
        "megabyte" => bench::push_megabyte(row),
        _ => return false,
    }
    true
}

/// Adds what any other verb answers; whether there is one.
fn push_answer(row: &mut Row, setup: &Setup, verb: &str, words: &str) -> bool {
    codec::push_answer(row, setup.mode, verb, words)
        || codes::push_answer(row, verb, words)
        || words::push_answer(row, verb)
        || streams::push_answer(row, verb, words)
        || wire_codes::push_answer(row, verb, words)
        || structured::push_answer(row, setup, verb, words)
        || screens::push_answer(row, setup, verb, words)
}

/// Prints a row's text.
pub(crate) fn print_row(rt: &impl Print, row: Row) -> Result<()> {
    let text = row.finish()?;
    println!(rt; "{text}")?;
    Ok(())
}

impl Answers for Setup {
    fn take_line(&mut self, row: &mut Row, verb: &str, words: &str) -> bool {
        take_line(row, self, verb, words)
    }

    fn push_answer(&mut self, row: &mut Row, verb: &str, words: &str) {
        let is_verb = push_listed(row, verb, words) || push_answer(row, self, verb, words);
        row.word_if(!is_verb, "no such verb");
    }
}

fn print_script(rt: &HostRuntime) -> Result<()> {
    let small = Size { rows: 2, cols: 10 };
    let mut setup = Setup {
        default: small,
        alternate: small,
        mode: Mode::Bits14,
        after: String::new(rt.alloc()),
    };
    print_differences(rt, rt.alloc(), rt.lines(rt.alloc()), &mut setup)
}

fn main(rt: HostRuntime) -> Result<()> {
    match env::args(&rt)?.nth(1) {
        Some(times) => bench::measure(&rt, times.as_str()),
        None => print_script(&rt),
    }
}
