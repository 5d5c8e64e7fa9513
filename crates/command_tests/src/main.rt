//! Runs the program's commands and the ends of sessions over lines of a script, and compares what they answer.
//!
//! The script is `stdin`, in which the answer of each row stands below it, after `= `. A row that is answered otherwise is printed as
//! it should stand, and nothing else is. The answers were worked out by hand from docs/PROGRAM.md and the tables of docs/PROFILE.md. Data
//! in place of test functions: it isn't proved.
//!
//! `file TEXT` gives the layout or the keys of the lines below, or of `talk` the layouts, with `|` between two of them, and
//! `many N TEXT` the same text so often as a file. `attach HEX` is a terminal that presses the file's keys on a host that
//! sends these bytes, `attach-striking HEX` one that strikes the file's strokes, and `unflushed HEX` one whose line fails at each
//! flush. `same FORM RECORDS` prints in a form, with the file as the layout, from streams and of texts, `next TEXT` reads
//! lines, `told TEXT` prints what is told of the screen that records leave, `all-findings`, `traced` and `lines` call what
//! `check` reports with, and `table` prints the rows of the first table of docs/FINDINGS.md. A verb, a command and its input
//! run this command, where `^` stands for the file. In texts `\n`, `\r` and `\xFF` are bytes; a line that is printed 32 times
//! or more one after the other is printed once, as `[F2*32]`.
//!
//! `suite FORM TEXT` is the suite of a manifest, and `suite-folder FORM PATH..` that of paths, over the files that the line `file` gives,
//! `PATH=TEXT` each, with `|` between two of them.
//!
//! `terminal classic responses HEX` and `host enhanced none HEX` say which core events come to below, each time a new one
//! that first takes the events HEX. `event LABEL > HEX` prints what it answers to each event of HEX: the reply's bytes and
//! what is told, or a dash. `name TEXT` prints the device of a name, `layout A B` what a host for these sizes says first, and
//! `faults` every refusal. `press` runs a terminal with its keys over a line in memory, `strike` one with its strokes, and `serve`
//! a host with its records; `insert-mode HEX` tells when a terminal that takes these bytes is in insert mode;
//! after `paced` the line gives a piece only once what is due before it was written, and after `endless` it never ends.
//! Each such run is told besides by pieces of several lengths to a session without a line. `both-ends` has both ends in one
//! process, and `many-sessions N` so many of each, one after the other.
#![tactic(auto)]

mod actions;
mod asked;
mod attach;
mod both_ends;
mod commands;
mod cores;
mod devices;
mod ends;
mod failures;
mod files;
mod findings;
mod forms;
mod fronts;
mod kept;
mod lines;
mod lists;
mod memory;
mod notation;
mod objects;
mod reports;
mod runs;
mod scripted;
mod suites;
mod told;

use crate::attach::Flush;
use crate::commands::Command;
use crate::notation::{bytes_of, read_text, repeated};
use anyhow::Result;
use std::alloc::Global;
use test_words::{Answers, Row, print_differences};

/// What lines above a row gave.
#[derive(Drop)]
struct Given {
    file: Vec<u8>,
    core: cores::Setup,
}

/// Each law does nothing.
fn push_laws(row: &mut Row) {
    cli_commands::convert_law();
    cli_commands::lines_law();
    cli_pictures::drawing_law();
    cli_pictures::looks_law();
    cli_pictures::names_law();
    cli_traces::pieces_law();
    cli_traces::sizes_law();
    cli_traces::text_law();
    row.word("done");
}

/// Adds what a verb answers of a command; whether it is one of these.
fn push_command(row: &mut Row, verb: &str, command: Command, input: &[u8], file: &[u8]) -> bool {
    match verb {
        "run" => commands::push_run(row, command, input, file),
        "status" => commands::push_status(row, command, input, file),
        "fronts" => fronts::push_fronts(row, command, input, file),
        "file-fronts" => fronts::push_file_fronts(row, command, input, file),
        _ => return failures::push_answer(row, verb, command, input, file),
    }
    true
}

/// Adds what a verb answers of a command and its input; whether it is one of these.
fn push_input(row: &mut Row, verb: &str, command: Command, text: &str, file: &[u8]) -> bool {
    if text == "^" {
        return push_command(row, verb, command, file, file);
    }
    let input = read_text(row, text);
    push_command(row, verb, command, input.as_slice(), file)
}

/// Adds what a verb, a command and its input answer; whether they are these.
fn push_words(row: &mut Row, file: &[u8], verb: &str, words: &str) -> bool {
    let (command, text) = words.split_once(' ').unwrap_or((words, ""));
    match commands::command_of(command) {
        Some(command) => push_input(row, verb, command, text, file),
        None => false,
    }
}

/// Adds what a verb of lines and forms answers; whether it is one of these.
fn push_read(row: &mut Row, file: &[u8], verb: &str, words: &str) -> bool {
    match verb {
        "laws" => push_laws(row),
        "failures" => commands::push_failures(row),
        "attach" => attach::push_attached(row, words, file, Flush::Done),
        "attach-tolerant" => attach::push_tolerant(row, words, file, Flush::Done),
        "late-tolerant" => attach::push_tolerant(row, words, file, Flush::Late),
        "attach-striking" => attach::push_striking(row, words, file),
        "unflushed" => attach::push_attached(row, words, file, Flush::Failed),
        "same" => forms::push_form(row, file, words),
        "next" => lines::push_read(row, words),
        "told" => told::push_told(row, words),
        "action" => actions::push_first(row, words),
        _ => return false,
    }
    true
}

/// Adds what a row answers.
fn push_answer(row: &mut Row, given: &Given, verb: &str, words: &str) {
    let file = given.file.as_slice();
    let is_verb = cores::push_answer(row, &given.core, verb, words)
        || runs::push_answer(row, verb, words)
        || kept::push_answer(row, verb, words)
        || findings::push_answer(row, verb)
        || suites::push_answer(row, file, verb, words)
        || push_read(row, file, verb, words)
        || push_words(row, file, verb, words);
    row.word_if(!is_verb, "no such verb");
}

/// Takes a line that gives the file; whether it is one.
fn take_file(alloc: Global, file: &mut Vec<u8>, verb: &str, words: &str) -> Result<bool> {
    match verb {
        "file" => *file = bytes_of(alloc, words)?,
        "many" => *file = repeated(alloc, words)?,
        _ => return Ok(false),
    }
    Ok(true)
}

impl Answers for Given {
    fn take_line(&mut self, row: &mut Row, verb: &str, words: &str) -> bool {
        match take_file(row.alloc(), &mut self.file, verb, words) {
            Ok(is_file) => is_file || cores::take_line(row, &mut self.core, verb, words),
            Err(_) => {
                row.spoil();
                true
            }
        }
    }

    fn push_answer(&mut self, row: &mut Row, verb: &str, words: &str) {
        push_answer(row, self, verb, words);
    }

    /// A row that is answered twice, which tells that memory was refused.
    fn whole(&self, alloc: Global, line: &str) -> Result<Option<String>> {
        match line.split_once(' ') {
            Some(("twice", words)) => {
                let text = memory::twice_text(alloc, line, words, self.file.as_slice())?;
                Ok(Some(text))
            }
            _ => Ok(None),
        }
    }
}

fn main(rt: HostRuntime) -> Result<()> {
    let alloc = rt.alloc();
    let mut given = Given {
        file: Vec::new(alloc),
        core: cores::first_setup(alloc),
    };
    print_differences(&rt, alloc, rt.lines(alloc), &mut given)
}
