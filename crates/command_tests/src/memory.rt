//! Commands where one request for memory is refused.
//!
//! A row runs its command twice and prints one answer. Where the allocator refuses one request of the whole program, at most
//! one of the two runs meets it, which must then end with `NoMemory` and a front of the text: so `rt try --fail-alloc 1..`
//! finds every refusal that changes an answer, as the row then prints both.

use crate::commands::{Command, command_of, push_told, written};
use crate::notation::bytes_of;
use anyhow::{Context, Result};
use cli_commands::Status;
use std::alloc::Global;

/// The bytes that a row's command may write: its text has room before it runs.
const ROOM: usize = 65_536;

/// A status, and what was written.
#[derive(Drop)]
struct Told {
    status: Status,
    text: Vec<u8>,
}

fn answered(alloc: Global, command: Command, input: &[u8], file: &[u8]) -> Result<Told> {
    let mut text = Vec::with_capacity(alloc, ROOM)?;
    let status = written(alloc, command, input, file, &mut text)?;
    Ok(Told { status, text })
}

/// Whether the first was refused memory and wrote a front of what the other wrote.
fn is_refused(refused: &Told, whole: &Told) -> bool {
    refused.status == Status::NoMemory && whole.text.as_slice().starts_with(refused.text.as_slice())
}

fn is_same(one: &Told, other: &Told) -> bool {
    one.status == other.status && one.text.as_slice() == other.text.as_slice()
}

/// Adds one of two answers; both, where they differ in more than a refusal.
fn push_both(alloc: Global, out: &mut String, first: &Told, second: &Told) -> Result<()> {
    if is_refused(first, second) {
        return push_told(alloc, out, second.status, second.text.as_slice());
    }
    push_told(alloc, out, first.status, first.text.as_slice())?;
    if is_same(first, second) || is_refused(second, first) {
        return Ok(());
    }
    out.push_str(" and then ")?;
    push_told(alloc, out, second.status, second.text.as_slice())
}

/// Adds what a command answers that is run twice.
fn push_twice(
    alloc: Global,
    out: &mut String,
    command: Command,
    input: &[u8],
    file: &[u8],
) -> Result<()> {
    let first = answered(alloc, command, input, file)?;
    let second = answered(alloc, command, input, file)?;
    push_both(alloc, out, &first, &second)
}

/// Adds what a command and its input answer that are run twice.
fn push_answer(alloc: Global, out: &mut String, words: &str, file: &[u8]) -> Result<()> {
    let (command, text) = words.split_once(' ').unwrap_or((words, ""));
    let command = command_of(command).context("a command")?;
    let input = bytes_of(alloc, text)?;
    push_twice(alloc, out, command, input.as_slice(), file)
}

/// The row `twice show TEXT` with its answer.
pub(crate) fn twice_text(alloc: Global, line: &str, words: &str, file: &[u8]) -> Result<String> {
    let mut out = String::from_str(alloc, line)?;
    out.push_str("\n= ")?;
    push_answer(alloc, &mut out, words, file)?;
    Ok(out)
}
