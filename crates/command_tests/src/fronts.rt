//! Commands over every front of what they read.

use crate::commands::{Command, name_of, written};
use crate::lists::add;
use cli_commands::Status;
use test_words::Row;

/// Adds a status, and how many fronts one after the other have it.
fn push_times(row: &mut Row, status: Status, count: u32) {
    row.word(name_of(status));
    row.word_number("*", count);
    row.word(" ");
}

/// Adds statuses, of equal ones in a row their number.
fn push_statuses(row: &mut Row, statuses: &[Status]) {
    let mut last = Status::Done;
    let mut count = 0u32;
    for status in statuses {
        if *status != last && count > 0 {
            push_times(row, last, count);
            count = 0;
        }
        last = *status;
        count = count.saturating_add(1);
    }
    push_times(row, last, count);
}

/// Adds a command's status to those before.
fn push_status(
    row: &mut Row,
    statuses: &mut Vec<Status>,
    command: Command,
    input: &[u8],
    file: &[u8],
) {
    let mut text = Vec::new(row.alloc());
    match written(row.alloc(), command, input, file, &mut text) {
        Ok(status) => add(row, statuses, status),
        Err(_) => row.spoil(),
    }
}

/// The statuses of a command on each front of its input, from the empty one to the whole.
pub(crate) fn push_fronts(row: &mut Row, command: Command, input: &[u8], file: &[u8]) {
    let mut statuses = Vec::new(row.alloc());
    for end in 0..=input.len() {
        let front = input.get(..end).unwrap_or(input);
        push_status(row, &mut statuses, command, front, file);
    }
    push_statuses(row, statuses.as_slice());
}

/// The same on each front of its file, or of the text of its layouts.
pub(crate) fn push_file_fronts(row: &mut Row, command: Command, input: &[u8], file: &[u8]) {
    let mut statuses = Vec::new(row.alloc());
    for end in 0..=file.len() {
        let front = file.get(..end).unwrap_or(file);
        push_status(row, &mut statuses, command, input, front);
    }
    push_statuses(row, statuses.as_slice());
}
