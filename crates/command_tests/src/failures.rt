//! Commands over streams that are slow or that fail.

use crate::commands::{Command, push_name, push_ran, run, written};
use crate::devices::{Narrow, Unflushed, slow_reader};
use crate::files::{slow_files, texts_of};
use crate::lists::add;
use anyhow::Result;
use cli_commands::Status;
use std::alloc::Global;
use std::io::{ErrorKind, Write};
use test_words::Row;

/// Which read of a command fails and how: of its input, or of its files; at 0 none.
#[derive(Clone, Copy)]
struct Fault {
    input_at: usize,
    file_at: usize,
    so: ErrorKind,
}

/// Reads of these numbers fail.
fn fault_at(input_at: usize, file_at: usize) -> Fault {
    Fault {
        input_at,
        file_at,
        so: ErrorKind::ConnectionReset,
    }
}

/// A command's status over readers of one byte a read, and what it writes.
fn read_slowly<W: Write>(
    alloc: Global,
    command: Command,
    input: &[u8],
    file: &[u8],
    fault: Fault,
    writer: &mut W,
) -> Result<Status> {
    let mut input = slow_reader(input, fault.input_at, fault.so);
    let texts = texts_of(alloc, command, file)?;
    let files = slow_files(alloc, texts.as_slice(), fault.file_at, fault.so)?;
    run(alloc, command, &mut input, files, writer)
}

/// A writer that takes so many bytes a write and fails at the write of a number.
fn narrow_writer(alloc: Global, width: usize, fails_at: usize) -> Narrow {
    Narrow {
        taken: Vec::new(alloc),
        width,
        writes: 0,
        fails_at,
    }
}

/// What a command writes byte by byte of inputs that come byte by byte.
fn push_slow(row: &mut Row, command: Command, input: &[u8], file: &[u8]) {
    let alloc = row.alloc();
    let mut writer = narrow_writer(alloc, 1, 0);
    let status = read_slowly(alloc, command, input, file, fault_at(0, 0), &mut writer);
    let status = row.take(status);
    push_ran(row, status, writer.taken.as_slice());
}

/// Whether a command fails and writes nothing, where a read of its input or of its files fails.
fn fails(row: &mut Row, command: Command, input: &[u8], file: &[u8], fault: Fault) -> bool {
    let alloc = row.alloc();
    let mut text = Vec::new(alloc);
    let status = row.take(read_slowly(alloc, command, input, file, fault, &mut text));
    status == Some(Status::Failed) && text.is_empty()
}

fn count_reads(row: &mut Row, command: Command, input: &[u8], file: &[u8]) -> u32 {
    let mut failed = 0u32;
    for read in 0..=input.len() {
        if fails(
            row,
            command,
            input,
            file,
            fault_at(read.saturating_add(1), 0),
        ) {
            failed = failed.saturating_add(1);
        }
    }
    failed
}

fn count_files(row: &mut Row, command: Command, input: &[u8], file: &[u8]) -> u32 {
    let mut failed = 0u32;
    for read in 0..=file.len() {
        if fails(
            row,
            command,
            input,
            file,
            fault_at(0, read.saturating_add(1)),
        ) {
            failed = failed.saturating_add(1);
        }
    }
    failed
}

fn push_after(row: &mut Row, failed: u32, length: usize) {
    row.number(failed);
    row.word_length(" after ", length);
    row.word(" bytes");
}

/// At how many reads of its input a command fails and writes nothing, of one more than it has bytes.
fn push_reads(row: &mut Row, command: Command, input: &[u8], file: &[u8]) {
    let failed = count_reads(row, command, input, file);
    push_after(row, failed, input.len());
}

/// The same of its files.
fn push_files(row: &mut Row, command: Command, input: &[u8], file: &[u8]) {
    let failed = count_files(row, command, input, file);
    push_after(row, failed, file.len());
}

/// Whether a command answers as ever where one read of its input and one of its files are interrupted.
fn goes_on(
    row: &mut Row,
    command: Command,
    input: &[u8],
    file: &[u8],
    fails_at: usize,
    whole: &[u8],
) -> bool {
    let alloc = row.alloc();
    let fault = Fault {
        input_at: fails_at,
        file_at: fails_at,
        so: ErrorKind::Interrupted,
    };
    let mut text = Vec::new(alloc);
    let status = row.take(read_slowly(alloc, command, input, file, fault, &mut text));
    status != Some(Status::Failed) && text.as_slice() == whole
}

/// All that a command writes.
fn whole_text(row: &mut Row, command: Command, input: &[u8], file: &[u8]) -> Vec<u8> {
    let mut text = Vec::new(row.alloc());
    let _status = row.take(written(row.alloc(), command, input, file, &mut text));
    text
}

/// At how many reads a command goes on after an interruption, of one more than its input or its files have bytes.
fn push_interrupted(row: &mut Row, command: Command, input: &[u8], file: &[u8]) {
    let whole = whole_text(row, command, input, file);
    let most = input.len().max(file.len());
    let mut gone_on = 0u32;
    for read in 0..=most {
        let fails_at = read.saturating_add(1);
        if goes_on(row, command, input, file, fails_at, whole.as_slice()) {
            gone_on = gone_on.saturating_add(1);
        }
    }
    push_after(row, gone_on, most);
}

/// Whether a command fails where the write of a number does, and has written seven bytes with each before.
fn stops(
    row: &mut Row,
    command: Command,
    input: &[u8],
    file: &[u8],
    whole: &[u8],
    write: usize,
) -> bool {
    let alloc = row.alloc();
    let mut writer = narrow_writer(alloc, 7, write);
    let status = row.take(written(alloc, command, input, file, &mut writer));
    let length = write.saturating_sub(1).saturating_mul(7);
    let front = whole.get(..length).unwrap_or(whole);
    status == Some(Status::Failed) && writer.taken.as_slice() == front
}

/// At how many of so many writes of seven bytes a command fails with a front of its text written.
fn count_stops(
    row: &mut Row,
    command: Command,
    input: &[u8],
    file: &[u8],
    whole: &[u8],
    writes: usize,
) -> u32 {
    let mut stopped = 0u32;
    for write in 0..writes {
        if stops(row, command, input, file, whole, write.saturating_add(1)) {
            stopped = stopped.saturating_add(1);
        }
    }
    stopped
}

/// A command's status where a writer takes nothing.
fn push_stuck(row: &mut Row, command: Command, input: &[u8], file: &[u8]) {
    let alloc = row.alloc();
    let mut writer = narrow_writer(alloc, 0, 0);
    let status = row.take(written(alloc, command, input, file, &mut writer));
    push_name(row, status);
}

/// At how many writes of seven bytes a command fails with a front of its text written; and its status where a writer takes
/// nothing.
fn push_writes(row: &mut Row, command: Command, input: &[u8], file: &[u8]) {
    let whole = whole_text(row, command, input, file);
    let writes = whole.len().div_ceil(7);
    let stopped = count_stops(row, command, input, file, whole.as_slice(), writes);
    row.number(stopped);
    row.word_length(" of ", writes);
    row.word(", ");
    push_stuck(row, command, input, file);
}

/// What a command writes where its writer fails at last.
fn push_flush(row: &mut Row, command: Command, input: &[u8], file: &[u8]) {
    let mut writer = Unflushed {
        taken: Vec::new(row.alloc()),
    };
    let status = row.take(written(row.alloc(), command, input, file, &mut writer));
    push_ran(row, status, writer.taken.as_slice());
}

/// What a command writes, and whether its input or its file was left unread.
fn push_turn(row: &mut Row, command: Command, input: &[u8], file: &[u8]) {
    let alloc = row.alloc();
    let mut input = slow_reader(input, 0, ErrorKind::ConnectionReset);
    let mut file = slow_reader(file, 0, ErrorKind::ConnectionReset);
    let mut files = Vec::new(alloc);
    add(row, &mut files, &mut file);
    let mut text = Vec::new(alloc);
    let status = row.take(run(alloc, command, &mut input, files, &mut text));
    push_ran(row, status, text.as_slice());
    row.word_if(input.reads == 0, " input unread");
    row.word_if(file.reads == 0, " file unread");
}

/// Adds what a verb answers of streams that are slow or that fail; whether it is one of these.
pub(crate) fn push_answer(
    row: &mut Row,
    verb: &str,
    command: Command,
    input: &[u8],
    file: &[u8],
) -> bool {
    match verb {
        "slow" => push_slow(row, command, input, file),
        "reads" => push_reads(row, command, input, file),
        "files" => push_files(row, command, input, file),
        "interrupted" => push_interrupted(row, command, input, file),
        "writes" => push_writes(row, command, input, file),
        "flush" => push_flush(row, command, input, file),
        "turn" => push_turn(row, command, input, file),
        _ => return false,
    }
    true
}
