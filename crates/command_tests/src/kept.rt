//! Records that are kept of their bytes alone, how one goes out, and what the first byte of one says.

use crate::notation::read_text;
use cli_commands::is_ignored;
use cli_traces::has_attention;
use test_words::Row;
use tn_session::{Agreed, Device, KeptRecord, KeptRecords, next_sequence, push_data, reads};

/// Takes a step: the bytes of a record, or `aid` and the attention identifier of a key that sent.
fn take_step(row: &mut Row, kept: &mut KeptRecords, step: &str) {
    let taken = match step.strip_prefix("aid ") {
        Some(aid) => kept.take_attention(row.alloc(), Some(row.read_byte(aid))),
        None => kept.take_bytes(row.alloc(), row.read_bytes(step).as_slice()),
    };
    row.note(taken);
}

/// How many records are kept, and each, with `turn` where it begins one.
fn push_records(row: &mut Row, records: &[KeptRecord]) {
    row.length(records.len());
    for record in records {
        row.word(", ");
        row.word_if(record.begins_turn, "turn ");
        row.bytes(record.bytes.as_slice());
    }
}

/// What is kept after steps that semicolons part.
fn push_kept(row: &mut Row, steps: &str) {
    let mut kept = KeptRecords::new(row.alloc());
    for step in steps.split("; ") {
        take_step(row, &mut kept, step);
    }
    match kept.records() {
        Some(records) => push_records(row, records),
        None => row.word("too many"),
    }
}

/// The bytes of a record with a number, as they go out on a session of this form.
fn push_sent(row: &mut Row, enhanced: bool, words: &str) {
    let (sequence, digits) = row.cut(words, " ");
    let sequence = row.read_short(sequence);
    let bytes = row.read_bytes(digits);
    let Some(device) = Device::from_name(b"IBM-3278-2-E") else {
        return row.spoil();
    };
    let agreed = Agreed {
        enhanced,
        device,
        responses: enhanced,
    };
    let mut due = Vec::new(row.alloc());
    row.note(push_data(&mut due, agreed, 2, sequence, bytes.as_slice()));
    row.bytes(due.as_slice());
}

fn push_next(row: &mut Row, word: &str) {
    let sequence = row.read_short(word);
    row.number(u32::from(next_sequence(sequence)));
}

/// Whether a record reads.
fn push_reads(row: &mut Row, words: &str) {
    let bytes = row.read_bytes(words);
    row.truth(reads(bytes.as_slice()));
}

/// Whether an answer tells of a key or a pen.
fn push_attention(row: &mut Row, words: &str) {
    let bytes = row.read_bytes(words);
    row.truth(has_attention(bytes.as_slice()));
}

/// Whether a line is empty or a comment.
fn push_ignored(row: &mut Row, words: &str) {
    let text = read_text(row, words);
    row.truth(is_ignored(text.as_slice()));
}

/// Adds what a verb answers; whether it is one of these.
pub(crate) fn push_answer(row: &mut Row, verb: &str, words: &str) -> bool {
    match verb {
        "kept" => push_kept(row, words),
        "record-reads" => push_reads(row, words),
        "attention" => push_attention(row, words),
        "ignored" => push_ignored(row, words),
        "next-number" => push_next(row, words),
        "sent-classic" => push_sent(row, false, words),
        "sent-enhanced" => push_sent(row, true, words),
        _ => return false,
    }
    true
}
