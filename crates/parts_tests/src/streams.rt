//! Streams in, their events out; records framed.

use test_words::Row;
use tn_wire::{Deframer, Event, Step, Verb, WireFault, frame};

/// The verbs, which take bytes.
const VERBS: &[&str] = &["stream", "pieces", "thrice", "frame", "framed"];

fn push_record(row: &mut Row, bytes: &[u8]) {
    row.word("record ");
    row.bytes(bytes);
}

fn push_verb(row: &mut Row, verb: Verb, option: u8) {
    row.word_hex("verb ", verb.byte());
    row.word_hex(" ", option);
}

fn push_sub(row: &mut Row, option: u8, parameters: &[u8]) {
    row.word_hex("sub ", option);
    row.word(" ");
    row.bytes(parameters);
}

/// An event in words.
fn push_event(row: &mut Row, event: &Event<'_>) {
    match event {
        Event::Record(bytes) => push_record(row, *bytes),
        Event::Verb(verb, option) => push_verb(row, *verb, *option),
        Event::Sub(option, parameters) => push_sub(row, *option, *parameters),
        Event::Passed(byte) => row.word_hex("passed ", *byte),
    }
    row.word(";");
}

/// A fault, and how many bytes were left.
fn push_fault(row: &mut Row, fault: WireFault, left: usize) {
    row.show(&fault);
    row.word_length(", ", left);
    row.word(" left;");
}

/// What a piece tells, and at a fault how many of its bytes were left.
fn push_told(row: &mut Row, deframer: &mut Deframer, piece: &[u8]) {
    let mut rest = piece;
    'events: loop {
        match deframer.next(&mut rest) {
            Ok(Step::NeedMore) => return,
            Ok(Step::Event(event)) => push_event(row, &event),
            Err(fault) => return push_fault(row, fault, rest.len()),
        }
    }
}

/// What a stream tells that comes in two pieces.
fn push_in_two(row: &mut Row, front: &[u8], back: &[u8]) {
    match Deframer::new(row.alloc()) {
        Ok(mut deframer) => {
            push_told(row, &mut deframer, front);
            push_told(row, &mut deframer, back);
        }
        Err(_) => row.spoil(),
    }
}

/// What it tells byte by byte.
fn push_bytewise(row: &mut Row, deframer: &mut Deframer, stream: &[u8]) {
    for piece in stream.chunks(1) {
        push_told(row, deframer, piece);
    }
}

/// After how many of its cuts into two pieces a stream tells this text.
fn count_same(row: &Row, stream: &[u8], text: &str) -> u32 {
    let mut same = 0u32;
    for cut in 0..stream.len() {
        let (front, back) = stream.split_at(cut);
        let mut told = Row::new(row.alloc());
        push_in_two(&mut told, front, back);
        if told.says(text) {
            same = same.saturating_add(1);
        }
    }
    same
}

/// What a stream tells byte by byte, and after how many of its cuts into two pieces it tells the same.
fn push_pieces(row: &mut Row, deframer: &mut Deframer, stream: &[u8]) {
    let mut told = Row::new(row.alloc());
    push_bytewise(&mut told, deframer, stream);
    row.join(&told);
    let same = count_same(row, stream, told.text.as_str());
    row.word_number(" ", same);
    row.word_length(" of ", stream.len());
    row.word(" cuts");
}

/// Whether a deframer takes what is next, and what is left of it.
fn ask<'a>(row: &mut Row, deframer: &mut Deframer, stream: &'a [u8]) -> &'a [u8] {
    let mut rest = stream;
    match deframer.next(&mut rest) {
        Ok(_) => row.word("taken;"),
        Err(fault) => {
            row.show(&fault);
            row.word(";");
        }
    }
    rest
}

/// A stream of which a deframer is asked three times, whatever it answers.
fn push_thrice(row: &mut Row, deframer: &mut Deframer, stream: &[u8]) {
    let rest = ask(row, deframer, stream);
    let rest = ask(row, deframer, rest);
    let rest = ask(row, deframer, rest);
    row.word_length(" ", rest.len());
    row.word(" left");
}

/// A record framed.
fn push_frame(row: &mut Row, record: &[u8]) {
    match frame(row.alloc(), record) {
        Ok(framed) => row.bytes(framed.as_slice()),
        Err(_) => row.spoil(),
    }
}

/// What a framed record tells.
fn push_framed(row: &mut Row, deframer: &mut Deframer, record: &[u8]) {
    match frame(row.alloc(), record) {
        Ok(framed) => push_told(row, deframer, framed.as_slice()),
        Err(_) => row.spoil(),
    }
}

/// Adds what a verb answers of bytes, with a new deframer.
fn push_taken(row: &mut Row, deframer: &mut Deframer, verb: &str, bytes: &[u8]) {
    match verb {
        "stream" => push_told(row, deframer, bytes),
        "pieces" => push_pieces(row, deframer, bytes),
        "thrice" => push_thrice(row, deframer, bytes),
        "framed" => push_framed(row, deframer, bytes),
        _ => push_frame(row, bytes),
    }
}

fn push_answer_of(row: &mut Row, verb: &str, bytes: &[u8]) {
    match Deframer::new(row.alloc()) {
        Ok(mut deframer) => push_taken(row, &mut deframer, verb, bytes),
        Err(_) => row.spoil(),
    }
}

/// Adds what a verb answers; whether it is one of these.
pub(crate) fn push_answer(row: &mut Row, verb: &str, words: &str) -> bool {
    if !VERBS.contains(&verb) {
        return false;
    }
    let bytes = row.read_bytes(words);
    push_answer_of(row, verb, bytes.as_slice());
    true
}
