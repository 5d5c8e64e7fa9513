//! Headers and codes, and the words of refusals.

use crate::words::push_name;
use std::fmt::Display;
use test_words::Row;
use tn_wire::{DataType, Header, HeaderFault, Verb, WireFault};

/// Why a stream is not read.
const WIRE_FAULTS: &[WireFault] = &[
    WireFault::RecordTooLong,
    WireFault::SubTooLong,
    WireFault::BadSub,
];

/// Why a header is not read.
const HEADER_FAULTS: &[HeaderFault] = &[HeaderFault::ShortHeader, HeaderFault::UnknownType];

/// A header, the record after it, and the header's bytes again.
fn push_header(row: &mut Row, header: Header, rest: &[u8]) {
    push_name(row, &header.data_type);
    row.word_number(" ", u32::from(header.request));
    row.word_number(" ", u32::from(header.response));
    row.word_number(" ", u32::from(header.seq));
    row.word(", ");
    row.bytes(rest);
    row.word(", again ");
    row.bytes(&header.bytes());
}

fn push_read(row: &mut Row, words: &str) {
    let bytes = row.read_bytes(words);
    match Header::read(bytes.as_slice()) {
        Ok((header, rest)) => push_header(row, header, rest),
        Err(fault) => row.show(&fault),
    }
}

/// The bytes that are verbs.
fn push_verbs(row: &mut Row) {
    for byte in 0..=255u8 {
        if let Some(verb) = Verb::from_byte(byte) {
            row.hex(byte);
            row.word_hex(" as ", verb.byte());
            row.word(";");
        }
    }
}

/// The bytes that are types of data.
fn push_types(row: &mut Row) {
    for byte in 0..=255u8 {
        if let Some(data_type) = DataType::from_byte(byte) {
            row.hex(byte);
            row.word(" ");
            push_name(row, &data_type);
            row.word_hex(" as ", data_type.byte());
            row.word(";");
        }
    }
}

/// Faults in their own words.
fn push_faults<T: Display>(row: &mut Row, faults: &[T]) {
    for fault in faults {
        row.show(fault);
        row.word(";");
    }
}

/// Every refusal's words.
fn push_words(row: &mut Row) {
    push_faults(row, WIRE_FAULTS);
    push_faults(row, HEADER_FAULTS);
}

/// Each law does nothing.
fn push_laws(row: &mut Row) {
    tn_wire::one_reading();
    tn_wire::parts_law();
    tn_wire::one_fault();
    tn_wire::one_answer();
    row.word("done");
}

/// Adds what a verb answers; whether it is one of these.
pub(crate) fn push_answer(row: &mut Row, verb: &str, words: &str) -> bool {
    match verb {
        "header" => push_read(row, words),
        "verbs" => push_verbs(row),
        "types" => push_types(row),
        "words" => push_words(row),
        "laws" => push_laws(row),
        _ => return false,
    }
    true
}
