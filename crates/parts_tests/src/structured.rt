//! Structured fields read, and replies to queries.

use crate::Setup;
use crate::screens::geometry_of;
use ds_structured::{StructuredField, Wanted, read_fields, write_query_reply};
use test_words::Row;

fn push_field(row: &mut Row, field: &StructuredField<'_>) {
    match field {
        StructuredField::Query(Wanted::Each) => row.word("query"),
        StructuredField::Query(Wanted::Listed(codes)) => {
            row.word("query ");
            row.bytes(*codes);
        }
        StructuredField::Draw(bytes) => {
            row.word("draw ");
            row.bytes(*bytes);
        }
    }
}

/// The fields of a record.
fn push_fields(row: &mut Row, words: &str) {
    let bytes = row.read_bytes(words);
    let read = read_fields(row.alloc(), bytes.as_slice());
    let Some(fields) = row.take(read) else {
        return;
    };
    let Some(fields) = fields else {
        return row.word("none");
    };
    for (index, field) in fields.iter().enumerate() {
        row.word_if(index > 0, "; ");
        push_field(row, field);
    }
}

/// The replies of a terminal of the setup's sizes, each or those of the codes.
fn push_replies(row: &mut Row, setup: &Setup, words: &str) {
    let Some(geometry) = geometry_of(setup) else {
        return row.spoil();
    };
    let codes = row.read_bytes(words);
    let wanted = if words.is_empty() {
        Wanted::Each
    } else {
        Wanted::Listed(codes.as_slice())
    };
    let written = write_query_reply(row.alloc(), &geometry, wanted);
    if let Some(bytes) = row.take(written) {
        row.bytes(bytes.as_slice());
    }
}

/// Adds what a verb of structured fields answers; whether it is one of these.
pub(crate) fn push_answer(row: &mut Row, setup: &Setup, verb: &str, words: &str) -> bool {
    match verb {
        "structured" => push_fields(row, words),
        "replies" => push_replies(row, setup, words),
        _ => return false,
    }
    true
}
