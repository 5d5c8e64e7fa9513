//! The words of every refusal, and the law.

use ds_codec::{BadSize, Refused, Unwritable, Why, one_reading};
use std::fmt::Debug;
use test_words::Row;

/// Why a record is not read.
const REASONS: &[Why] = &[
    Why::Empty,
    Why::UnknownCommand,
    Why::StructuredField,
    Why::NoWcc,
    Why::UnknownOrder,
    Why::Truncated,
    Why::ReservedAddress,
    Why::BadType,
    Why::BadCharacter,
    Why::Trailing,
];

/// Why one is not written.
const FLAWS: &[Unwritable] = &[
    Unwritable::AddressOutside(3),
    Unwritable::BadText(3),
    Unwritable::BadPairs(3),
    Unwritable::BadCode(3),
    Unwritable::NotAllowed,
    Unwritable::OutOfMemory,
];

/// A value as the code has it.
pub(crate) fn push_name<T: Debug>(row: &mut Row, value: &T) {
    let pushed = write!(row.text, "{value:?}");
    row.note(pushed);
}

/// A comma, words and a semicolon.
pub(crate) fn push_last(row: &mut Row, words: &str) {
    row.word(", ");
    row.word(words);
    row.word("; ");
}

fn push_reading(row: &mut Row) {
    for why in REASONS {
        row.show(why);
        row.word(", ");
        row.show(&Refused { at: 7, why: *why });
        push_last(row, why.words());
    }
}

fn push_writing(row: &mut Row) {
    for flaw in FLAWS {
        row.show(flaw);
        push_last(row, flaw.words());
    }
    row.show(&BadSize);
}

/// The law does nothing.
fn push_law(row: &mut Row) {
    one_reading();
    row.word("done");
}

/// Adds what a verb answers; whether it is one of these.
pub(crate) fn push_answer(row: &mut Row, verb: &str) -> bool {
    match verb {
        "reading" => push_reading(row),
        "writing" => push_writing(row),
        "law" => push_law(row),
        _ => return false,
    }
    true
}
