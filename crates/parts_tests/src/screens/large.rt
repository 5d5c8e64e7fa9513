//! Answers that are too long to print: whether they are what is wanted.

use crate::codec::push_same;
use ds_inbound::{Inbound, chars};
use std::alloc::AllocError;
use test_words::Row;

/// Whether these are the wanted bytes, and how many they are.
pub(crate) fn push_wanted(row: &mut Row, sent: Result<Vec<u8>, AllocError>, wanted: &str) {
    let wanted = row.read_bytes(wanted);
    match sent {
        Ok(bytes) => push_same(row, wanted.as_slice(), bytes.as_slice()),
        Err(_) => row.spoil(),
    }
}

/// How many characters come before the fields of an answer, how many fields there are, and the last one's place.
pub(crate) fn push_counts(row: &mut Row, answer: &Inbound<'_>) {
    let mut fields = 0u32;
    let mut last = 0u32;
    for field in answer.fields() {
        fields = fields.saturating_add(1);
        last = field.place;
    }
    row.length(chars(answer.lead()).count());
    row.word_number(" characters, ", fields);
    row.word_number(" fields, the last at ", last);
}
