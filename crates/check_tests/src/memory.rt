//! Rows that are answered twice.
//!
//! Where the allocator refuses one request of the whole program, at most one of the two answers meets it, and must then be
//! that memory was refused: so `rt try --fail-alloc 1..` finds every refusal that changes an answer, as the row then prints
//! both.

use crate::{Setup, push_answer};
use test_words::Row;

/// What is said where memory was refused.
const REFUSAL: &str = "out of memory";

/// What a row answers. Its words can be read, so it is spoilt only where memory was refused.
fn answered(row: &Row, setup: &Setup, verb: &str, words: &str) -> Option<String> {
    let mut answer = Row::new(row.alloc());
    push_answer(&mut answer, setup, verb, words);
    answer.finish().ok()
}

/// An answer's words.
fn words_of(answer: &Option<String>) -> &str {
    match answer {
        Some(text) => text.as_str(),
        None => REFUSAL,
    }
}

/// Both answers as one: that of which memory was not refused.
fn push_one(row: &mut Row, first: &str, second: &str) {
    if first == second || second == REFUSAL {
        return row.word(first);
    }
    if first != REFUSAL {
        row.word(first);
        row.word(" and then ");
    }
    row.word(second);
}

/// What a row answers that is asked twice.
pub(crate) fn push_twice(row: &mut Row, setup: &Setup, line: &str) {
    let (verb, words) = line.split_once(' ').unwrap_or((line, ""));
    let first = answered(row, setup, verb, words);
    let second = answered(row, setup, verb, words);
    push_one(row, words_of(&first), words_of(&second));
}
