//! Steps round the ring of positions.

use ds_screen::ring::{backward, distance, forward, next, previous};
use test_words::Row;

/// The positions after and before one of so many.
fn push_beside(row: &mut Row, words: &str) {
    let (n, p) = row.read_numbers(words);
    if p >= n {
        return row.spoil();
    }
    row.number(next(n, p));
    row.word_number(" ", previous(n, p));
}

/// The positions so many steps on and back.
fn push_far(row: &mut Row, n: u32, p: u32, steps: u32) {
    if p >= n || steps > n {
        return row.spoil();
    }
    row.number(forward(n, p, steps));
    row.word_number(" ", backward(n, p, steps));
}

/// The steps from one position on to another.
fn push_distance(row: &mut Row, n: u32, from: u32, to: u32) {
    if from >= n {
        return row.spoil();
    }
    row.number(distance(n, from, to));
}

/// What is asked of a ring, a position in it and a third number.
fn push_from(row: &mut Row, verb: &str, words: &str) {
    let (n, rest) = row.cut(words, " ");
    let n = row.read_number(n);
    let (first, second) = row.read_numbers(rest);
    if verb == "far" {
        push_far(row, n, first, second);
    } else {
        push_distance(row, n, first, second);
    }
}

/// Adds what a verb answers; whether it is one of these.
pub(crate) fn push_answer(row: &mut Row, verb: &str, words: &str) -> bool {
    match verb {
        "beside" => push_beside(row, words),
        "far" | "distance" => push_from(row, verb, words),
        _ => return false,
    }
    true
}
