//! Screens, their keys and their answers, with either way of keeping a buffer.

mod both;
mod characters;
mod generated;
mod inbound;
mod keys;
mod large;
mod outlines;
mod records;
mod ring;
mod searches;
mod strokes;
mod terminal;
mod words;

use crate::Setup;
use ds_screen::{Cells, PlainCells, PlaneCells, Screen};
pub(crate) use records::geometry_of;
use test_words::Row;

/// Adds what a verb answers that makes its own screens; whether it is one.
fn push_own_answer<C: Cells>(row: &mut Row, setup: &Setup, verb: &str, words: &str) -> bool {
    match verb {
        "each" => keys::push_each::<C>(row, setup, words),
        "strokes" => strokes::push_strokes::<C>(row, setup, words),
        "take" => terminal::push_two::<C>(row, setup, words),
        "reserved" => searches::push_reserved::<C>(row, words),
        "filled" => searches::push_filled::<C>(row, words),
        "nulls" => searches::push_nulls::<C>(row, words),
        _ => return false,
    }
    true
}

/// Adds what a verb answers of a screen; whether it is one of these.
fn push_shown_answer<C: Cells>(
    row: &mut Row,
    screen: &mut Screen<C>,
    verb: &str,
    words: &str,
) -> bool {
    records::push_after(row, screen, verb, words)
        || records::push_before_mark(row, screen, verb, words)
        || records::push_changed(row, screen, verb, words)
        || searches::push_answer(row, screen, verb, words)
        || keys::push_answer(row, screen, verb, words)
}

/// Adds what a verb answers that begins with a screen after the setup's records; whether it is one.
fn push_screen_answer<C: Cells>(row: &mut Row, setup: &Setup, verb: &str, words: &str) -> bool {
    match records::opened::<C>(row, setup) {
        Some(mut screen) => push_shown_answer(row, &mut screen, verb, words),
        None => {
            row.spoil();
            false
        }
    }
}

/// Adds what a verb answers with one way of keeping a buffer; whether it is one.
fn push_kept_answer<C: Cells>(row: &mut Row, setup: &Setup, verb: &str, words: &str) -> bool {
    push_own_answer::<C>(row, setup, verb, words)
        || terminal::push_answer::<C>(row, setup, verb, words)
        || push_screen_answer::<C>(row, setup, verb, words)
}

/// Adds what a verb answers with either way of keeping a buffer, and both answers where they differ; whether it is one.
fn push_either_answer(row: &mut Row, setup: &Setup, verb: &str, words: &str) -> bool {
    let mut planes = Row::new(row.alloc());
    let is_verb = push_kept_answer::<PlaneCells>(&mut planes, setup, verb, words);
    let mut plain = Row::new(row.alloc());
    let _same = push_kept_answer::<PlainCells>(&mut plain, setup, verb, words);
    row.join(&plain);
    if !planes.says(plain.text.as_str()) {
        row.word(" but planes ");
        row.join(&planes);
    }
    is_verb
}

/// Adds what a verb answers that needs no screen; whether it is one.
fn push_plain_answer(row: &mut Row, setup: &Setup, verb: &str, words: &str) -> bool {
    match verb {
        "word" => keys::push_word(row, words),
        "answer" | "counted" => inbound::push_read(row, setup.mode, verb, words),
        "characters" => inbound::push_codes(row, words),
        _ => return false,
    }
    true
}

/// Adds what a verb answers; whether it is one of these.
pub(crate) fn push_answer(row: &mut Row, setup: &Setup, verb: &str, words: &str) -> bool {
    ring::push_answer(row, verb, words)
        || characters::push_answer(row, verb, words)
        || words::push_answer(row, verb)
        || both::push_answer(row, setup, verb, words)
        || outlines::push_answer(row, setup, verb, words)
        || push_plain_answer(row, setup, verb, words)
        || push_either_answer(row, setup, verb, words)
}
