//! The keys that actions of a script press.

use crate::parted;
use crate::setup::{Setup, opened};
use crate::words::{arguments_of, push_name, push_text};
use ds_keys::Key;
use ds_screen::{PlaneCells, Screen};
use script_keys::{Action, Run, margin_run, push_fault, read_action, runs_of, typed_runs};
use std::alloc::AllocError;
use test_words::Row;

/// Adds a key, with the code that it types or its attention identifier.
fn push_key(row: &mut Row, key: &Key) {
    match key {
        Key::Typed(code) => row.word_hex("Typed ", *code),
        Key::Attention(aid) => row.word_hex("Attention ", aid.byte()),
        _ => push_name(row, key),
    }
}

/// Adds a key, and how often it is pressed where that isn't once.
fn push_run(row: &mut Row, run: &Run) {
    push_key(row, &run.key);
    if run.times != 1 {
        row.word_number("*", run.times);
    }
}

/// Adds keys, or a dash where there are none.
fn push_runs(row: &mut Row, runs: Result<Vec<Run>, AllocError>) {
    let Some(runs) = row.take(runs) else {
        return;
    };
    row.word_if(runs.is_empty(), "-");
    for (index, run) in runs.iter().enumerate() {
        row.word_if(index > 0, ", ");
        push_run(row, run);
    }
}

/// Adds what an action that presses no key asks for.
fn push_other(row: &mut Row, action: &Action<'_>) {
    match action {
        Action::Keys(_keys) => row.word("keys"),
        Action::Connect(address) => {
            row.word("connect ");
            push_text(row, address);
        }
        Action::Disconnect => row.word("disconnect"),
        Action::Quit => row.word("quit"),
        Action::Other(name, arguments) => {
            push_name(row, name);
            row.word_length(" ", arguments.len());
        }
    }
}

/// Adds the keys of the action `NAME|A|B` at a screen, what else it asks for, or its fault.
fn push_action(row: &mut Row, screen: &Screen<PlaneCells>, words: &str) {
    let arguments = arguments_of(row, words);
    let name = parted(words, "|").0;
    match read_action(name.as_bytes(), arguments.as_slice()) {
        Ok(Action::Keys(keys)) => {
            let runs = runs_of(row.alloc(), screen, keys);
            push_runs(row, runs);
        }
        Ok(action) => push_other(row, &action),
        Err(fault) => {
            let mut out = Vec::new(row.alloc());
            let pushed = push_fault(&mut out, &fault);
            let _pushed = row.take(pushed);
            push_text(row, &out);
        }
    }
}

/// Adds the keys that type a code, with the nulls before it filled or not.
fn push_typed(row: &mut Row, screen: &Screen<PlaneCells>, fills: bool, words: &str) {
    let code = row.read_byte(words);
    let runs = typed_runs(row.alloc(), screen, fills, code);
    push_runs(row, runs);
}

/// Adds the keys that lead to a column.
fn push_margin(row: &mut Row, screen: &Screen<PlaneCells>, words: &str) {
    let column = row.read_number(words);
    match margin_run(screen, column) {
        Some(run) => push_run(row, &run),
        None => row.word("-"),
    }
}

/// Adds what a verb answers at a screen; whether it is one of these.
fn push_at(row: &mut Row, screen: &Screen<PlaneCells>, verb: &str, words: &str) -> bool {
    match verb {
        "action" => push_action(row, screen, words),
        "typed" => push_typed(row, screen, false, words),
        "filled" => push_typed(row, screen, true, words),
        "margin" => push_margin(row, screen, words),
        _ => return false,
    }
    true
}

/// Adds what a verb of keys answers; whether it is one of these.
pub(crate) fn push_answer(row: &mut Row, setup: &Setup, verb: &str, words: &str) -> bool {
    match opened(row, setup) {
        Some(screen) => push_at(row, &screen, verb, words),
        None => {
            row.spoil();
            false
        }
    }
}
