//! Screens that are checked and judged.

use crate::setup::{Setup, geometry_of, opened};
use crate::texts::text_of;
use crate::words::{push_said, push_text};
use script_checks::{Judge, LayoutText, Layouts, push_check};
use test_words::Row;

/// Adds what Check says of a layout's text, or of a file that can't be read.
fn push_checked(row: &mut Row, setup: &Setup, path: &str, read: LayoutText<'_>) {
    let Some(geometry) = geometry_of(setup) else {
        return row.spoil();
    };
    let turns = match &setup.kept {
        Some(kept) => Some(kept.as_slice()),
        None => None,
    };
    let mut out = Vec::new(row.alloc());
    let path = text_of(row, path);
    let outcome = push_check(row.alloc(), &mut out, turns, geometry, &path, read);
    push_said(row, &out, outcome);
}

/// Adds what Check says of the file `PATH|CAUSE`.
fn push_unreadable(row: &mut Row, setup: &Setup, words: &str) {
    let (path, cause) = row.cut(words, "|");
    let cause = text_of(row, cause);
    push_checked(row, setup, path, LayoutText::Unreadable(&cause));
}

/// Adds whether the setup's layout is added under a name, or why it isn't.
fn add_layout(row: &mut Row, layouts: &mut Layouts, name: &str, text: &str) {
    let text = text_of(row, text);
    let name = text_of(row, name);
    let added = layouts.add(row.alloc(), &name, &text);
    match row.take(added) {
        Some(Ok(())) => row.word("added "),
        Some(Err(refusal)) => {
            row.show(&refusal);
            row.word(" ");
        }
        None => {}
    }
}

/// A judge by the layouts `NAME=TEXT`, parted by bars; adds what becomes of each.
fn push_layouts(row: &mut Row, setup: &mut Setup, words: &str) {
    let Some(geometry) = geometry_of(setup) else {
        return row.spoil();
    };
    let mut layouts = Layouts::new(row.alloc(), geometry);
    for layout in words.split('|') {
        if let Some((name, text)) = layout.split_once('=') {
            add_layout(row, &mut layouts, name, text);
        }
    }
    setup.judge = Judge::new(row.alloc(), layouts, setup.format);
}

/// Adds what the judge says of the screen, and whether something stands against one so far.
fn push_judged(row: &mut Row, setup: &mut Setup) {
    let Some(screen) = opened(row, setup) else {
        return row.spoil();
    };
    let turns = match &setup.kept {
        Some(kept) => Some(kept.as_slice()),
        None => None,
    };
    let mut report = Vec::new(row.alloc());
    let judged = setup.judge.judge(row.alloc(), &screen, turns, &mut report);
    row.note(judged);
    push_text(row, &report);
    row.truth(setup.judge.has_findings());
}

/// Adds what is due at the end of the judge's report.
fn push_finished(row: &mut Row, setup: &Setup) {
    let mut report = Vec::new(row.alloc());
    let finished = setup.judge.finish(&mut report);
    row.note(finished);
    push_text(row, &report);
}

/// Adds what a verb of checks answers; whether it is one of these.
pub(crate) fn push_answer(row: &mut Row, setup: &mut Setup, verb: &str, words: &str) -> bool {
    match verb {
        "check" => push_checked(row, setup, "", LayoutText::Text(&setup.layout)),
        "unreadable" => push_unreadable(row, setup, words),
        "layouts" => push_layouts(row, setup, words),
        "judge" => push_judged(row, setup),
        "finish" => push_finished(row, setup),
        _ => return false,
    }
    true
}
