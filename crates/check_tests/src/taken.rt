//! Records taken one after the other by the rule of a dialogue's first turn.

use crate::findings::{push_text, records_of};
use ds_screen::{PlaneCells, Screen};
use scr_check::{FirstTurn, take_by};
use scr_layout::Layout;
use test_words::Row;

/// Each row of a screen, and where its cursor stands.
fn push_screen(row: &mut Row, screen: &Screen<PlaneCells>) {
    for at in 0..screen.size().rows {
        let shown = screen.shown_row(row.alloc(), at);
        if let Some(text) = row.take(shown) {
            row.word(text.as_str());
        }
    }
    row.word_number(" ", screen.cursor());
}

fn screen_of(row: &mut Row, screen: &Screen<PlaneCells>) -> Row {
    let mut told = Row::new(row.alloc());
    push_screen(&mut told, screen);
    told
}

/// Takes the record of a number: `taken`, or the finding and whether the screen is as it was.
fn push_one(
    row: &mut Row,
    layout: &Layout,
    screen: &mut Screen<PlaneCells>,
    index: usize,
    bytes: &[u8],
) {
    let before = screen_of(row, screen);
    let Err(finding) = take_by::<FirstTurn, Screen<PlaneCells>>(screen, index, bytes) else {
        row.word("taken; ");
        return;
    };
    push_text(row, layout, finding);
    let after = screen_of(row, screen);
    let same = before.says(after.text.as_str());
    row.word(if same { ", as before; " } else { ", changed; " });
}

/// What each record leads to on a new terminal of the layout's geometry, those before it taken.
pub(crate) fn push_taken(row: &mut Row, layout: &Layout, words: &str) {
    let records = records_of(row, words);
    let new = Screen::<PlaneCells>::new(row.alloc(), layout.geometry());
    let Some(mut screen) = row.take(new) else {
        return;
    };
    for (index, bytes) in records.iter().enumerate() {
        push_one(row, layout, &mut screen, index, bytes.as_slice());
    }
}
