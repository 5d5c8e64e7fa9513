//! What Cursor Select or a light pen may not select.

use crate::findings::{lent, push_findings, push_verdict, records_of};
use ds_screen::{PlaneCells, Screen};
use scr_check::{FirstTurn, check_with_pen, find_selectable, take_by};
use scr_layout::Layout;
use test_words::Row;

/// What is found of the screen that the records leave, up to the first that isn't taken.
fn push_selectable(row: &mut Row, layout: &Layout, records: &[Vec<u8>]) {
    let new = Screen::<PlaneCells>::new(row.alloc(), layout.geometry());
    let Some(mut screen) = row.take(new) else {
        return;
    };
    for (index, bytes) in records.iter().enumerate() {
        let _ = take_by::<FirstTurn, Screen<PlaneCells>>(&mut screen, index, bytes.as_slice());
    }
    let found = find_selectable(row.alloc(), &screen);
    if let Some(findings) = row.take(found) {
        push_findings(row, layout, findings.as_slice());
    }
}

/// What the checker says of records with the pen, and then what is found of the screen alone.
pub(crate) fn push_pen(row: &mut Row, layout: &Layout, words: &str) {
    let records = records_of(row, words);
    let slices = lent(row, records.as_slice());
    let verdict = check_with_pen(row.alloc(), slices.as_slice(), layout);
    let verdict = row.take(verdict);
    push_verdict(row, layout, &verdict);
    row.word(" | ");
    push_selectable(row, layout, records.as_slice());
}
