//! Demos tried on a terminal, one after the other.

use crate::Setup;
use demo_screens::Rehearsal;
use ds_screen::PlaneCells;
use ds_terminal::Terminal;
use scr_check::Demo;
use scr_layout::Layout;
use test_words::Row;

/// Shows records that are parted by semicolons.
fn show_all(row: &mut Row, terminal: &mut Terminal<PlaneCells>, records: &str) {
    for text in records.split(';') {
        if !text.is_empty() {
            let bytes = row.read_bytes(text);
            if terminal.show(bytes.as_slice()).is_err() {
                row.spoil();
            }
        }
    }
}

/// A new terminal of the layout's geometry, made ready for demos after records.
fn ready(row: &mut Row, layout: &Layout, records: &str) -> Option<Rehearsal<PlaneCells>> {
    let alloc = row.alloc();
    let made = Terminal::new(alloc, layout.geometry());
    let mut terminal = row.take(made)?;
    show_all(row, &mut terminal, records);
    let rehearsal = Rehearsal::new(alloc, &terminal);
    row.take(rehearsal)
}

/// Adds what a demo sends, by how often Right is pressed and C1 typed.
fn push_demo(row: &mut Row, rehearsal: &mut Rehearsal<PlaneCells>, words: &str) {
    let (rights, types) = row.read_numbers(words);
    let sent = rehearsal.sends(row.alloc(), Demo { rights, types });
    if let Some(bytes) = row.take(sent) {
        row.bytes(bytes.as_slice());
    }
}

/// Adds what demos send that are parted by commas.
pub(crate) fn push_tried(row: &mut Row, setup: &Setup, layout: &Layout, words: &str) {
    let Some(mut rehearsal) = ready(row, layout, setup.after.as_str()) else {
        return;
    };
    let mut is_first = true;
    for demo in words.split(", ") {
        row.word_if(!is_first, ", ");
        push_demo(row, &mut rehearsal, demo);
        is_first = false;
    }
}
