//! What the lines of a script begin with.

use crate::texts::text_of;
use ds_codec::{Geometry, Mode, Size};
use ds_keys::{key_of_line, press};
use ds_screen::{PlaneCells, Screen};
use ds_terminal::take_record;
use script_checks::{Judge, Layouts, ReportFormat};
use std::alloc::Global;
use test_words::Row;
use tn_session::KeptRecord;

/// What the lines of a script begin with.
#[derive(Drop)]
pub(crate) struct Setup {
    pub(crate) default: Size,
    pub(crate) alternate: Size,
    /// Records, parted by semicolons.
    pub(crate) after: String,
    /// Keys pressed after them, parted by commas.
    pub(crate) pressed: String,
    /// The text of a layout.
    pub(crate) layout: Vec<u8>,
    /// The records that made a screen, and none where they aren't kept.
    pub(crate) kept: Option<Vec<KeptRecord>>,
    /// The form of the next judge's report.
    pub(crate) format: ReportFormat,
    pub(crate) judge: Judge,
}

/// A terminal of 24 rows of 80.
fn usual_size() -> Size {
    Size { rows: 24, cols: 80 }
}

/// Nothing yet; none where no terminal has 24 rows of 80.
pub(crate) fn new_setup(alloc: Global) -> Option<Setup> {
    let size = usual_size();
    let geometry = Geometry::new(size, size, Mode::Bits14).ok()?;
    Some(Setup {
        default: size,
        alternate: size,
        after: String::new(alloc),
        pressed: String::new(alloc),
        layout: Vec::new(alloc),
        kept: Some(Vec::new(alloc)),
        format: ReportFormat::Text,
        judge: Judge::new(alloc, Layouts::new(alloc, geometry), ReportFormat::Text),
    })
}

/// The setup's sizes.
pub(crate) fn geometry_of(setup: &Setup) -> Option<Geometry> {
    Geometry::new(setup.default, setup.alternate, Mode::Bits14).ok()
}

/// Applies records that are parted by semicolons.
fn write_all(row: &mut Row, screen: &mut Screen<PlaneCells>, records: &str) {
    for text in records.split(';') {
        let bytes = row.read_bytes(text);
        if !text.is_empty() && take_record(screen, bytes.as_slice()).is_err() {
            row.spoil();
        }
    }
}

/// Presses keys that are parted by commas.
fn press_all(row: &mut Row, screen: &mut Screen<PlaneCells>, keys: &str) {
    for line in keys.split(", ") {
        if line.is_empty() {
            continue;
        }
        match key_of_line(line) {
            Some(key) => {
                let _pressed = press(screen, key);
            }
            None => row.spoil(),
        }
    }
}

/// A new screen of the setup's sizes after its records and its keys.
pub(crate) fn opened(row: &mut Row, setup: &Setup) -> Option<Screen<PlaneCells>> {
    let mut screen = Screen::new(row.alloc(), geometry_of(setup)?).ok()?;
    write_all(row, &mut screen, setup.after.as_str());
    press_all(row, &mut screen, setup.pressed.as_str());
    Some(screen)
}

/// The size of a text such as `24x80`.
fn read_size(row: &mut Row, text: &str) -> Size {
    let (rows, cols) = row.cut(text, "x");
    let rows = row.read_short(rows);
    let cols = row.read_short(cols);
    Size { rows, cols }
}

fn set_sizes(row: &mut Row, setup: &mut Setup, sizes: &str) {
    let (default, alternate) = sizes.split_once(' ').unwrap_or((sizes, sizes));
    setup.default = read_size(row, default);
    setup.alternate = read_size(row, alternate);
}

fn copied(row: &mut Row, text: &str) -> String {
    match String::from_str(row.alloc(), text) {
        Ok(copy) => copy,
        Err(_) => {
            row.spoil();
            String::new(row.alloc())
        }
    }
}

/// Adds the records of a turn, parted by semicolons.
fn push_turn(row: &mut Row, kept: &mut Vec<KeptRecord>, begins_turn: bool, records: &str) {
    for (index, text) in records.split(';').enumerate() {
        let bytes = row.read_bytes(text);
        let pushed = kept.push(KeptRecord {
            begins_turn: begins_turn && index == 0,
            bytes,
        });
        let _pushed = row.take(pushed);
    }
}

/// The records of turns, parted by bars.
fn kept_of(row: &mut Row, turns: &str) -> Vec<KeptRecord> {
    let mut kept = Vec::new(row.alloc());
    if turns.is_empty() {
        return kept;
    }
    for (index, records) in turns.split('|').enumerate() {
        push_turn(row, &mut kept, index > 0, records);
    }
    kept
}

fn set_format(row: &mut Row, setup: &mut Setup, word: &str) {
    match word {
        "text" => setup.format = ReportFormat::Text,
        "json" => setup.format = ReportFormat::Json,
        "junit" => setup.format = ReportFormat::Junit,
        _ => row.spoil(),
    }
}

/// Takes a line that says what the lines below begin with; whether it is one.
pub(crate) fn take_line(row: &mut Row, setup: &mut Setup, verb: &str, words: &str) -> bool {
    match verb {
        "screen" => set_sizes(row, setup, words),
        "after" => {
            setup.after = copied(row, words);
            setup.pressed = String::new(row.alloc());
        }
        "pressed" => setup.pressed = copied(row, words),
        "layout" => setup.layout = text_of(row, words),
        "turns" => setup.kept = Some(kept_of(row, words)),
        "not-kept" => setup.kept = None,
        "report" => set_format(row, setup, words),
        _ => return false,
    }
    true
}
