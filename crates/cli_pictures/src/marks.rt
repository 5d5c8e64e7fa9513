//! Where findings are marked in a drawing.

ghost use Rattle.std.specs.Prelude.{◌≡◌, ◌<◌, ◌≤◌, ◌+◌, IfSome, length};
ghost use Rattle.cli_pictures.specs.Marks.{declared_length, entry_place, place_of, run_length, field_length, at_least_one, marked_length, begins_part, part_frame, screen_frame};

use crate::codes::{cell_on, place_on};
use crate::colored::is_character;
use crate::svg::corner_of;
use ds_codec::Size;
use ds_screen::{PlaneCells, Screen};
use scr_check::Finding;
use scr_layout::Entry;

/// A frame, in units of the drawing.
#[derive(Clone, Copy)]
pub(crate) struct Frame {
    pub left: u32,
    pub top: u32,
    pub width: u32,
    pub height: u32,
}

/// The place of the entry of an index.
fn entry_place(entries: &[Entry], index: usize) -> Option<u32>
    ensures { result ≡ entry_place entries.now index }
{
    Some(entries.get(index)?.place)
}

/// The place of a finding's field, or of its entry.
pub(crate) fn place_of(entries: &[Entry], finding: &Finding) -> Option<u32>
    ensures { result ≡ place_of entries.now finding.now }
{
    match finding {
        Finding::Undeclared(place, _)
        | Finding::UndeclaredFixed(place, _)
        | Finding::EmptyModified(place) => Some(*place),
        Finding::Missing(index) | Finding::OtherKind(index) => entry_place(entries, *index),
        Finding::TooLong(found) => entry_place(entries, found.entry),
        _ => None,
    }
}

/// How many cells an entry declares that has no field; none of another finding.
fn declared_length(entries: &[Entry], finding: &Finding) -> Option<u32>
    ensures { result ≡ declared_length entries.now finding.now }
{
    match finding {
        Finding::Missing(index) => Some(entries.get(*index)?.length),
        _ => None,
    }
}

/// How many of so many cells from a position on, round the screen's end, hold characters, up to the first that doesn't.
fn run_length(screen: &Screen<PlaneCells>, p: u32, most: u32) -> u32
    ensures { result ≡ run_length screen.now.cells p most }
{
    for count in 0..most {
        if !is_character(&cell_on(screen, p, count)) {
            return count;
        }
    }
    most
}

/// How many cells the field has whose first cell is there.
fn field_length(screen: &Screen<PlaneCells>, p: u32) -> u32
    ensures { result ≡ field_length screen.now.cells p }
{
    run_length(screen, p, screen.size().cells())
}

fn at_least_one(count: u32) -> u32
    ensures { result ≡ at_least_one count }
{
    if count == 0 { 1 } else { count }
}

/// How many cells are marked of a finding at a place: those of its field, or those that its entry declares; one at least.
pub(crate) fn marked_length(
    screen: &Screen<PlaneCells>,
    entries: &[Entry],
    finding: &Finding,
    p: u32,
) -> u32
    ensures { result ≡ marked_length screen.now.cells entries.now finding.now p }
{
    match declared_length(entries, finding) {
        Some(length) => at_least_one(length),
        None => at_least_one(field_length(screen, p)),
    }
}

/// Whether a part of a row begins so many positions behind the first of some cells.
pub(crate) fn begins_part(screen: &Screen<PlaneCells>, p: u32, steps: u32) -> bool
    ensures { result ≡ begins_part screen.now p steps }
{
    steps == 0 || place_on(screen, p, steps) % u32::from(screen.size().cols) == 0
}

/// The frame round what is left of so many cells in the row of that position.
pub(crate) fn part_frame(screen: &Screen<PlaneCells>, p: u32, count: u32, steps: u32) -> Frame
    requires { steps < count }
    ensures { result ≡ part_frame screen.now p count steps }
{
    let columns = screen.size().cols;
    let place = place_on(screen, p, steps);
    let corner = corner_of(columns, place);
    let most = u32::from(columns) - place % u32::from(columns);
    Frame {
        left: corner.left,
        top: corner.top,
        width: 10 * (count - steps).min(most),
        height: 20,
    }
}

/// The frame round all cells.
pub(crate) fn screen_frame(size: Size) -> Frame
    ensures { result ≡ screen_frame size }
{
    Frame {
        left: 5,
        top: 5,
        width: 10 * u32::from(size.cols) + 10,
        height: 20 * u32::from(size.rows) + 10,
    }
}
