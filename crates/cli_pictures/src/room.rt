//! Where the names of entries stand in a drawing.

ghost use Rattle.std.specs.Prelude.{◌≡◌, ◌≤◌, ◌+◌, ◌<◌, ◌^◌, length};
ghost use Rattle.cli_pictures.specs.Room.{name_width, is_bare, bare_length, is_among, has_place, behind, meets, meets_any, is_free, has_room_behind, has_room_above, stand_of};

use crate::seen::seen_at;
use ds_screen::{PlaneCells, Screen};
use scr_layout::Entry;

/// Where the name of an entry stands.
#[derive(Clone, Copy, Debug, PartialEq, Eq)]
pub(crate) enum Stand {
    /// Above the field's first cells.
    Above,
    /// Behind the field, and the attribute that ends it.
    Behind,
    /// In the list below the screen: a number stands before the field.
    Numbered,
}

/// How many cells a name takes.
fn name_width(entry: &Entry) -> u64
    ensures value { result ≡ name_width entry.now }
    ensures small { result ≤ 2 ^ 63 }
{
    let bytes = entry.name.len();
    (bytes / 2 + bytes % 2) as u64
}

/// Whether nothing is seen there, and nothing can be typed there.
fn is_bare(screen: &Screen<PlaneCells>, p: u32) -> bool
    requires { p < length screen.now.cells }
    ensures { result ≡ is_bare screen.now.cells p }
{
    seen_at(screen, p).is_none() && !screen.is_open(p)
}

/// How many of so many positions are bare, up to the first that isn't.
fn bare_length(screen: &Screen<PlaneCells>, p: u32, most: u32) -> u32
    requires inside { p + most ≤ length screen.now.cells }
    requires small { p + most ≤ 65025 }
    ensures length { result ≡ bare_length screen.now.cells p most }
    ensures few { result ≤ most }
{
    for count in 0..most {
        if !is_bare(screen, p + count) {
            return count;
        }
    }
    most
}

/// Whether a position is one of so many from one on.
fn is_among(p: u64, count: u64, at: u64) -> bool
    requires { p + count < 2 ^ 64 }
    ensures { result ≡ is_among p count at }
{
    p <= at && at < p + count
}

/// Whether an entry begins at one of so many positions.
fn has_place(entries: &[Entry], p: u64, count: u64) -> bool
    requires { p + count < 2 ^ 64 }
    ensures { result ≡ has_place entries.now p count }
{
    for entry in entries {
        if is_among(p, count, u64::from(entry.place)) {
            return true;
        }
    }
    false
}

/// The first position behind a field and the attribute that ends it.
pub(crate) fn behind(entry: &Entry) -> u64
    ensures value { result ≡ behind entry.now }
    ensures small { result < 2 ^ 34 }
{
    u64::from(entry.place) + u64::from(entry.length) + 1
}

/// Whether so many positions meet those that a name behind an entry would take.
fn meets(p: u64, count: u64, entry: &Entry) -> bool
    requires { p + count < 2 ^ 64 }
    ensures { result ≡ meets p count entry.now }
{
    let start = behind(entry);
    p < start + name_width(entry) && start < p + count
}

/// The same of any entry.
fn meets_any(entries: &[Entry], p: u64, count: u64) -> bool
    requires { p + count < 2 ^ 64 }
    ensures { result ≡ meets_any entries.now p count }
{
    for entry in entries {
        if meets(p, count, entry) {
            return true;
        }
    }
    false
}

/// Whether so many cells are in one row of the screen, and bare.
#[tactic(auto, using(crate::proofs::RowLaws::row_fits, crate::proofs::RowLaws::few_cells))]
fn is_free(screen: &Screen<PlaneCells>, p: u64, count: u64) -> bool
    requires { p + count < 2 ^ 64 }
    ensures { result ≡ is_free screen.now p count }
{
    let size = screen.size();
    if p >= u64::from(size.cells()) {
        return false;
    }
    let p = p as u32;
    let columns = u32::from(size.cols);
    if u64::from(p % columns) + count > u64::from(columns) {
        return false;
    }
    let count = count as u32;
    bare_length(screen, p, count) == count
}

/// Whether a name has room behind its field, in the row of its last cell, where no other field begins.
fn has_room_behind(screen: &Screen<PlaneCells>, entries: &[Entry], entry: &Entry) -> bool
    ensures { result ≡ has_room_behind screen.now entries.now entry.now }
{
    let start = behind(entry);
    let count = name_width(entry);
    let columns = u64::from(screen.size().cols);
    is_free(screen, start, count) && (!has_place(entries, start, count) && 1 < start % columns)
}

/// Whether a name has room above its field.
fn has_room_above(screen: &Screen<PlaneCells>, entries: &[Entry], entry: &Entry) -> bool
    ensures { result ≡ has_room_above screen.now entries.now entry.now }
{
    let columns = u64::from(screen.size().cols);
    let place = u64::from(entry.place);
    let count = name_width(entry);
    if has_place(entries, place + 1, count.saturating_sub(1)) || place < columns {
        return false;
    }
    let above = place - columns;
    is_free(screen, above, count) && !meets_any(entries, above, count)
}

/// Where the name of an entry stands.
pub(crate) fn stand_of(screen: &Screen<PlaneCells>, entries: &[Entry], entry: &Entry) -> Stand
    ensures { result ≡ stand_of screen.now entries.now entry.now }
{
    if has_room_behind(screen, entries, entry) {
        Stand::Behind
    } else if has_room_above(screen, entries, entry) {
        Stand::Above
    } else {
        Stand::Numbered
    }
}
