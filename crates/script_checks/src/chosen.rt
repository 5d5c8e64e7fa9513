//! The layout that a screen is taken for.

ghost use Rattle.std.specs.Prelude.{◌≡◌, map};
ghost use Rattle.std.specs.List.{list_all};
ghost use Rattle.ds_screen.specs.Fields.{is_attribute};
ghost use Rattle.ds_screen.specs.Picture.{cell_at};
ghost use Rattle.script_checks.specs.Named.{place_before, begins_field, matches, comes_first, precedes, better, chosen};
ghost use Rattle.script_checks.specs.NamedView.{named_view, one_seen};

use crate::layouts::Named;
use ds_codec::Cell;
use ds_screen::{PlaneCells, Screen};
use scr_layout::{Entry, Layout};

fn place_before(count: u32, place: u32) -> u32
    ensures { result ≡ place_before count place }
{
    if place == 0 {
        count.saturating_sub(1)
    } else {
        place - 1
    }
}

/// Whether an attribute stands at a position; past the last there is none.
fn is_attribute(screen: &Screen<PlaneCells>, place: u32) -> bool
    ensures { result ≡ is_attribute (cell_at screen.now.cells place) }
{
    if place >= screen.size().cells() {
        return false;
    }
    match screen.cell(place) {
        Cell::Field(_attribute) => true,
        Cell::Char(_character) => false,
    }
}

/// Whether an attribute stands right before an entry's place.
fn begins_field(screen: &Screen<PlaneCells>, entry: &Entry) -> bool
    ensures { result ≡ begins_field screen.now.cells entry.now }
{
    is_attribute(screen, place_before(screen.size().cells(), entry.place))
}

/// Whether a field begins at each of these entries.
fn begins_fields(screen: &Screen<PlaneCells>, entries: &[Entry]) -> bool
    ensures { result ≡ list_all (begins_field screen.now.cells) entries.now }
{
    entries.iter().all(|entry| begins_field(screen, entry))
}

/// Whether the screen has the layout's size, and a field begins at each entry.
fn matches_layout(screen: &Screen<PlaneCells>, layout: &Layout) -> bool
    ensures { result ≡ matches screen.now layout.now }
{
    screen.size() == layout.size() && begins_fields(screen, layout.entries())
}

/// Whether a name is the other, or stands before it in the order of their bytes.
fn comes_first(name: &[u8], other: &[u8]) -> bool
    ensures { result ≡ comes_first name.now other.now }
{
    name <= other
}

/// Whether a layout has more entries than another, or as many and its name comes first.
fn precedes(one: &Named, other: &Named) -> bool
    ensures { result ≡ precedes (named_view one.now) (named_view other.now) }
{
    let (count, others) = (one.layout.entries().len(), other.layout.entries().len());
    others < count || (count == others && comes_first(&one.name, &other.name))
}

/// The better of two layouts that match.
fn better<'a>(best: Option<&'a Named>, one: &'a Named) -> &'a Named
    ensures { named_view result.now ≡ better (one_seen best.entry) (named_view one.now) }
{
    match best {
        Some(best) if precedes(best, one) => best,
        Some(_) | None => one,
    }
}

/// The layout that a screen is taken for, if any matches: the one with the most entries; of several with as many the first by name.
pub fn choose<'a>(screen: &Screen<PlaneCells>, all: &'a [Named]) -> Option<&'a Named>
    ensures { one_seen result ≡ chosen screen.now (map named_view all.now) }
{
    let mut best: Option<&'a Named> = None;
    for one in all {
        if matches_layout(screen, &one.layout) {
            best = Some(better(best, one));
        }
    }
    best
}
