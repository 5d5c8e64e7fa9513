//! The label of a field: the nearest text before it on its row.

ghost use Rattle.std.specs.Prelude.{◌≡◌, ◌++◌, ◌<◌, ◌≤◌, ◌^◌, ◌+◌, ◌-◌, ◌%◌, length, OnOk};
ghost use Rattle.std.specs.String.{string_bytes};
ghost use Rattle.std.specs.List.{range_with_len};
ghost use Rattle.scr_draft.specs.Label.{label_after, label_in, label_of, label_text};

use crate::mark::{Mark, mark_at, seen_at};
use ds_screen::{PlaneCells, Screen};
use std::alloc::AllocError;

/// Positions of a row, from the first letter or digit to behind the last one; none where both are 0.
#[derive(Clone, Copy)]
pub struct Label {
    pub start: u32,
    pub stop: u32,
    /// No border stands behind it so far.
    pub goes_on: bool,
}

/// The label once a further position is looked at.
fn label_after(at: u32, mark: Mark, label: Label) -> Label
    requires { at + 1 < 2 ^ 32 }
    ensures { result ≡ label_after at mark label }
{
    match mark {
        Mark::Border => Label {
            goes_on: false,
            ..label
        },
        Mark::Between => label,
        Mark::Word => Label {
            start: if label.goes_on { label.start } else { at },
            stop: at + 1,
            goes_on: true,
        },
    }
}

/// The label of the field that begins at a place.
pub(crate) fn label_of(screen: &Screen<PlaneCells>, place: u32) -> Label
    ensures label { result ≡ label_of screen.now.cells screen.now.size.cols place }
    ensures inside { result.stop ≤ length screen.now.cells }
{
    let none = Label {
        start: 0,
        stop: 0,
        goes_on: false,
    };
    if place >= screen.size().cells() {
        return none;
    }
    label_on_row(screen, place, none)
}

/// The last label on the row before a place, after one that was found.
#[tactic(auto, using(crate::proofs::Steps::range_on))]
fn label_on_row(screen: &Screen<PlaneCells>, place: u32, none: Label) -> Label
    requires here { place < length screen.now.cells }
    requires before { none.stop ≤ length screen.now.cells }
    ensures label { result ≡ label_in screen.now.cells none
        (range_with_len (place - place % screen.now.size.cols) (place % screen.now.size.cols)) }
    ensures inside { result.stop ≤ length screen.now.cells }
{
    let column = place % u32::from(screen.size().cols);
    let mut label = none;
    for at in place - column..place {
        label = label_after(at, mark_at(screen, at), label);
    }
    label
}

/// What is seen of a label.
#[tactic(auto, using(crate::proofs::Steps::range_on))]
pub(crate) fn push_label(
    out: &mut String,
    screen: &Screen<PlaneCells>,
    label: Label,
) -> Result<(), AllocError>
    requires { label.stop ≤ length screen.now.cells }
    ensures { OnOk result (string_bytes out.new
        ≡ string_bytes out.old ++ label_text screen.now.cells label) }
{
    let Label { start, stop, .. } = label;
    for at in start..stop {
        out.push(char::from(seen_at(screen, at)))?;
    }
    Ok(())
}
