//! The text that an operator sees before a field on its row.

ghost use Rattle.std.specs.Prelude.{◌≡◌, ◌≤◌, ◌<◌, ◌+◌, ◌-◌, ◌^◌, ◌%◌, ◌++◌, ◌∷◌, [], length, OnOk, string_bytes};
ghost use Rattle.std.specs.List.{range_with_len};
ghost use Rattle.cli_reports.specs.Label.{label_after, label_in, label_of, label_text, label_words};

use cli_pictures::{seen_at, shown_at};
use ds_codec::Cell;
use ds_screen::{PlaneCells, Screen};
use std::alloc::AllocError;

/// Positions of a row, from the first character that is seen to behind the last one; none where both are 0.
#[derive(Clone, Copy)]
pub(crate) struct Label {
    pub start: u32,
    pub stop: u32,
    /// No attribute stands behind it so far.
    pub goes_on: bool,
}

/// The label once a further position is looked at.
fn label_after(screen: &Screen<PlaneCells>, at: u32, label: Label) -> Label
    requires inside { at < length screen.now.cells }
    requires small { at + 1 < 2 ^ 32 }
    ensures { result ≡ label_after screen.now.cells at label }
{
    if let Cell::Field(_) = screen.cell(at) {
        return Label {
            goes_on: false,
            ..label
        };
    }
    match seen_at(screen, at) {
        Some(_) => Label {
            start: if label.goes_on { label.start } else { at },
            stop: at + 1,
            goes_on: true,
        },
        None => label,
    }
}

/// The last text on the row before a place.
#[tactic(auto, using(crate::proofs::Steps::range_on))]
fn label_on_row(screen: &Screen<PlaneCells>, place: u32, none: Label) -> Label
    requires here { place < length screen.now.cells }
    requires before { none.stop ≤ length screen.now.cells }
    ensures label { result ≡ label_in screen.now.cells none
        (range_with_len (place - place % screen.now.size.cols) (place % screen.now.size.cols)) }
    ensures inside { result.stop ≤ length screen.now.cells }
{
    let column = place % u32::from(screen.size().cols);
    let mut label = none;
    for at in place - column..place {
        label = label_after(screen, at, label);
    }
    label
}

/// The label of the field that begins at a place.
fn label_of(screen: &Screen<PlaneCells>, place: u32) -> Label
    ensures label { result ≡ label_of screen.now place }
    ensures inside { result.stop ≤ length screen.now.cells }
{
    let none = Label {
        start: 0,
        stop: 0,
        goes_on: false,
    };
    if place >= screen.size().cells() {
        return none;
    }
    label_on_row(screen, place, none)
}

/// What is seen of a label.
#[tactic(auto, using(crate::proofs::Steps::range_on))]
fn push_label(out: &mut String, screen: &Screen<PlaneCells>, label: Label) -> Result<(), AllocError>
    requires { label.stop ≤ length screen.now.cells }
    ensures { OnOk result (string_bytes out.new
        ≡ string_bytes out.old ++ label_text screen.now.cells label) }
{
    let Label { start, stop, .. } = label;
    for at in start..stop {
        out.push(char::from(shown_at(screen, at)))?;
    }
    Ok(())
}

/// The words of the label of the field that begins at a place, if it has one.
pub(crate) fn push_label_words(
    out: &mut String,
    screen: &Screen<PlaneCells>,
    place: u32,
) -> Result<(), AllocError>
    ensures { OnOk result (string_bytes out.new
        ≡ string_bytes out.old ++ label_words screen.now place) }
{
    let label = label_of(screen, place);
    if label.stop == 0 {
        return Ok(());
    }
    out.push_str(", after '")?;
    push_label(out, screen, label)?;
    out.push_str("'")
}
