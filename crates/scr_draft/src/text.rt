//! The text of a draft.

ghost use Rattle.std.specs.Prelude.{◌≡◌, ◌++◌, ◌<◌, OnOk, IfOk};
ghost use Rattle.std.specs.String.{string_bytes};
ghost use Rattle.std.specs.List.{flat_map};
ghost use Rattle.scr_draft.specs.Drafted.{kind_of};
ghost use Rattle.scr_draft.specs.Text.{mode_line, default_line, alternate_line, geometry_lines, screen_line, top_lines, kind_word, takes_digits, label_words, comment_line, place_lines, name_lines, length_lines, other_lines, field_lines, draft_text};

use crate::drafted::Drafted;
use crate::entries::label_before;
use ds_codec::{Attr, Geometry, Mode, Size};
use ds_screen::{FieldAt, PlaneCells, Screen};
use scr_layout::Kind;
use std::alloc::{AllocError, Global};

// ---- the keys at the top

fn mode_line(mode: Mode) -> &'static str
    ensures { result.now ≡ mode_line mode }
{
    match mode {
        Mode::Bits14 => "",
        Mode::Bits16 => "addresses = 16\n",
    }
}

#[tactic(auto, unfolding(crate::specs::Text::default_line))]
fn push_default(out: &mut String, size: Size) -> Result<(), AllocError>
    ensures { OnOk result (string_bytes out.new ≡ string_bytes out.old ++ default_line size) }
{
    let Size { rows, cols } = size;
    write!(out, "default = \"{rows}x{cols}\"\n")
}

#[tactic(auto, unfolding(crate::specs::Text::alternate_line))]
fn push_alternate(out: &mut String, size: Size) -> Result<(), AllocError>
    ensures { OnOk result (string_bytes out.new ≡ string_bytes out.old ++ alternate_line size) }
{
    let Size { rows, cols } = size;
    write!(out, "alternate = \"{rows}x{cols}\"\n")
}

#[tactic(auto, unfolding(crate::specs::Text::geometry_lines))]
fn push_geometry(out: &mut String, geometry: &Geometry) -> Result<(), AllocError>
    ensures { OnOk result
        (string_bytes out.new ≡ string_bytes out.old ++ geometry_lines geometry.now) }
{
    out.push_str(mode_line(geometry.mode()))?;
    push_default(out, geometry.default_size())?;
    push_alternate(out, geometry.alternate_size())
}

fn screen_line(screen: &Screen<PlaneCells>) -> &'static str
    ensures { result.now ≡ screen_line screen.now }
{
    if screen.size() == screen.geometry().default_size() {
        "screen = \"default\"\n"
    } else {
        "screen = \"alternate\"\n"
    }
}

fn push_top(out: &mut String, screen: &Screen<PlaneCells>) -> Result<(), AllocError>
    ensures { OnOk result
        (string_bytes out.new ≡ string_bytes out.old ++ top_lines screen.now) }
{
    push_geometry(out, &screen.geometry())?;
    out.push_str(screen_line(screen))
}

// ---- a field

pub(crate) fn kind_of(attr: Attr) -> Kind
    ensures { result ≡ kind_of attr }
{
    if attr.protected() {
        Kind::Fixed
    } else {
        Kind::Input
    }
}

fn kind_word(kind: Kind) -> &'static str
    ensures { result.now ≡ kind_word kind }
{
    match kind {
        Kind::Input => "input",
        Kind::Fixed => "fixed",
    }
}

/// Whether an operator can type there, digits alone on a terminal that locks letters out.
fn takes_digits(attr: Attr) -> bool
    ensures { result ≡ takes_digits attr }
{
    !attr.protected() && attr.numeric()
}

fn label_words(label: &str) -> &str
    ensures { result.now ≡ label_words label.now }
{
    if label.is_empty() { "no label" } else { label }
}

/// What an operator sees: the label, and whether the field is hidden or numeric.
fn push_comment(
    alloc: Global,
    out: &mut String,
    screen: &Screen<PlaneCells>,
    field: &FieldAt,
) -> Result<(), AllocError>
    ensures { OnOk result
        (string_bytes out.new ≡ string_bytes out.old ++ comment_line screen.now field.now) }
{
    let label = label_before(alloc, screen, field)?;
    let hidden = if field.attr.hidden() { ", hidden" } else { "" };
    let numeric = if takes_digits(field.attr) {
        ", numeric"
    } else {
        ""
    };
    out.push_str("# ")?;
    out.push_str(label_words(label.as_str()))?;
    out.push_str(hidden)?;
    out.push_str(numeric)?;
    out.push_str("\n")
}

#[tactic(auto, unfolding(crate::specs::Text::name_lines))]
fn push_name(out: &mut String, name: &str) -> Result<(), AllocError>
    ensures { OnOk result (string_bytes out.new ≡ string_bytes out.old ++ name_lines name.now) }
{
    write!(out, "\n[[field]]\nname = \"{name}\"\n")
}

/// The row and the column of the first cell, counted from 1.
fn push_place(out: &mut String, cols: u32, place: u32) -> Result<(), AllocError>
    requires { 0 < cols }
    ensures { OnOk result
        (string_bytes out.new ≡ string_bytes out.old ++ place_lines cols place) }
{
    let row = u64::from(place / cols) + 1;
    let col = u64::from(place % cols) + 1;
    write!(out, "row = {row}\ncol = {col}\n")
}

fn push_length(out: &mut String, field: &FieldAt) -> Result<(), AllocError>
    ensures { OnOk result
        (string_bytes out.new ≡ string_bytes out.old ++ length_lines field.now) }
{
    let length = field.length;
    let kind = kind_word(kind_of(field.attr));
    write!(out, "length = {length}\nkind = \"{kind}\"\n")
}

/// What follows the name of a field.
#[tactic(auto, unfolding(crate::specs::Text::other_lines))]
fn push_field(
    alloc: Global,
    out: &mut String,
    screen: &Screen<PlaneCells>,
    field: &FieldAt,
) -> Result<(), AllocError>
    ensures { OnOk result
        (string_bytes out.new ≡ string_bytes out.old ++ other_lines screen.now field.now) }
{
    push_place(out, u32::from(screen.size().cols), field.place)?;
    push_length(out, field)?;
    push_comment(alloc, out, screen, field)
}

#[tactic(auto, unfolding(crate::specs::Text::field_lines))]
fn push_draft(
    alloc: Global,
    out: &mut String,
    screen: &Screen<PlaneCells>,
    draft: &Drafted,
) -> Result<(), AllocError>
    ensures { OnOk result
        (string_bytes out.new ≡ string_bytes out.old ++ field_lines screen.now draft.now) }
{
    push_name(out, draft.name.as_str())?;
    push_field(alloc, out, screen, &draft.field)
}

/// The text of the draft that declares these fields.
pub(crate) fn draft_text(
    alloc: Global,
    screen: &Screen<PlaneCells>,
    drafts: &[Drafted],
) -> Result<String, AllocError>
    ensures { IfOk result (λ text. string_bytes text ≡ draft_text screen.now drafts.now) }
{
    let mut text = String::new(alloc);
    push_top(&mut text, screen)?;
    for draft in drafts {
        push_draft(alloc, &mut text, screen, draft)?;
    }
    Ok(text)
}
