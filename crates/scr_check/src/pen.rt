//! The fields that Cursor Select or a light pen may not select, and the verdict that tells of them.

ghost use Rattle.std.specs.Prelude.{◌≡◌, ◌↔◌, ◌++◌, [], map, IfOk, OnOk};
ghost use Rattle.ds_screen.specs.Picture.{cell_at};
ghost use Rattle.scr_check.specs.Seen.{findings_in, TellsSome};
ghost use Rattle.scr_check.specs.Leads.{IsPromised};
ghost use Rattle.scr_check.specs.Any.{IsPromisedForAny};
ghost use Rattle.scr_check.specs.Demos.{AreShown};
ghost use Rattle.scr_check.specs.Pen.{is_designator, code_of, is_selectable, selectable_of, answer_with_pen, ConformsWithPen, IsPromisedWithPen, ShowsOpened, ShowsTaken};

use crate::checker::open;
use crate::fields::findings_of;
use crate::finding::Finding;
use crate::opening::{FirstTurn, Opening};
use crate::taking::take_by;
use crate::verdict::{Verdict, verdict_of};
use ds_codec::Cell;
use ds_screen::{Cells, FieldAt, PlaneCells, Screen};
use scr_layout::Layout;
use std::alloc::{AllocError, Global};

/// Whether a code is `?`, `>`, `&`, a space or a null.
fn is_designator(code: u8) -> bool
    ensures { result ≡ is_designator code }
{
    matches!(code, 0x6F | 0x6E | 0x50 | 0x40 | 0x00)
}

/// The code of the character at a position; 0 where an attribute stands.
fn code_at<C: Cells>(screen: &Screen<C>, place: u32) -> u8
    ensures { result ≡ code_of (cell_at screen.now.cells place) }
{
    if place >= screen.size().cells() {
        return 0;
    }
    match screen.cell(place) {
        Cell::Field(_) => 0,
        Cell::Char(character) => character.code(),
    }
}

/// Whether selecting this field of the screen changes what is protected, or sets the tag of a field without cells.
#[tactic(auto, unfolding(crate::specs::Pen::is_selectable))]
fn is_selectable<C: Cells>(screen: &Screen<C>, field: &FieldAt) -> bool
    ensures { result ≡ is_selectable screen.now.cells field.now }
{
    if !field.attr.detectable() {
        return false;
    }
    if field.length == 0 {
        return true;
    }
    field.attr.protected() && is_designator(code_at(screen, field.place))
}

/// Adds the fields of a screen that Cursor Select or a light pen may not select, in the order of their attributes.
fn add_selectable<C: Cells>(
    findings: &mut Vec<Finding>,
    screen: &Screen<C>,
) -> Result<(), AllocError>
    ensures { OnOk result (findings.new.items
        ≡ findings.old.items ++ selectable_of screen.now.cells) }
{
    for field in screen.fields() {
        if is_selectable(screen, &field) {
            findings.push(Finding::Selectable(field.place))?;
        }
    }
    Ok(())
}

/// The fields of a screen that Cursor Select or a light pen may not select, each as F15, in the order of their attributes: a
/// protected one that can be selected, and one without cells whose display bits say so.
///
/// # Errors
///
/// Where a request for memory was refused.
pub fn find_selectable<C: Cells>(
    alloc: Global,
    screen: &Screen<C>,
) -> Result<Vec<Finding>, AllocError>
    ensures { IfOk result (λ findings. findings.items ≡ selectable_of screen.now.cells) }
{
    let mut findings = Vec::new(alloc);
    add_selectable(&mut findings, screen)?;
    Ok(findings)
}

/// Takes the records in turn, by the rule of a first turn, up to the first against which something stands.
fn take_shown<C: Cells>(screen: &mut Screen<C>, records: &[&[u8]]) -> Result<(), Finding>
    ensures { ShowsTaken screen.old screen.new (map (λ bytes. bytes.now) records.now) result }
{
    for (index, bytes) in records.iter().enumerate() {
        if let Err(finding) = take_by::<FirstTurn, Screen<C>>(screen, index, bytes) {
            return Err(finding);
        }
    }
    Ok(())
}

/// The screen that the records open, where they open one.
fn shown(
    alloc: Global,
    records: &[&[u8]],
    layout: &Layout,
) -> Result<Screen<PlaneCells>, AllocError>
    ensures { IfOk result (ShowsOpened layout.now (map (λ bytes. bytes.now) records.now)) }
{
    let mut screen = Screen::new(alloc, layout.geometry())?;
    let _ = take_shown(&mut screen, records);
    Ok(screen)
}

/// The verdict of `check`, and after all else each field that Cursor Select or a light pen may not select, as F15. Where the
/// records open no screen, nothing is told of the pen.
///
/// # Errors
///
/// Where a request for memory was refused.
pub fn check_with_pen(
    alloc: Global,
    records: &[&[u8]],
    layout: &Layout,
) -> Result<Verdict, AllocError>
    ensures yes { IfOk result (λ verdict. verdict
        ≡ Verdict.Yes ↔ ConformsWithPen layout.now (map (λ bytes. bytes.now) records.now)) }
    ensures listed { IfOk result
        (λ verdict. findings_in verdict ≡ answer_with_pen layout.now
        (map (λ bytes. bytes.now) records.now)) }
    ensures some { IfOk result TellsSome }
    ensures promise { IfOk result
        (λ verdict. verdict ≡ Verdict.Yes → IsPromised layout.now
        (map (λ bytes. bytes.now) records.now)) }
    ensures any { IfOk result
        (λ verdict. verdict ≡ Verdict.Yes → IsPromisedForAny layout.now
        (map (λ bytes. bytes.now) records.now)) }
    ensures pen { IfOk result
        (λ verdict. verdict ≡ Verdict.Yes → IsPromisedWithPen layout.now
        (map (λ bytes. bytes.now) records.now)) }
    ensures shown { IfOk result
        (λ verdict. AreShown layout.now (map (λ bytes. bytes.now) records.now)
        (findings_in verdict)) }
{
    match open(alloc, records, layout)? {
        Opening::Stands(finding) => Ok(verdict_of(vec![in alloc; finding]?)),
        Opening::Leads(outline) => {
            let mut findings = findings_of(alloc, &outline, layout)?;
            let screen = shown(alloc, records, layout)?;
            add_selectable(&mut findings, &screen)?;
            Ok(verdict_of(findings))
        }
    }
}
