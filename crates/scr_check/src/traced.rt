//! Findings with the orders that they come from.

ghost use Rattle.std.specs.Prelude.{◌≡◌, map, option_and_then, Result, IfOk};
ghost use Rattle.ds_screen.specs.Picture.{Picture};
ghost use Rattle.ds_screen.specs.Outline.{IsOutlineOf};
ghost use Rattle.scr_check.specs.declared.finding.Finding.{Finding};
ghost use Rattle.scr_check.specs.Origins.{kept_at};
ghost use Rattle.scr_check.specs.Seen.{IsOpened, IsOpening};
ghost use Rattle.scr_check.specs.Traced.{attribute_place, entry_place, place_found, attribute_found, end_position, ended_on, end_from, traced_by, traced_of};

use crate::checker::open;
use crate::finding::Finding;
use crate::opening::Opening;
use crate::origins::{Origin, Origins, find_origins};
use ds_codec::Size;
use ds_screen::{FieldAt, Outline};
use scr_layout::{Entry, Layout};
use std::alloc::{AllocError, Global};

/// A finding with the orders that it comes from.
#[derive(Clone, Copy, Debug, PartialEq, Eq)]
pub struct Traced {
    pub finding: Finding,
    /// The order that wrote last where the attribute of the finding's field stands, or is missing: F8 to F13, and F15.
    pub origin: Option<Origin>,
    /// The order that wrote last where the attribute stands that ends the field.
    pub end: Option<Origin>,
}

/// The position of the attribute that begins a field at a place.
#[tactic(auto, using(crate::proofs::TracedLaws::before_first, crate::proofs::TracedLaws::before_later))]
pub fn attribute_place(size: Size, place: u32) -> u32
    ensures { result ≡ attribute_place size place }
{
    if place == 0 {
        size.cells().saturating_sub(1)
    } else {
        place - 1
    }
}

fn entry_place(entries: &[Entry], index: usize) -> Option<u32>
    ensures { result ≡ entry_place entries.now index }
{
    Some(entries.get(index)?.place)
}

/// The place of the field or of the entry that a finding is about.
fn place_found(entries: &[Entry], finding: &Finding) -> Option<u32>
    ensures { result ≡ place_found entries.now finding.now }
{
    match finding {
        Finding::Undeclared(place, _)
        | Finding::UndeclaredFixed(place, _)
        | Finding::EmptyModified(place)
        | Finding::Selectable(place) => Some(*place),
        Finding::Missing(index) | Finding::OtherKind(index) => entry_place(entries, *index),
        Finding::TooLong(found) => entry_place(entries, found.entry),
        _ => None,
    }
}

/// The position where the attribute of that field stands, or is missing.
fn attribute_found(layout: &Layout, finding: &Finding) -> Option<u32>
    ensures { result ≡ attribute_found layout.now finding.now }
{
    let place = place_found(layout.entries(), finding)?;
    Some(attribute_place(layout.size(), place))
}

/// The position after a field's last cell, of so many positions.
#[tactic(auto, unfolding(ds_screen::specs::Ring::ring_on))]
fn end_position(cells: usize, field: &FieldAt) -> usize
    ensures { result ≡ end_position cells field.now }
{
    let after = field.place as usize + field.length as usize;
    if after < cells { after } else { after - cells }
}

/// The order that wrote the attribute that ends the field of the attribute at a position.
fn end_on(origins: &Origins, outline: &Outline, attribute: u32) -> Option<Origin>
    ensures { (v : Picture) → IsOutlineOf outline.now v
        → result ≡ option_and_then (kept_at origins.now) (ended_on v attribute) }
{
    let field = outline.field_at(attribute)?;
    let cells = outline.size().cells() as usize;
    origins.kept(end_position(cells, &field))
}

/// The same on the screen that is opened, if there are both.
fn end_from(origins: &Origins, opening: &Opening, attribute: Option<u32>) -> Option<Origin>
    ensures { (r : Result Picture Finding) → IsOpened r opening.now
        → result ≡ end_from (kept_at origins.now) r attribute }
{
    match opening {
        Opening::Leads(outline) => end_on(origins, outline, attribute?),
        Opening::Stands(_) => None,
    }
}

fn origin_at(origins: &Origins, attribute: Option<u32>) -> Option<Origin>
    ensures { result ≡ option_and_then (kept_at origins.now) attribute }
{
    origins.at(attribute?)
}

/// A finding with the orders that it comes from, by what was noted of each position and by the screen that is opened.
fn trace(origins: &Origins, opening: &Opening, layout: &Layout, finding: &Finding) -> Traced
    ensures { (r : Result Picture Finding) → IsOpened r opening.now
        → result ≡ traced_by (kept_at origins.now) r layout.now finding.now }
{
    let attribute = attribute_found(layout, finding);
    Traced {
        finding: *finding,
        origin: origin_at(origins, attribute),
        end: end_from(origins, opening, attribute),
    }
}

/// The same of each finding.
fn trace_each(
    alloc: Global,
    origins: &Origins,
    opening: &Opening,
    layout: &Layout,
    findings: &[Finding],
) -> Result<Vec<Traced>, AllocError>
    ensures { IfOk result (λ traced. (r : Result Picture Finding) → IsOpened r opening.now
        → traced.items ≡ map (traced_by (kept_at origins.now) r layout.now) findings.now) }
{
    let mut traced = Vec::new(alloc);
    for finding in findings {
        traced.push(trace(origins, opening, layout, finding))?;
    }
    Ok(traced)
}

/// The same of each finding on the screen that the records open.
fn trace_opened(
    alloc: Global,
    records: &[&[u8]],
    opening: &Opening,
    layout: &Layout,
    findings: &[Finding],
) -> Result<Vec<Traced>, AllocError>
    requires { IsOpening layout.now (map (λ bytes. bytes.now) records.now) opening.now }
    ensures { IfOk result (λ traced. traced.items
        ≡ map (traced_of layout.now (map (λ bytes. bytes.now) records.now)) findings.now) }
{
    let origins = find_origins(alloc, records, layout)?;
    trace_each(alloc, &origins, opening, layout, findings)
}

/// Each of these findings with the order that wrote last where the attribute of its field stands, or is missing, and with
/// the order that wrote the attribute that ends the field. The records are taken as `check` takes them, three times.
///
/// # Errors
///
/// Where a request for memory was refused.
pub fn trace_findings(
    alloc: Global,
    records: &[&[u8]],
    layout: &Layout,
    findings: &[Finding],
) -> Result<Vec<Traced>, AllocError>
    ensures { IfOk result (λ traced. traced.items
        ≡ map (traced_of layout.now (map (λ bytes. bytes.now) records.now)) findings.now) }
{
    if findings.is_empty() {
        return Ok(Vec::new(alloc));
    }
    let opening = open(alloc, records, layout)?;
    trace_opened(alloc, records, &opening, layout, findings)
}
