//! What to add: the entry of a field that has none, and the order that writes an attribute as it should be.

ghost use Rattle.std.specs.Prelude.{◌≡◌, ◌≤◌, ◌<◌, ◌++◌, length, option_map, Some, IfOk, IfSome, OnOk, string_bytes};
ghost use Rattle.ds_codec.specs.Geometry.{cells_of};
ghost use Rattle.ds_screen.specs.Fields.{attribute_of, fields_of};
ghost use Rattle.ds_screen.specs.Picture.{cell_at};
ghost use Rattle.cli_findings.specs.Help.{names_in};
ghost use Rattle.cli_reports.specs.Add.{undeclared, kind_line, entry_block, entry_lines, amended, amended_line, write_line, declared_cells, stop_after, written_for, added};
ghost use Rattle.cli_reports.specs.Extent.{length_in};

use crate::extent::length_at;
use cli_findings::{address_text, column_at, field_name, place_of, row_at};
use ds_codec::{Attr, Cell, to_six_bit_code};
use ds_screen::ring::{forward, previous};
use ds_screen::{PlaneCells, Screen};
use order_lines::push_hex;
use scr_check::Finding;
use scr_layout::{Kind, Layout};
use std::alloc::{AllocError, Global};

/// The bits of an attribute that ends a field: protected, and passed by the cursor.
const STOPPER: u8 = 0x30;

/// The place of a field that has no entry, and the kind that its entry has.
fn undeclared(finding: &Finding) -> Option<(u32, Kind)>
    ensures { result ≡ undeclared finding.now }
{
    match finding {
        Finding::Undeclared(place, _) => Some((*place, Kind::Input)),
        Finding::UndeclaredFixed(place, _) => Some((*place, Kind::Fixed)),
        _ => None,
    }
}

fn kind_line(kind: Kind) -> &'static str
    ensures { result.now ≡ kind_line kind }
{
    match kind {
        Kind::Input => "",
        Kind::Fixed => "    kind = \"fixed\"\n",
    }
}

#[tactic(auto, unfolding(crate::specs::Add::entry_block))]
fn push_block(
    out: &mut String,
    name: &str,
    row: u64,
    column: u64,
    length: u32,
) -> Result<(), AllocError>
    ensures { OnOk result (string_bytes out.new
        ≡ string_bytes out.old ++ entry_block name.now row column length) }
{
    write!(
        out,
        "  add:\n    [[field]]\n    name = \"{name}\"\n    row = {row}\n    col = {column}\n    length = {length}\n"
    )
}

/// The entry of a field at a place, as it stands in a layout.
fn push_entry(
    alloc: Global,
    out: &mut String,
    layout: &Layout,
    place: u32,
    kind: Kind,
    length: Option<u32>,
) -> Result<(), AllocError>
    ensures { OnOk result (string_bytes out.new
        ≡ string_bytes out.old ++ entry_lines layout.now place kind length) }
{
    let Some(length) = length else {
        return Ok(());
    };
    let size = layout.size();
    let name = field_name(alloc, layout.entries(), place)?;
    push_block(
        out,
        name.as_str(),
        row_at(size, place),
        column_at(size, place),
        length,
    )?;
    out.push_str(kind_line(kind))
}

/// An attribute as it should be for a finding on it.
fn amended(finding: &Finding, attribute: Attr) -> Option<Attr>
    ensures { result ≡ amended finding.now attribute }
{
    match finding {
        Finding::UndeclaredFixed(_, _) | Finding::EmptyModified(_) => {
            Some(attribute.with_modified(false))
        }
        Finding::OtherKind(_) => Some(attribute.with_protected(!attribute.protected())),
        _ => None,
    }
}

/// The attribute at a position, if one stands there.
fn attribute_at(screen: &Screen<PlaneCells>, p: u32) -> Option<Attr>
    requires { p < length screen.now.cells }
    ensures { result ≡ attribute_of (cell_at screen.now.cells p) }
{
    match screen.cell(p) {
        Cell::Field(attribute) => Some(attribute),
        Cell::Char(_) => None,
    }
}

fn push_write(out: &mut String, address: &str, attribute: Attr) -> Result<(), AllocError>
    ensures { OnOk result (string_bytes out.new
        ≡ string_bytes out.old ++ amended_line address.now attribute) }
{
    out.push_str("  write: 11")?;
    out.push_str(address)?;
    out.push_str("1D")?;
    push_hex(out, to_six_bit_code(attribute.bits()))?;
    out.push_str("\n")
}

/// The orders that write the attribute before a place as it should be.
fn push_amended(
    alloc: Global,
    out: &mut String,
    layout: &Layout,
    screen: &Screen<PlaneCells>,
    finding: &Finding,
    place: u32,
) -> Result<(), AllocError>
    ensures { OnOk result (string_bytes out.new
        ≡ string_bytes out.old ++ write_line layout.now screen.now finding.now place) }
{
    let size = layout.size();
    if place >= size.cells() || size.cells() != screen.size().cells() {
        return Ok(());
    }
    let at = previous(size.cells(), place);
    let Some(attribute) = attribute_at(screen, at) else {
        return Ok(());
    };
    match amended(finding, attribute) {
        Some(attribute) => {
            let address = address_text(alloc, layout.geometry(), size, at)?;
            push_write(out, address.as_str(), attribute)
        }
        None => Ok(()),
    }
}

/// The cells that are declared of a field that has more.
fn declared_cells(finding: &Finding) -> Option<u32>
    ensures { result ≡ declared_cells finding.now }
{
    match finding {
        Finding::TooLong(found) => Some(found.declared),
        _ => None,
    }
}

/// The orders that end the field at a place after so many cells.
fn push_stopper(
    alloc: Global,
    out: &mut String,
    layout: &Layout,
    screen: &Screen<PlaneCells>,
    place: u32,
    cells: u32,
) -> Result<(), AllocError>
    ensures { OnOk result (string_bytes out.new
        ≡ string_bytes out.old ++ stop_after layout.now screen.now place cells) }
{
    let size = layout.size();
    if place >= size.cells() || cells > size.cells() || size.cells() != screen.size().cells() {
        return Ok(());
    }
    let at = forward(size.cells(), place, cells);
    let address = address_text(alloc, layout.geometry(), size, at)?;
    push_write(out, address.as_str(), Attr::new(STOPPER))
}

/// The orders that write what is amiss with the field at a place.
fn push_written(
    alloc: Global,
    out: &mut String,
    layout: &Layout,
    screen: &Screen<PlaneCells>,
    finding: &Finding,
    place: u32,
) -> Result<(), AllocError>
    ensures { OnOk result (string_bytes out.new
        ≡ string_bytes out.old ++ written_for layout.now screen.now finding.now (Some place)) }
{
    push_amended(alloc, out, layout, screen, finding, place)?;
    match declared_cells(finding) {
        Some(cells) => push_stopper(alloc, out, layout, screen, place, cells),
        None => Ok(()),
    }
}

/// What is to be added for a finding of a screen.
pub(crate) fn push_added(
    alloc: Global,
    out: &mut String,
    layout: &Layout,
    screen: &Screen<PlaneCells>,
    finding: &Finding,
) -> Result<(), AllocError>
    ensures { OnOk result (string_bytes out.new
        ≡ string_bytes out.old ++ added layout.now screen.now finding.now) }
{
    if let Some((place, kind)) = undeclared(finding) {
        let length = length_at(screen, place);
        push_entry(alloc, out, layout, place, kind, length)?;
    }
    match place_of(layout.entries(), finding) {
        Some(place) => push_written(alloc, out, layout, screen, finding, place),
        None => Ok(()),
    }
}
