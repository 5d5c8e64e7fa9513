//! What to do about a finding.

ghost use Rattle.std.specs.Prelude.{◌≡◌, ◌++◌, ◌<◌, ◌≤◌, option_map, slice_get, IfOk, OnOk, Some};
ghost use Rattle.std.specs.String.{string_bytes};
ghost use Rattle.ds_codec.specs.Geometry.{cells_of, IsGood};
ghost use Rattle.scr_check.specs.FindingText.{name_at};
ghost use Rattle.cli_findings.specs.Help.{entry_keys, undeclared_help, modified_help, selectable_help, undeclared_fixed_help, address_digits, missing_text, missing_help, no_cell_text, absent_help, too_long_help, kind_words, other_kind_help, leave_out_help, begin_help, entry_help, field_help, built_help, help_for, help_of};

use crate::facts::{column_at, row_at};
use crate::free_name::field_name;
use crate::rule::rule_of;
use ds_codec::{Geometry, Size, encode_address};
use ds_screen::ring::previous;
use order_lines::push_bytes;
use scr_check::{Finding, Origin, Overlong, Traced, attribute_place, name_at};
use scr_layout::{Entry, Kind, Layout};
use std::alloc::{AllocError, Global};

/// The keys of an entry for a field at a place, but for its length.
fn push_entry(
    alloc: Global,
    out: &mut String,
    entries: &[Entry],
    size: Size,
    place: u32,
) -> Result<(), AllocError>
    requires { 1 ≤ size.cols }
    ensures { OnOk result (string_bytes out.new
        ≡ string_bytes out.old ++ entry_keys entries.now size place) }
{
    let name = field_name(alloc, entries, place)?;
    let row = row_at(size, place);
    let column = column_at(size, place);
    write!(out, "name = \"{name}\", row = {row}, col = {column}")
}

fn undeclared_help(
    alloc: Global,
    entries: &[Entry],
    size: Size,
    place: u32,
) -> Result<String, AllocError>
    requires { 1 ≤ size.cols }
    ensures { IfOk result (λ text. string_bytes text ≡ undeclared_help entries.now size place) }
{
    let mut text = String::from_str(alloc, "declare it by [[field]], ")?;
    push_entry(alloc, &mut text, entries, size, place)?;
    text.push_str(" and its length, or protect it")?;
    Ok(text)
}

fn modified_help(alloc: Global, size: Size, place: u32) -> Result<String, AllocError>
    ensures { IfOk result (λ text. string_bytes text ≡ modified_help size place) }
{
    let attribute = attribute_place(size, place);
    format!(in alloc; "reset bit 01, the modified data tag, of the attribute at {attribute}")
}

fn selectable_help(alloc: Global, size: Size, place: u32) -> Result<String, AllocError>
    ensures { IfOk result (λ text. string_bytes text ≡ selectable_help size place) }
{
    let attribute = attribute_place(size, place);
    format!(in alloc;
        "reset bits 0C, display, of the attribute at {attribute}, or begin the field with another character than ?, >, &, space and null"
    )
}

fn undeclared_fixed_help(
    alloc: Global,
    entries: &[Entry],
    size: Size,
    place: u32,
) -> Result<String, AllocError>
    requires { 1 ≤ size.cols }
    ensures { IfOk result (λ text. string_bytes text
        ≡ undeclared_fixed_help entries.now size place) }
{
    let mut text = modified_help(alloc, size, place)?;
    text.push_str(", or declare it by [[field]], ")?;
    push_entry(alloc, &mut text, entries, size, place)?;
    text.push_str(", kind = \"fixed\" and its length")?;
    Ok(text)
}

/// An address as Set Buffer Address spells it, in hexadecimal.
///
/// # Errors
///
/// Where a request for memory was refused.
pub fn address_text(
    alloc: Global,
    geometry: Geometry,
    size: Size,
    address: u32,
) -> Result<String, AllocError>
    requires good { IsGood geometry.mode size }
    requires inside { address < cells_of size }
    ensures { IfOk result (λ text. string_bytes text
        ≡ address_digits geometry.mode size address) }
{
    let mut text = String::new(alloc);
    let bytes = encode_address(geometry.mode(), size.cells(), address);
    push_bytes(&mut text, &bytes)?;
    Ok(text)
}

#[tactic(auto, unfolding(crate::specs::Help::missing_text))]
fn missing_text(
    alloc: Global,
    attribute: u32,
    digits: &str,
    name: &str,
) -> Result<String, AllocError>
    ensures { IfOk result (λ text. string_bytes text
        ≡ missing_text attribute digits.now name.now) }
{
    format!(in alloc;
        "write an attribute at {attribute}, by Set Buffer Address 11{digits}, and a character after it, or correct row and col of {name}"
    )
}

fn missing_help(
    alloc: Global,
    geometry: Geometry,
    size: Size,
    entry: &Entry,
) -> Result<String, AllocError>
    requires good { IsGood geometry.mode size }
    requires inside { entry.now.place < cells_of size }
    ensures { IfOk result (λ text. string_bytes text
        ≡ missing_help geometry.mode size entry.now) }
{
    let attribute = previous(size.cells(), entry.place);
    let address = address_text(alloc, geometry, size, attribute)?;
    missing_text(alloc, attribute, address.as_str(), entry.name.as_str())
}

#[tactic(auto, unfolding(crate::specs::Help::no_cell_text))]
fn no_cell_text(alloc: Global, place: u32, name: &str) -> Result<String, AllocError>
    ensures { IfOk result (λ text. string_bytes text ≡ no_cell_text place name.now) }
{
    format!(in alloc;
        "write a character in place of the attribute at {place}, or correct row and col of {name}"
    )
}

/// An entry where no field has a cell: no attribute stands before its place, or one whose field ends at once.
fn absent_help(
    alloc: Global,
    geometry: Geometry,
    size: Size,
    end: Option<Origin>,
    entry: &Entry,
) -> Result<String, AllocError>
    requires good { IsGood geometry.mode size }
    requires inside { entry.now.place < cells_of size }
    ensures { IfOk result (λ text. string_bytes text
        ≡ absent_help geometry.mode size end entry.now) }
{
    match end {
        Some(_end) => no_cell_text(alloc, entry.place, entry.name.as_str()),
        None => missing_help(alloc, geometry, size, entry),
    }
}

fn too_long_help(alloc: Global, name: &str, found: Overlong) -> Result<String, AllocError>
    ensures { IfOk result (λ text. string_bytes text ≡ too_long_help name.now found) }
{
    let length = found.length;
    let declared = found.declared;
    format!(in alloc;
        "declare length = {length} for {name}, or end the field by an attribute after {declared} cells"
    )
}

fn kind_words(kind: Kind) -> &'static str
    ensures { result.now ≡ kind_words kind }
{
    match kind {
        Kind::Input => " as kind = \"fixed\", or reset bit 20, protected, of the attribute at ",
        Kind::Fixed => " as kind = \"input\", or set bit 20, protected, of the attribute at ",
    }
}

fn other_kind_help(alloc: Global, size: Size, entry: &Entry) -> Result<String, AllocError>
    ensures { IfOk result (λ text. string_bytes text ≡ other_kind_help size entry.now) }
{
    let attribute = attribute_place(size, entry.place);
    let name = entry.name.as_str();
    let words = kind_words(entry.kind);
    format!(in alloc; "declare {name}{words}{attribute}")
}

fn leave_out_help(alloc: Global, index: usize) -> Result<String, AllocError>
    ensures { IfOk result (λ text. string_bytes text ≡ leave_out_help index) }
{
    format!(in alloc; "leave record {index} out")
}

fn begin_help(alloc: Global, index: usize) -> Result<String, AllocError>
    ensures { IfOk result (λ text. string_bytes text ≡ begin_help index) }
{
    format!(in alloc; "begin the orders of record {index} with Set Buffer Address, 11")
}

fn absent_entry_help(
    alloc: Global,
    layout: &Layout,
    end: Option<Origin>,
    index: usize,
) -> Result<Option<String>, AllocError>
    ensures { IfOk result (λ help. option_map string_bytes help ≡ option_map
        (absent_help layout.now.geometry.mode layout.now.size end)
        (slice_get layout.now.entries index)) }
{
    let Some(entry) = layout.entries().get(index) else {
        return Ok(None);
    };
    let text = absent_help(alloc, layout.geometry(), layout.size(), end, entry)?;
    Ok(Some(text))
}

fn other_kind_entry_help(
    alloc: Global,
    layout: &Layout,
    index: usize,
) -> Result<Option<String>, AllocError>
    ensures { IfOk result (λ help. option_map string_bytes help ≡ option_map
        (other_kind_help layout.now.size) (slice_get layout.now.entries index)) }
{
    match layout.entries().get(index) {
        Some(entry) => Ok(Some(other_kind_help(alloc, layout.size(), entry)?)),
        None => Ok(None),
    }
}

/// The change that ends a finding on an entry.
fn entry_help(
    alloc: Global,
    layout: &Layout,
    end: Option<Origin>,
    finding: &Finding,
) -> Result<Option<String>, AllocError>
    ensures { IfOk result (λ help. option_map string_bytes help
        ≡ entry_help layout.now end finding.now) }
{
    match finding {
        Finding::Missing(index) => absent_entry_help(alloc, layout, end, *index),
        Finding::OtherKind(index) => other_kind_entry_help(alloc, layout, *index),
        Finding::TooLong(found) => {
            let name = name_at(layout.entries(), found.entry);
            Ok(Some(too_long_help(alloc, name, *found)?))
        }
        _ => Ok(None),
    }
}

/// The change that ends a finding on a field without an entry, or on an entry.
fn field_help(
    alloc: Global,
    layout: &Layout,
    end: Option<Origin>,
    finding: &Finding,
) -> Result<Option<String>, AllocError>
    ensures { IfOk result (λ help. option_map string_bytes help
        ≡ field_help layout.now end finding.now) }
{
    let entries = layout.entries();
    let size = layout.size();
    match finding {
        Finding::Undeclared(place, _) => {
            Ok(Some(undeclared_help(alloc, entries, size, *place)?))
        }
        Finding::UndeclaredFixed(place, _) => {
            Ok(Some(undeclared_fixed_help(alloc, entries, size, *place)?))
        }
        Finding::EmptyModified(place) => Ok(Some(modified_help(alloc, size, *place)?)),
        Finding::Selectable(place) => Ok(Some(selectable_help(alloc, size, *place)?)),
        _ => entry_help(alloc, layout, end, finding),
    }
}

/// The change that ends a finding of a field that ends there, built of the finding's own numbers and names, which no row of a rule
/// can have.
fn built_help(
    alloc: Global,
    layout: &Layout,
    end: Option<Origin>,
    finding: &Finding,
) -> Result<Option<String>, AllocError>
    ensures { IfOk result (λ help. option_map string_bytes help
        ≡ built_help layout.now end finding.now) }
{
    match finding {
        Finding::NotAWrite(index) => Ok(Some(leave_out_help(alloc, *index)?)),
        Finding::CursorDependent(index) => Ok(Some(begin_help(alloc, *index)?)),
        _ => field_help(alloc, layout, end, finding),
    }
}

/// The change that ends a finding of a field that ends there, where one is known: that of its rule, or one of its own.
fn help_for(
    alloc: Global,
    layout: &Layout,
    end: Option<Origin>,
    finding: &Finding,
) -> Result<Option<String>, AllocError>
    ensures { IfOk result (λ help. option_map string_bytes help
        ≡ help_for layout.now end finding.now) }
{
    match rule_of(finding).change() {
        Some(words) => Ok(Some(String::from_str(alloc, words)?)),
        None => built_help(alloc, layout, end, finding),
    }
}

/// The change that ends a finding, where one is known: all have one but a record that is refused. An entry without a field is
/// helped by what stands at its place: whether an attribute before it leaves its field no cell.
///
/// # Errors
///
/// Where a request for memory was refused.
pub fn help_text(
    alloc: Global,
    layout: &Layout,
    traced: &Traced,
) -> Result<Option<String>, AllocError>
    ensures { IfOk result (λ help. option_map string_bytes help ≡ help_of layout.now traced.now) }
{
    help_for(alloc, layout, traced.end, &traced.finding)
}
