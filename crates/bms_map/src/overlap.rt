//! Fields that overlap, or go past the end of their map.

ghost use Rattle.std.specs.Prelude.{◌≡◌, ◌<◌, ◌≤◌, ◌++◌, length, IfOk, OnOk};
ghost use Rattle.std.specs.List.{flat_map, range_with_len};
ghost use Rattle.bms_map.specs.Overlaps.{end_of, nearest, overlapping, past_end, overlaps_at, overlaps_of, OverlapsAreNearest, NearestIsOne};

use crate::field::Field;
use crate::map::Map;
use std::alloc::{AllocError, Global};

/// A fault that no record shows. Fields are told by their index.
#[derive(Clone, Copy, Debug, PartialEq, Eq)]
pub enum Overlap {
    /// M1: the attribute of the first stands in the second, which is before it.
    Overlaps(usize, usize),
    /// M2: the last character of the field comes so many cells after the map's last line and column.
    PastEnd(usize, u32),
}

/// The position of a field's last character, not counted round the screen's end.
fn cell_of(field: &Field) -> u32
    ensures { result ≡ field.now.cell }
{
    field.cell
}

fn end_of(field: &Field) -> u32
    ensures { result ≡ end_of field.now }
{
    field.cell.saturating_add(field.length)
}

/// The nearest of the first so many fields that reaches to a position.
fn nearest(fields: &[Field], cell: u32, count: usize) -> Option<usize>
    requires { count ≤ length fields.now }
    ensures { result ≡ nearest fields.now cell count }
{
    let mut i = count;
    'fields: while 0 < i {
        i -= 1;
        if cell <= end_of(&fields[i]) {
            return Some(i);
        }
    }
    None
}

/// Adds that a field stands in another.
fn push_overlapping(
    found: &mut Vec<Overlap>,
    index: usize,
    other: Option<usize>,
) -> Result<(), AllocError>
    ensures { OnOk result (found.new.items ≡ found.old.items ++ overlapping index other) }
{
    if let Some(other) = other {
        found.push(Overlap::Overlaps(index, other))?;
    }
    Ok(())
}

/// Adds that a field goes past the last position.
fn push_past(found: &mut Vec<Overlap>, index: usize, last: u32, end: u32) -> Result<(), AllocError>
    ensures { OnOk result (found.new.items ≡ found.old.items ++ past_end index last end) }
{
    if last < end {
        found.push(Overlap::PastEnd(index, end - last))?;
    }
    Ok(())
}

/// Adds those of the field of an index.
fn push_overlaps(
    found: &mut Vec<Overlap>,
    fields: &[Field],
    last: u32,
    index: usize,
) -> Result<(), AllocError>
    requires { index < length fields.now }
    ensures { OnOk result
        (found.new.items ≡ found.old.items ++ overlaps_at fields.now last index) }
{
    let field = &fields[index];
    push_overlapping(found, index, nearest(fields, cell_of(field), index))?;
    push_past(found, index, last, end_of(field))
}

/// Those of each of the fields in turn.
fn overlaps_in(alloc: Global, fields: &[Field], last: u32) -> Result<Vec<Overlap>, AllocError>
    ensures { IfOk result (λ found. found.items
        ≡ flat_map (overlaps_at fields.now last) (range_with_len 0 (length fields.now))) }
{
    let mut found = Vec::new(alloc);
    'fields: for index in 0..fields.len() {
        push_overlaps(&mut found, fields, last, index)?;
    }
    Ok(found)
}

/// All of them, field by field.
///
/// # Errors
///
/// Where a request for memory was refused.
pub fn overlaps_of(alloc: Global, map: &Map) -> Result<Vec<Overlap>, AllocError>
    ensures { IfOk result (λ found. found.items ≡ overlaps_of map.now) }
{
    overlaps_in(alloc, map.fields.as_slice(), map.area.last())
}

/// What is told of overlaps is the nearest of those before, and nothing else.
pub fn overlaps_are_nearest()
    ensures { OverlapsAreNearest }
{}

/// The nearest is one.
pub fn nearest_is_one()
    ensures { NearestIsOne }
{}
