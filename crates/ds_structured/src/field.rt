//! The structured fields of a record (GA23-0059, "Outbound structured fields").

ghost use Rattle.std.specs.Prelude.{◌≡◌, ◌+◌, ◌<◌, length, map, option_map, IfOk, IfSome};
ghost use Rattle.ds_structured.specs.Fields.{is_structured, is_drawing, begins_drawing, listed_query, query_of, read_partition, outbound, field_of, cut_at, cut, split, all_fields, some_fields, fields_in, field_seen};

use std::alloc::{AllocError, Global};

/// The replies that a query wants.
#[derive(Clone, Copy, Debug)]
pub enum Wanted<'a> {
    /// Each that the terminal has.
    Each,
    /// Those of these codes.
    Listed(&'a [u8]),
}

/// A structured field that is obeyed.
#[derive(Clone, Copy, Debug)]
pub enum StructuredField<'a> {
    /// Read Partition, with Query or Query List.
    Query(Wanted<'a>),
    /// Outbound 3270DS for partition 0: a command that writes, and what follows it.
    Draw(&'a [u8]),
}

fn listed_query(kind: u8, codes: &[u8]) -> Option<StructuredField<'_>>
    ensures { option_map field_seen result ≡ listed_query kind codes.now }
{
    match kind {
        0x00 => Some(StructuredField::Query(Wanted::Listed(codes))),
        0x40 | 0x80 => Some(StructuredField::Query(Wanted::Each)),
        _ => None,
    }
}

fn query(operation: u8, more: &[u8]) -> Option<StructuredField<'_>>
    ensures { option_map field_seen result ≡ query_of operation more.now }
{
    match more {
        [] if operation == 0x02 => Some(StructuredField::Query(Wanted::Each)),
        [kind, codes @ ..] if operation == 0x03 => listed_query(*kind, codes),
        _ => None,
    }
}

fn read_partition(more: &[u8]) -> Option<StructuredField<'_>>
    ensures { option_map field_seen result ≡ read_partition more.now }
{
    match more {
        [0xFF, operation, rest @ ..] => query(*operation, rest),
        _ => None,
    }
}

fn is_drawing(code: u8) -> bool
    ensures { result ≡ is_drawing code }
{
    (code == 0xF1 || code == 0xF5) || (code == 0x7E || code == 0x6F)
}

fn begins_drawing(bytes: &[u8]) -> bool
    ensures { result ≡ begins_drawing bytes.now }
{
    match bytes {
        [] => false,
        [code, ..] => is_drawing(*code),
    }
}

fn outbound(more: &[u8]) -> Option<StructuredField<'_>>
    ensures { option_map field_seen result ≡ outbound more.now }
{
    match more {
        [0x00, bytes @ ..] if begins_drawing(bytes) => Some(StructuredField::Draw(bytes)),
        _ => None,
    }
}

/// The field that these bytes are, which come after its length.
fn field_of(content: &[u8]) -> Option<StructuredField<'_>>
    ensures { option_map field_seen result ≡ field_of content.now }
{
    match content {
        [0x01, more @ ..] => read_partition(more),
        [0x40, more @ ..] => outbound(more),
        _ => None,
    }
}

/// Bytes cut by a length, which counts itself.
fn cut_at(count: usize, more: &[u8]) -> Option<(&[u8], &[u8])>
    ensures cut { option_map (λ parts. (parts.0.now, parts.1.now)) result ≡ cut_at count more.now }
    ensures shorter { IfSome result (λ parts. length parts.1.now < 2 + length more.now) }
{
    if count == 0 {
        return Some((more, &[]));
    }
    if 2 < count && count - 2 <= more.len() {
        return Some(more.split_at(count - 2));
    }
    None
}

/// A field's bytes after its length, and those after the field.
fn cut(bytes: &[u8]) -> Option<(&[u8], &[u8])>
    ensures cut { option_map (λ parts. (parts.0.now, parts.1.now)) result ≡ cut bytes.now }
    ensures shorter { IfSome result (λ parts. length parts.1.now < length bytes.now) }
{
    match bytes {
        [high, low, more @ ..] => cut_at(usize::from(*high) * 256 + usize::from(*low), more),
        _ => None,
    }
}

/// The field at the front, and the bytes after it.
fn split(bytes: &[u8]) -> Option<(StructuredField<'_>, &[u8])>
    ensures split { option_map (λ found. (field_seen found.0, found.1.now)) result
        ≡ split bytes.now }
    ensures shorter { IfSome result (λ found. length found.1.now < length bytes.now) }
{
    let (content, rest) = cut(bytes)?;
    let field = field_of(content)?;
    Some((field, rest))
}

/// The fields one after the other, where each can be obeyed.
fn all_fields<'a>(
    alloc: Global,
    bytes: &'a [u8],
) -> Result<Option<Vec<StructuredField<'a>>>, AllocError>
    ensures { IfOk result (λ found. option_map (λ fields. map field_seen fields.items) found
        ≡ all_fields bytes.now) }
{
    let mut fields = Vec::new(alloc);
    let mut rest = bytes;
    'field: while !rest.is_empty() {
        let Some((field, others)) = split(rest) else {
            return Ok(None);
        };
        fields.push(field)?;
        rest = others;
    }
    Ok(Some(fields))
}

/// The structured fields of a record, where it is a Write Structured Field, F3 or 11, and each of its fields can be obeyed; one
/// at least. Each begins with its length in two bytes, which counts these, or 0 for all that is left. They are: Read Partition, 01,
/// of partition FF with Query, 02, or Query List, 03; and Outbound 3270DS, 40, of partition 0, which holds a Write, F1, an
/// Erase/Write, F5, an Erase/Write Alternate, 7E, or an Erase All Unprotected, 6F.
pub fn read_fields<'a>(
    alloc: Global,
    bytes: &'a [u8],
) -> Result<Option<Vec<StructuredField<'a>>>, AllocError>
    ensures { IfOk result (λ found. option_map (λ fields. map field_seen fields.items) found
        ≡ fields_in bytes.now) }
{
    match bytes {
        [0x11 | 0xF3, rest @ ..] if !rest.is_empty() => all_fields(alloc, rest),
        _ => Ok(None),
    }
}
