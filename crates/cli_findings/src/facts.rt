//! What findings tell beside their numbers and their words.

ghost use Rattle.std.specs.Prelude.{◌≡◌, ◌≤◌, option_map, IfOk};
ghost use Rattle.std.specs.String.{string_bytes};
ghost use Rattle.cli_findings.specs.Facts.{record_told, byte_told, record_of, byte_of, entry_index, entry_of, field_place, place_of, row_at, column_at, length_of, sizes_of, size_text};

use ds_codec::Size;
use scr_check::{Finding, Traced};
use scr_layout::Entry;
use std::alloc::{AllocError, Global};

/// The record that a finding tells by itself, counted from 0.
pub fn record_told(finding: &Finding) -> Option<usize>
    ensures { result ≡ record_told finding.now }
{
    match finding {
        Finding::RecordRefused(index, _)
        | Finding::NotAWrite(index)
        | Finding::CursorDependent(index) => Some(*index),
        Finding::FirstNotErase => Some(0),
        _ => None,
    }
}

/// The byte of that record at which it is refused, counted from 0.
fn byte_told(finding: &Finding) -> Option<usize>
    ensures { result ≡ byte_told finding.now }
{
    match finding {
        Finding::RecordRefused(_, refused) => Some(refused.at()),
        _ => None,
    }
}

/// The record that it is about, counted from 0: the one that it tells, or that of the order from which it comes.
pub(crate) fn record_of(traced: &Traced) -> Option<usize>
    ensures { result ≡ record_of traced.now }
{
    match record_told(&traced.finding) {
        Some(index) => Some(index),
        None => Some(traced.origin?.index),
    }
}

/// The byte of that record, counted from 0: the one that it tells, or the order's first.
pub fn byte_of(traced: &Traced) -> Option<usize>
    ensures { result ≡ byte_of traced.now }
{
    match byte_told(&traced.finding) {
        Some(byte) => Some(byte),
        None => Some(traced.origin?.at),
    }
}

fn entry_index(finding: &Finding) -> Option<usize>
    ensures { result ≡ entry_index finding.now }
{
    match finding {
        Finding::Missing(index) | Finding::OtherKind(index) => Some(*index),
        Finding::TooLong(found) => Some(found.entry),
        _ => None,
    }
}

/// The entry that it is about.
pub(crate) fn entry_of<'a>(entries: &'a [Entry], finding: &Finding) -> Option<&'a Entry>
    ensures { option_map (λ entry. entry.now) result ≡ entry_of entries.now finding.now }
{
    entries.get(entry_index(finding)?)
}

/// The place of a field that has no entry.
fn field_place(finding: &Finding) -> Option<u32>
    ensures { result ≡ field_place finding.now }
{
    match finding {
        Finding::Undeclared(place, _)
        | Finding::UndeclaredFixed(place, _)
        | Finding::EmptyModified(place)
        | Finding::Selectable(place) => Some(*place),
        _ => None,
    }
}

/// The buffer address of the first character of the field, or of the entry.
pub fn place_of(entries: &[Entry], finding: &Finding) -> Option<u32>
    ensures { result ≡ place_of entries.now finding.now }
{
    match field_place(finding) {
        Some(place) => Some(place),
        None => Some(entry_of(entries, finding)?.place),
    }
}

/// The row of a buffer address, counted from 1.
pub fn row_at(size: Size, place: u32) -> u64
    requires { 1 ≤ size.cols }
    ensures { result ≡ row_at size place }
{
    u64::from(place / u32::from(size.cols)) + 1
}

/// The column of a buffer address, counted from 1.
pub fn column_at(size: Size, place: u32) -> u64
    requires { 1 ≤ size.cols }
    ensures { result ≡ column_at size place }
{
    u64::from(place % u32::from(size.cols)) + 1
}

/// The cells of a field that has more than its entry declares.
pub(crate) fn length_of(finding: &Finding) -> Option<u64>
    ensures { result ≡ length_of finding.now }
{
    match finding {
        Finding::TooLong(found) => Some(u64::from(found.length)),
        _ => None,
    }
}

/// The size of the screen, and the layout's.
pub(crate) fn sizes_of(finding: &Finding) -> Option<(Size, Size)>
    ensures { result ≡ sizes_of finding.now }
{
    match finding {
        Finding::OtherSize(shown, declared) => Some((*shown, *declared)),
        _ => None,
    }
}

/// A size, as `24x80`.
pub(crate) fn size_text(alloc: Global, size: Size) -> Result<String, AllocError>
    ensures { IfOk result (λ text. string_bytes text ≡ size_text size) }
{
    let Size { rows, cols } = size;
    format!(in alloc; "{rows}x{cols}")
}
