//! The columns of a line, and what is wrong with them.

ghost use Rattle.std.specs.Prelude.{◌≡◌, ◌<◌, ◌^◌, take, drop, length, IfOk, IfSome};
ghost use Rattle.bms_source.specs.Columns.{columns_of, text_of, first_other, first_tab, is_marked, first_bad, first_early, is_blank, fault_of, good_columns};
ghost use Rattle.std.specs.Str.{is_utf8};
ghost use Rattle.bms_source.specs.Results.{Gives};

use crate::letter::Place;
use crate::refusal::{SourceError, Why};
use std::alloc::{AllocError, Global};

/// So many columns have text.
const TEXT: usize = 71;

/// From this column on, counted from 0, all is blank.
const END: usize = 80;

/// Whether a line begins a statement, or goes on with one.
#[derive(Clone, Copy, Debug, PartialEq, Eq)]
pub(crate) enum Part {
    First,
    Later,
}

/// So many columns from the front.
fn front(columns: &[u8], count: usize) -> &[u8]
    ensures { result.now ≡ take count columns.now }
{
    if count < columns.len() {
        &columns[..count]
    } else {
        columns
    }
}

/// What comes after so many columns.
fn rest(columns: &[u8], count: usize) -> &[u8]
    ensures { result.now ≡ drop count columns.now }
{
    if count < columns.len() {
        &columns[count..]
    } else {
        &[]
    }
}

/// Columns 1 to 71.
pub(crate) fn text_of(columns: &[u8]) -> &[u8]
    ensures { result.now ≡ text_of columns.now }
{
    front(columns, TEXT)
}

/// A byte for each character of a line: of a character that takes several, the first.
pub(crate) fn columns_of(alloc: Global, line: &[u8]) -> Result<Vec<u8>, AllocError>
    ensures { IfOk result (λ columns. columns.items ≡ columns_of line.now) }
{
    if line.is_ascii() {
        return Vec::from_slice(alloc, line);
    }
    line.iter()
        .copied()
        .filter(|byte| *byte / 64 != 2)
        .collect(alloc)
}

fn first_other(columns: &[u8]) -> Option<usize>
    ensures first { result ≡ first_other columns.now }
    ensures inside { IfSome result (λ n. n < length columns.now) }
{
    columns.iter().position(|code| *code != b' ')
}

fn first_tab(columns: &[u8]) -> Option<usize>
    ensures first { result ≡ first_tab columns.now }
    ensures inside { IfSome result (λ n. n < length columns.now) }
{
    columns.iter().position(|code| *code == b'\t')
}

/// Whether the statement goes on in the next line.
pub(crate) fn is_marked(columns: &[u8]) -> bool
    ensures { result ≡ is_marked columns.now }
{
    match rest(columns, TEXT) {
        [] => false,
        [mark, ..] => *mark != b' ',
    }
}

/// The first tab or the first character after column 80, whichever comes first; the columns count from 0.
#[tactic(auto, unfolding(crate::specs::Columns::first_bad))]
fn first_bad(columns: &[u8]) -> Option<(Why, usize)>
    ensures first { result ≡ first_bad columns.now }
    ensures inside { IfSome result (λ bad. bad.1 < length columns.now) }
{
    match (first_tab(columns), first_other(rest(columns, END))) {
        (None, None) => None,
        (Some(tab), None) => Some((Why::Tab, tab)),
        (None, Some(long)) => Some((Why::LineTooLong, long + END)),
        (Some(tab), Some(long)) => {
            if tab <= long + END {
                Some((Why::Tab, tab))
            } else {
                Some((Why::LineTooLong, long + END))
            }
        }
    }
}

/// The first of columns 1 to 15 that has text, counted from 0, of a line that goes on with a statement.
fn first_early(part: Part, columns: &[u8]) -> Option<usize>
    ensures first { result ≡ first_early part columns.now }
    ensures inside { IfSome result (λ n. n < length columns.now) }
{
    match part {
        Part::First => None,
        Part::Later => first_other(front(columns, 15)),
    }
}

fn is_blank(columns: &[u8]) -> bool
    ensures { result ≡ is_blank columns.now }
{
    first_other(text_of(columns)).is_none()
}

/// What is wrong with the columns of a line, counted from 0.
#[tactic(auto, unfolding(crate::specs::Columns::fault_of))]
fn fault_of(part: Part, is_last: bool, columns: &[u8]) -> Option<(Why, usize)>
    ensures fault { result ≡ fault_of part is_last columns.now }
    ensures inside { IfSome result (λ bad. bad.1 < 2 ^ 63) }
{
    if let Some(bad) = first_bad(columns) {
        return Some(bad);
    }
    if is_marked(columns) && is_blank(columns) {
        return Some((Why::BadMark, TEXT));
    }
    if let Some(early) = first_early(part, columns) {
        return Some((Why::BadContinuation, early));
    }
    if is_marked(columns) && is_last {
        return Some((Why::BadMark, TEXT));
    }
    None
}

/// Whether a line is UTF-8.
fn is_text(line: &[u8]) -> bool
    ensures { result ≡ is_utf8 line.now }
{
    match str::from_utf8(line) {
        Ok(_text) => true,
        Err(_) => false,
    }
}

/// The columns of a line, where nothing is wrong with them.
#[tactic(auto, unfolding(crate::specs::Columns::good_columns))]
pub(crate) fn good_columns(
    alloc: Global,
    number: usize,
    part: Part,
    is_last: bool,
    line: &[u8],
) -> Result<Vec<u8>, SourceError>
    ensures { Gives (λ v. v.items) result (good_columns number part is_last line.now) }
{
    if !is_text(line) {
        return Err(SourceError::at(
            alloc,
            Why::NotText,
            Place {
                line: number,
                column: 1,
            },
        ));
    }
    let columns = columns_of(alloc, line)?;
    match fault_of(part, is_last, &columns) {
        None => Ok(columns),
        Some((why, column)) => Err(SourceError::at(
            alloc,
            why,
            Place {
                line: number,
                column: column + 1,
            },
        )),
    }
}
