//! Where a finding or a refusal stands in the text of an input.

ghost use Rattle.std.specs.Prelude.{◌≡◌, ◌≤◌, codes, map, option_and_then, slice_get, unwrap_or, IfOk, length};
ghost use Rattle.cli_commands.specs.Lines.{within_limit};
ghost use Rattle.cli_findings.specs.Region.{digit_ends, record_ends, standing_in, byte_columns, begins, is_blank, without_blanks, is_table, table_line, spot_columns, spot_region, finding_region, order_region, fault_table, line_in, line_of_fault};

use crate::facts::{byte_of, record_of};
use crate::record_line::{is_silent, record_numbers};
use bstr::ByteSlice;
use cli_commands::{Fault, MOST_BYTES};
use scr_check::{Origin, Traced};
use std::alloc::{AllocError, Global};
use std::marker::Model;

/// The columns of a byte's two digits, counted from 1.
#[derive(Clone, Copy)]
pub struct Columns {
    /// The first digit's.
    pub start: usize,
    /// The one after the second digit.
    pub after: usize,
}

/// Part of an input.
#[derive(Clone, Copy)]
pub struct Region {
    /// The line, counted from 1.
    pub line: usize,
    /// The columns, where a byte is known.
    pub columns: Option<Columns>,
}

/// Where records stand in their text: the line of each, counted from 1, and the column after each of its digits.
#[derive(Drop)]
pub(crate) struct Standing {
    numbers: Vec<usize>,
    ends: Vec<Vec<usize>>,
}

impl Model for Standing {
    ghost use Rattle.std.specs.Prelude.{map};
    ghost use Rattle.cli_findings.specs.Region.{Standing as AStanding};

    ghost Value = { AStanding };

    ghost view = { λ s. record {
      numbers = s.numbers.items;
      ends = map (λ ends. ends.items) s.ends.items;
    } };
}

/// The column after each digit of a line, counted from 1; spaces are no digits.
#[tactic(auto, using(crate::proofs::RecordLines::no_end_of_space, crate::proofs::RecordLines::end_of_digit))]
fn digit_ends(alloc: Global, line: &[u8]) -> Result<Vec<usize>, AllocError>
    ensures { IfOk result (λ ends. ends.items ≡ digit_ends line.now) }
{
    let mut ends = Vec::new(alloc);
    let mut after = 2;
    for byte in line {
        if *byte != b' ' {
            ends.push(after)?;
        }
        after += 1;
    }
    Ok(ends)
}

/// The same of each record.
#[tactic(auto, using(crate::proofs::RecordLines::no_ends_of_silent, crate::proofs::RecordLines::ends_of_telling))]
fn record_ends(alloc: Global, text: &[u8]) -> Result<Vec<Vec<usize>>, AllocError>
    ensures { IfOk result (λ all. map (λ ends. ends.items) all.items ≡ record_ends text.now) }
{
    let mut all = Vec::new(alloc);
    for line in text.lines() {
        if !is_silent(line) {
            all.push(digit_ends(alloc, line)?)?;
        }
    }
    Ok(all)
}

/// Where the records of a text stand.
pub(crate) fn standing_in(alloc: Global, text: &[u8]) -> Result<Standing, AllocError>
    ensures { IfOk result (λ standing. standing ≡ standing_in text.now) }
{
    let numbers = record_numbers(alloc, text)?;
    let ends = record_ends(alloc, text)?;
    Ok(Standing { numbers, ends })
}

/// The columns of a byte, counted from 0, of a record whose digits end there; none where it has no two digits.
#[tactic(auto, using(crate::proofs::RecordLines::no_columns))]
fn byte_columns(ends: &[usize], byte: usize) -> Option<Columns>
    ensures { result ≡ byte_columns ends.now byte }
{
    if ends.len() <= byte {
        return None;
    }
    let end = *ends.get(2 * byte)?;
    let after = *ends.get(2 * byte + 1)?;
    Some(Columns {
        start: end.saturating_sub(1),
        after,
    })
}

fn spot_columns(ends: &[Vec<usize>], index: Option<usize>, byte: Option<usize>) -> Option<Columns>
    ensures { result ≡ spot_columns (map (λ ends. ends.items) ends.now) index byte }
{
    let digits = ends.get(index?)?;
    byte_columns(digits.as_slice(), byte?)
}

/// The line of a record, or the first.
fn line_at(numbers: &[usize], index: Option<usize>) -> usize
    ensures { result ≡ unwrap_or (option_and_then (slice_get numbers.now) index) 1 }
{
    match index {
        Some(index) => numbers.get(index).copied().unwrap_or(1),
        None => 1,
    }
}

/// The line of a record, or the first, and the columns of a byte of it.
fn spot_region(standing: &Standing, index: Option<usize>, byte: Option<usize>) -> Region
    ensures { result ≡ spot_region standing.now index byte }
{
    Region {
        line: line_at(standing.numbers.as_slice(), index),
        columns: spot_columns(standing.ends.as_slice(), index, byte),
    }
}

/// The line of the record that a finding is about, or the first; and the byte at which the record is refused, or where
/// the order begins from which the finding comes.
pub(crate) fn finding_region(standing: &Standing, traced: &Traced) -> Region
    ensures { result ≡ finding_region standing.now traced.now }
{
    spot_region(standing, record_of(traced), byte_of(traced))
}

/// Where an order begins.
pub(crate) fn order_region(standing: &Standing, origin: Origin) -> Region
    ensures { result ≡ order_region standing.now origin }
{
    spot_region(standing, Some(origin.index), Some(origin.at))
}

/// Whether a byte is white space of TOML within a line.
fn is_blank(byte: u8) -> bool
    ensures { result ≡ is_blank byte }
{
    byte == b' ' || byte == b'\t'
}

/// Whether a line begins with these bytes, where white space doesn't count.
fn begins(line: &[u8], bytes: &[u8]) -> bool
    ensures { result ≡ begins (without_blanks line.now) bytes.now }
{
    let mut rest = bytes;
    for byte in line {
        if !is_blank(*byte) {
            let Some((first, others)) = rest.split_first() else {
                return true;
            };
            if byte != first {
                return false;
            }
            rest = others;
        }
    }
    rest.is_empty()
}

/// Whether a line of TOML begins the table of a field, whose key may stand in quotes.
fn is_table(line: &[u8]) -> bool
    ensures { result ≡ is_table line.now }
{
    begins(line, b"[[field]]") || begins(line, b"[[\"field\"]]") || begins(line, b"[['field']]")
}

/// The line on which the table of an index begins, counted from 1; tables are counted from 0.
#[tactic(auto, using(crate::proofs::RecordLines::over_line, crate::proofs::RecordLines::table_here, crate::proofs::RecordLines::table_beyond))]
fn table_line(text: &[u8], index: usize) -> Option<usize>
    ensures { result ≡ table_line text.now index }
{
    let mut left = index;
    let mut number = 1;
    for line in text.lines() {
        if is_table(line) {
            if left == 0 {
                return Some(number);
            }
            left -= 1;
        }
        number += 1;
    }
    None
}

/// The table of a layout that is refused, counted from 0.
fn fault_table(fault: Fault) -> Option<usize>
    ensures { result ≡ fault_table fault }
{
    match fault {
        Fault::LayoutRefused(refused) => refused.field,
        _ => None,
    }
}

fn table_line_of(text: &[u8], fault: Fault) -> usize
    ensures { result ≡ line_in (Ok text.now) fault }
{
    match fault_table(fault) {
        Some(index) => table_line(text, index).unwrap_or(1),
        None => 1,
    }
}

/// The line of a layout at which it is refused: where the table of its field begins, or the first.
#[tactic(auto, using(crate::proofs::Limited::line_short, crate::proofs::Limited::line_long))]
pub fn layout_line(text: &[u8], fault: Fault) -> usize
    ensures { result ≡ line_in (within_limit text.now) fault }
{
    if text.len() <= MOST_BYTES {
        table_line_of(text, fault)
    } else {
        1
    }
}

/// The line of records at which they are refused, or the first.
pub fn line_of_fault(fault: Fault) -> usize
    ensures { result ≡ line_of_fault fault }
{
    match fault {
        Fault::BadLine(number) => number,
        _ => 1,
    }
}
