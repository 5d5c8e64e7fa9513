//! Where a record stands in an input of lines, and a byte or an order of it.

ghost use Rattle.std.specs.Prelude.{◌≡◌, ◌≤◌, option_map, length, false};
ghost use Rattle.cli_commands.specs.Lines.{lines_in};
ghost use Rattle.cli_reasons.specs.Refusal.{byte_column, column_from, holds_records, is_order, is_record, order_from, record_from};

use crate::digits::{digit_count, is_digit};
use crate::judged::is_spaced;
use bstr::ByteSlice;
use cli_commands::is_ignored;

/// Whether a line is a record.
fn is_record(line: &[u8]) -> bool
    ensures { result ≡ is_record line.now }
{
    !is_ignored(line) && !line.starts_with(b"size".as_slice()) && 0 < digit_count(line)
}

/// The line of the record after so many others, with its number, counted from 1.
pub(crate) fn record_line(text: &[u8], index: usize) -> Option<(usize, &[u8])>
    requires { length text.now ≤ 16777216 }
    ensures { option_map (λ found. (found.0, found.1.now)) result
        ≡ record_from 1 index (lines_in text.now) }
{
    let mut number = 1;
    let mut others = index;
    for line in text.lines() {
        if is_record(line) {
            if others == 0 {
                return Some((number, line));
            }
            others -= 1;
        }
        number += 1;
    }
    None
}

/// The column of a byte of a record, counted from 1, or that after the line's end.
pub(crate) fn byte_column(line: &[u8], at: usize) -> usize
    requires { at ≤ 16777216 }
    ensures { result ≡ byte_column line.now at }
{
    let mut column = 1;
    let mut others = at + at;
    let mut rest = line;
    while let [byte, more @ ..] = rest {
        if is_digit(*byte) {
            if others == 0 {
                return column;
            }
            others -= 1;
        }
        column += 1;
        rest = more;
    }
    column
}

/// Whether a line is a command or an order.
fn is_order(line: &[u8]) -> bool
    ensures { result ≡ is_order line.now }
{
    !is_ignored(line) && !line.starts_with(b"size".as_slice())
}

/// The number of the line of an order: of the record after so many others, the line after so many others of it, its command first.
pub(crate) fn order_line(text: &[u8], index: usize, order: usize) -> Option<usize>
    requires { length text.now ≤ 16777216 }
    ensures { result ≡ order_from 1 false index order (lines_in text.now) }
{
    let mut number = 1;
    let mut others = index;
    let mut before = order;
    let mut is_begun = false;
    for line in text.lines() {
        if line.is_empty() {
            others -= usize::from(is_begun && 0 < others);
            is_begun = false;
        } else if is_order(line) {
            if others == 0 && before == 0 {
                return Some(number);
            }
            before -= usize::from(others == 0);
            is_begun = true;
        }
        number += 1;
    }
    None
}

/// Whether a text is no layout, but records: its first line that is no comment is one.
pub(crate) fn holds_records(text: &[u8]) -> bool
    ensures { result ≡ holds_records (lines_in text.now) }
{
    for line in text.lines() {
        if !is_ignored(line) {
            return is_spaced(line) && 0 < digit_count(line);
        }
    }
    false
}
