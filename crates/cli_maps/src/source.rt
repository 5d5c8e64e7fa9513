//! Where macros stand in a source.

ghost use Rattle.std.specs.Prelude.{◌≡◌, ◌≤◌, ◌<◌, ◌^◌, length, map as all_of};
ghost use Rattle.cli_maps.specs.Source.{before_operation, blank_length, macro_region, operation_columns, refusal_region, word_length};

use bms_source::Place;
use cli_findings::{Columns, Region};

/// How many characters stand before the first blank.
fn word_length(text: &[u8]) -> usize
    ensures count { result ≡ word_length text.now }
    ensures inside { result ≤ length text.now }
{
    let mut count = 0usize;
    let mut rest = text;
    while let [code, others @ ..] = rest {
        if *code == b' ' {
            return count;
        }
        count += 1;
        rest = others;
    }
    count
}

/// How many blanks stand at the front.
fn blank_length(text: &[u8]) -> usize
    ensures count { result ≡ blank_length text.now }
    ensures inside { result ≤ length text.now }
{
    let mut count = 0usize;
    let mut rest = text;
    while let [code, others @ ..] = rest {
        if *code != b' ' {
            return count;
        }
        count += 1;
        rest = others;
    }
    count
}

/// How many characters stand before the operation: the label and the blanks after it.
fn before_operation(line: &[u8]) -> usize
    ensures count { result ≡ before_operation line.now }
    ensures inside { result ≤ length line.now }
{
    let label = word_length(line);
    label + blank_length(&line[label..])
}

/// The columns of the operation of a line, counted from 1.
fn operation_columns(line: &[u8]) -> Columns
    ensures { result ≡ operation_columns line.now }
{
    let before = before_operation(line);
    Columns {
        start: before + 1,
        after: before + 1 + word_length(&line[before..]),
    }
}

/// The operation of the line of a number, counted from 1.
pub(crate) fn macro_region(lines: &[&[u8]], number: usize) -> Region
    ensures { result ≡ macro_region (all_of (λ line. line.now) lines.now) number }
{
    let columns = match lines.get(number.saturating_sub(1)) {
        Some(line) => Some(operation_columns(line)),
        None => None,
    };
    Region {
        line: number,
        columns,
    }
}

/// The column at which a source is refused; line 1 where none is told.
pub(crate) fn refusal_region(place: Option<Place>) -> Region
    ensures { result ≡ refusal_region place }
{
    match place {
        Some(place) => Region {
            line: place.line,
            columns: Some(Columns {
                start: place.column,
                after: place.column.saturating_add(1),
            }),
        },
        None => Region {
            line: 1,
            columns: None,
        },
    }
}
