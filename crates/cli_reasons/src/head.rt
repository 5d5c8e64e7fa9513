//! Where an input is refused, as a sentence begins.

ghost use Rattle.std.specs.Prelude.{◌≡◌, ◌++◌, OnOk};
ghost use Rattle.std.specs.String.{string_bytes};
ghost use Rattle.cli_reasons.specs.Head.{whole_head, line_head, column_head, head_text};

use std::alloc::AllocError;
use std::fmt::Write;

/// Where in an input something is refused. Lines and columns are counted from 1.
#[derive(Clone, Copy, Debug, PartialEq, Eq)]
pub enum Place {
    /// Nowhere in particular.
    Whole,
    Line(u64),
    /// A line, and a column in it.
    Column(u64, usize),
}

fn push_whole(out: &mut String, name: &str) -> Result<(), AllocError>
    ensures { OnOk result (string_bytes out.new ≡ string_bytes out.old ++ whole_head name.now) }
{
    write!(out, "term3270: {name}: ")
}

fn push_line(out: &mut String, name: &str, line: u64) -> Result<(), AllocError>
    ensures { OnOk result (string_bytes out.new ≡ string_bytes out.old ++ line_head name.now line) }
{
    write!(out, "term3270: {name}, line {line}: ")
}

fn push_column(out: &mut String, name: &str, line: u64, column: usize) -> Result<(), AllocError>
    ensures { OnOk result (string_bytes out.new
        ≡ string_bytes out.old ++ column_head name.now line column) }
{
    write!(out, "term3270: {name}, line {line}, column {column}: ")
}

/// Pushes the program's name, the input's, and the place.
pub(crate) fn push_head(out: &mut String, name: &str, place: Place) -> Result<(), AllocError>
    ensures { OnOk result (string_bytes out.new
        ≡ string_bytes out.old ++ head_text name.now place) }
{
    match place {
        Place::Whole => push_whole(out, name),
        Place::Line(line) => push_line(out, name, line),
        Place::Column(line, column) => push_column(out, name, line, column),
    }
}
