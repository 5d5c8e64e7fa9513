//! Places that a script names.

ghost use Rattle.std.specs.Prelude.{◌≡◌, ◌<◌, ◌≤◌, length};
ghost use Rattle.script_keys.specs.Targets.{natural, counted, last_below, place_of};

use crate::number::Number;
use ds_screen::{Cells, Screen};

/// Where a script puts the cursor.
#[derive(Clone, Copy, Debug, PartialEq, Eq)]
pub enum Target {
    /// A row and a column, both from 0.
    Cell(u32, u32),
    /// A position.
    Position(u32),
}

/// A number, 0 where it is below 0.
pub(crate) fn natural(number: Number) -> u32
    ensures { result ≡ natural number }
{
    match number {
        Number::Negative => 0,
        Number::Natural(value) => value,
    }
}

/// What is counted from 1, counted from 0.
pub(crate) fn counted(number: Number) -> u32
    ensures { result ≡ counted number }
{
    natural(number).saturating_sub(1)
}

/// A number, or the last one below a count, which isn't 0.
fn last_below(count: u32, number: u32) -> u32
    requires { 0 < count }
    ensures value { result ≡ last_below count number }
    ensures below { result < count }
{
    number.min(count - 1)
}

/// The position of a target: the nearest row and column, or position, that the screen has.
pub(crate) fn place_of<C: Cells>(screen: &Screen<C>, target: Target) -> u32
    ensures place { result ≡ place_of screen.now target }
    ensures inside { result < length screen.now.cells }
{
    let size = screen.size();
    match target {
        Target::Position(position) => last_below(size.cells(), position),
        Target::Cell(row, column) => {
            let columns = u32::from(size.cols);
            last_below(u32::from(size.rows), row) * columns + last_below(columns, column)
        }
    }
}
