//! Which cells are read, line by line.

ghost use Rattle.std.specs.Prelude.{◌≡◌, ◌<◌, ◌≤◌, ◌+◌, ◌*◌, ◌%◌, map};
ghost use Rattle.ds_codec.specs.Geometry.{cells_of};
ghost use Rattle.script_screens.specs.Regions.{smaller, line_count, stretch_run, run_of, from_origin, from_cursor, from_place, rectangle, valid, region_of};
ghost use Rattle.script_screens.specs.Numbers.{number_of};

use crate::number::read_number;
use ds_codec::Size;

/// The cells that are read.
#[derive(Clone, Copy, Debug, PartialEq, Eq)]
pub(crate) enum Region {
    /// From a position on, row by row, round the screen's end: where it begins, and how many cells.
    Stretch(u32, u32),
    /// The first row and column, how many rows, how many columns.
    Rectangle(u32, u32, u32, u32),
}

/// The cells of one line: where they begin, and how many.
#[derive(Clone, Copy, Debug, PartialEq, Eq)]
pub(crate) struct Run {
    pub(crate) start: u32,
    pub(crate) length: u32,
}

/// Why arguments name no cells.
#[derive(Clone, Copy, Debug, PartialEq, Eq)]
pub(crate) enum RegionFault {
    /// There are too many, or two.
    Count,
    /// A number is below 0, or cells are no cells of the screen.
    Invalid,
}

fn smaller(a: u32, b: u32) -> u32
    ensures { result ≡ smaller a b }
{
    if a <= b { a } else { b }
}

/// How many lines there are.
pub(crate) fn line_count(width: u16, region: Region) -> u32
    requires { 0 < width }
    ensures { result ≡ line_count width region }
{
    match region {
        Region::Stretch(_, 0) => 1,
        Region::Stretch(start, count) => {
            let width = u64::from(width);
            let places = u64::from(start) % width + u64::from(count) - 1;
            (places / width) as u32 + 1
        }
        Region::Rectangle(_, _, rows, _) => rows,
    }
}

/// The position of this number, round a screen of so many cells.
fn round(cells: u32, place: u64) -> u32
    requires { 0 < cells }
    ensures place { result ≡ place % cells }
    ensures inside { result < cells }
{
    (place % u64::from(cells)) as u32
}

/// The cells of a line of a stretch.
fn stretch_run(cells: u32, width: u16, start: u32, count: u32, line: u32) -> Run
    requires some { 0 < cells }
    requires wide { 0 < width }
    ensures run { result ≡ stretch_run cells width start count line }
    ensures inside { result.start < cells }
{
    let column = start % u32::from(width);
    if line == 0 {
        return Run {
            start: round(cells, u64::from(start)),
            length: smaller(u32::from(width) - column, count),
        };
    }
    let rows = u64::from(line) * u64::from(width);
    let before = rows.saturating_sub(u64::from(column));
    let left = u64::from(count).saturating_sub(before) as u32;
    Run {
        start: round(cells, u64::from(start - column) + rows),
        length: smaller(u32::from(width), left),
    }
}

/// The cells of a line.
pub(crate) fn run_of(cells: u32, width: u16, region: Region, line: u32) -> Run
    requires some { 0 < cells }
    requires wide { 0 < width }
    ensures run { result ≡ run_of cells width region line }
    ensures inside { result.start < cells }
{
    match region {
        Region::Stretch(start, count) => stretch_run(cells, width, start, count, line),
        Region::Rectangle(row, column, _, columns) => {
            let first = (u64::from(row) + u64::from(line)) * u64::from(width);
            Run {
                start: round(cells, first + u64::from(column)),
                length: columns,
            }
        }
    }
}

fn from_origin(origin: u32, number: Option<u32>) -> Option<u32>
    ensures { result ≡ from_origin origin number }
{
    match number {
        Some(number) if origin <= number => Some(number - origin),
        _ => None,
    }
}

fn from_cursor(cells: u32, cursor: u32, count: Option<u32>) -> Option<Region>
    ensures { result ≡ from_cursor cells cursor count }
{
    match count {
        Some(count) if u64::from(cursor) + u64::from(count) <= u64::from(cells) => {
            Some(Region::Stretch(cursor, count))
        }
        _ => None,
    }
}

/// A stretch from a row and a column.
fn stretch_at(size: Size, row: u32, column: u32, count: u32) -> Option<Region>
    ensures { result ≡ from_place size (Some row) (Some column) (Some count) }
{
    if !(row <= u32::from(size.rows) && column <= u32::from(size.cols)) {
        return None;
    }
    let start = u64::from(row) * u64::from(size.cols) + u64::from(column);
    if start + u64::from(count) <= u64::from(size.cells()) {
        Some(Region::Stretch(start as u32, count))
    } else {
        None
    }
}

fn from_place(
    size: Size,
    row: Option<u32>,
    column: Option<u32>,
    count: Option<u32>,
) -> Option<Region>
    ensures { result ≡ from_place size row column count }
{
    match (row, column, count) {
        (Some(row), Some(column), Some(count)) => stretch_at(size, row, column, count),
        _ => None,
    }
}

/// A rectangle within the screen.
fn rectangle_at(size: Size, row: u32, column: u32, rows: u32, columns: u32) -> Option<Region>
    ensures { result ≡ rectangle size (Some row) (Some column) (Some rows) (Some columns) }
{
    let has_rows = u64::from(row) + u64::from(rows) <= u64::from(size.rows);
    let has_columns = u64::from(column) + u64::from(columns) <= u64::from(size.cols);
    if !(has_rows && has_columns) {
        return None;
    }
    if rows == 0 || columns == 0 {
        Some(Region::Stretch(0, 0))
    } else {
        Some(Region::Rectangle(row, column, rows, columns))
    }
}

fn rectangle(
    size: Size,
    row: Option<u32>,
    column: Option<u32>,
    rows: Option<u32>,
    columns: Option<u32>,
) -> Option<Region>
    ensures { result ≡ rectangle size row column rows columns }
{
    match (row, column, rows, columns) {
        (Some(row), Some(column), Some(rows), Some(columns)) => {
            rectangle_at(size, row, column, rows, columns)
        }
        _ => None,
    }
}

fn valid(region: Option<Region>) -> Result<Region, RegionFault>
    ensures { result ≡ valid region }
{
    match region {
        Some(region) => Ok(region),
        None => Err(RegionFault::Invalid),
    }
}

/// The cells that arguments name, with rows and columns counted from an origin.
pub(crate) fn region_of(
    size: Size,
    cursor: u32,
    origin: u32,
    arguments: &[Vec<u8>],
) -> Result<Region, RegionFault>
    ensures { result
        ≡ region_of size cursor origin (map (λ argument. argument.items) arguments.now) }
{
    match arguments {
        [] => Ok(Region::Stretch(0, size.cells())),
        [count] => valid(from_cursor(size.cells(), cursor, read_number(count))),
        [row, column, count] => {
            let row = from_origin(origin, read_number(row));
            let column = from_origin(origin, read_number(column));
            valid(from_place(size, row, column, read_number(count)))
        }
        [row, column, rows, columns] => {
            let row = from_origin(origin, read_number(row));
            let column = from_origin(origin, read_number(column));
            valid(rectangle(size, row, column, read_number(rows), read_number(columns)))
        }
        _ => Err(RegionFault::Count),
    }
}
