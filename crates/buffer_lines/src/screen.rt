//! A screen, row by row, and the status line that ends it.

ghost use Rattle.std.specs.Prelude.{◌≡◌, ◌++◌, ◌+◌, ◌*◌, ◌<◌, IfOk, IfSome, OnOk, is_some, length, option_map};
ghost use Rattle.ds_codec.specs.Geometry.{geometry_of};
ghost use Rattle.buffer_lines.specs.Flaw.{flaw_of, is_stop, row_flaw, size_flaw, status_flaw};
ghost use Rattle.buffer_lines.specs.Left.{AreLaid, IsHeldLine, LeavesRows};
ghost use Rattle.buffer_lines.specs.Line.{line_seen, line_told};
ghost use Rattle.buffer_lines.specs.Screen.{at_first, course_of, ended_at, ended_by, fits, geometry_told, end_step, has_rows, is_blank, open_seen, position_of, row_step, shot_seen, step_by, usual_size};

use crate::flaw::{Flaw, line_column};
use crate::line::{BufferLine, read_line};
use crate::record::record_of;
use crate::status::Status;
use ds_codec::{Cell, Geometry, Mode, Size};
use std::alloc::{AllocError, Global};

/// The most rows of a screen.
const MOST_ROWS: usize = 255;

/// The rows of a screen that isn't ended.
#[derive(Drop)]
pub struct Open {
    cells: Vec<Cell>,
    rows: usize,
    cols: usize,
}

/// A screen's size, and the record that leaves it.
#[derive(Drop)]
pub struct Shot {
    pub size: Size,
    pub record: Vec<u8>,
}

/// What a line did.
#[derive(Drop)]
pub enum Step {
    /// The screen goes on.
    Goes,
    /// It is ended, and the next row begins another one.
    Ends(Shot),
    /// The line is refused.
    Refused,
}

/// What Erase/Write sets.
fn usual_size() -> Size
    ensures { result ≡ usual_size }
{
    Size { rows: 24, cols: 80 }
}

/// Whether a row of so many cells may follow: it has as many as the first.
fn fits(rows: usize, cols: usize, count: usize) -> bool
    ensures { result ≡ fits rows cols count }
{
    rows < MOST_ROWS && (rows == 0 || count == cols)
}

/// Whether a status line tells the size of the rows that came.
fn has_rows(rows: usize, cols: usize, status: Status) -> bool
    ensures { result ≡ has_rows rows cols status }
{
    rows == usize::from(status.rows) && cols == usize::from(status.cols)
}

/// The sizes of a terminal whose alternate size is that of a status line.
fn geometry_told(status: Status) -> Option<Geometry>
    ensures { result ≡ geometry_told status }
{
    let size = Size {
        rows: status.rows,
        cols: status.cols,
    };
    Geometry::new(usual_size(), size, Mode::Bits14).ok()
}

/// The position of a row and a column, counted from 0, where it is on the screen.
fn position_of(size: Size, row: u16, col: u16) -> Option<u32>
    ensures exact { result ≡ position_of size row col }
    ensures inside { IfSome result (λ position. position < size.rows * size.cols) }
{
    let before = Size {
        rows: row,
        cols: size.cols,
    };
    let position = u64::from(before.cells()) + u64::from(col);
    if col < size.cols && position < u64::from(size.cells()) {
        Some(position as u32)
    } else {
        None
    }
}

/// The record of a screen of these sizes, where the cursor is on it.
fn ended_at(
    alloc: Global,
    geometry: &Geometry,
    cells: &[Cell],
    status: Status,
) -> Result<Option<Shot>, AllocError>
    ensures { IfOk result
        (λ shot. option_map shot_seen shot ≡ ended_at geometry.now cells.now status) }
{
    let size = geometry.alternate_size();
    match position_of(size, status.row, status.col) {
        Some(cursor) => {
            let record = record_of(alloc, geometry, cells, cursor)?;
            Ok(Some(Shot { size, record }))
        }
        None => Ok(None),
    }
}

/// The record of rows that a status line ends, where it is of their size, and a terminal can have it.
fn ended_by(
    alloc: Global,
    cells: &[Cell],
    rows: usize,
    cols: usize,
    status: Status,
) -> Result<Option<Shot>, AllocError>
    ensures { IfOk result
        (λ shot. option_map shot_seen shot ≡ ended_by cells.now rows cols status) }
{
    if !has_rows(rows, cols, status) {
        return Ok(None);
    }
    match geometry_told(status) {
        Some(geometry) => ended_at(alloc, &geometry, cells, status),
        None => Ok(None),
    }
}

/// Why a status line is refused of this size.
fn size_flaw(geometry: Option<Geometry>, status: Status) -> Option<Flaw>
    ensures { result ≡ size_flaw geometry status }
{
    match geometry {
        Some(geometry) => {
            match position_of(geometry.alternate_size(), status.row, status.col) {
                Some(_) => None,
                None => Some(Flaw::CursorOutside),
            }
        }
        None => Some(Flaw::NoTerminal),
    }
}

impl Open {
    /// Before the first row of a screen.
    pub fn new(alloc: Global) -> Open
        ensures exact { open_seen result ≡ at_first }
        ensures laid { AreLaid (open_seen result) }
    {
        Open {
            cells: Vec::new(alloc),
            rows: 0,
            cols: 0,
        }
    }

    /// Whether no row came.
    pub fn is_empty(&self) -> bool
        ensures { result ≡ is_blank (open_seen self.now) }
    {
        self.rows == 0
    }

    fn take_row(&mut self, row: &[Cell]) -> Result<Step, AllocError>
        ensures { IfOk result (λ step. course_of step (open_seen self.new)
            ≡ row_step (open_seen self.old) row.now) }
    {
        if !fits(self.rows, self.cols, row.len()) {
            return Ok(Step::Refused);
        }
        self.cells.extend_from_slice(row)?;
        self.rows += 1;
        self.cols = row.len();
        Ok(Step::Goes)
    }

    fn end(&mut self, alloc: Global, status: Status) -> Result<Step, AllocError>
        ensures { IfOk result (λ step. course_of step (open_seen self.new)
            ≡ end_step (open_seen self.old) status) }
    {
        if self.is_empty() {
            return Ok(Step::Goes);
        }
        match ended_by(alloc, self.cells.as_slice(), self.rows, self.cols, status)? {
            Some(shot) => {
                *self = Open::new(alloc);
                Ok(Step::Ends(shot))
            }
            None => Ok(Step::Refused),
        }
    }

    /// Takes what a line tells. A status line without rows before it is that of another action. After a line that is refused the screen is as it was.
    ///
    /// # Errors
    ///
    /// Where a request for memory was refused.
    pub fn take(&mut self, alloc: Global, line: BufferLine) -> Result<Step, AllocError>
        ensures exact { IfOk result (λ step. course_of step (open_seen self.new)
            ≡ step_by (open_seen self.old) (line_seen line)) }
        // The record of a screen that ends leaves exactly its cells, and its cursor, on a terminal of the size that is told.
        ensures leaves { AreLaid (open_seen self.old) → IsHeldLine (line_seen line)
            → IfOk result (λ step. LeavesRows (open_seen self.old) (line_seen line)
            (course_of step (open_seen self.new))) }
    {
        let step = self.step(alloc, line)?;
        Ok(step)
    }

    /// What a line does, row by row.
    fn step(&mut self, alloc: Global, line: BufferLine) -> Result<Step, AllocError>
        ensures { IfOk result (λ step. course_of step (open_seen self.new)
            ≡ step_by (open_seen self.old) (line_seen line)) }
    {
        match line {
            BufferLine::Silent => Ok(Step::Goes),
            BufferLine::Row(row) => self.take_row(row.as_slice()),
            BufferLine::Status(status) => self.end(alloc, status),
            BufferLine::Refused => Ok(Step::Refused),
        }
    }

    fn row_flaw(&self, count: usize) -> Option<Flaw>
        ensures { result ≡ row_flaw (open_seen self.now) count }
    {
        if fits(self.rows, self.cols, count) {
            None
        } else if self.rows < MOST_ROWS {
            Some(Flaw::OtherCells(count, self.cols))
        } else {
            Some(Flaw::TooManyRows)
        }
    }

    fn status_flaw(&self, status: Status) -> Option<Flaw>
        ensures { result ≡ status_flaw (open_seen self.now) status }
    {
        if self.is_empty() {
            None
        } else if has_rows(self.rows, self.cols, status) {
            size_flaw(geometry_told(status), status)
        } else {
            Some(Flaw::OtherSize(self.rows, self.cols))
        }
    }

    fn line_flaw(&self, alloc: Global, line: &[u8]) -> Result<Option<Flaw>, AllocError>
        ensures { IfOk result (λ flaw. flaw ≡ flaw_of (open_seen self.now) line.now) }
    {
        match read_line(alloc, line)? {
            BufferLine::Silent => Ok(None),
            BufferLine::Row(row) => Ok(self.row_flaw(row.len())),
            BufferLine::Status(status) => Ok(self.status_flaw(status)),
            BufferLine::Refused => Ok(line_column(alloc, line)?.map(Flaw::NoCell)),
        }
    }

    /// Why a line is refused, where it is, and only there.
    ///
    /// # Errors
    ///
    /// Where a request for memory was refused.
    #[tactic(auto, using(crate::proofs::Flawed::flaw_stops))]
    pub fn flaw(&self, alloc: Global, line: &[u8]) -> Result<Option<Flaw>, AllocError>
        ensures why { IfOk result (λ flaw. flaw ≡ flaw_of (open_seen self.now) line.now) }
        ensures refused { IfOk result
            (λ flaw. is_some flaw ≡ is_stop (step_by (open_seen self.now) (line_told line.now))) }
    {
        let flaw = self.line_flaw(alloc, line)?;
        Ok(flaw)
    }
}
