//! A buffer kept as one list of cells.

ghost use Rattle.std.specs.Prelude.{◌≡◌, ◌≤◌, vec_len, vec_capacity};

use crate::cells::{Cells, is_field};
use crate::ring::{next, previous};
use ds_codec::{Cell, Char};
use std::alloc::{AllocError, Global};

/// The cells, one after the other.
#[derive(Drop)]
pub struct PlainCells {
    cells: Vec<Cell>,
    limit: u32,
    ghost within: { vec_len cells ≤ limit },
    ghost room: { limit ≤ vec_capacity cells },
}

impl Cells for PlainCells {
    ghost content = { λ s. s.cells.items };

    ghost capacity = { λ s. s.limit };

    fn reserved(alloc: Global, most: u32) -> Result<PlainCells, AllocError> {
        let cells = Vec::with_capacity(alloc, most as usize)?;
        Ok(PlainCells { cells, limit: most })
    }

    fn len(&self) -> u32 {
        let _limit = self.limit;
        self.cells.len() as u32
    }

    fn clear(&mut self, n: u32) {
        self.cells.clear();
        self.cells
            .resize(n as usize, Cell::Char(Char::null()))
            .unwrap();
    }

    fn cell(&self, p: u32) -> Cell {
        self.cells[p as usize]
    }

    fn put(&mut self, p: u32, cell: Cell) {
        self.cells[p as usize] = cell;
    }

    fn attr_before(&self, p: u32) -> Option<u32> {
        let n = self.len();
        let mut at = p;
        'steps: for steps in 0..n {
            if is_field(self.cell(at)) {
                return Some(at);
            }
            at = previous(n, at);
        }
        None
    }

    fn attr_from(&self, p: u32) -> Option<u32> {
        let n = self.len();
        let mut at = p;
        'steps: for steps in 0..n {
            if is_field(self.cell(at)) {
                return Some(at);
            }
            at = next(n, at);
        }
        None
    }

    fn copy_from(&mut self, other: &PlainCells) {
        self.cells.clear();
        self.cells
            .extend_from_slice(other.cells.as_slice())
            .unwrap();
    }
}
