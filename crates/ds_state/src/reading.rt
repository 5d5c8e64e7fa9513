//! What is read of a state.

ghost use Rattle.std.specs.Prelude.{◌≡◌, ◌++◌, length, option_map, IfOk, OnOk};
ghost use Rattle.ds_inbound.specs.Answer.{buffer_of, bytes_sent};
ghost use Rattle.ds_state.specs.Calls.{Reads, cell_pair, cell_pairs, character_pair, status_of};

use crate::opened::open_state;
use ds_codec::{Aid, Cell, Char, Size};
use ds_inbound::{write_buffer, write_inbound};
use ds_screen::{Cells, Lock, PlaneCells, Screen};
use std::alloc::{AllocError, Global};

/// What a terminal keeps beside its cells.
#[derive(Clone, Copy, Debug, PartialEq, Eq)]
pub struct Status {
    /// The size in use.
    pub size: Size,
    /// The cursor's position, counted from 0.
    pub cursor: u32,
    pub lock: Lock,
    /// The last attention identifier.
    pub aid: Aid,
}

/// The size in use, the cursor, the keyboard's lock and the attention identifier of a screen.
pub fn status_of<C: Cells>(screen: &Screen<C>) -> Status
    ensures { result ≡ status_of screen.now }
{
    Status {
        size: screen.size(),
        cursor: screen.cursor(),
        lock: screen.lock(),
        aid: screen.aid(),
    }
}

/// The size in use, the cursor, the keyboard's lock and the attention identifier; `None` where the bytes are no state.
///
/// # Errors
///
/// Where a request for memory was refused; so of all these calls.
pub fn read_status(alloc: Global, state: &[u8]) -> Result<Option<Status>, AllocError>
    ensures { IfOk result (λ found. Reads status_of state.now found) }
{
    let opened: Option<Screen<PlaneCells>> = open_state(alloc, state)?;
    match opened {
        Some(screen) => Ok(Some(status_of(&screen))),
        None => Ok(None),
    }
}

/// The answer to Read Modified, with `all` to Read Modified All; `None` where the bytes are no state.
pub fn read_modified(alloc: Global, state: &[u8], all: bool) -> Result<Option<Vec<u8>>, AllocError>
    ensures { IfOk result (λ found. Reads (λ v. bytes_sent v all) state.now
        (option_map (λ bytes. bytes.items) found)) }
{
    let opened: Option<Screen<PlaneCells>> = open_state(alloc, state)?;
    match opened {
        Some(screen) => Ok(Some(write_inbound(alloc, &screen, all)?)),
        None => Ok(None),
    }
}

/// The answer to Read Buffer; `None` where the bytes are no state.
pub fn read_buffer(alloc: Global, state: &[u8]) -> Result<Option<Vec<u8>>, AllocError>
    ensures { IfOk result (λ found. Reads buffer_of state.now
        (option_map (λ bytes. bytes.items) found)) }
{
    let opened: Option<Screen<PlaneCells>> = open_state(alloc, state)?;
    match opened {
        Some(screen) => Ok(Some(write_buffer(alloc, &screen)?)),
        None => Ok(None),
    }
}

fn character_pair(character: Char) -> [u8; 2]
    ensures { result ≡ character_pair character }
{
    [u8::from(character.alt()), character.code()]
}

fn cell_pair(cell: Cell) -> [u8; 2]
    ensures { result ≡ cell_pair cell }
{
    match cell {
        Cell::Char(character) => character_pair(character),
        Cell::Field(attribute) => [2, attribute.bits()],
    }
}

/// Two bytes for each position of a screen, as `read_cells` tells them of a state.
///
/// # Errors
///
/// Where a request for memory was refused.
pub fn pairs_of<C: Cells>(alloc: Global, screen: &Screen<C>) -> Result<Vec<u8>, AllocError>
    ensures { IfOk result (λ pairs. pairs.items ≡ cell_pairs screen.now.cells) }
{
    let cells = screen.size().cells();
    let mut out = Vec::with_capacity(alloc, 2 * cells as usize)?;
    'places: for p in 0..cells {
        out.extend_from_slice(&cell_pair(screen.cell(p)))?;
    }
    Ok(out)
}

/// Two bytes for each position, row by row: 0 and the code of a character, 1 and that of one of the alternate set, or 2 and the six
/// bits of an attribute; `None` where the bytes are no state.
pub fn read_cells(alloc: Global, state: &[u8]) -> Result<Option<Vec<u8>>, AllocError>
    ensures { IfOk result (λ found. Reads (λ v. cell_pairs v.cells) state.now
        (option_map (λ pairs. pairs.items) found)) }
{
    let opened: Option<Screen<PlaneCells>> = open_state(alloc, state)?;
    match opened {
        Some(screen) => Ok(Some(pairs_of(alloc, &screen)?)),
        None => Ok(None),
    }
}
