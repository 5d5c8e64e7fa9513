//! The orders of a record, and what the write control character asks for.

ghost use Rattle.std.specs.Prelude.{◌≡◌, ◌<◌, ◌≤◌, ℕ, length, replicate, Ok, Err, Some, None, IfOk, IfErr, OnOk, IfSome, MatchOption};
ghost use Rattle.ds_codec.specs.declared.cell.Cell.{Cell};
ghost use Rattle.ds_screen.specs.Picture.{blank, cell_at, ruled};
ghost use Rattle.ds_screen.specs.State.{writing, HaveCharacters, IsInside};
ghost use Rattle.ds_codec.specs.WriteControl.{restores_keyboard, sounds_alarm};
ghost use Rattle.ds_screen.specs.Records.{acts, begun, cleared_cell, told_of};
ghost use Rattle.ds_screen.specs.Fields.{first_open};
ghost use Rattle.ds_screen.specs.Kept.{HasRoom, start_of};
ghost use Rattle.ds_screen.specs.Prepared.{Prepares};
ghost use Rattle.ds_screen.specs.Surface.{Becomes, Makes, Tells, IsOn};
ghost use Rattle.ds_codec.specs.Geometry.{cells_of};
ghost use Rattle.ds_screen.specs.Reset.{after_reset};

use crate::cells::Cells;
use crate::orders::act;
use crate::refused::Refused;
use crate::state::State;
use crate::surface::Surface;
use ds_codec::{Attr, Cell, Command, Geometry, Record, Size, WriteControlCharacter};

/// Does the orders in turn, up to the first that is at fault.
#[inline(always)]
fn run_orders<S: Surface>(
    surface: &mut S,
    start: State,
    outbound: &Record<'_>,
) -> Result<State, Refused>
    requires { IsOn (S.size surface.old) start }
    ensures done { IfOk result (λ end. Makes S.shows surface.old surface.new
        (λ cells later. acts outbound.now.orders (writing cells start) ≡ Ok (writing later end))) }
    ensures inside { IfOk result (IsOn (S.size surface.old)) }
    ensures refused { IfErr result (λ e. Tells S.shows surface.old
        (λ cells. acts outbound.now.orders (writing cells start) ≡ Err e)) }
    ensures characters { HaveCharacters outbound.now.orders }
    ensures whole { OnOk result (S.size surface.new ≡ S.size surface.old) }
    ensures room { S.room surface.new ≡ S.room surface.old }
{
    let mut state = start;
    'orders: for placed in outbound.orders() {
        match act(surface, state, &placed.order) {
            // Part by part: as a whole it would be read in other widths than it was written, which takes as long as the rest.
            Ok(after) => {
                state.cursor = after.cursor;
                state.address = after.address;
                state.nulling = after.nulling;
            }
            Err(why) => return Err(Refused { at: placed.at, why }),
        }
    }
    Ok(state)
}

/// Which attributes are made unmodified.
#[derive(Clone, Copy, Debug, PartialEq, Eq)]
pub enum Reset {
    /// All of them (bit 01 of the write control character).
    Every,
    /// Those that do not protect (Erase All Unprotected).
    Unprotected,
}

/// What an attribute becomes when modified data tags are reset.
pub(crate) fn reset_attribute(which: Reset, attribute: Attr) -> Attr
    ensures { Cell.Field result ≡ after_reset which (Cell.Field attribute) }
{
    if which == Reset::Unprotected && attribute.protected() {
        attribute
    } else {
        attribute.with_modified(false)
    }
}

/// What a cell becomes when modified data tags are reset.
pub(crate) fn reset_cell(which: Reset, cell: &Cell) -> Cell
    ensures { result ≡ after_reset which cell.now }
{
    match cell {
        Cell::Char(character) => Cell::Char(*character),
        Cell::Field(attribute) => Cell::Field(reset_attribute(which, *attribute)),
    }
}

/// Nulls what is open and resets the modified data tags of unprotected attributes, and gives the least
/// open position (GA23-0059, "Erase All Unprotected"; the least position is our own rule where a field
/// runs round the end).
pub(crate) fn clear_on<S: Surface>(surface: &mut S) -> u32
    requires { 0 < S.size surface.old }
    ensures shown { Becomes S.shows surface.old surface.new cleared_cell }
    ensures first { Tells S.shows surface.old (λ cells. result ≡ first_open cells 0) }
    ensures inside { result < S.size surface.old }
    ensures whole { S.size surface.new ≡ S.size surface.old }
    ensures room { S.room surface.new ≡ S.room surface.old }
{
    let cursor = surface.first_open();
    surface.erase(0, 0);
    surface.reset_modified(Reset::Unprotected);
    cursor
}

/// The same on the cells of a buffer.
pub(crate) fn clear_unprotected<C: Cells>(cells: &mut C) -> u32
    requires { 0 < length (C.content cells.old) }
    ensures stored { C.content cells.new
        ≡ ruled (length (C.content cells.old)) (cleared_cell (C.content cells.old)) }
    ensures first { result ≡ first_open (C.content cells.old) 0 }
    ensures inside { result < length (C.content cells.old) }
    ensures whole { length (C.content cells.new) ≡ length (C.content cells.old) }
    ensures room { C.capacity cells.new ≡ C.capacity cells.old }
{
    clear_on(cells)
}

/// What a write begins with.
#[derive(Clone, Copy)]
pub(crate) struct Base {
    /// The write control character.
    pub wcc: WriteControlCharacter,
    pub size: Size,
    pub cursor: u32,
}

/// Makes the spare one nulls of a size: what a write that erases begins with.
fn erased<S: Surface>(spare: &mut S, size: Size, wcc: WriteControlCharacter) -> Base
    requires { cells_of size ≤ S.room spare.old }
    ensures nulls { S.shows spare.new (replicate (cells_of size) blank) }
    ensures whole { S.size spare.new ≡ cells_of size }
    ensures base { result ≡ record { wcc = wcc; size = size; cursor = 0 } }
    ensures room { S.room spare.new ≡ S.room spare.old }
{
    spare.make_blank(size.cells());
    Base {
        wcc,
        size,
        cursor: 0,
    }
}

/// Puts into the spare one what a write begins with: the cells as they are, or nulls of a size. `None` for a
/// command that is no write.
pub(crate) fn prepare_on<S: Surface>(
    spare: &mut S,
    surface: &S,
    geometry: &Geometry,
    now: Base,
    command: Command,
) -> Option<Base>
    requires whole { S.size surface.now ≡ cells_of now.size }
    requires inside { now.cursor < cells_of now.size }
    requires fits { cells_of now.size ≤ S.room spare.old }
    requires room { HasRoom geometry.now (S.room spare.old) }
    ensures start { Tells S.shows surface.now (Prepares S.shows geometry.now now.size now.cursor
        command result spare.new) }
    ensures whole { IfSome result (λ base. S.size spare.new ≡ cells_of base.size) }
    ensures fits { IfSome result (λ base. (room : ℕ) → cells_of now.size ≤ room
        → HasRoom geometry.now room → cells_of base.size ≤ room) }
    ensures told { IfSome result (λ base. told_of command
        ≡ record { alarm = sounds_alarm base.wcc; restored = restores_keyboard base.wcc }) }
    ensures inside { IfSome result (λ base. base.cursor < cells_of base.size) }
    ensures room { S.room spare.new ≡ S.room spare.old }
{
    match command {
        Command::Write(wcc) => {
            spare.make_copy(surface);
            Some(Base {
                wcc,
                size: now.size,
                cursor: now.cursor,
            })
        }
        Command::EraseWrite(wcc) => Some(erased(spare, geometry.default_size(), wcc)),
        Command::EraseWriteAlternate(wcc) => Some(erased(spare, geometry.alternate_size(), wcc)),
        Command::EraseAllUnprotected
        | Command::ReadBuffer
        | Command::ReadModified
        | Command::ReadModifiedAll
        | Command::NoOperation => None,
    }
}

/// The same on the cells of buffers.
pub(crate) fn prepare<C: Cells>(
    spare: &mut C,
    cells: &C,
    geometry: &Geometry,
    now: Base,
    command: Command,
) -> Option<Base>
    requires whole { length (C.content cells.now) ≡ cells_of now.size }
    requires inside { now.cursor < cells_of now.size }
    requires fits { cells_of now.size ≤ C.capacity spare.old }
    requires room { HasRoom geometry.now (C.capacity spare.old) }
    ensures start { MatchOption result
        (start_of geometry.now now.size (C.content cells.now) now.cursor command ≡ None)
        (λ base. start_of geometry.now now.size (C.content cells.now) now.cursor command
        ≡ Some (record { wcc = base.wcc; size = base.size; cells = C.content spare.new; cursor = base.cursor })) }
    ensures whole { IfSome result (λ base. length (C.content spare.new) ≡ cells_of base.size) }
    ensures inside { IfSome result (λ base. base.cursor < cells_of base.size) }
    ensures room { C.capacity spare.new ≡ C.capacity spare.old }
{
    prepare_on(spare, cells, geometry, now, command)
}

/// Resets modified data tags where the write control character asks for it, and does the orders.
pub(crate) fn write_on<S: Surface>(
    surface: &mut S,
    wcc: WriteControlCharacter,
    cursor: u32,
    outbound: &Record<'_>,
) -> Result<State, Refused>
    requires { cursor < S.size surface.old }
    ensures done { IfOk result (λ end. Makes S.shows surface.old surface.new
        (λ cells later. acts outbound.now.orders (begun wcc cells cursor)
        ≡ Ok (writing later end))) }
    ensures inside { IfOk result (IsOn (S.size surface.old)) }
    ensures refused { IfErr result (λ e. Tells S.shows surface.old
        (λ cells. acts outbound.now.orders (begun wcc cells cursor) ≡ Err e)) }
    ensures characters { HaveCharacters outbound.now.orders }
    ensures whole { OnOk result (S.size surface.new ≡ S.size surface.old) }
    ensures room { S.room surface.new ≡ S.room surface.old }
{
    if wcc.resets_modified_tags() {
        surface.reset_modified(Reset::Every);
    }
    let start = State {
        cursor,
        address: cursor,
        nulling: false,
    };
    run_orders(surface, start, outbound)
}

/// The same on the cells of a buffer.
pub(crate) fn write_orders<C: Cells>(
    cells: &mut C,
    wcc: WriteControlCharacter,
    cursor: u32,
    outbound: &Record<'_>,
) -> Result<State, Refused>
    requires { cursor < length (C.content cells.old) }
    ensures done { IfOk result (λ end. acts outbound.now.orders
        (begun wcc (C.content cells.old) cursor) ≡ Ok (writing (C.content cells.new) end)) }
    ensures inside { IfOk result (IsInside (C.content cells.new)) }
    ensures refused { IfErr result
        (λ e. acts outbound.now.orders (begun wcc (C.content cells.old) cursor) ≡ Err e) }
    ensures characters { HaveCharacters outbound.now.orders }
    ensures whole { OnOk result (length (C.content cells.new) ≡ length (C.content cells.old)) }
    ensures room { C.capacity cells.new ≡ C.capacity cells.old }
{
    write_on(cells, wcc, cursor, outbound)
}
