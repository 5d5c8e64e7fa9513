//! The screen: two buffers, and what the terminal keeps beside them.

ghost use Rattle.std.specs.Prelude.{IfOk};
ghost use Rattle.ds_screen.specs.Kept.{HasRoom};

use crate::cells::Cells;
use crate::effect::Effect;
use crate::fields::Fields;
use crate::lock::Lock;
use crate::records::{Base, clear_unprotected, prepare, write_orders};
use crate::refused::{Refused, Why};
use crate::ruling::is_open_at;
use crate::shown::row_text;
use crate::wcc::{aid_after, lock_after, told};
use ds_codec::{Aid, Attr, Cell, Char, Command, Geometry, Record, Size, WriteControlCharacter};
use std::alloc::{AllocError, Global};
use std::marker::Model;
use std::mem::swap;

/// What a terminal shows and keeps (GA23-0059, "Character buffer"): the cells of one of its two sizes,
/// the cursor, the keyboard's lock and the last attention identifier. Only `new`, `copied` and `shown_row`
/// take memory.
#[derive(Drop)]
pub struct Screen<C: Cells> {
    geometry: Geometry,
    size: Size,
    cells: C,
    spare: C,
    cursor: u32,
    lock: Lock,
    aid: Aid,
}

impl<C: Cells> Model for Screen<C> {
    ghost use Rattle.ds_screen.specs.Picture.{Picture, IsSound};
    ghost use Rattle.ds_screen.specs.Kept.{HasRoom, picture};

    ghost Value = { Picture };

    ghost view = { λ s. picture s.geometry s.size (C.content s.cells) s.cursor s.lock s.aid };

    ghost invariant = { λ s. IsSound (picture s.geometry s.size (C.content s.cells) s.cursor s.lock s.aid)
        × HasRoom s.geometry (C.capacity s.cells) × HasRoom s.geometry (C.capacity s.spare) };
}

/// How many cells the larger size has.
pub(crate) fn most_cells(geometry: &Geometry) -> u32
    ensures { HasRoom geometry.now result }
{
    geometry
        .default_size()
        .cells()
        .max(geometry.alternate_size().cells())
}

/// A buffer for either size.
fn buffer_for<C: Cells>(alloc: Global, geometry: &Geometry) -> Result<C, AllocError>
    ensures { IfOk result (λ cells. HasRoom geometry.now (C.capacity cells)) }
{
    C::reserved(alloc, most_cells(geometry))
}

impl<C: Cells> Screen<C> {
    ghost use Rattle.std.specs.Prelude.{◌≡◌, ◌<◌, true, false, length, slice_set, string_bytes, IfOk, IfErr, OnOk, OnErr, IfSome};
    ghost use Rattle.ds_codec.specs.declared.cell.Cell.{Cell};
    ghost use Rattle.ds_codec.specs.Geometry.{cells_of};
    ghost use Rattle.ds_screen.specs.Picture.{Picture, IsSound, cell_at, ruled};
    ghost use Rattle.ds_screen.specs.Fields.{is_attribute, attribute_before, attribute_from, is_open, first_open, fields_of};
    ghost use Rattle.ds_screen.specs.Orders.{repeated_cell};
    ghost use Rattle.ds_screen.specs.Starts.{start_ahead};
    ghost use Rattle.ds_screen.specs.Shown.{printed_row};
    ghost use Rattle.ds_screen.specs.Records.{new_picture, erased, cleared, all_cleared, told_of, RecordShows, IsRefusedBy};

    /// A new terminal of this geometry: nulls of the default size, the cursor at 0, the keyboard waiting
    /// for a record, no attention key. Reserves two buffers of the larger size.
    pub fn new(alloc: Global, geometry: Geometry) -> Result<Screen<C>, AllocError>
        ensures { IfOk result (λ screen. screen ≡ new_picture geometry) }
    {
        let size = geometry.default_size();
        let mut cells: C = buffer_for(alloc, &geometry)?;
        let spare = buffer_for(alloc, &geometry)?;
        cells.clear(size.cells());
        Ok(Screen {
            geometry,
            size,
            cells,
            spare,
            cursor: 0,
            lock: Lock::Waiting,
            aid: Aid::none(),
        })
    }

    /// Another screen that shows and keeps the same. Reserves two buffers of the larger size.
    pub fn copied(&self, alloc: Global) -> Result<Screen<C>, AllocError>
        ensures { IfOk result (λ screen. screen ≡ self.now) }
    {
        let mut cells: C = buffer_for(alloc, &self.geometry)?;
        let spare = buffer_for(alloc, &self.geometry)?;
        cells.copy_from(&self.cells);
        Ok(Screen {
            geometry: self.geometry,
            size: self.size,
            cells,
            spare,
            cursor: self.cursor,
            lock: self.lock,
            aid: self.aid,
        })
    }

    /// The size in use.
    pub fn size(&self) -> Size
        ensures value { result ≡ self.now.size }
        ensures sound { IsSound self.now }
    {
        self.size
    }

    /// The number of positions of the size in use.
    pub fn position_count(&self) -> u32
        ensures count { result ≡ length self.now.cells }
        ensures sound { IsSound self.now }
        ensures cursor_inside { self.now.cursor < length self.now.cells }
    {
        self.size().cells()
    }

    /// The two sizes and the addressing mode.
    pub fn geometry(&self) -> Geometry
        ensures value { result ≡ self.now.geometry }
        ensures sound { IsSound self.now }
    {
        self.geometry
    }

    /// The cell at a position, counted from 0 row by row.
    pub fn cell(&self, p: u32) -> Cell
        requires { p < length self.now.cells }
        ensures { result ≡ cell_at self.now.cells p }
    {
        self.cells.cell(p)
    }

    /// The cursor's position.
    pub fn cursor(&self) -> u32
        ensures value { result ≡ self.now.cursor }
        ensures sound { IsSound self.now }
    {
        self.cursor
    }

    /// The keyboard's lock.
    pub fn lock(&self) -> Lock
        ensures { result ≡ self.now.lock }
    {
        self.lock
    }

    /// The last attention identifier.
    pub fn aid(&self) -> Aid
        ensures { result ≡ self.now.aid }
    {
        self.aid
    }

    /// The fields in rising order of their attributes, each with the number of cells that it governs.
    pub fn fields(&self) -> Fields<'_, C>
        ensures { result ≡ fields_of self.now.cells }
    {
        Fields::new(&self.cells)
    }

    /// The text of a row, counted from 0: `@` for an attribute, `.` for a null, `*` for another character of
    /// a hidden field, else the character of its code, `?` where it has none.
    pub fn shown_row(&self, alloc: Global, row: u16) -> Result<String, AllocError>
        requires { row < self.now.size.rows }
        ensures { IfOk result (λ text. string_bytes text ≡ printed_row self.now row) }
    {
        let columns = u32::from(self.size.cols);
        row_text(alloc, &self.cells, u32::from(row) * columns, columns)
    }

    /// The position of the attribute at the least distance going back round the buffer, `p` itself
    /// first; `None` where there is no attribute.
    pub fn attr_before(&self, p: u32) -> Option<u32>
        requires { p < length self.now.cells }
        ensures nearest { result ≡ attribute_before self.now.cells p }
        ensures inside { IfSome result (λ q. q < length self.now.cells) }
        ensures there { IfSome result (λ q. is_attribute (cell_at self.now.cells q) ≡ true) }
    {
        self.cells.attr_before(p)
    }

    /// The position of the attribute at the least distance going on round the buffer, `p` itself
    /// first; `None` where there is no attribute.
    pub fn attr_from(&self, p: u32) -> Option<u32>
        requires { p < length self.now.cells }
        ensures nearest { result ≡ attribute_from self.now.cells p }
        ensures inside { IfSome result (λ q. q < length self.now.cells) }
        ensures there { IfSome result (λ q. is_attribute (cell_at self.now.cells q) ≡ true) }
    {
        self.cells.attr_from(p)
    }

    /// Whether a position may be typed over: a character that no attribute rules, or an unprotected one.
    pub fn is_open(&self, p: u32) -> bool
        requires { p < length self.now.cells }
        ensures { result ≡ is_open self.now.cells p }
    {
        is_open_at(&self.cells, p)
    }

    /// The open character at the least distance going on round the buffer, `from` itself first; 0 where
    /// there is none.
    pub fn first_open(&self, from: u32) -> u32
        requires { from < length self.now.cells }
        ensures first { result ≡ first_open self.now.cells from }
        ensures inside { result < length self.now.cells }
    {
        self.cells.first_open(from)
    }

    /// The first position of a field that may be typed into, at the least positive distance going on round the buffer,
    /// `from` itself last; 0 where there is none.
    pub fn start_ahead(&self, from: u32) -> u32
        requires { from < length self.now.cells }
        ensures start { result ≡ start_ahead self.now.cells from }
        ensures inside { result < length self.now.cells }
    {
        self.cells.start_ahead(from)
    }

    /// Nulls the open characters, resets the modified data tags of unprotected attributes, and puts the
    /// cursor to the least open position: what Erase Input and Erase All Unprotected do to the buffer.
    pub fn clear_unprotected(&mut self)
        ensures cleared { self.new ≡ cleared self.old }
        ensures sound { IsSound self.new }
    {
        self.cursor = clear_unprotected(&mut self.cells);
    }

    /// Stores a character.
    pub fn put_char(&mut self, p: u32, character: Char)
        requires { p < length self.old.cells }
        ensures changed { self.new
            ≡ record self.old { cells = slice_set self.old.cells p (Cell.Char character) } }
        ensures sound { IsSound self.new }
    {
        self.cells.put(p, Cell::Char(character));
    }

    /// Stores a character in each position from one on up to the stop, round the buffer; in all where they are one.
    pub fn repeat_char(&mut self, p: u32, stop: u32, character: Char)
        requires inside { p < length self.old.cells }
        requires stop_inside { stop < length self.old.cells }
        ensures changed { self.new ≡ record self.old {
          cells = ruled (length self.old.cells)
              (repeated_cell self.old.cells p stop character);
        } }
        ensures sound { IsSound self.new }
    {
        self.cells.repeat(p, stop, character);
    }

    /// Changes an attribute, where one stands.
    pub fn set_attr(&mut self, p: u32, attribute: Attr)
        requires inside { p < length self.old.cells }
        requires there { is_attribute (cell_at self.old.cells p) ≡ true }
        ensures changed { self.new
            ≡ record self.old { cells = slice_set self.old.cells p (Cell.Field attribute) } }
        ensures sound { IsSound self.new }
    {
        self.cells.put(p, Cell::Field(attribute));
    }

    /// Puts the cursor at a position.
    pub fn move_cursor(&mut self, p: u32)
        requires { p < length self.old.cells }
        ensures changed { self.new ≡ record self.old { cursor = p } }
        ensures sound { IsSound self.new }
    {
        self.cursor = p;
    }

    /// Sets the keyboard's lock.
    pub fn set_lock(&mut self, lock: Lock)
        ensures changed { self.new ≡ record self.old { lock = lock } }
        ensures sound { IsSound self.new }
    {
        self.lock = lock;
    }

    /// Sets the attention identifier.
    pub fn set_aid(&mut self, aid: Aid)
        ensures changed { self.new ≡ record self.old { aid = aid } }
        ensures sound { IsSound self.new }
    {
        self.aid = aid;
    }

    /// Makes it nulls of the default size, with the cursor at 0.
    pub fn erase_default(&mut self)
        ensures nulls { self.new ≡ erased self.old.geometry.default self.old }
        ensures sound { IsSound self.new }
    {
        let size = self.geometry.default_size();
        self.cells.clear(size.cells());
        self.size = size;
        self.cursor = 0;
    }

    /// Erase All Unprotected (GA23-0059, "Commands").
    fn erase_all_unprotected(&mut self) -> Effect
        ensures cleared { self.new ≡ all_cleared self.old }
        ensures told { result ≡ record { alarm = false; restored = true } }
    {
        self.clear_unprotected();
        self.lock = Lock::Free;
        self.aid = Aid::none();
        Effect {
            alarm: false,
            restored: true,
        }
    }

    /// Does what a record says, or refuses it at the least order at fault and changes nothing. A1: an
    /// address is not below the number of cells. A2: no attribute stands where one is to be changed. A3,
    /// at 0: the command is a read or No-operation. Works on the second buffer and takes no memory. An erase,
    /// the copy that a Write begins with, a reset of all modified data tags, Erase All Unprotected, and each
    /// Erase Unprotected to Address and Program Tab go over up to the whole buffer; everything else takes time
    /// linear in the record's bytes and the cells it changes.
    pub fn apply(&mut self, outbound: &Record<'_>) -> Result<Effect, Refused>
        ensures shows { OnOk result (RecordShows self.old outbound.now self.new) }
        ensures told { IfOk result (λ effect. effect ≡ told_of outbound.now.command) }
        ensures refused { IfErr result (IsRefusedBy self.old outbound.now) }
        ensures unchanged { OnErr result (self.new ≡ self.old) }
    {
        let command = outbound.command();
        if let Command::EraseAllUnprotected = command {
            return Ok(self.erase_all_unprotected());
        }
        let now = Base {
            wcc: WriteControlCharacter::from_byte(0),
            size: self.size,
            cursor: self.cursor,
        };
        let Some(base) = prepare(&mut self.spare, &self.cells, &self.geometry, now, command) else {
            return Err(Refused {
                at: 0,
                why: Why::NotAWrite,
            });
        };
        let end = write_orders(&mut self.spare, base.wcc, base.cursor, outbound)?;
        swap(&mut self.cells, &mut self.spare);
        self.size = base.size;
        self.cursor = end.cursor;
        self.lock = lock_after(base.wcc, self.lock);
        self.aid = aid_after(base.wcc, self.aid);
        Ok(told(base.wcc))
    }
}
