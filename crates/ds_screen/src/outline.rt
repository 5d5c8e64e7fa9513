//! The outline of a screen: what records leave of its fields, without its cells.

mod worst;
mod writes;

use crate::effect::Effect;
use crate::field::FieldAt;
use crate::lock::Lock;
use crate::marks::Marks;
use crate::outline_fields::OutlineFields;
use crate::records::{Base, clear_on, prepare_on, write_on};
use crate::refused::{Refused, Why};
use crate::screen::most_cells;
use crate::surface::Surface;
use crate::wcc::{lock_after, told};
use ds_codec::{Command, Geometry, Record, Size, WriteControlCharacter};
use std::alloc::{AllocError, Global};
use std::marker::Model;
use std::mem::swap;

/// What a checker keeps of a screen: its sizes, its attributes in the order of their positions, the cursor
/// and the keyboard's lock, and no cell. A second list, on which `apply` works, is for refused records.
/// Only `new` takes memory.
#[derive(Drop)]
pub struct Outline {
    geometry: Geometry,
    size: Size,
    marks: Marks,
    spare: Marks,
    cursor: u32,
    lock: Lock,
}

impl Model for Outline {
    ghost use Rattle.ds_screen.specs.Outline.{Outlined, outlined, IsHeld};

    ghost Value = { Outlined };

    ghost view = { λ s. outlined s.geometry s.size s.marks s.cursor s.lock };

    ghost invariant = { λ s. IsHeld (outlined s.geometry s.size s.marks s.cursor s.lock) s.spare.room };
}

impl Outline {
    ghost use Rattle.std.specs.Prelude.{◌≡◌, ◌<◌, true, false, IfOk, IfErr, OnOk, OnErr};
    ghost use Rattle.ds_codec.specs.Geometry.{cells_of};
    ghost use Rattle.ds_screen.specs.Picture.{Picture, cell_at};
    ghost use Rattle.ds_screen.specs.Fields.{is_attribute, fields_of, field_there};
    ghost use Rattle.ds_screen.specs.Records.{new_picture, told_of};
    ghost use Rattle.ds_screen.specs.Outline.{IsOutlineOf, OutlinesShown, OutlinesRefused, OutlinesCleared};

    /// The outline of a new terminal of this geometry. Reserves two lists of as many attributes as the larger
    /// size has positions.
    pub fn new(alloc: Global, geometry: Geometry) -> Result<Outline, AllocError>
        ensures { IfOk result (λ outline. IsOutlineOf outline (new_picture geometry)) }
    {
        let size = geometry.default_size();
        let most = most_cells(&geometry);
        let mut marks = Marks::reserved(alloc, most)?;
        let spare = Marks::reserved(alloc, most)?;
        marks.make_blank(size.cells());
        Ok(Outline {
            geometry,
            size,
            marks,
            spare,
            cursor: 0,
            lock: Lock::Waiting,
        })
    }

    /// The outline of a new terminal of the same geometry again. Takes no memory.
    pub fn restart(&mut self)
        ensures { IsOutlineOf self.new (new_picture self.old.geometry) }
    {
        let size = self.geometry.default_size();
        let _alternate = self.geometry.alternate_size();
        self.marks.make_blank(size.cells());
        self.size = size;
        self.cursor = 0;
        self.lock = Lock::Waiting;
    }

    /// The two sizes and the addressing mode.
    pub fn geometry(&self) -> Geometry
        ensures { result ≡ self.now.geometry }
    {
        self.geometry
    }

    /// The size in use.
    pub fn size(&self) -> Size
        ensures { result ≡ self.now.size }
    {
        self.size
    }

    /// The cursor's position.
    pub fn cursor(&self) -> u32
        ensures value { result ≡ self.now.cursor }
        ensures inside { result < cells_of self.now.size }
    {
        self.cursor
    }

    /// The keyboard's lock.
    pub fn lock(&self) -> Lock
        ensures { result ≡ self.now.lock }
    {
        self.lock
    }

    /// The fields in rising order of their attributes, each with the number of cells that it governs.
    pub fn fields(&self) -> OutlineFields<'_>
        ensures { (v : Picture) → IsOutlineOf self.now v → result ≡ fields_of v.cells }
    {
        OutlineFields::new(&self.marks)
    }

    /// The field whose attribute stands at this position, if one does: found by halving.
    pub fn field_at(&self, p: u32) -> Option<FieldAt>
        ensures { (v : Picture) → IsOutlineOf self.now v → result ≡ field_there v.cells p }
    {
        self.marks.field_held(p)
    }

    /// Whether an attribute stands at this position: found by halving.
    pub fn has_attribute(&self, p: u32) -> bool
        ensures { (v : Picture) → IsOutlineOf self.now v
            → result ≡ is_attribute (cell_at v.cells p) }
    {
        self.marks.is_marked(p)
    }

    /// The same, for one that asks for positions in turn: `guess` is what the question before left there, and any number at
    /// first. It spares the search where the attribute is near, and changes nothing of what is answered.
    pub fn has_attribute_near(&self, p: u32, guess: &mut usize) -> bool
        ensures { (v : Picture) → IsOutlineOf self.now v
            → result ≡ is_attribute (cell_at v.cells p) }
    {
        self.marks.is_marked_near(p, guess)
    }

    /// Erase All Unprotected (GA23-0059, "Commands").
    fn erase_all_unprotected(&mut self) -> Effect
        ensures shown { OutlinesCleared self.old self.new }
        ensures told { result ≡ record { alarm = false; restored = true } }
    {
        self.cursor = clear_on(&mut self.marks);
        self.lock = Lock::Free;
        Effect {
            alarm: false,
            restored: true,
        }
    }

    /// Does what a record says to the attributes, the cursor and the lock, with the refusals of a screen, and
    /// changes nothing where it refuses. Takes no memory. The copy that a Write begins with and a reset of
    /// modified data tags go over all attributes; each order finds its place by halving, and
    /// moves no more than the attributes of the 512 positions round the one that it puts in or takes out.
    pub fn apply(&mut self, outbound: &Record<'_>) -> Result<Effect, Refused>
        ensures shows { OnOk result (OutlinesShown self.old outbound.now self.new) }
        ensures told { IfOk result (λ effect. effect ≡ told_of outbound.now.command) }
        ensures refused { IfErr result (OutlinesRefused self.old outbound.now) }
        ensures unchanged { OnErr result (self.new ≡ self.old) }
    {
        let command = outbound.command();
        if let Command::EraseAllUnprotected = command {
            return Ok(self.erase_all_unprotected());
        }
        let now = Base {
            wcc: WriteControlCharacter::from_byte(0),
            size: self.size,
            cursor: self.cursor,
        };
        let Some(base) = prepare_on(&mut self.spare, &self.marks, &self.geometry, now, command)
        else {
            return Err(Refused {
                at: 0,
                why: Why::NotAWrite,
            });
        };
        let end = write_on(&mut self.spare, base.wcc, base.cursor, outbound)?;
        swap(&mut self.marks, &mut self.spare);
        self.size = base.size;
        self.cursor = end.cursor;
        self.lock = lock_after(base.wcc, self.lock);
        Ok(told(base.wcc))
    }
}
