//! Where what stands on a screen comes from: the order that wrote last at each position.

ghost use Rattle.std.specs.Prelude.{◌≡◌, ◌≤◌, ◌+◌, ◌&&◌, ℕ, map, length, nat_le, nat_lt, if◌then◌else◌, true, All, Some, IfOk, OnOk};
ghost use Rattle.ds_codec.specs.Reading.{read_of};
ghost use Rattle.ds_screen.specs.Picture.{Picture};
ghost use Rattle.ds_screen.specs.Outline.{IsOutlineOf};
ghost use Rattle.ds_screen.specs.Writes.{most_positions};
ghost use Rattle.scr_check.specs.Origins.{noted, read_writes, notes_from, last_at, kept_at, AreOrigins};
ghost use Rattle.scr_check.specs.Noting.{HasSlots, Keeps, NotesOn};

use crate::opening::FirstTurn;
use crate::taking::take;
use ds_codec::Record;
use ds_screen::{Outline, Write};
use scr_layout::Layout;
use std::alloc::{AllocError, Global};
use std::marker::Model;

/// An order of a record, by where it stands.
#[derive(Clone, Copy, Debug, PartialEq, Eq)]
pub struct Origin {
    /// The record's number, counted from 0.
    pub index: usize,
    /// The order's first byte in the record, counted from 0.
    pub at: usize,
}

/// For each position the order that wrote there last.
#[derive(Drop)]
pub struct Origins {
    slots: Vec<Option<Origin>>,
}

impl Model for Origins {
    ghost use Rattle.std.specs.Prelude.{List, Option};
    ghost use Rattle.scr_check.specs.declared.origins.Origin.{Origin};

    ghost Value = { List (Option Origin) };

    ghost view = { λ s. s.slots.items };
}

impl Origins {
    ghost use Rattle.std.specs.Prelude.{◌≡◌};
    ghost use Rattle.scr_check.specs.Origins.{kept_at};

    /// The order that wrote last at a position, counted from 0, a character or an attribute: `None` where no order did,
    /// and past the larger size. What it wrote may since have been erased. Takes one look.
    pub fn at(&self, position: u32) -> Option<Origin>
        ensures { result ≡ kept_at self.now position }
    {
        self.kept(position as usize)
    }

    /// The same at an index.
    pub(crate) fn kept(&self, index: usize) -> Option<Origin>
        ensures { result ≡ kept_at self.now index }
    {
        match self.slots.get(index) {
            Some(origin) => *origin,
            None => None,
        }
    }
}

/// Makes the list that of what a record is to write; empty where it can't be read.
fn list_writes(
    outline: &mut Outline,
    bytes: &[u8],
    writes: &mut Vec<Write>,
) -> Result<(), AllocError>
    ensures listed { OnOk result ((v : Picture) → IsOutlineOf outline.old v
        → writes.new.items ≡ read_writes v (read_of v.geometry.mode bytes.now)) }
    ensures inside { OnOk result ((v : Picture) → IsOutlineOf outline.old v
        → All (λ write. write.place + write.count ≤ most_positions v.geometry) writes.new.items) }
    ensures unchanged { outline.new ≡ outline.old }
{
    writes.clear();
    match Record::read(outline.geometry().mode(), bytes) {
        Ok(record) => outline.writes(&record, writes),
        Err(_) => Ok(()),
    }
}

/// Notes an order at the positions from one up to another.
fn note_part(slots: &mut Vec<Option<Origin>>, from: usize, to: usize, origin: Origin)
    requires order { from ≤ to }
    requires inside { to ≤ length slots.old.items }
    ensures noted { (p : ℕ) → kept_at slots.new.items p
        ≡ (if nat_le from p && nat_lt p to then Some origin else kept_at slots.old.items p) }
    ensures whole { length slots.new.items ≡ length slots.old.items }
{
    'positions: for i in from..to {
        slots[i] = Some(origin);
    }
}

/// Notes what the record of this number wrote, from first to last.
fn note_writes(slots: &mut Vec<Option<Origin>>, index: usize, writes: &[Write])
    requires { All (λ write. write.place + write.count ≤ length slots.old.items) writes.now }
    ensures noted { Keeps (map (noted index) writes.now) slots.old.items slots.new.items }
    ensures whole { length slots.new.items ≡ length slots.old.items }
{
    for write in writes {
        let origin = Origin {
            index,
            at: write.at,
        };
        let from = write.place as usize;
        note_part(slots, from, from + write.count as usize, origin);
    }
}

/// Takes the record of this number and notes what it wrote; whether nothing stands against it.
fn take_noting(
    outline: &mut Outline,
    index: usize,
    bytes: &[u8],
    writes: &mut Vec<Write>,
    slots: &mut Vec<Option<Origin>>,
) -> Result<bool, AllocError>
    requires { HasSlots outline.old slots.old.items }
    ensures notes { IfOk result (λ taken. NotesOn outline.old outline.new index bytes.now taken
        slots.old.items slots.new.items) }
    ensures room { IfOk result (λ taken. taken ≡ true → HasSlots outline.new slots.new.items) }
{
    list_writes(outline, bytes, writes)?;
    match take::<FirstTurn>(outline, index, bytes) {
        Ok(()) => {
            note_writes(slots, index, writes);
            Ok(true)
        }
        Err(_) => Ok(false),
    }
}

/// Takes the records in turn and notes what they wrote, up to the first against which something stands.
fn note_all(
    alloc: Global,
    outline: &mut Outline,
    records: &[&[u8]],
    slots: &mut Vec<Option<Origin>>,
) -> Result<(), AllocError>
    requires { HasSlots outline.old slots.old.items }
    ensures { OnOk result ((v : Picture) → IsOutlineOf outline.old v
        → Keeps (notes_from 0 v (map (λ bytes. bytes.now) records.now)) slots.old.items slots.new.items) }
{
    let mut writes = Vec::new(alloc);
    for (index, bytes) in records.iter().enumerate() {
        if !take_noting(outline, index, bytes, &mut writes, slots)? {
            return Ok(());
        }
    }
    Ok(())
}

/// The same from slots for so many positions, of which none has a note yet.
fn note_new(
    alloc: Global,
    outline: &mut Outline,
    records: &[&[u8]],
    most: usize,
) -> Result<Origins, AllocError>
    requires { (v : Picture) × IsOutlineOf outline.old v × (most_positions v.geometry ≤ most) }
    ensures { IfOk result (λ origins. (v : Picture) → IsOutlineOf outline.old v
        → (p : ℕ) → kept_at origins p
        ≡ last_at p (notes_from 0 v (map (λ bytes. bytes.now) records.now))) }
{
    let mut slots = vec![in alloc; None; most]?;
    note_all(alloc, outline, records, &mut slots)?;
    Ok(Origins { slots })
}

/// For each position of a new terminal of the layout's geometry, the order that wrote there last when the records are taken
/// in turn as `check` takes them, up to the first against which something stands. Builds no screen, reads each record
/// twice, and takes time for the records' bytes and the positions of the larger size.
///
/// # Errors
///
/// Where a request for memory was refused.
pub fn find_origins(
    alloc: Global,
    records: &[&[u8]],
    layout: &Layout,
) -> Result<Origins, AllocError>
    ensures { IfOk result (AreOrigins layout.now (map (λ bytes. bytes.now) records.now)) }
{
    let geometry = layout.geometry();
    let most = geometry
        .default_size()
        .cells()
        .max(geometry.alternate_size().cells());
    let mut outline = Outline::new(alloc, geometry)?;
    note_new(alloc, &mut outline, records, most as usize)
}
