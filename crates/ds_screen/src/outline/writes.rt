//! What a record is to write on an outlined screen.

use crate::outline::Outline;
use crate::records::{Base, prepare_on};
use crate::writes::{Write, add_writes};
use ds_codec::{Record, WriteControlCharacter};
use std::alloc::AllocError;

impl Outline {
    ghost use Rattle.std.specs.Prelude.{◌≡◌, ◌+◌, ◌≤◌, ◌++◌, OnOk, All};
    ghost use Rattle.ds_screen.specs.Picture.{Picture};
    ghost use Rattle.ds_screen.specs.Outline.{IsOutlineOf};
    ghost use Rattle.ds_screen.specs.Writes.{record_writes, most_positions};

    /// Adds the positions into which the orders of a record store characters or an attribute when `apply` takes it, in
    /// their turn, up to the first order that is at fault; a position may come more than once. Text stores into as many
    /// positions as it has bytes, at most all. What goes round the end of the buffer comes as two writes of one order:
    /// what lies before the end, then what lies from 0 on. Program Tab and Erase Unprotected to Address add none, since
    /// they only null, nor does what a command erases. The outline stays as it is. Takes the time of `apply`, and memory
    /// for what is added alone.
    ///
    /// # Errors
    ///
    /// Out of memory; then some of them may have been added.
    pub fn writes(
        &mut self,
        outbound: &Record<'_>,
        writes: &mut Vec<Write>,
    ) -> Result<(), AllocError>
        ensures added { OnOk result ((v : Picture) → IsOutlineOf self.old v
            → writes.new.items ≡ writes.old.items
            ++ record_writes v outbound.now.command outbound.now.orders) }
        ensures inside { (v : Picture) → IsOutlineOf self.old v
            → All (λ write. write.place + write.count ≤ most_positions v.geometry)
            (record_writes v outbound.now.command outbound.now.orders) }
        ensures unchanged { self.new ≡ self.old }
    {
        let now = Base {
            wcc: WriteControlCharacter::from_byte(0),
            size: self.size,
            cursor: self.cursor,
        };
        let command = outbound.command();
        let Some(base) = prepare_on(&mut self.spare, &self.marks, &self.geometry, now, command)
        else {
            return Ok(());
        };
        add_writes(&mut self.spare, base.wcc, base.cursor, outbound, writes)
    }
}
