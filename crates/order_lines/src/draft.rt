//! Records that are written order by order, as their lines come.

use ds_codec::{Command, Mode, Order, Unwritable, push_order};
use std::alloc::{AllocError, Global};
use std::marker::Model;

/// A record that is being written, its addresses for a buffer of so many cells: its bytes so far, or its first flaw.
#[derive(Debug, Drop)]
pub struct Draft {
    command: Command,
    mode: Mode,
    cells: u32,
    bytes: Vec<u8>,
    /// How many orders are written.
    count: usize,
    /// The last of them is text.
    after_text: bool,
    flaw: Option<Unwritable>,
}

impl Model for Draft {
    ghost use Rattle.std.specs.Prelude.{◌≡◌, ◌≤◌, ◌<◌, None, length};
    ghost use Rattle.ds_codec.specs.Geometry.{limit_of};
    ghost use Rattle.order_lines.specs.Draft.{Partial, part_unless};

    ghost Value = { Partial };

    ghost view = { λ d. record { command = d.command; mode = d.mode; cells = d.cells; part = part_unless d.flaw (record { bytes = d.bytes.items; count = d.count; after_text = d.after_text }) } };

    ghost invariant = { λ d. (d.cells ≤ limit_of d.mode) × (d.flaw ≡ None → d.count < length d.bytes.items) };
}

impl Draft {
    ghost use Rattle.std.specs.Prelude.{◌≡◌, ◌≤◌, IfErr, IfOk, OnOk, Ok, Err};
    ghost use Rattle.ds_codec.specs.Geometry.{limit_of};
    ghost use Rattle.ds_codec.specs.Order.{item_of};
    ghost use Rattle.order_lines.specs.Draft.{begun, with_order, bytes_in};

    /// A record of no order so far.
    ///
    /// # Errors
    ///
    /// Out of memory.
    pub fn new(alloc: Global, command: Command, mode: Mode, cells: u32) -> Result<Draft, AllocError>
        requires { cells ≤ limit_of mode }
        ensures { IfOk result (λ draft. draft ≡ begun mode cells command) }
    {
        let mut bytes = Vec::new(alloc);
        bytes.push(command.code().byte())?;
        if let Some(wcc) = command.wcc() {
            bytes.push(wcc.byte())?;
        }
        Ok(Draft {
            command,
            mode,
            cells,
            bytes,
            count: 0,
            after_text: false,
            flaw: None,
        })
    }

    /// What the record tells the terminal to do.
    pub fn command(&self) -> Command
        ensures { result ≡ self.now.command }
    {
        self.command
    }

    /// Adds an order, unless one before it has a flaw.
    ///
    /// # Errors
    ///
    /// Out of memory, which is a flaw from then on.
    pub fn push(&mut self, order: &Order<'_>) -> Result<(), AllocError>
        ensures { OnOk result (self.new ≡ with_order self.old (item_of order.now)) }
    {
        if self.flaw.is_some() {
            return Ok(());
        }
        if self.command.wcc().is_none() {
            self.flaw = Some(Unwritable::NotAllowed);
            return Ok(());
        }
        match push_order(
            &mut self.bytes,
            order,
            self.after_text,
            self.count,
            self.mode,
            self.cells,
        ) {
            Ok(is_text) => {
                self.after_text = is_text;
                self.count += 1;
            }
            Err(flaw) => {
                self.flaw = Some(flaw);
                if flaw == Unwritable::OutOfMemory {
                    return Err(AllocError);
                }
            }
        }
        Ok(())
    }

    /// The bytes of the record, once all its orders are there; or why it cannot be written.
    ///
    /// # Errors
    ///
    /// The flaw of its first order that has one.
    pub fn written(self) -> Result<Vec<u8>, Unwritable>
        ensures bytes { IfOk result (λ bytes. bytes_in self ≡ Ok bytes.items) }
        ensures flaw { IfErr result (λ flaw. bytes_in self ≡ Err flaw) }
    {
        match self.flaw {
            Some(flaw) => Err(flaw),
            None => Ok(self.bytes),
        }
    }
}
