//! What is printed of terminals, and waits to be written.

ghost use Rattle.std.specs.Prelude.{◌≡◌, ◌<◌, ◌+◌, [], length, take, drop, nat_le, nat_eq, true, OnOk, OnErr};
ghost use Rattle.host_server.specs.Waiting.{added, most_waiting, nothing_waits, Passes};

use cli_commands::TakesBytes;
use cli_sessions::Output;
use std::alloc::{AllocError, Global};
use std::marker::Model;

/// The most bytes that may wait.
pub(crate) const MOST_WAITING: usize = 16_777_216;

/// The most bytes of one write: a pipe that is told to take some takes so many at once.
const MOST_WRITTEN: usize = 4_096;

/// Texts that wait to be written, in turn.
#[derive(Drop)]
pub(crate) struct Pending {
    bytes: Vec<u8>,
    /// So many of the bytes were written.
    gone: usize,
    /// Whether a text was left out, and so none follows.
    is_cut: bool,
    /// Whether one was because too much waited.
    is_full: bool,
}

impl Model for Pending {
    ghost use Rattle.std.specs.Prelude.{drop, ◌≤◌, vec_len};
    ghost use Rattle.host_server.specs.Waiting.{Waiting};

    ghost Value = { Waiting };

    ghost view = { λ p. record { bytes = drop p.gone p.bytes.items; cut = p.is_cut } };

    ghost invariant = { λ p. p.gone ≤ vec_len p.bytes };
}

/// Whether a text may wait behind so many bytes.
fn has_room(waits: usize, text: usize) -> bool
    ensures { result ≡ nat_le (waits + text) most_waiting }
{
    text <= MOST_WAITING && waits <= MOST_WAITING - text
}

impl Pending {
    /// Nothing waits.
    pub(crate) fn new(alloc: Global) -> Pending
        ensures { result ≡ nothing_waits }
    {
        Pending {
            bytes: Vec::new(alloc),
            gone: 0,
            is_cut: false,
            is_full: false,
        }
    }

    /// Whether nothing waits.
    pub(crate) fn is_empty(&self) -> bool
        ensures { result ≡ nat_eq (length self.now.bytes) 0 }
    {
        self.bytes.len() - self.gone == 0
    }

    /// Whether a text was left out.
    pub(crate) fn is_cut(&self) -> bool
        ensures { result ≡ self.now.cut }
    {
        self.is_cut
    }

    /// Whether a text was left out because too much waited.
    pub(crate) fn is_full(&self) -> bool {
        self.is_full
    }

    /// Lets the bytes go that were written, once they are as many as those that wait.
    fn compact(&mut self) -> Result<(), AllocError>
        ensures { self.new ≡ self.old }
    {
        if self.gone > 0 && self.gone >= self.bytes.len() - self.gone {
            self.bytes = self.bytes.split_off(self.gone)?;
            self.gone = 0;
        }
        Ok(())
    }

    /// A text waits behind those that do, where there is room for it; else it is left out, and so is each that follows.
    ///
    /// # Errors
    ///
    /// Where memory is refused. The text does not wait then.
    pub(crate) fn add(&mut self, text: &[u8]) -> Result<(), AllocError>
        ensures added { OnOk result (self.new ≡ added self.old text.now) }
        ensures refused { OnErr result (self.new ≡ self.old) }
    {
        if self.is_cut {
            return Ok(());
        }
        if !has_room(self.bytes.len() - self.gone, text.len()) {
            self.is_cut = true;
            self.is_full = true;
            return Ok(());
        }
        self.compact()?;
        self.bytes.extend_from_slice(text)
    }

    /// The bytes that wait.
    fn waits(&self) -> &[u8]
        ensures { result.now ≡ self.now.bytes }
    {
        &self.bytes[self.gone..]
    }

    /// The bytes that are written next.
    fn front(&self) -> &[u8]
        ensures { result.now ≡ take 4096 self.now.bytes }
    {
        let waits = self.waits();
        &waits[..MOST_WRITTEN.min(waits.len())]
    }

    /// So many bytes were written.
    fn pass(&mut self, count: usize)
        ensures { self.new ≡ record self.old { bytes = drop count self.old.bytes } }
    {
        if count < self.bytes.len() - self.gone {
            self.gone += count;
        } else {
            self.bytes.clear();
            self.gone = 0;
        }
    }

    /// A write failed: nothing waits any more, and nothing will.
    fn give_up(&mut self)
        ensures { self.new ≡ record { bytes = []; cut = true } }
    {
        self.bytes.clear();
        self.gone = 0;
        self.is_cut = true;
    }
}

/// One write of what waits, if anything does.
pub(crate) fn pass_some<W: TakesBytes>(output: &mut Output<W>, pending: &mut Pending)
    ensures passes { Passes output.old output.new pending.old pending.new }
    ensures fewer { 0 < length pending.old.bytes
        → length pending.new.bytes < length pending.old.bytes }
{
    let front = pending.front();
    if front.is_empty() {
        return;
    }
    let Some(count) = output.put(front) else {
        pending.give_up();
        return;
    };
    match output.pass_on() {
        Some(()) => pending.pass(count),
        None => pending.give_up(),
    }
}

/// Writes all that waits, however long that takes.
pub(crate) fn pass_all<W: TakesBytes>(output: &mut Output<W>, pending: &mut Pending)
    ensures passes { Passes output.old output.new pending.old pending.new }
    ensures nothing { pending.new.bytes ≡ [] }
{
    while !pending.is_empty() {
        pass_some(output, pending);
    }
}
