//! Bytes that were read and not yet written.

ghost use Rattle.std.specs.Prelude.{◌≡◌, ◌-◌, ◌≤◌, ◌++◌, [], length, drop, true, false, IfOk};

use std::alloc::{AllocError, Global};
use std::marker::Model;

/// The most bytes that are held.
pub(crate) const MOST: usize = 16_384;

/// Bytes that were read and not yet written, up to 16,384, and whether all was read.
#[derive(Drop)]
pub(crate) struct Pipe {
    bytes: Vec<u8>,
    /// How many of them were written.
    gone: usize,
    is_ended: bool,
}

impl Model for Pipe {
    ghost use Rattle.std.specs.Prelude.{◌≡◌, ◌≤◌, ◌-◌, drop, vec_len, vec_capacity};
    ghost use Rattle.tn_relay.specs.Relayed.{Held};

    ghost Value = { Held };

    ghost view = { λ p. record { bytes = drop p.gone p.bytes.items; room = 16384 - vec_len p.bytes; is_ended = p.is_ended } };

    ghost invariant = { λ p. (p.gone ≤ vec_len p.bytes) × (p.gone ≡ vec_len p.bytes → vec_len p.bytes ≡ 0)
        × (16384 ≤ vec_capacity p.bytes) × (vec_len p.bytes ≤ 16384) };
}

impl Pipe {
    pub(crate) fn new(alloc: Global) -> Result<Pipe, AllocError>
        ensures { IfOk result (λ p. p ≡ record { bytes = []; room = 16384; is_ended = false }) }
    {
        Ok(Pipe {
            bytes: Vec::with_capacity(alloc, MOST)?,
            gone: 0,
            is_ended: false,
        })
    }

    /// What is to be written next.
    pub(crate) fn bytes(&self) -> &[u8]
        ensures { result.now ≡ self.now.bytes }
    {
        &self.bytes[self.gone..]
    }

    /// How many bytes may be read.
    pub(crate) fn room(&self) -> usize
        ensures room { result ≡ self.now.room }
        ensures most { result ≤ 16384 }
    {
        MOST - self.bytes.len()
    }

    /// Whether all was read.
    pub(crate) fn is_ended(&self) -> bool
        ensures { result ≡ self.now.is_ended }
    {
        self.is_ended
    }

    /// Takes bytes that were read.
    pub(crate) fn take(&mut self, bytes: &[u8])
        requires room { length bytes.now ≤ self.old.room }
        ensures bytes { self.new.bytes ≡ self.old.bytes ++ bytes.now }
        ensures room { self.new.room ≡ self.old.room - length bytes.now }
        ensures ended { self.new.is_ended ≡ self.old.is_ended }
    {
        self.bytes.extend_from_slice(bytes).unwrap();
    }

    /// So many of the bytes were written.
    pub(crate) fn give(&mut self, count: usize)
        requires bytes { count ≤ length self.old.bytes }
        ensures bytes { self.new.bytes ≡ drop count self.old.bytes }
        ensures room { self.old.room ≤ self.new.room }
        ensures empty { self.new.bytes ≡ [] → self.new.room ≡ 16384 }
        ensures ended { self.new.is_ended ≡ self.old.is_ended }
    {
        self.gone += count;
        if self.gone == self.bytes.len() {
            self.bytes.clear();
            self.gone = 0;
        }
    }

    /// All was read.
    pub(crate) fn end(&mut self)
        ensures { self.new ≡ record self.old { is_ended = true } }
    {
        self.is_ended = true;
    }
}
