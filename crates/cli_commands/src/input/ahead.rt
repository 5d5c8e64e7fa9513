//! Bytes that were read and not yet taken.

ghost use Rattle.std.specs.Prelude.{◌≡◌, ◌≤◌, ◌<◌, [], drop, length, slice_range, IfErr, OnOk, IfOk};
ghost use Rattle.std.specs.Io.KnownBytes.{IsAtEnd, Keeps, prepend_known};
ghost use Rattle.cli_commands.specs.Causes.{ToldBy};
ghost use Rattle.cli_commands.specs.Fault.{IsNoFault};

use crate::fault::CommandError;
use crate::streams::GivesBytes;
use std::alloc::{AllocError, Global};
use std::marker::Model;

/// What was read ahead of a stream. Contracts see the bytes that are not yet taken.
#[derive(Drop)]
pub struct ReadAhead {
    buffer: Vec<u8>,
    start: usize,
    end: usize,
}

impl Model for ReadAhead {
    ghost use Rattle.std.specs.Prelude.{ℕ, List, ◌≤◌, ◌<◌, slice_range, vec_len};

    ghost Value = { List ℕ };

    ghost view = { λ ahead. slice_range ahead.buffer.items ahead.start ahead.end };

    ghost invariant = { λ ahead. (ahead.start ≤ ahead.end) × (ahead.end ≤ vec_len ahead.buffer) × (0 < vec_len ahead.buffer) };
}

impl ReadAhead {
    /// Nothing read ahead; at most so many bytes are read at once.
    ///
    /// # Errors
    ///
    /// Where a request for memory was refused.
    pub fn new(alloc: Global, most: usize) -> Result<ReadAhead, AllocError>
        requires { 0 < most }
        ensures { IfOk result (λ ahead. ahead ≡ []) }
    {
        let mut buffer = Vec::with_capacity(alloc, most)?;
        buffer.resize(most, 0)?;
        Ok(ReadAhead {
            buffer,
            start: 0,
            end: 0,
        })
    }

    /// Reads once, where nothing is there.
    ///
    /// # Errors
    ///
    /// That the read failed; out of memory.
    pub fn fill<R: GivesBytes>(&mut self, reader: &mut R) -> Result<(), CommandError>
        ensures bytes { Keeps (prepend_known self.old (R.remaining reader.old))
            (prepend_known self.new (R.remaining reader.new)) }
        ensures end { OnOk result (self.new ≡ [] → IsAtEnd (R.remaining reader.new)) }
        ensures cause { ToldBy (R.failures reader.old) (R.failures reader.new) result }
        ensures failed { IfErr result IsNoFault }
    {
        if self.start < self.end {
            return Ok(());
        }
        self.start = 0;
        self.end = 0;
        self.end = reader.give(self.buffer.as_mut_slice())?;
        Ok(())
    }

    /// What is there.
    pub fn shown(&self) -> &[u8]
        ensures { result.now ≡ self.now }
    {
        let (start, end) = (self.start, self.end);
        let all = self.buffer.as_slice();
        &all[start..end]
    }

    /// Takes so many of the bytes that are there.
    pub fn consume(&mut self, count: usize)
        requires { count ≤ length self.old }
        ensures { self.new ≡ drop count self.old }
    {
        self.start += count;
    }
}
