//! Readers and writers that are slow, or that fail.

use std::io;
use std::io::{ErrorKind, Read, Write};

/// Gives one byte a read, and fails so at the read of a number.
#[derive(Drop)]
pub(crate) struct Slow<'a> {
    pub rest: &'a [u8],
    pub reads: usize,
    pub fails_at: usize,
    pub fails_so: ErrorKind,
}

impl Read for Slow<'_> {
    fn read(&mut self, buf: &mut [u8]) -> io::Result<usize> {
        self.reads = self.reads.saturating_add(1);
        if self.reads == self.fails_at {
            return Err(io::Error::from(self.fails_so));
        }
        let most = buf.len().min(1);
        self.rest.read(&mut buf[..most])
    }
}

/// A reader of these bytes that fails so at the read of a number; never at 0.
pub(crate) fn slow_reader(rest: &[u8], fails_at: usize, fails_so: ErrorKind) -> Slow<'_> {
    Slow {
        rest,
        reads: 0,
        fails_at,
        fails_so,
    }
}

/// Takes a few bytes a write, and fails at the write of a number.
#[derive(Drop)]
pub(crate) struct Narrow {
    pub taken: Vec<u8>,
    pub width: usize,
    pub writes: usize,
    pub fails_at: usize,
}

impl Write for Narrow {
    fn write(&mut self, buf: &[u8]) -> io::Result<usize> {
        self.writes = self.writes.saturating_add(1);
        if self.writes == self.fails_at {
            return Err(io::Error::from(ErrorKind::ConnectionReset));
        }
        let count = buf.len().min(self.width);
        self.taken.write(&buf[..count])
    }

    fn flush(&mut self) -> io::Result<()> {
        Ok(())
    }
}

/// Takes every byte, and fails when it is flushed.
#[derive(Drop)]
pub(crate) struct Unflushed {
    pub taken: Vec<u8>,
}

impl Write for Unflushed {
    fn write(&mut self, buf: &[u8]) -> io::Result<usize> {
        self.taken.write(buf)
    }

    fn flush(&mut self) -> io::Result<()> {
        Err(io::Error::from(ErrorKind::ConnectionReset))
    }
}
