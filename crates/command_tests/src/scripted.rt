//! A line in memory.

use std::alloc::Global;
use std::io;
use std::io::{Read, Write};

/// What a line gives after its pieces, and when.
#[derive(Clone, Copy, PartialEq, Eq)]
pub(crate) enum Giving {
    /// Its pieces, and then nothing.
    Ends,
    /// Each piece only once all that is due before it was written; a read that comes earlier, or after the last piece,
    /// fails.
    Paced,
    /// Its pieces, and then FF and F1 for ever, a byte a read.
    Endless,
}

/// Gives pieces one by one, each to one read; takes so many bytes a write; and fails the call of a number.
#[derive(Drop)]
pub(crate) struct Script {
    pub(crate) giving: Giving,
    /// How many bytes are due before each piece, where that matters.
    pub(crate) due: Vec<usize>,
    pub(crate) pieces: Vec<Vec<u8>>,
    pub(crate) next: usize,
    pub(crate) at: usize,
    pub(crate) written: Vec<u8>,
    pub(crate) width: usize,
    pub(crate) calls: usize,
    pub(crate) fails_at: usize,
    pub(crate) read_failed: bool,
    /// How many reads had room for other than 4,096 bytes.
    pub(crate) other_rooms: usize,
}

impl Script {
    /// Counts a call, and whether it is the one that fails.
    fn fails(&mut self) -> bool {
        self.calls = self.calls.saturating_add(1);
        self.calls == self.fails_at
    }

    /// Whether the next piece isn't due yet.
    fn is_early(&self) -> bool {
        match (self.giving, self.due.get(self.next)) {
            (Giving::Paced, Some(due)) => self.written.len() < *due,
            (Giving::Paced, None) => true,
            _ => false,
        }
    }

    /// What comes after the last piece.
    fn end(&self) -> &[u8] {
        match (self.giving, self.at) {
            (Giving::Endless, 0) => &[0xFF],
            (Giving::Endless, _) => &[0xF1],
            _ => &[],
        }
    }

    /// What is left of the next piece, or what comes after the last.
    fn rest(&self) -> &[u8] {
        match self.pieces.get(self.next) {
            Some(piece) => piece.as_slice().get(self.at..).unwrap_or(&[]),
            None => self.end(),
        }
    }

    /// Goes on by so many of so many bytes.
    fn advance(&mut self, count: usize, length: usize) {
        if self.next >= self.pieces.len() {
            self.at = if self.at == 0 { 1 } else { 0 };
        } else if count >= length {
            self.next = self.next.saturating_add(1);
            self.at = 0;
        } else {
            self.at = self.at.saturating_add(count);
        }
    }
}

/// A line that gives these pieces, takes so many bytes a write, and fails at the call of a number; never at 0.
pub(crate) fn script_of(
    alloc: Global,
    pieces: Vec<Vec<u8>>,
    width: usize,
    fails_at: usize,
) -> Script {
    Script {
        giving: Giving::Ends,
        due: Vec::new(alloc),
        pieces,
        next: 0,
        at: 0,
        written: Vec::new(alloc),
        width,
        calls: 0,
        fails_at,
        read_failed: false,
        other_rooms: 0,
    }
}

fn failure() -> io::Error {
    io::Error::from(io::ErrorKind::ConnectionReset)
}

impl Read for Script {
    fn read(&mut self, buf: &mut [u8]) -> io::Result<usize> {
        if buf.len() != 4_096 {
            self.other_rooms = self.other_rooms.saturating_add(1);
        }
        if self.fails() || self.is_early() {
            self.read_failed = true;
            return Err(failure());
        }
        let mut rest = self.rest();
        let length = rest.len();
        let count = rest.read(buf)?;
        self.advance(count, length);
        Ok(count)
    }
}

impl Write for Script {
    fn write(&mut self, buf: &[u8]) -> io::Result<usize> {
        if self.fails() {
            return Err(failure());
        }
        let count = buf.len().min(self.width);
        self.written.write(&buf[..count])
    }

    fn flush(&mut self) -> io::Result<()> {
        Ok(())
    }
}
