//! Output that is withheld until it is known that a command has some: of a picture that can't be made nothing is written.

use std::io;
use std::io::Write;

/// More bytes than the line of a fault has, and fewer than pictures have.
const MOST_WITHHELD: usize = 256;

/// A stream whose first bytes are withheld until there are more, or until they are released.
#[derive(Drop)]
pub(crate) struct Withheld<S> {
    stream: S,
    first: [u8; MOST_WITHHELD],
    /// So many bytes are withheld.
    held: usize,
    is_open: bool,
}

impl<S> Withheld<S> {
    pub(crate) fn new(stream: S) -> Withheld<S> {
        Withheld {
            stream,
            first: [0; MOST_WITHHELD],
            held: 0,
            is_open: false,
        }
    }

    /// Says on standard error what is withheld.
    pub(crate) fn tell(&self, rt: &HostRuntime) {
        let held = self.held.min(MOST_WITHHELD);
        if let Ok(text) = str::from_utf8(&self.first[..held]) {
            let _ = eprint!(rt; "term3270: {text}");
        }
    }

    /// Keeps bytes, and tells whether there was room for them.
    fn keeps(&mut self, bytes: &[u8]) -> bool {
        if self.is_open || MOST_WITHHELD < bytes.len() {
            return false;
        }
        let held = self.held;
        if MOST_WITHHELD - bytes.len() < held {
            return false;
        }
        let end = held + bytes.len();
        let room = &mut self.first[held..end];
        room.copy_from_slice(bytes);
        self.held = end;
        true
    }
}

impl<S: Write> Withheld<S> {
    /// Writes what is withheld; nothing is from here on.
    fn open(&mut self) -> io::Result<()> {
        if self.is_open {
            return Ok(());
        }
        self.is_open = true;
        let held = self.held.min(MOST_WITHHELD);
        self.stream.write_all(&self.first[..held])
    }

    /// Writes what is withheld, and passes all on.
    pub(crate) fn release(&mut self) -> io::Result<()> {
        self.open()?;
        self.stream.flush()
    }
}

impl<S: Write> Write for Withheld<S> {
    fn write(&mut self, buf: &[u8]) -> io::Result<usize> {
        if self.keeps(buf) {
            return Ok(buf.len());
        }
        self.open()?;
        self.stream.write(buf)
    }

    fn flush(&mut self) -> io::Result<()> {
        if self.is_open {
            self.stream.flush()
        } else {
            Ok(())
        }
    }
}
