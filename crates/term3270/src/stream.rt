//! Streams that name themselves, with the cause, on standard error where they fail.

use crate::withheld::Withheld;
use std::io;
use std::io::{Read, Write};

/// A stream and what people call it.
#[derive(Drop)]
pub(crate) struct Named<'a, S> {
    pub rt: &'a HostRuntime,
    pub name: &'a str,
    pub stream: S,
}

impl<S> Named<'_, S> {
    /// Says on standard error what failed and why. An interrupted call is made again, and isn't said; nor is that a pipe was
    /// closed by who reads it.
    fn report(&self, error: &io::Error) {
        if !matches!(
            error.kind(),
            io::ErrorKind::Interrupted | io::ErrorKind::BrokenPipe
        ) {
            let name = self.name;
            let _ = eprintln!(self.rt; "term3270: {name}: {error}");
        }
    }
}

impl<S: Write> Named<'_, Withheld<S>> {
    /// Writes what is withheld, and says what failed.
    pub(crate) fn release(&mut self) -> io::Result<()> {
        let released = self.stream.release();
        if let Err(error) = &released {
            self.report(error);
        }
        released
    }
}

impl<S: Read> Read for Named<'_, S> {
    fn read(&mut self, buf: &mut [u8]) -> io::Result<usize> {
        let read = self.stream.read(buf);
        if let Err(error) = &read {
            self.report(error);
        }
        read
    }
}

impl<S: Write> Write for Named<'_, S> {
    fn write(&mut self, buf: &[u8]) -> io::Result<usize> {
        let written = self.stream.write(buf);
        match &written {
            Ok(0) if !buf.is_empty() => self.report(&io::Error::from(io::ErrorKind::WriteZero)),
            Ok(_) => {}
            Err(error) => self.report(error),
        }
        written
    }

    fn flush(&mut self) -> io::Result<()> {
        let flushed = self.stream.flush();
        if let Err(error) = &flushed {
            self.report(error);
        }
        flushed
    }
}
