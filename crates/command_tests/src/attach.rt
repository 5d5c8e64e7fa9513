//! Terminals that attach to a host in memory.

use crate::commands::push_ran;
use cli_commands::{Watched, read_keys, read_strokes};
use cli_sessions::{Output, Timed, attach_on, attach_tolerant_on};
use std::io;
use std::io::{Read, Write};
use test_words::Row;
use tn_session::{Device, Keystroke, ScreenModel, Stop};

/// How a host's line ends a flush.
#[derive(Clone, Copy)]
pub(crate) enum Flush {
    Done,
    Failed,
    /// It fails, and the line says that a read was too late.
    Late,
}

/// A line to a host that sends bytes and closes, and keeps what it gets.
#[derive(Drop)]
struct Host<'a> {
    sends: &'a [u8],
    gets: Vec<u8>,
    flush: Flush,
}

impl Read for Host<'_> {
    fn read(&mut self, buf: &mut [u8]) -> io::Result<usize> {
        self.sends.read(buf)
    }
}

impl Write for Host<'_> {
    fn write(&mut self, buf: &[u8]) -> io::Result<usize> {
        self.gets.write(buf)
    }

    fn flush(&mut self) -> io::Result<()> {
        match self.flush {
            Flush::Done => Ok(()),
            Flush::Failed | Flush::Late => Err(io::Error::from(io::ErrorKind::ConnectionReset)),
        }
    }
}

impl Timed for Host<'_> {
    fn is_late(&self) -> bool {
        matches!(self.flush, Flush::Late)
    }
}

fn name_of(stop: Option<Stop>) -> &'static str {
    match stop {
        Some(Stop::Ended) => " ended",
        Some(Stop::ReadFailed) => " read failed",
        Some(Stop::WriteFailed) => " write failed",
        None => " open",
    }
}

fn push_session<K: Keystroke>(row: &mut Row, host: Host<'_>, keys: &[K]) {
    let device = Device {
        model: ScreenModel::Two,
        extended: false,
    };
    let mut output = Output::new(Watched::new(Vec::new(row.alloc())));
    let (status, wire) = attach_on(row.alloc(), host, device, keys, &mut output);
    push_ran(row, Some(status), output.into_writer().stream.as_slice());
    let stop = wire.stop();
    row.word(" got ");
    row.bytes(wire.into_line().gets.as_slice());
    row.word(name_of(stop));
}

/// What a terminal of model 2 prints that presses the file's keys, what the host gets, and how the line stopped.
pub(crate) fn push_attached(row: &mut Row, sends: &str, keys: &[u8], flush: Flush) {
    let bytes = row.read_bytes(sends);
    let host = Host {
        sends: bytes.as_slice(),
        gets: Vec::new(row.alloc()),
        flush,
    };
    let mut keys = keys;
    if let Some(named) = row.take(read_keys(row.alloc(), &mut keys)) {
        push_session(row, host, named.keys.as_slice());
    }
}

/// The same of a terminal that strikes the file's strokes.
pub(crate) fn push_striking(row: &mut Row, sends: &str, strokes: &[u8]) {
    let bytes = row.read_bytes(sends);
    let host = Host {
        sends: bytes.as_slice(),
        gets: Vec::new(row.alloc()),
        flush: Flush::Done,
    };
    let mut strokes = strokes;
    if let Some(named) = row.take(read_strokes(row.alloc(), &mut strokes)) {
        push_session(row, host, named.strokes.as_slice());
    }
}

fn push_tolerant_session<K: Keystroke>(row: &mut Row, host: Host<'_>, keys: &[K], expected: u16) {
    let device = Device {
        model: ScreenModel::Two,
        extended: false,
    };
    let mut output = Output::new(Watched::new(Vec::new(row.alloc())));
    let (status, wire) = attach_tolerant_on(row.alloc(), host, device, keys, expected, &mut output);
    push_ran(row, Some(status), output.into_writer().stream.as_slice());
    let stop = wire.stop();
    row.word(" got ");
    row.bytes(wire.into_line().gets.as_slice());
    row.word(name_of(stop));
}

/// The same of a tolerant terminal, of which so many answers are expected.
pub(crate) fn push_tolerant(row: &mut Row, words: &str, keys: &[u8], flush: Flush) {
    let (expected, sends) = words.split_once(' ').unwrap_or((words, ""));
    let expected = row.read_short(expected);
    let bytes = row.read_bytes(sends);
    let host = Host {
        sends: bytes.as_slice(),
        gets: Vec::new(row.alloc()),
        flush,
    };
    let mut keys = keys;
    if let Some(named) = row.take(read_keys(row.alloc(), &mut keys)) {
        push_tolerant_session(row, host, named.keys.as_slice(), expected);
    }
}
