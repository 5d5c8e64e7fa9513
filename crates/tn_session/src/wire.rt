//! A line, and what passes over it. No call of the line stands outside this file, so what is said here of what was
//! received and sent is all that was.

ghost use Rattle.std.specs.Prelude.{◌≡◌, ◌<◌, ◌+◌, length, None, Some};
ghost use Rattle.tn_session.specs.Wire.{Gave, Took, Flushed, IsRead, IsWrite, IsFlush};

use crate::history::{History, add_bytes};
use crate::stop::Stop;
use std::io::{Read, Write};
use std::marker::Model;

/// A line that bytes are read from and written to, up to its first failure or its end. Callers' contracts see the line as it
/// was handed over, all that was received and sent, how many reads there were and for how many bytes each had room, how often
/// the line was flushed, and why it stopped.
#[derive(Drop)]
pub struct Wire<L: Read + Write> {
    line: L,
    reads: u64,
    stop: Option<Stop>,
    received: History<u8>,
    sent: History<u8>,
    made_of: History<L>,
    rooms: History<usize>,
    flushes: History<()>,
}

impl<L: Read + Write> Model for Wire<L> {
    ghost use Rattle.std.specs.Prelude.{length, map};
    ghost use Rattle.tn_session.specs.Wire.{WireState, fresh, first_line};

    ghost Value = { WireState };

    ghost view = { λ w. record {
      line = first_line (map (λ (line : L). fresh (L.remaining line) (L.contents line)) w.made_of.items);
      received = w.received.items;
      sent = w.sent.items;
      reads = w.reads;
      rooms = w.rooms.items;
      flushes = length w.flushes.items;
      stop = w.stop;
      left = L.remaining w.line;
      held = L.contents w.line;
    } };
}

impl<L: Read + Write> Wire<L> {
    ghost use Rattle.tn_session.specs.Wire.{begun, fresh};

    /// A line over which nothing has passed.
    pub fn new(line: L) -> Wire<L>
        ensures { result ≡ begun (fresh (L.remaining line) (L.contents line)) }
    {
        let made_of = History::new().and(&line);
        Wire {
            line,
            reads: 0,
            stop: None,
            received: History::new(),
            sent: History::new(),
            made_of,
            rooms: History::new(),
            flushes: History::new(),
        }
    }

    /// One read of the line into a buffer, which isn't empty: how many bytes it gave. None where it gave nothing or failed;
    /// then the line has stopped.
    pub fn read(&mut self, buffer: &mut [u8]) -> Option<usize>
        requires goes { self.old.stop ≡ None }
        requires counts { self.old.reads < u64.MAX }
        requires room { 0 < length buffer.old }
        ensures gave { Gave self.old buffer.new result self.new }
        ensures rest { IsRead (length buffer.old) self.old self.new }
    {
        self.reads += 1;
        self.rooms = self.rooms.and(&buffer.len());
        match self.line.read(buffer) {
            Ok(0) => {
                self.stop = Some(Stop::Ended);
                None
            }
            Ok(count) => {
                add_bytes(&mut self.received, &buffer[..count]);
                Some(count)
            }
            Err(_error) => {
                self.stop = Some(Stop::ReadFailed);
                None
            }
        }
    }

    /// One write of bytes to the line, which aren't none: how many it took. None where it took none or failed; then the line
    /// has stopped.
    pub fn write(&mut self, bytes: &[u8]) -> Option<usize>
        requires goes { self.old.stop ≡ None }
        requires some { 0 < length bytes.now }
        ensures took { Took self.old bytes.now result self.new }
        ensures rest { IsWrite self.old self.new }
    {
        match self.line.write(bytes) {
            Ok(0) | Err(_) => {
                self.stop = Some(Stop::WriteFailed);
                None
            }
            Ok(count) => {
                add_bytes(&mut self.sent, &bytes[..count]);
                Some(count)
            }
        }
    }

    /// Asks the line to send all that it took. None where it can't; then the line has stopped.
    pub fn flush(&mut self) -> Option<()>
        requires goes { self.old.stop ≡ None }
        ensures flushed { Flushed self.old result self.new }
        ensures rest { IsFlush self.old self.new }
    {
        self.flushes = self.flushes.and(&());
        match self.line.flush() {
            Ok(()) => Some(()),
            Err(_error) => {
                self.stop = Some(Stop::WriteFailed);
                None
            }
        }
    }

    /// How many reads there were.
    pub fn reads(&self) -> u64
        ensures { result ≡ self.now.reads }
    {
        self.reads
    }

    /// Why the line stopped, once it has.
    pub fn stop(&self) -> Option<Stop>
        ensures { result ≡ self.now.stop }
    {
        self.stop
    }

    /// The line, to be looked at.
    pub fn line(&self) -> &L
        ensures left { L.remaining result.now ≡ self.now.left }
        ensures held { L.contents result.now ≡ self.now.held }
    {
        &self.line
    }

    /// The line itself.
    pub fn into_line(self) -> L
        ensures left { L.remaining result ≡ self.left }
        ensures held { L.contents result ≡ self.held }
    {
        let Wire { line, .. } = self;
        line
    }
}
