//! A socket that doesn't wait, as a line of a tap.

ghost use Rattle.std.specs.Prelude.{◌≡◌, ◌++◌, [], false, length};
ghost use Rattle.tn_relay.specs.Lines.{Gives, Takes};

use mio::net::TcpStream;
use std::io;
use std::io::{ErrorKind, Read, Write};
use std::net::Shutdown;
use tn_relay::{Gave, Line, Took};
use tn_session::History;

/// A socket that doesn't wait.
#[derive(Drop)]
pub(crate) struct Socket {
    stream: TcpStream,
    has_told_end: bool,
    /// Whether a byte was read or written.
    has_passed: bool,
    /// Why reads ended, where they failed; or why a first write failed.
    failure: Option<io::Error>,
    received: History<u8>,
    sent: History<u8>,
    read_answers: History<Gave>,
    write_answers: History<Took>,
}

/// Adds bytes to a history.
fn add_bytes(history: &mut History<u8>, bytes: &[u8])
    ensures { history.new.items ≡ history.old.items ++ bytes.now }
{
    'bytes: for byte in bytes {
        *history = history.and(byte);
    }
}

/// Whether a call has only to be made again later.
fn waits(error: &io::Error) -> bool {
    matches!(
        error.kind(),
        ErrorKind::WouldBlock | ErrorKind::Interrupted | ErrorKind::NotConnected
    )
}

impl Socket {
    pub(crate) fn over(stream: TcpStream) -> Socket
        ensures received { result.received.items ≡ [] }
        ensures sent { result.sent.items ≡ [] }
        ensures told { result.has_told_end ≡ false }
        ensures asked { (result.read_answers.items ≡ []) × (result.write_answers.items ≡ []) }
    {
        // Where the system refuses this, the session is slower and no other.
        let _ = stream.set_nodelay(true);
        Socket {
            stream,
            has_told_end: false,
            has_passed: false,
            failure: None,
            received: History::new(),
            sent: History::new(),
            read_answers: History::new(),
            write_answers: History::new(),
        }
    }

    /// Whether it failed before a byte was read or written.
    pub(crate) fn is_unreached(&self) -> bool {
        !self.has_passed && self.failure.is_some()
    }

    /// Why reads ended, where they failed; or why a first write failed.
    pub(crate) fn failure(&self) -> Option<&io::Error> {
        self.failure.as_ref()
    }

    /// One read of the stream.
    fn read_once(&mut self, piece: &mut [u8]) -> Gave
        ensures gives { Gives self.old.received.items self.new.received.items piece.new result }
        ensures room { length piece.new ≡ length piece.old }
        ensures rest { (self.new.sent.items ≡ self.old.sent.items)
            × (self.new.has_told_end ≡ self.old.has_told_end)
            × (self.new.read_answers.items ≡ self.old.read_answers.items)
            × (self.new.write_answers.items ≡ self.old.write_answers.items) }
    {
        match self.stream.read(piece) {
            Ok(count) if 0 < count && count <= piece.len() => {
                self.has_passed = true;
                add_bytes(&mut self.received, &piece[..count]);
                Gave::Bytes(count)
            }
            Err(error) if waits(&error) => Gave::Nothing,
            Err(error) => {
                self.failure = Some(error);
                Gave::End
            }
            Ok(_) => Gave::End,
        }
    }

    /// One write to the stream.
    fn write_once(&mut self, bytes: &[u8]) -> Took
        ensures takes { Takes self.old.sent.items self.new.sent.items bytes.now result }
        ensures rest { (self.new.received.items ≡ self.old.received.items)
            × (self.new.has_told_end ≡ self.old.has_told_end)
            × (self.new.read_answers.items ≡ self.old.read_answers.items)
            × (self.new.write_answers.items ≡ self.old.write_answers.items) }
    {
        match self.stream.write(bytes) {
            Ok(count) if 0 < count && count <= bytes.len() => {
                self.has_passed = true;
                add_bytes(&mut self.sent, &bytes[..count]);
                Took::Bytes(count)
            }
            Err(error) if waits(&error) => Took::Nothing,
            Err(error) => {
                // A host that refuses tells so once, to whichever call comes first.
                if !self.has_passed {
                    self.failure = Some(error);
                }
                Took::Failed
            }
            Ok(_) => Took::Failed,
        }
    }
}

impl Line for Socket {
    ghost received = { λ s. s.received.items };

    ghost sent = { λ s. s.sent.items };

    ghost told_end = { λ s. s.has_told_end };

    ghost read_answers = { λ s. s.read_answers.items };

    ghost write_answers = { λ s. s.write_answers.items };

    fn read(&mut self, piece: &mut [u8]) -> Gave {
        let gave = self.read_once(piece);
        self.read_answers = self.read_answers.and(&gave);
        gave
    }

    fn write(&mut self, bytes: &[u8]) -> Took {
        let took = self.write_once(bytes);
        self.write_answers = self.write_answers.and(&took);
        took
    }

    fn tell_end(&mut self) {
        self.has_told_end = true;
        let _ = self.stream.shutdown(Shutdown::Write);
    }
}
