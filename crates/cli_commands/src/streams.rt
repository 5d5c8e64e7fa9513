//! What commands read from and write to: streams that count the calls that failed.

ghost use Rattle.std.specs.Prelude.{◌≡◌, ◌<◌, ℕ, Bool, List, Option, Some, length, true, false, IfErr, IfSome};
ghost use Rattle.std.specs.Io.{ReadsAtMost};
ghost use Rattle.std.specs.Io.KnownBytes.{Keeps, ReadConsumes};
ghost use Rattle.cli_commands.specs.Causes.{Counts, Puts, ToldBy};
ghost use Rattle.cli_commands.specs.Fault.{IsNoFault};

use crate::fault::CommandError;
use std::io;
use std::io::{ErrorKind, Read, Write};

/// The most times that an interrupted read is made again.
const MOST_TRIES: u64 = 4_294_967_296;

/// A stream that bytes are read from.
pub trait GivesBytes {
    /// The bytes that it will give from here on, where they are known.
    ghost remaining: { Self → Option (List ℕ) };

    /// How many reads failed.
    ghost failures: { Self → ℕ };

    /// One read into a buffer: how many bytes it gave. Into one that isn't empty it gives none at the end alone.
    ///
    /// # Errors
    ///
    /// That the read failed, which is counted; out of memory.
    fn give(&mut self, buffer: &mut [u8]) -> Result<usize, CommandError>
        ensures bound { ReadsAtMost result buffer.new }
        ensures bytes { ReadConsumes (remaining self.old) (remaining self.new) result buffer.new }
        ensures cause { ToldBy (failures self.old) (failures self.new) result }
        ensures failed { IfErr result IsNoFault };
}

/// A stream that bytes are written to.
pub trait TakesBytes {
    /// The bytes that it holds, where they are known.
    ghost contents: { Self → Option (List ℕ) };

    /// How many writes failed.
    ghost failures: { Self → ℕ };

    /// Whether bytes may wait in it: it took some, or is new, and was not asked since to pass on what it took.
    ghost waits: { Self → Bool };

    /// One write of bytes, which aren't none: how many it took. None where it took none or failed, which is counted.
    fn put(&mut self, bytes: &[u8]) -> Option<usize>
        requires { 0 < length bytes.now }
        ensures bytes { Puts (contents self.old) (contents self.new) bytes.now result }
        ensures cause { Counts (failures self.old) (failures self.new) result }
        ensures waits { IfSome result (λ count. waits self.new ≡ true) };

    /// Asks it to pass on all that it took. None where it can't, which is counted.
    fn pass_on(&mut self) -> Option<()>
        ensures bytes { Keeps (contents self.old) (contents self.new) }
        ensures cause { Counts (failures self.old) (failures self.new) result }
        ensures waits { waits self.new ≡ false };
}

/// A stream, how many of its calls failed, at most 18,446,744,073,709,551,615, and whether bytes may wait in it to be passed on.
#[derive(Drop)]
pub struct Watched<S> {
    pub stream: S,
    pub failures: u64,
    pub waits: bool,
}

impl<S> Watched<S> {
    /// A stream of which no call has failed. Of what was written to it before nothing is known.
    pub fn new(stream: S) -> Watched<S>
        ensures stream { result.stream ≡ stream }
        ensures none { result.failures ≡ 0 }
        ensures waits { result.waits ≡ true }
    {
        Watched {
            stream,
            failures: 0,
            waits: true,
        }
    }
}

fn is_interrupted(error: &io::Error) -> bool {
    error.kind() == ErrorKind::Interrupted
}

/// One read, made again where it is interrupted.
fn read_through<R: Read>(stream: &mut R, buffer: &mut [u8]) -> Result<usize, CommandError>
    ensures bound { ReadsAtMost result buffer.new }
    ensures bytes { ReadConsumes (R.remaining stream.old) (R.remaining stream.new) result
        buffer.new }
    ensures failed { IfErr result IsNoFault }
{
    'tries: for _try in 0..MOST_TRIES {
        match stream.read(buffer) {
            Ok(count) => return Ok(count),
            Err(error) => {
                if !is_interrupted(&error) {
                    return Err(CommandError::from(error));
                }
            }
        }
    }
    Err(CommandError::ReadFailed)
}

impl<R: Read> GivesBytes for Watched<R> {
    ghost remaining = { λ watched. R.remaining watched.stream };

    ghost failures = { λ watched. watched.failures };

    fn give(&mut self, buffer: &mut [u8]) -> Result<usize, CommandError> {
        let given = read_through(&mut self.stream, buffer);
        if given.is_err() {
            self.failures = self.failures.saturating_add(1);
        }
        given
    }
}

impl<W: Write> TakesBytes for Watched<W> {
    ghost contents = { λ watched. W.contents watched.stream };

    ghost failures = { λ watched. watched.failures };

    ghost waits = { λ watched. watched.waits };

    fn put(&mut self, bytes: &[u8]) -> Option<usize> {
        match self.stream.write(bytes) {
            Ok(0) | Err(_) => {
                self.failures = self.failures.saturating_add(1);
                None
            }
            Ok(count) => {
                self.waits = true;
                Some(count)
            }
        }
    }

    fn pass_on(&mut self) -> Option<()> {
        self.waits = false;
        match self.stream.flush() {
            Ok(()) => Some(()),
            Err(_) => {
                self.failures = self.failures.saturating_add(1);
                None
            }
        }
    }
}

// A text, of which no read fails.
impl GivesBytes for &[u8] {
    ghost remaining = { λ text. Some text.now };

    ghost failures = { λ text. 0 };

    fn give(&mut self, buffer: &mut [u8]) -> Result<usize, CommandError> {
        match self.read(buffer) {
            Ok(count) => Ok(count),
            Err(_) => unreachable!(),
        }
    }
}
