//! The lines of a script, as they are read.

ghost use Rattle.std.specs.Prelude.{◌≡◌, ◌<◌, [], length, IfErr, IfOk, IfSome};
ghost use Rattle.std.specs.Io.{StopsAt};
ghost use Rattle.std.specs.Io.KnownBytes.{prepend_known};
ghost use Rattle.bstr.specs.Text.{without_terminator};
ghost use Rattle.cli_commands.specs.Causes.{ToldBy};
ghost use Rattle.cli_commands.specs.Fault.{IsNoFault};
ghost use Rattle.cli_scripts.specs.Runs.{AsksFor, PassesLine, has_end};

use cli_commands::{CommandError, GivesBytes, ReadAhead, next_line, without_end};
use std::alloc::{AllocError, Global};

/// How many bytes a line has at most, without its end.
const MOST_BYTES: usize = 65_536;

/// How many bytes are read ahead at most.
const MOST_AHEAD: usize = 65_536;

/// A line of more bytes, without its end, may go on behind what was read of it.
const MOST_READ: usize = 16_777_216;

/// How many times what is left of a line is read at most.
const MOST_PARTS: u64 = u64::MAX;

/// What a read of the script gave.
#[derive(Clone, Copy, Debug, PartialEq, Eq)]
pub(crate) enum Asked {
    /// A line.
    Line,
    /// A line of more than 65,536 bytes, which was read to its end.
    LongLine,
    /// The script's end.
    End,
}

/// The lines of a script: what was read ahead of it, and the last line that was read, with its end.
#[derive(Drop)]
pub(crate) struct Script {
    ahead: ReadAhead,
    line: Vec<u8>,
}

/// Whether a line has its end.
fn has_end(line: &[u8]) -> bool
    ensures { result ≡ has_end line.now }
{
    match line.last() {
        Some(byte) => *byte == b'\n',
        None => false,
    }
}

impl Script {
    pub(crate) fn new(alloc: Global) -> Result<Script, AllocError>
        ensures { IfOk result (λ script. script.ahead ≡ []) }
    {
        Ok(Script {
            ahead: ReadAhead::new(alloc, MOST_AHEAD)?,
            line: Vec::new(alloc),
        })
    }

    /// Reads what is left of a line that is too long.
    fn pass<R: GivesBytes>(&mut self, reader: &mut R) -> Result<(), CommandError>
        requires long { 16777216 < length self.old.line.items }
        requires inside { StopsAt self.old.line.items 10 }
        ensures passed { IfOk result
            (λ done. IfSome (prepend_known self.old.ahead (R.remaining reader.old))
            (λ bytes. PassesLine self.old.line.items bytes
            (prepend_known self.new.ahead (R.remaining reader.new)))) }
        ensures cause { ToldBy (R.failures reader.old) (R.failures reader.new) result }
        ensures failed { IfErr result IsNoFault }
    {
        'parts: for _part in 0..MOST_PARTS {
            if has_end(&self.line) {
                return Ok(());
            }
            if !next_line(reader, &mut self.ahead, &mut self.line)? {
                return Ok(());
            }
        }
        Ok(())
    }

    /// Reads the next line.
    pub(crate) fn advance<R: GivesBytes>(&mut self, reader: &mut R) -> Result<Asked, CommandError>
        ensures asked { IfSome (prepend_known self.old.ahead (R.remaining reader.old)) (λ bytes.
            IfOk result (λ asked. AsksFor bytes asked (without_terminator self.new.line.items)
            (prepend_known self.new.ahead (R.remaining reader.new)))) }
        ensures cause { ToldBy (R.failures reader.old) (R.failures reader.new) result }
        ensures failed { IfErr result IsNoFault }
    {
        if !next_line(reader, &mut self.ahead, &mut self.line)? {
            return Ok(Asked::End);
        }
        let length = without_end(&self.line).len();
        if length <= MOST_BYTES {
            return Ok(Asked::Line);
        }
        if MOST_READ < length {
            self.pass(reader)?;
        }
        Ok(Asked::LongLine)
    }

    /// The line that was read last, without its end.
    pub(crate) fn line(&self) -> &[u8]
        ensures { result.now ≡ without_terminator self.now.line.items }
    {
        without_end(&self.line)
    }
}
