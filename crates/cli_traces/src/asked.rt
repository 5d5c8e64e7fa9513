//! What is asked of a trace or a captured stream.

ghost use Rattle.std.specs.Prelude.{◌≡◌, ◌==◌, not, IfOk, OnOk};
ghost use Rattle.std.specs.List.{filter};
ghost use Rattle.tn_traces.specs.Held.{said_seen};
ghost use Rattle.cli_traces.specs.Following.{is_one_sided, plain, said_of, without_colons};
ghost use Rattle.cli_traces.specs.Reading.{sender_of};

use crate::turn::Turns;
use std::alloc::{AllocError, Global};
use tn_traces::{Said, Sender, Side, stream_line, trace_line};

/// The most bytes of a line, without its end.
const MOST_LINE: usize = 16_777_216;

/// Where the lines come from.
#[derive(Clone, Copy, Debug, PartialEq, Eq)]
pub enum Source {
    /// A trace of x3270, s3270 or c3270, version 4: both sides of sessions.
    Trace,
    /// Pieces of what the side sent whose records are asked for, in hexadecimal, one a line; colons may part the bytes.
    Stream,
}

/// The records that are asked for.
#[derive(Clone, Copy, Debug, PartialEq, Eq)]
pub struct Asked {
    /// Where the lines come from.
    pub source: Source,
    /// Whose records they are.
    pub side: Side,
    /// How the turns of the dialogue are printed. A stream shows one side, and so one turn.
    pub turns: Turns,
    /// Whether records of structured fields are printed as records, and not as comments.
    pub all: bool,
    /// Whether the sizes of the device that is named are printed before the first record.
    pub size: bool,
}

/// The text without its colons.
fn without_colons(alloc: Global, line: &[u8]) -> Result<Vec<u8>, AllocError>
    ensures { IfOk result (λ digits. digits.items ≡ without_colons line.now) }
{
    let mut digits = Vec::new(alloc);
    for byte in line {
        if *byte != b':' {
            digits.push(*byte)?;
        }
    }
    Ok(digits)
}

impl Asked {
    /// The records of a side alone.
    pub fn records(source: Source, side: Side) -> Asked
        ensures { result ≡ plain source side }
    {
        Asked {
            source,
            side,
            turns: Turns::Unmarked,
            all: false,
            size: false,
        }
    }

    /// Whether turns are asked of a stream, which shows one side and so tells of none.
    pub fn is_one_sided(self) -> bool
        ensures { result ≡ is_one_sided self }
    {
        self.source == Source::Stream && self.turns != Turns::Unmarked
    }

    /// Who sends what a side sent: a trace shows both sides, a stream one.
    pub(crate) fn sender(self, side: Side) -> Sender
        ensures { result ≡ sender_of self.source side }
    {
        match (self.source, side) {
            (Source::Trace, Side::Host) => Sender::Host,
            (Source::Trace, Side::Terminal) => Sender::Terminal,
            (Source::Stream, Side::Host) => Sender::OnlyHost,
            (Source::Stream, Side::Terminal) => Sender::OnlyTerminal,
        }
    }

    /// What a line says. One that is too long is refused.
    pub(crate) fn said(self, alloc: Global, line: &[u8]) -> Result<Said, AllocError>
        ensures { IfOk result (λ said. said_seen said ≡ said_of self line.now) }
    {
        if MOST_LINE < line.len() {
            return Ok(Said::Bad);
        }
        match self.source {
            Source::Trace => trace_line(alloc, line),
            Source::Stream => stream_line(alloc, self.side, &without_colons(alloc, line)?),
        }
    }
}
