//! What is written for people and tools: answers, and the report. No other file writes to a stream, or asks one to pass on what it took.

ghost use Rattle.std.specs.Prelude.{◌≡◌, ◌<◌, [], length};
ghost use Rattle.std.specs.Bool.{OnTrue};
ghost use Rattle.std.specs.Io.KnownBytes.{Appends, Keeps};
ghost use Rattle.cli_commands.specs.Causes.{Counts, Puts, SendsBy};
ghost use Rattle.cli_commands.specs.Streams.{AppendsFront};
ghost use Rattle.cli_scripts.specs.HeldBack.{Grows};

use crate::answer::add_bytes;
use cli_commands::TakesBytes;
use tn_session::History;

/// Writes bytes, which aren't none: how many were taken. These are held back until they are passed on.
fn put<O: TakesBytes>(output: &mut O, held_back: &mut History<u8>, bytes: &[u8]) -> Option<usize>
    requires { 0 < length bytes.now }
    ensures bytes { Puts (O.contents output.old) (O.contents output.new) bytes.now result }
    ensures held { Grows held_back.old.items held_back.new.items bytes.now result }
    ensures cause { Counts (O.failures output.old) (O.failures output.new) result }
{
    match output.put(bytes) {
        Some(count) => {
            add_bytes(held_back, &bytes[..count]);
            Some(count)
        }
        None => None,
    }
}

/// Passes on what was held back: whether that succeeded.
fn pass_on<O: TakesBytes>(output: &mut O, held_back: &mut History<u8>) -> bool
    ensures bytes { Keeps (O.contents output.old) (O.contents output.new) }
    ensures passed { OnTrue result (held_back.new.items ≡ []) }
    ensures cause { SendsBy (O.failures output.old) (O.failures output.new) result }
{
    if output.pass_on().is_none() {
        return false;
    }
    *held_back = History::new();
    true
}

/// Writes lines and passes them on: whether every byte was taken, and nothing is held back.
pub(crate) fn write_lines<O: TakesBytes>(
    output: &mut O,
    held_back: &mut History<u8>,
    lines: &[u8],
) -> bool
    ensures all { OnTrue result (Appends (O.contents output.old) (O.contents output.new)
        lines.now) }
    ensures front { AppendsFront (O.contents output.old) (O.contents output.new) lines.now }
    ensures passed { OnTrue result (held_back.new.items ≡ []) }
    ensures cause { SendsBy (O.failures output.old) (O.failures output.new) result }
{
    let mut rest = lines;
    'writes: while !rest.is_empty() {
        match put(output, held_back, rest) {
            Some(taken) => rest = &rest[taken..],
            None => return false,
        }
    }
    pass_on(output, held_back)
}
