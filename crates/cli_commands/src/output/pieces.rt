//! Long texts, of which no more than a piece is held while they are written.

ghost use Rattle.std.specs.Prelude.{◌≡◌, ◌++◌, List, ℕ, OnOk, IfOk, IfErr};
ghost use Rattle.std.specs.List.{flat_map};
ghost use Rattle.std.specs.String.{string_bytes};
ghost use Rattle.cli_commands.specs.Causes.{EndsBy};
ghost use Rattle.cli_commands.specs.Printed.{printed};
ghost use Rattle.cli_commands.specs.Pieces.{WritesOn, Stops};
ghost use Rattle.cli_commands.specs.Streams.{Prints};
ghost use Rattle.cli_commands.specs.declared.status.Status.TheVariants.{Done};

use crate::output::answer::write_text;
use crate::status::Status;
use crate::streams::TakesBytes;
use std::alloc::{AllocError, Global};

/// So many bytes are written at once.
const PIECE: usize = 65_536;

/// What is held in place of the lines that it prints.
pub trait PrintsLines: Drop {
    /// The lines, each with its end.
    ghost lines: { Self → List ℕ };

    /// Adds the lines.
    fn push_lines(&self, out: &mut String) -> Result<(), AllocError>
    where
        Self: Sized,
        ensures { OnOk result (string_bytes out.new ≡ string_bytes out.old ++ lines self.now) };
}

/// The lines of all of them.
pub fn lines_of<T: PrintsLines>(alloc: Global, all: &[T]) -> Result<String, AllocError>
    ensures { IfOk result (λ text. string_bytes text ≡ flat_map T.lines all.now) }
{
    let mut text = String::new(alloc);
    for one in all {
        one.push_lines(&mut text)?;
    }
    Ok(text)
}

/// Adds the lines of one more to a piece, which is written once it is long; or tells what failed.
fn write_on<W: TakesBytes, T: PrintsLines>(
    writer: &mut W,
    piece: &mut String,
    one: &T,
) -> Result<(), Status>
    ensures on { OnOk result (WritesOn (W.contents writer.old) (W.contents writer.new)
        (string_bytes piece.old ++ T.lines one.now) (string_bytes piece.new)) }
    ensures stops { IfErr result (λ status. Stops (W.contents writer.old) (W.contents writer.new)
        (string_bytes piece.old ++ T.lines one.now) status) }
    ensures sent { OnOk result (W.failures writer.new ≡ W.failures writer.old) }
    ensures cause { IfErr result (λ status. EndsBy (W.failures writer.old) (W.failures writer.new)
        Done status) }
{
    if one.push_lines(piece).is_err() {
        return Err(Status::NoMemory);
    }
    if piece.len() < PIECE {
        return Ok(());
    }
    if !write_text(writer, piece.as_bytes()) {
        return Err(Status::Failed);
    }
    piece.clear();
    Ok(())
}

/// Writes the lines of all of them in pieces: `Done`, or `Failed` where a write failed, or `NoMemory`, after a front of them.
pub fn write_lines<W: TakesBytes, T: PrintsLines>(
    alloc: Global,
    writer: &mut W,
    all: &[T],
) -> Status
    ensures prints { Prints (W.contents writer.old) (W.contents writer.new) result
        (printed (flat_map T.lines all.now) Done) }
    ensures cause { EndsBy (W.failures writer.old) (W.failures writer.new) Done result }
{
    let mut piece = String::new(alloc);
    for one in all {
        if let Err(status) = write_on(writer, &mut piece, one) {
            return status;
        }
    }
    if write_text(writer, piece.as_bytes()) {
        Status::Done
    } else {
        Status::Failed
    }
}
