//! Texts up to their limit, and readers read whole.

ghost use Rattle.std.specs.Prelude.{◌≡◌, ◌≤◌, IfErr, IfOk, IfSome, length};
ghost use Rattle.cli_commands.specs.Causes.{ToldBy};
ghost use Rattle.cli_commands.specs.Fault.{Gives, IsNoFault};
ghost use Rattle.cli_commands.specs.Lines.{at_most, within_limit};

use crate::fault::{CommandError, Fault};
use crate::input::ahead::ReadAhead;
use crate::input::next::front;
use crate::streams::GivesBytes;
use std::alloc::Global;

/// The most bytes of an input.
pub const MOST_BYTES: usize = 16_777_216;
/// One more.
const READ_LIMIT: usize = 16_777_217;
/// So many bytes are read at once.
pub(crate) const PIECE: usize = 65_536;

/// Refuses more than a limit.
pub fn at_most(count: usize, most: usize) -> Result<(), Fault>
    ensures { result ≡ at_most count most }
{
    if most < count {
        return Err(Fault::TooLong);
    }
    Ok(())
}

/// A text of at most 16,777,216 bytes.
///
/// # Errors
///
/// Where it has more.
pub fn within_limit(text: &[u8]) -> Result<&[u8], CommandError>
    ensures bytes { Gives (λ t. t.now) result (within_limit text.now) }
    ensures short { IfOk result (λ t. length t.now ≤ 16777216) }
{
    match at_most(text.len(), MOST_BYTES) {
        Ok(()) => Ok(text),
        Err(fault) => Err(CommandError::Fault(fault)),
    }
}

/// All that a reader has left, up to one byte more than a text can have, by which a longer one shows that it is too long.
pub fn read_text<R: GivesBytes>(alloc: Global, reader: &mut R) -> Result<Vec<u8>, CommandError>
    ensures bytes { IfOk result (λ text. IfSome (R.remaining reader.old)
        (λ input. within_limit input ≡ within_limit text.items)) }
    ensures cause { ToldBy (R.failures reader.old) (R.failures reader.new) result }
    ensures failed { IfErr result IsNoFault }
{
    let mut ahead = ReadAhead::new(alloc, PIECE)?;
    let mut text = Vec::new(alloc);
    'pieces: while text.len() < READ_LIMIT {
        ahead.fill(reader)?;
        let seen = front(ahead.shown(), READ_LIMIT - text.len());
        let count = seen.len();
        if count == 0 {
            return Ok(text);
        }
        text.extend_from_slice(seen)?;
        ahead.consume(count);
    }
    Ok(text)
}
