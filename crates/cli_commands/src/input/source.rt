//! What an input is taken from: a text at hand, or a reader. Only how lines are taken in turn and how all is had at once
//! differ; all else is written for both.

ghost use Rattle.std.specs.Prelude.{◌≡◌, ℕ, List, Option, Some, Err, IfErr, IfOk, IfSome, map};
ghost use Rattle.cli_commands.specs.Causes.{ToldBy};
ghost use Rattle.cli_commands.specs.Fault.{IsNoFault};
ghost use Rattle.cli_commands.specs.Lines.{within_limit};
ghost use Rattle.cli_commands.specs.Taking.{TakesInput};

use crate::fault::CommandError;
use crate::input::bytes::{read_text, within_limit};
use crate::input::lines::{TakesLines, take_lines};
use crate::input::reading::read_lines;
use crate::streams::GivesBytes;
use std::alloc::{AllocError, Global};

/// All that a source had: lent where it is a text, held where it was read.
pub trait Whole: Drop {
    ghost bytes: { Self → List ℕ };

    fn bytes(&self) -> &[u8]
        ensures { result.now ≡ bytes self.now };
}

/// What an input is taken from, once.
pub trait Source {
    /// The bytes that are left in it, where they are known.
    ghost remaining: { Self → Option (List ℕ) };

    /// How many reads failed.
    ghost failures: { Self → ℕ };

    type Whole: Whole;

    /// All that is left, of a reader up to one byte more than a text can have, by which a longer one shows that it is too long.
    ///
    /// # Errors
    ///
    /// That a read failed; out of memory.
    fn whole(&mut self, alloc: Global) -> Result<Self::Whole, CommandError>
        ensures bytes { IfOk result (λ whole. IfSome (remaining self.old)
            (λ input. within_limit input ≡ within_limit (Self.Whole.bytes whole))) }
        ensures cause { ToldBy (failures self.old) (failures self.new) result }
        ensures failed { IfErr result IsNoFault };

    /// Takes its lines in turn, up to the first fault: that the input is too long comes before what its lines tell.
    fn take_lines<T: TakesLines>(&mut self, alloc: Global, none: T) -> Result<T, CommandError>
        ensures takes { IfSome (remaining self.old)
            (λ input. TakesInput T.takes none input result) }
        ensures cause { ToldBy (failures self.old) (failures self.new) result };
}

/// A text at hand, of which no read fails. Nothing of it is copied.
#[derive(Clone, Copy, Drop)]
pub struct Text<'a>(pub &'a [u8]);

impl<'a> Whole for Text<'a> {
    ghost bytes = { λ text. text.0.now };

    fn bytes(&self) -> &[u8] {
        self.0
    }
}

impl<'a> Source for Text<'a> {
    ghost remaining = { λ text. Some text.0.now };

    ghost failures = { λ text. 0 };

    type Whole = Text<'a>;

    fn whole(&mut self, _alloc: Global) -> Result<Text<'a>, CommandError> {
        Ok(*self)
    }

    fn take_lines<T: TakesLines>(&mut self, alloc: Global, none: T) -> Result<T, CommandError> {
        match within_limit(self.0) {
            Ok(lines) => take_lines(alloc, lines, none),
            Err(error) => Err(error),
        }
    }
}

/// Each of the texts as a source, in order.
pub(crate) fn sources_of<'a>(alloc: Global, texts: &[&'a [u8]]) -> Result<Vec<Text<'a>>, AllocError>
    ensures { IfOk result (λ sources. map (λ source. source.0.now) sources.items
        ≡ map (λ text. text.now) texts.now) }
{
    let mut sources = Vec::new(alloc);
    for text in texts {
        sources.push(Text(text))?;
    }
    Ok(sources)
}

impl Whole for Vec<u8> {
    ghost bytes = { λ held. held.items };

    fn bytes(&self) -> &[u8] {
        self.as_slice()
    }
}

impl<R: GivesBytes> Source for R {
    ghost remaining = { R.remaining };

    ghost failures = { R.failures };

    type Whole = Vec<u8>;

    fn whole(&mut self, alloc: Global) -> Result<Vec<u8>, CommandError> {
        read_text(alloc, self)
    }

    fn take_lines<T: TakesLines>(&mut self, alloc: Global, none: T) -> Result<T, CommandError> {
        read_lines(alloc, self, none)
    }
}
