//! A stream whose bytes are heard as they are read.

ghost use Rattle.std.specs.Prelude.{◌≡◌};

use crate::ear::Ear;
use cli_commands::{CommandError, GivesBytes};

/// A stream, and what hears its bytes.
#[derive(Drop)]
pub struct Heard<R> {
    pub stream: R,
    pub ear: Ear,
}

impl<R: GivesBytes> GivesBytes for Heard<R> {
    ghost remaining = { λ heard. R.remaining heard.stream };

    ghost failures = { λ heard. R.failures heard.stream };

    fn give(&mut self, buffer: &mut [u8]) -> Result<usize, CommandError> {
        let given = self.stream.give(buffer);
        if let Ok(count) = given {
            self.ear.hear(&buffer[..count]);
        }
        given
    }
}
