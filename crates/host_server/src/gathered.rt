//! The text of one terminal, as it is told.

ghost use Rattle.std.specs.Prelude.{◌≡◌, [], true};

use cli_commands::TakesBytes;
use std::alloc::Global;

/// A text in memory, how often memory was refused for it, and whether it grew since it was last asked to pass on what it took.
#[derive(Drop)]
pub(crate) struct Gathered {
    pub text: Vec<u8>,
    pub failures: u64,
    pub waits: bool,
}

impl Gathered {
    /// No text yet.
    pub(crate) fn new(alloc: Global) -> Gathered
        ensures text { result.text.items ≡ [] }
        ensures failures { result.failures ≡ 0 }
        ensures waits { result.waits ≡ true }
    {
        Gathered {
            text: Vec::new(alloc),
            failures: 0,
            waits: true,
        }
    }
}

impl TakesBytes for Gathered {
    ghost use Rattle.std.specs.Prelude.{Some};

    ghost contents = { λ gathered. Some gathered.text.items };

    ghost failures = { λ gathered. gathered.failures };

    ghost waits = { λ gathered. gathered.waits };

    fn put(&mut self, bytes: &[u8]) -> Option<usize> {
        match self.text.extend_from_slice(bytes) {
            Ok(()) => {
                self.waits = true;
                Some(bytes.len())
            }
            Err(_) => {
                self.failures = self.failures.saturating_add(1);
                None
            }
        }
    }

    fn pass_on(&mut self) -> Option<()> {
        self.waits = false;
        Some(())
    }
}
