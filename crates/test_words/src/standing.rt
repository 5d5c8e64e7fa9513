//! A row as it stands in a script.

ghost use Rattle.std.specs.Prelude.{◌≡◌, ◌↔◌, ◌++◌, ◌∷◌, None, IfSome, OnOk, string_bytes};

use std::alloc::{AllocError, Global};

/// A row with its answer, as it stands in a script and as it should stand.
#[derive(Drop)]
pub struct Standing {
    /// The row, and each line of the answer that stands below it.
    pub stands: String,
    /// The row, and each line of the answer that is given.
    pub due: String,
}

impl Standing {
    /// Nothing, which stands as it should.
    pub fn new(alloc: Global) -> Standing
        ensures { string_bytes result.stands ≡ string_bytes result.due }
    {
        Standing {
            stands: String::new(alloc),
            due: String::new(alloc),
        }
    }

    /// Adds a line of the answer that stands. The only error is out of memory.
    pub fn push_answer(&mut self, line: &str) -> Result<(), AllocError>
        ensures stands { OnOk result (string_bytes self.new.stands
            ≡ string_bytes self.old.stands ++ 0x0A ∷ line.now) }
        ensures due { self.new.due ≡ self.old.due }
    {
        self.stands.push_str("\n")?;
        self.stands.push_str(line)
    }

    /// The row as it should stand, where it stands otherwise.
    pub fn difference(&self) -> Option<&str>
        ensures same { result ≡ None ↔ (string_bytes self.now.stands ≡ string_bytes self.now.due) }
        ensures due { IfSome result (λ text. text.now ≡ string_bytes self.now.due) }
    {
        if self.stands.as_str() == self.due.as_str() {
            return None;
        }
        Some(self.due.as_str())
    }
}
