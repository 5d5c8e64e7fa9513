//! What is printed of the sessions.

ghost use Rattle.std.specs.Prelude.{◌≡◌, ◌++◌, OnOk};

use std::alloc::{AllocError, Global};
use std::io;
use std::io::Write;

/// What is printed of the sessions, as it comes.
#[derive(Drop)]
pub(crate) struct Printing {
    text: Vec<u8>,
    /// The terminal whose lines were printed last.
    last: u64,
}

impl Printing {
    pub(crate) fn new(alloc: Global) -> Printing {
        Printing {
            text: Vec::new(alloc),
            last: 0,
        }
    }

    /// A comment that says what became of a terminal.
    pub(crate) fn say(&mut self, alloc: Global, number: u64, what: &str) -> Result<(), AllocError> {
        self.last = number;
        let line = format!(in alloc; "# terminal {number}{what}\n")?;
        self.text.extend_from_slice(line.as_bytes())
    }

    /// What is told of a terminal; a comment comes first where the lines before are another's.
    pub(crate) fn tell(
        &mut self,
        alloc: Global,
        number: u64,
        told: &[u8],
    ) -> Result<(), AllocError> {
        if !told.is_empty() && self.last != number {
            self.say(alloc, number, "")?;
        }
        self.text.extend_from_slice(told)
    }

    /// Writes what was said, and passes it on.
    pub(crate) fn print<W: Write>(&mut self, output: &mut W) -> io::Result<()> {
        output.write_all(&self.text)?;
        self.text.clear();
        output.flush()
    }
}

/// Says why something failed that lets the others go on.
pub(crate) fn complain<E: Write>(alloc: Global, errors: &mut E, place: &str, error: &io::Error) {
    if let Ok(line) = format!(in alloc; "term3270: {place}: {error}\n") {
        let _ = errors.write_all(line.as_bytes());
    }
}
