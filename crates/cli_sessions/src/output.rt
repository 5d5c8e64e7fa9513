//! Where the lines of sessions are printed.

ghost use Rattle.std.specs.Prelude.{◌≡◌, false};
ghost use Rattle.std.specs.Bool.{OnTrue};
ghost use Rattle.std.specs.String.{string_bytes};
ghost use Rattle.cli_sessions.specs.Printing.{IsPrinted};

use cli_commands::{Answer, Status, TakesBytes, finish};
use std::alloc::Global;
use std::marker::Model;
use tn_session::History;

/// A writer, with how many of the texts that were printed to it it couldn't take, for contracts to see: where a command says
/// that a write failed, one did. Only this file counts them.
#[derive(Drop)]
pub struct Output<W: TakesBytes> {
    writer: W,
    failures: History<()>,
}

impl<W: TakesBytes> Model for Output<W> {
    ghost use Rattle.std.specs.Prelude.{length};
    ghost use Rattle.cli_sessions.specs.Printing.{Printing};

    ghost Value = { Printing };

    ghost view = { λ o. record {
      written = W.contents o.writer;
      failures = length o.failures.items;
      waits = W.waits o.writer;
    } };
}

impl<W: TakesBytes> Output<W> {
    ghost use Rattle.cli_sessions.specs.Printing.{printing};

    /// A writer to which nothing was printed.
    pub fn new(writer: W) -> Output<W>
        ensures { result ≡ printing (W.contents writer) 0 (W.waits writer) }
    {
        Output {
            writer,
            failures: History::new(),
        }
    }

    /// Writes a text and flushes: whether every byte was taken.
    pub(crate) fn print(&mut self, alloc: Global, text: String) -> bool
        ensures printed { IsPrinted self.old self.new (string_bytes text) result }
        ensures passed { OnTrue result (self.new.waits ≡ false) }
    {
        let status = Status::Done;
        match finish(alloc, &mut self.writer, Ok(Answer { text, status })) {
            Status::Done => true,
            _ => {
                self.failures = self.failures.and(&());
                false
            }
        }
    }

    /// The writer itself.
    pub fn into_writer(self) -> W
        ensures { W.contents result ≡ self.written }
    {
        let Output { writer, .. } = self;
        writer
    }
}

impl<W: TakesBytes> TakesBytes for Output<W> {
    ghost contents = { λ o. o.written };

    ghost failures = { λ o. o.failures };

    ghost waits = { λ o. o.waits };

    fn put(&mut self, bytes: &[u8]) -> Option<usize> {
        let taken = self.writer.put(bytes);
        if taken.is_none() {
            self.failures = self.failures.and(&());
        }
        taken
    }

    fn pass_on(&mut self) -> Option<()> {
        let passed = self.writer.pass_on();
        if passed.is_none() {
            self.failures = self.failures.and(&());
        }
        passed
    }
}
