//! What is told of a session as its pieces pass.

ghost use Rattle.std.specs.Prelude.{◌≡◌, ◌++◌, ℕ, List, true, IfOk, OnOk};
ghost use Rattle.cli_taps.specs.Listening.{Listens, answers_asked, listening_first, records_asked};

use crate::text::{push_answer_lines, push_host_lines};
use cli_traces::{Asked, Live, Source, Turns};
use std::alloc::{AllocError, Global};
use std::marker::Model;
use tn_traces::Side;

/// Both sides of a session, as their pieces pass: the host's records with a line `turn` where the terminal answered, as `records` prints
/// them of a trace, and each of the terminal's records as a comment.
#[derive(Drop)]
pub struct Listener {
    records: Live,
    answers: Live,
}

impl Model for Listener {
    ghost use Rattle.cli_taps.specs.Listening.{Listening};

    ghost Value = { Listening };

    ghost view = { λ l. record { records = l.records; answers = l.answers } };
}

fn records_asked() -> Asked
    ensures { result ≡ records_asked }
{
    Asked {
        source: Source::Trace,
        side: Side::Host,
        turns: Turns::Marked,
        all: false,
        size: false,
    }
}

fn answers_asked() -> Asked
    ensures { result ≡ answers_asked }
{
    Asked {
        source: Source::Trace,
        side: Side::Terminal,
        turns: Turns::Unmarked,
        all: true,
        size: false,
    }
}

impl Listener {
    /// The session of a number, before its first byte. Comments name the number where those of a trace name a line.
    ///
    /// # Errors
    ///
    /// Where room for two records of each side was refused.
    pub fn new(alloc: Global, number: u64) -> Result<Listener, AllocError>
        ensures { IfOk result (λ listener. listener ≡ listening_first number) }
    {
        Ok(Listener {
            records: Live::new(alloc, records_asked(), number)?,
            answers: Live::new(alloc, answers_asked(), number)?,
        })
    }

    /// Takes a piece of what a side sent, and adds what it tells.
    ///
    /// # Errors
    ///
    /// Where memory was refused. Then nothing is said of what was added and of what the listener tells later.
    pub fn take(
        &mut self,
        alloc: Global,
        side: Side,
        piece: &[u8],
        out: &mut Vec<u8>,
    ) -> Result<(), AllocError>
        ensures { OnOk result ((text : List ℕ) × (out.new.items ≡ out.old.items ++ text)
            × Listens self.old side piece.now text self.new) }
    {
        let mut told = String::new(alloc);
        self.records.take(side, piece, &mut told)?;
        push_host_lines(out, told.as_bytes())?;
        if self.records.is_over() {
            return Ok(());
        }
        let mut answered = String::new(alloc);
        self.answers.take(side, piece, &mut answered)?;
        push_answer_lines(out, answered.as_bytes())
    }
}
