//! What is told of a terminal that ended.

ghost use Rattle.std.specs.Prelude.{◌≡◌, IfOk};
ghost use Rattle.std.specs.String.{string_bytes};
ghost use Rattle.tn_session.specs.HostView.{some_outcome};
ghost use Rattle.tn_session.specs.HostTalk.{outcome_in};
ghost use Rattle.cli_hosts.specs.Words.{word_seen, word_left, word_over, word_good, word_of, word_lines, settled_of};

use crate::hosted::Hosted;
use crate::lines::{answered_text, fault_text, limit_text, starved_text};
use crate::settling::Settled;
use scr_layout::Layout;
use session_hub::{End, Ended};
use std::alloc::{AllocError, Global};
use tn_session::{HostOutcome, RunFault, SessionFault};

/// What is told of a terminal.
#[derive(Drop)]
pub(crate) enum Word {
    /// What came of its session.
    Session(Result<HostOutcome, RunFault>),
    /// A limit ended it.
    Limit(End),
    /// Memory was refused to its session.
    Starved,
}

/// What is told where its session goes on.
fn word_left(end: End) -> Word
    ensures { word_seen result ≡ word_left end }
{
    match end {
        End::Over | End::Closed => Word::Session(Err(RunFault::Session(SessionFault::Closed))),
        End::Broken => Word::Session(Err(RunFault::Session(SessionFault::LineFault))),
        End::Idle | End::Slow | End::Flooded => Word::Limit(end),
    }
}

/// What is told where all went out.
fn word_over(outcome: Option<HostOutcome>) -> Word
    ensures { word_seen result ≡ word_over (some_outcome outcome) }
{
    match outcome {
        Some(outcome) => Word::Session(Ok(outcome)),
        None => word_left(End::Over),
    }
}

/// What is told where its session didn't fail.
fn word_good(outcome: Option<HostOutcome>, end: End) -> Word
    ensures { word_seen result ≡ word_good (some_outcome outcome) end }
{
    match end {
        End::Over => word_over(outcome),
        _ => word_left(end),
    }
}

/// What is told of a session that ended so: its fault comes before that of its line.
pub(crate) fn word_of(session: Hosted<'_>, end: End) -> Word
    ensures { word_seen result ≡ word_of session.entry.fault (outcome_in session.entry.talk) end }
{
    match session.fault() {
        Some(RunFault::OutOfMemory) => Word::Starved,
        Some(why) => Word::Session(Err(why)),
        None => word_good(session.into_outcome(), end),
    }
}

/// What became of a terminal of which this is told.
pub(crate) fn settled_of(word: &Word) -> Settled
    ensures { result ≡ settled_of (word_seen word.now) }
{
    match word {
        Word::Session(Ok(_)) => Settled::Answered,
        Word::Starved => Settled::Starved,
        _ => Settled::Failed,
    }
}

/// The lines of the terminal of this number.
pub(crate) fn word_text(
    alloc: Global,
    layout: &Layout,
    number: u64,
    word: &Word,
) -> Result<String, AllocError>
    ensures { IfOk result (λ text. string_bytes text
        ≡ word_lines layout.now.entries number (word_seen word.now)) }
{
    match word {
        Word::Session(Ok(outcome)) => answered_text(alloc, layout, number, outcome),
        Word::Session(Err(why)) => fault_text(alloc, number, *why),
        Word::Limit(end) => limit_text(alloc, number, *end),
        Word::Starved => starved_text(alloc, number),
    }
}
