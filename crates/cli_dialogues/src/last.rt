//! What ended a terminal that was led through screens.

ghost use Rattle.std.specs.Prelude.{◌≡◌, ◌++◌, IfOk};
ghost use Rattle.std.specs.String.{string_bytes};
ghost use Rattle.cli_dialogues.specs.Lasts.{last_failed, last_good, last_left, last_line, last_of, settled_by};

use cli_hosts::{End, Settled, fault_text, limit_text, starved_text};
use std::alloc::{AllocError, Global};
use tn_session::{RunFault, SessionFault};

/// What ended a terminal.
#[derive(Clone, Copy, Debug, PartialEq, Eq)]
pub enum Last {
    /// A key led to the end.
    Done,
    /// A fault of its session, or of its line.
    Fault(RunFault),
    /// A limit.
    Limit(End),
    /// Memory was refused to its session.
    Starved,
}

/// What ended a terminal whose session went on.
fn last_left(end: End) -> Last
    ensures { result ≡ last_left end }
{
    match end {
        End::Over | End::Closed => Last::Fault(RunFault::Session(SessionFault::Closed)),
        End::Broken => Last::Fault(RunFault::Session(SessionFault::LineFault)),
        End::Idle | End::Slow | End::Flooded => Last::Limit(end),
    }
}

impl Last {
    /// What ended a terminal of this fault, whose session is done or goes on.
    pub(crate) fn of(fault: Option<RunFault>, is_done: bool, end: End) -> Last
        ensures { result ≡ last_of fault is_done end }
    {
        match (fault, end) {
            (Some(RunFault::OutOfMemory), _) => Last::Starved,
            (Some(why), _) => Last::Fault(why),
            (None, End::Over) if is_done => Last::Done,
            (None, _) => last_left(end),
        }
    }

    /// What became of the terminal.
    pub(crate) fn settled(self) -> Settled
        ensures { result ≡ settled_by self }
    {
        match self {
            Last::Done => Settled::Answered,
            Last::Fault(_) | Last::Limit(_) => Settled::Failed,
            Last::Starved => Settled::Starved,
        }
    }

    /// Its line, where it isn't the good end.
    pub(crate) fn line(self, alloc: Global, number: u64) -> Result<String, AllocError>
        ensures { IfOk result (λ text. string_bytes text ≡ last_line number self) }
    {
        match self {
            Last::Done => Ok(String::new(alloc)),
            Last::Fault(why) => fault_text(alloc, number, why),
            Last::Limit(end) => limit_text(alloc, number, end),
            Last::Starved => starved_text(alloc, number),
        }
    }
}
