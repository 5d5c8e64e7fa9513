//! What became of the terminals that came and went.

ghost use Rattle.std.specs.Prelude.{◌≡◌};
ghost use Rattle.host_server.specs.Tallies.{one_more, counted, no_tally, has_answers, is_done_by, status_of};

use crate::asked::Asked;
use cli_commands::Status;
use cli_hosts::Settled;

/// How many terminals came and went, how many of them answered, and whether any failed, or had no memory.
#[derive(Clone, Copy)]
pub(crate) struct Tally {
    settled: u64,
    answered: u64,
    has_failed: bool,
    has_starved: bool,
}

/// One more, where there is room for it.
fn one_more(count: u64) -> u64
    ensures { result ≡ one_more count }
{
    if count < u64::MAX { count + 1 } else { count }
}

impl Tally {
    /// No terminal came and went.
    pub(crate) fn new() -> Tally
        ensures { result ≡ no_tally }
    {
        Tally {
            settled: 0,
            answered: 0,
            has_failed: false,
            has_starved: false,
        }
    }

    /// A terminal went.
    pub(crate) fn count(&mut self, settled: Settled)
        ensures { self.new ≡ counted self.old settled }
    {
        self.settled = one_more(self.settled);
        match settled {
            Settled::Answered => self.answered = one_more(self.answered),
            Settled::Failed => self.has_failed = true,
            Settled::Starved => self.has_starved = true,
        }
    }

    /// Whether enough answered, where so many are asked for.
    fn has_answers(&self, asked: Asked) -> bool
        ensures { result ≡ has_answers asked self.now }
    {
        asked.answers > 0 && self.answered >= u64::from(asked.answers)
    }

    /// Whether all terminals came and went, or enough answered.
    pub(crate) fn is_done(&self, asked: Asked) -> bool
        ensures { result ≡ is_done_by asked self.now }
    {
        (asked.count > 0 && self.settled >= u64::from(asked.count)) || self.has_answers(asked)
    }

    /// How the command ends, where a terminal was refused a session or none was.
    pub(crate) fn status(&self, asked: Asked, has_refused: bool) -> Status
        ensures { result ≡ status_of asked self.now has_refused }
    {
        if self.has_answers(asked) {
            Status::Done
        } else if self.has_starved || has_refused {
            Status::NoMemory
        } else if self.has_failed {
            Status::Failed
        } else {
            Status::Done
        }
    }
}
