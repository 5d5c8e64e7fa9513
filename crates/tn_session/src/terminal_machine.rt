//! A terminal as a machine that a line runs.

use crate::fault::RunFault;
use crate::keystroke::Keystroke;
use crate::machine::Machine;
use crate::report::{Report, RunEnd};
use crate::terminal_events::take_event_of;
use crate::terminal_state::TerminalState;
use crate::turn::{Finish, Turn};
use ds_keys::Key;
use std::alloc::Global;
use std::marker::Model;
use tn_wire::Event;

/// A terminal's run: what it keeps, and the keys that are left.
#[derive(Drop)]
pub(crate) struct TerminalRun<'a, K: Keystroke> {
    pub(crate) state: TerminalState,
    pub(crate) keys: &'a [K],
}

impl<'a, K: Keystroke> Model for TerminalRun<'a, K> {
    ghost use Rattle.std.specs.Prelude.{map};
    ghost use Rattle.tn_session.specs.TerminalLog.{TerminalRunning};

    ghost Value = { TerminalRunning };

    ghost view = { λ r. record { state = r.state; keys = map K.strike r.keys.now } };
}

impl Machine for TerminalState {
    ghost use Rattle.tn_session.specs.TerminalTalk.{heard_act};

    ghost act = { heard_act };

    fn take(
        &mut self,
        alloc: Global,
        event: &Event<'_>,
        due: &mut Vec<u8>,
    ) -> Result<Turn, RunFault> {
        let mut no_keys: &[Key] = &[];
        let _turn = take_event_of(alloc, due, self, &mut no_keys, event)?;
        Ok(Turn::Goes)
    }
}

impl<'a, K: Keystroke> Machine for TerminalRun<'a, K> {
    ghost use Rattle.tn_session.specs.TerminalLog.{terminal_act};

    ghost act = { terminal_act };

    fn take(
        &mut self,
        alloc: Global,
        event: &Event<'_>,
        due: &mut Vec<u8>,
    ) -> Result<Turn, RunFault> {
        take_event_of(alloc, due, &mut self.state, &mut self.keys, event)
    }
}

impl<'a, K: Keystroke> TerminalRun<'a, K> {
    ghost use Rattle.std.specs.Prelude.{◌≡◌};
    ghost use Rattle.tn_session.specs.TerminalRuns.{report_of, end_of};

    /// What the run did.
    pub(crate) fn report(&self, finish: Finish) -> Report
        ensures { result ≡ report_of self.now (end_of finish) }
    {
        let end = match finish {
            Finish::Finished => RunEnd::KeysUsed,
            Finish::Closed => RunEnd::Closed,
        };
        Report {
            end,
            answers: self.state.answers,
            passed: self.state.passed,
            refused: self.state.refused,
        }
    }
}
