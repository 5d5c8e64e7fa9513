//! A dialogue in a hub.

ghost use Rattle.std.specs.Prelude.{◌≡◌, ◌+◌, ◌<◌, ℕ, None, IfOk, IfErr, OnOk};
ghost use Rattle.session_hub.specs.Hubs.{At, Opens, Steps, seat_at};
ghost use Rattle.tn_dialogue.specs.DialogueTalk.{answers_in, begun, fault_in, first_said, is_done};
ghost use Rattle.cli_dialogues.specs.Dialogues.{DialogueTakes};

use crate::application::Application;
use session_hub::{Came, Hub, Session};
use std::alloc::Global;
use std::marker::Model;
use tn_dialogue::{Answered, DialogueSession};
use tn_session::{Progress, RunFault};

/// A host's session of several screens.
#[derive(Drop)]
pub struct Dialogue<'a> {
    session: DialogueSession<'a>,
}

impl<'a> Model for Dialogue<'a> {
    ghost use Rattle.tn_session.specs.Talk.{Talk};
    ghost use Rattle.tn_dialogue.specs.Dialogue.{Running};

    ghost Value = { Talk Running };

    ghost view = { λ d. d.session };
}

impl<'a> Dialogue<'a> {
    ghost use Rattle.std.specs.Prelude.{map};
    ghost use Rattle.tn_dialogue.specs.Answers.{answered_view};

    /// The fault that ended it.
    pub(crate) fn fault(&self) -> Option<RunFault>
        ensures { result ≡ fault_in self.now }
    {
        self.session.fault()
    }

    /// Whether a key led to its end.
    pub(crate) fn is_done(&self) -> bool
        ensures { result ≡ is_done self.now }
    {
        self.session.is_done()
    }

    /// What was answered, each at its screen, in turn.
    pub(crate) fn into_answers(self, alloc: Global) -> Vec<Answered>
        ensures { map answered_view result.items ≡ answers_in self.entry }
    {
        let Dialogue { session } = self;
        session.into_answers(alloc)
    }
}

impl<'a> Session for Dialogue<'a> {
    ghost use Rattle.cli_dialogues.specs.Dialogues.{DialogueTakes};

    ghost takes = { DialogueTakes };

    fn take(&mut self, alloc: Global, bytes: &[u8], due: &mut Vec<u8>) -> Came {
        match self.session.take(alloc, bytes, due) {
            Ok(Progress::More) => Came::More,
            Ok(Progress::Done { .. }) | Err(_) => Came::Over,
        }
    }
}

/// A terminal came: a session begins for it, that asks for TN3270E with RESPONSES, and shows the application's first screen.
///
/// # Errors
///
/// `NoDevice` where no model has the sizes of the first screen's layout, or there is no such screen, else `OutOfMemory`. The
/// terminal did not come then.
pub fn open_dialogue<'a>(
    alloc: Global,
    hub: &mut Hub<Dialogue<'a>>,
    application: &'a Application,
    now: u64,
) -> Result<usize, RunFault>
    requires { hub.old.came < u64.MAX }
    ensures opened { IfOk result (λ token.
        let talk = begun application.now.screens application.now.first in
        Steps DialogueTakes hub.old.limits (At token (Opens (hub.old.came + 1) now talk (first_said talk)))
        hub.old.seats hub.new.seats) }
    ensures free { IfOk result (λ token. seat_at token hub.old.seats ≡ None) }
    ensures counted { OnOk result (hub.new.came ≡ hub.old.came + 1) }
    ensures limits { hub.new.limits ≡ hub.old.limits }
    ensures refused { IfErr result (λ e. (t : ℕ) → seat_at t hub.new.seats
        ≡ seat_at t hub.old.seats) }
    ensures uncounted { IfErr result (λ e. hub.new.came ≡ hub.old.came) }
{
    let screens = application.screens.as_slice();
    let session = DialogueSession::new(alloc, screens, application.first)?;
    let mut opening = Vec::new(alloc);
    session.begin(&mut opening)?;
    let token = hub.open(now, Dialogue { session }, opening)?;
    Ok(token)
}
