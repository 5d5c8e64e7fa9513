//! Hosts of an application.

ghost use Rattle.std.specs.Prelude.{◌≡◌, []};
ghost use Rattle.cli_dialogues.specs.Limits.{limits_over};

use crate::application::Application;
use crate::hosted::{Dialogue, open_dialogue};
use crate::limits::dialogue_limits;
use crate::settling::settle_dialogue;
use cli_commands::{Status, TakesBytes};
use cli_hosts::{Hosts, Hub, Settled, Stand};
use cli_sessions::Output;
use std::alloc::Global;
use std::marker::Model;

/// A hub whose sessions lead terminals through the screens of an application.
#[derive(Drop)]
pub struct DialogueHosts<'a> {
    hub: Hub<Dialogue<'a>>,
    application: &'a Application,
}

impl<'a> Model for DialogueHosts<'a> {
    ghost use Rattle.cli_dialogues.specs.Dialogues.{DialogueHosting};

    ghost Value = { DialogueHosting };

    ghost view = { λ h. record { room = h.hub; offered = h.application.now } };
}

impl<'a> DialogueHosts<'a> {
    /// Hosts to whom no terminal came, who wait so many milliseconds for each; 0 is any time.
    pub fn new(alloc: Global, application: &'a Application, patience: u64) -> DialogueHosts<'a>
        ensures offered { result.offered ≡ application.now }
        ensures none { (result.room.seats ≡ []) × (result.room.came ≡ 0) }
        ensures limits { result.room.limits ≡ limits_over patience application.now.screens }
    {
        let limits = dialogue_limits(application.screens.as_slice(), patience);
        DialogueHosts {
            hub: Hub::new(alloc, limits),
            application,
        }
    }
}

impl<'a> Hosts for DialogueHosts<'a> {
    ghost use Rattle.tn_session.specs.Talk.{Talk};
    ghost use Rattle.tn_dialogue.specs.Dialogue.{Running};
    ghost use Rattle.cli_dialogues.specs.Applications.{Offered};
    ghost use Rattle.cli_dialogues.specs.Dialogues.{DialogueTakes};
    ghost use Rattle.cli_dialogues.specs.Lines.{IsToldDialogue};

    ghost Content = { Offered };

    ghost content = { λ h. h.offered };

    ghost IsTold = { IsToldDialogue };

    ghost Sits = { Talk Running };

    ghost room = { λ h. h.room };

    ghost takes = { DialogueTakes };

    fn came(&self) -> u64 {
        self.hub.came()
    }

    fn stand(&self, token: usize) -> Option<Stand> {
        self.hub.stand(token)
    }

    fn due(&self, token: usize) -> &[u8] {
        self.hub.due(token)
    }

    fn open(&mut self, alloc: Global, now: u64) -> Option<usize> {
        if self.hub.came() == u64::MAX {
            return None;
        }
        let Ok(token) = open_dialogue(alloc, &mut self.hub, self.application, now) else {
            return None;
        };
        Some(token)
    }

    fn hear(&mut self, alloc: Global, token: usize, now: u64, bytes: &[u8]) {
        self.hub.hear(alloc, token, now, bytes);
    }

    fn send(&mut self, token: usize, count: usize) {
        self.hub.send(token, count);
    }

    fn close(&mut self, token: usize) {
        self.hub.close(token);
    }

    fn break_off(&mut self, token: usize) {
        self.hub.break_off(token);
    }

    fn tick(&mut self, now: u64) {
        self.hub.tick(now);
    }

    fn settle<W: TakesBytes>(
        &mut self,
        alloc: Global,
        token: usize,
        output: &mut Output<W>,
    ) -> Result<Option<Settled>, Status> {
        settle_dialogue(alloc, &mut self.hub, self.application, token, output)
    }
}
