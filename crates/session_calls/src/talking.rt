//! A session and what is due.

use std::marker::Model;
use tn_session::TerminalSession;

/// A terminal's session, and the bytes that are due to the host.
#[derive(Drop)]
pub struct Talking {
    pub(crate) session: TerminalSession,
    pub(crate) due: Vec<u8>,
}

impl Model for Talking {
    ghost use Rattle.session_calls.specs.Lines.{Line};

    ghost Value = { Line };

    ghost view = { λ t. record { worked = t.session; due = t.due.items } };
}
