//! What an operator does at a terminal.

ghost use Rattle.std.specs.Prelude.{◌≡◌, IfOk, OnErr};
ghost use Rattle.ds_strokes.specs.StrokeStep.{operating};
ghost use Rattle.ds_terminal.specs.Seen.{key_reply_seen};
ghost use Rattle.ds_terminal.specs.Strokes.{key_aid, stroke_aid};
ghost use Rattle.ds_terminal.specs.Terminal.{key_turn, IsSent};
ghost use Rattle.tn_session.specs.Strikes.{Strike, by_key, by_stroke, strike_aid, struck, struck_by};

use ds_keys::Key;
use ds_screen::PlaneCells;
use ds_strokes::Stroke;
use ds_terminal::{KeyReply, Terminal};
use std::alloc::{AllocError, Global};

/// What an operator does at a terminal's keyboard: a [`Key`], which heeds no insert mode and leaves it as it is, or a
/// [`Stroke`], which heeds it.
pub trait Keystroke {
    /// What it is.
    ghost strike: { Self → Strike };

    /// Its attention identifier, where it is an attention key.
    fn aid(&self) -> Option<u8>
        ensures { result ≡ strike_aid (strike self.now) };

    /// Does it at a terminal, with insert mode on or off. Only the bytes that it sends take memory; where this was refused,
    /// nothing is changed.
    fn strike_at(
        &self,
        alloc: Global,
        terminal: &mut Terminal<PlaneCells>,
        inserts: &mut bool,
    ) -> Result<KeyReply, AllocError>
        ensures struck { IfOk result (λ reply. struck
            (key_turn terminal.new (key_reply_seen reply)) inserts.new
            ≡ struck_by (strike self.now) (operating terminal.old inserts.old)) }
        ensures unchanged { OnErr result
            (operating terminal.new inserts.new ≡ operating terminal.old inserts.old) }
        ensures asks { OnErr result
            (IsSent (struck_by (strike self.now) (operating terminal.old inserts.old)).turn.reply) };
}

fn key_aid(key: &Key) -> Option<u8>
    ensures { result ≡ key_aid key.now }
{
    match key {
        Key::Attention(aid) => Some(aid.byte()),
        _ => None,
    }
}

fn stroke_aid(stroke: &Stroke) -> Option<u8>
    ensures { result ≡ stroke_aid stroke.now }
{
    match stroke {
        Stroke::Key(key) => key_aid(key),
        Stroke::Insert | Stroke::Dup | Stroke::FieldMark => None,
    }
}

impl Keystroke for Key {
    ghost strike = { by_key };

    fn aid(&self) -> Option<u8> {
        key_aid(self)
    }

    fn strike_at(
        &self,
        alloc: Global,
        terminal: &mut Terminal<PlaneCells>,
        _inserts: &mut bool,
    ) -> Result<KeyReply, AllocError> {
        terminal.press(alloc, *self)
    }
}

impl Keystroke for Stroke {
    ghost strike = { by_stroke };

    fn aid(&self) -> Option<u8> {
        stroke_aid(self)
    }

    fn strike_at(
        &self,
        alloc: Global,
        terminal: &mut Terminal<PlaneCells>,
        inserts: &mut bool,
    ) -> Result<KeyReply, AllocError> {
        terminal.strike(alloc, inserts, *self)
    }
}
