//! A stroke, and the bytes that it sends.

ghost use Rattle.std.specs.Prelude.{◌≡◌, IfOk, OnErr, None};
ghost use Rattle.ds_keys.specs.declared.key.Key.{Key};
ghost use Rattle.ds_strokes.specs.declared.stroke.Stroke.{Stroke};
ghost use Rattle.ds_strokes.specs.StrokeStep.{operating, after_stroke};
ghost use Rattle.ds_terminal.specs.Terminal.{key_turn, IsSent};
ghost use Rattle.ds_terminal.specs.Strokes.{stroke_turn, stroke_aid, inserts_after_attention};
ghost use Rattle.ds_terminal.specs.Seen.{key_reply_seen};

use crate::keys::press_key;
use crate::reply::KeyReply;
use ds_codec::Aid;
use ds_keys::{Key, Pressed};
use ds_screen::{Cells, Screen};
use ds_strokes::{Stroke, strike};
use std::alloc::{AllocError, Global};

/// The attention identifier of a stroke that has one.
fn aid_of(stroke: &Stroke) -> Option<Aid>
    ensures { result ≡ stroke_aid stroke.now }
{
    match stroke {
        Stroke::Key(Key::Attention(aid)) => Some(*aid),
        _ => None,
    }
}

/// Insert mode after an attention key: it ends where that sends.
fn inserts_after(inserts: bool, reply: &KeyReply) -> bool
    ensures { result ≡ inserts_after_attention inserts (key_reply_seen reply.now) }
{
    match reply {
        KeyReply::Sent(_) => false,
        KeyReply::Done | KeyReply::Inhibited | KeyReply::Ignored => inserts,
    }
}

/// An attention key: where it sends, insert mode ends.
fn strike_attention<C: Cells>(
    alloc: Global,
    screen: &mut Screen<C>,
    inserts: &mut bool,
    aid: Aid,
) -> Result<KeyReply, AllocError>
    ensures turned { IfOk result
        (λ reply. key_turn screen.new (key_reply_seen reply)
        ≡ stroke_turn (operating screen.old inserts.old) (Stroke.Key (Key.Attention aid))) }
    ensures inserts { IfOk result
        (λ reply. inserts.new ≡ (after_stroke (operating screen.old inserts.old)
        (Stroke.Key (Key.Attention aid))).inserts) }
    ensures unchanged { OnErr result
        (operating screen.new inserts.new ≡ operating screen.old inserts.old) }
    ensures asks { OnErr result (IsSent (stroke_turn (operating screen.old inserts.old)
        (Stroke.Key (Key.Attention aid))).reply) }
{
    let reply = press_key(alloc, screen, Key::Attention(aid))?;
    *inserts = inserts_after(*inserts, &reply);
    Ok(reply)
}

/// A stroke that has no attention identifier sends nothing.
fn strike_quietly<C: Cells>(screen: &mut Screen<C>, inserts: &mut bool, stroke: Stroke) -> KeyReply
    requires { stroke_aid stroke ≡ None }
    ensures turned { key_turn screen.new (key_reply_seen result)
        ≡ stroke_turn (operating screen.old inserts.old) stroke }
    ensures inserts { inserts.new
        ≡ (after_stroke (operating screen.old inserts.old) stroke).inserts }
{
    match strike(screen, inserts, stroke) {
        Pressed::Done => KeyReply::Done,
        Pressed::Inhibited => KeyReply::Inhibited,
        Pressed::Ignored => KeyReply::Ignored,
        Pressed::Sent(_) => unreachable!(),
    }
}

/// Strikes, and gives the bytes that this sends. Where memory for these was refused, nothing is struck: the screen and insert
/// mode are as before.
pub(crate) fn strike_stroke<C: Cells>(
    alloc: Global,
    screen: &mut Screen<C>,
    inserts: &mut bool,
    stroke: Stroke,
) -> Result<KeyReply, AllocError>
    ensures turned { IfOk result (λ reply. key_turn screen.new (key_reply_seen reply)
        ≡ stroke_turn (operating screen.old inserts.old) stroke) }
    ensures inserts { IfOk result (λ reply. inserts.new
        ≡ (after_stroke (operating screen.old inserts.old) stroke).inserts) }
    ensures unchanged { OnErr result
        (operating screen.new inserts.new ≡ operating screen.old inserts.old) }
    ensures asks { OnErr result
        (IsSent (stroke_turn (operating screen.old inserts.old) stroke).reply) }
{
    match aid_of(&stroke) {
        Some(aid) => strike_attention(alloc, screen, inserts, aid),
        None => Ok(strike_quietly(screen, inserts, stroke)),
    }
}
