//! A key, and the bytes that it sends.

ghost use Rattle.std.specs.Prelude.{◌≡◌, IfOk, OnErr};
ghost use Rattle.ds_keys.specs.declared.key.Key.{Key};
ghost use Rattle.ds_keys.specs.Laws.{is_clear};
ghost use Rattle.ds_terminal.specs.Terminal.{key_turn, is_locked, pressed, IsSent};
ghost use Rattle.ds_terminal.specs.Seen.{key_reply_seen};

use crate::reply::KeyReply;
use ds_codec::Aid;
use ds_inbound::write_inbound;
use ds_keys::{Key, Pressed, press};
use ds_screen::{Cells, Lock, Screen};
use std::alloc::{AllocError, Global};

/// Whether a key is Clear.
fn is_clear(key: &Key) -> bool
    ensures { result ≡ is_clear key.now }
{
    match key {
        Key::Attention(aid) => *aid == Aid::clear(),
        _ => false,
    }
}

fn is_locked(lock: Lock) -> bool
    ensures { result ≡ is_locked lock }
{
    match lock {
        Lock::Free => false,
        Lock::Waiting | Lock::Error => true,
    }
}

/// Clear: its answer is one byte, for which memory is had before the screen is erased. On a keyboard that isn't free it is
/// ignored.
fn press_clear<C: Cells>(alloc: Global, screen: &mut Screen<C>) -> Result<KeyReply, AllocError>
    ensures turned { IfOk result
        (λ reply. key_turn screen.new (key_reply_seen reply) ≡ pressed screen.old
        (Key.Attention 0x6D)) }
    ensures unchanged { OnErr result (screen.new ≡ screen.old) }
    ensures asks { OnErr result (IsSent (pressed screen.old (Key.Attention 0x6D)).reply) }
{
    if is_locked(screen.lock()) {
        return Ok(KeyReply::Ignored);
    }
    let bytes = vec![in alloc; Aid::clear().byte()]?;
    match press(screen, Key::Attention(Aid::clear())) {
        Pressed::Done => Ok(KeyReply::Done),
        Pressed::Inhibited => Ok(KeyReply::Inhibited),
        Pressed::Ignored => Ok(KeyReply::Ignored),
        Pressed::Sent(_) => Ok(KeyReply::Sent(bytes)),
    }
}

/// Presses a key, and gives the bytes that it sends. Where memory for these was refused, the key isn't
/// pressed: the screen is as before.
pub(crate) fn press_key<C: Cells>(
    alloc: Global,
    screen: &mut Screen<C>,
    key: Key,
) -> Result<KeyReply, AllocError>
    ensures turned { IfOk result
        (λ reply. key_turn screen.new (key_reply_seen reply) ≡ pressed screen.old key) }
    ensures unchanged { OnErr result (screen.new ≡ screen.old) }
    ensures asks { OnErr result (IsSent (pressed screen.old key).reply) }
{
    if is_clear(&key) {
        return press_clear(alloc, screen);
    }
    let aid = screen.aid();
    let lock = screen.lock();
    match press(screen, key) {
        Pressed::Done => Ok(KeyReply::Done),
        Pressed::Inhibited => Ok(KeyReply::Inhibited),
        Pressed::Ignored => Ok(KeyReply::Ignored),
        Pressed::Sent(_) => match write_inbound(alloc, screen, false) {
            Ok(bytes) => Ok(KeyReply::Sent(bytes)),
            Err(refused) => {
                screen.set_aid(aid);
                screen.set_lock(lock);
                Err(refused)
            }
        },
    }
}
