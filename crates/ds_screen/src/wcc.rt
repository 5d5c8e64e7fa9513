//! What a write's write control character does besides the reset before the orders (GA23-0059, "Write control character").

ghost use Rattle.std.specs.Prelude.{◌≡◌, if◌then◌else◌};
ghost use Rattle.ds_screen.specs.declared.lock.Lock.TheVariants.{Free};
ghost use Rattle.ds_codec.specs.WriteControl.{restores_keyboard, sounds_alarm};

use crate::effect::Effect;
use crate::lock::Lock;
use ds_codec::{Aid, WriteControlCharacter};

/// What is told of a write.
pub(crate) fn told(wcc: WriteControlCharacter) -> Effect
    ensures { result ≡ record { alarm = sounds_alarm wcc; restored = restores_keyboard wcc } }
{
    Effect {
        alarm: wcc.alarm(),
        restored: wcc.restores_keyboard(),
    }
}

/// The lock after a write.
pub(crate) fn lock_after(wcc: WriteControlCharacter, lock: Lock) -> Lock
    ensures { result ≡ (if restores_keyboard wcc then Free else lock) }
{
    if wcc.restores_keyboard() {
        Lock::Free
    } else {
        lock
    }
}

/// The attention identifier after a write.
pub(crate) fn aid_after(wcc: WriteControlCharacter, aid: Aid) -> Aid
    ensures { result ≡ (if restores_keyboard wcc then 0x60 else aid) }
{
    if wcc.restores_keyboard() {
        Aid::none()
    } else {
        aid
    }
}
