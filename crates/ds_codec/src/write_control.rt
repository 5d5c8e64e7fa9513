//! Write control characters (GA23-0059, "Write control character"). Bits but these three are kept without effect, which is
//! our own choice.

use std::marker::Model;

/// Every modified data tag is reset before the orders.
const RESETS_MODIFIED_TAGS: u8 = 0x01;

/// The keyboard is restored after the orders.
const RESTORES_KEYBOARD: u8 = 0x02;

/// The alarm sounds.
const SOUNDS_ALARM: u8 = 0x04;

/// What a write tells the terminal besides its orders, one byte: 04 alarm, 02 keyboard restore, 01 reset of the modified
/// data tags. All bits stay as they came.
#[derive(Clone, Copy, Debug, PartialEq, Eq)]
pub struct WriteControlCharacter {
    byte: u8,
}

impl Model for WriteControlCharacter {
    ghost use Rattle.std.specs.Prelude.{ℕ, ◌<◌};

    ghost Value = { ℕ };

    ghost view = { λ w. w.byte };

    ghost invariant = { λ w. w.byte < 256 };

    ghost inverse = { λ byte. record { byte = byte } };
}

impl WriteControlCharacter {
    ghost use Rattle.std.specs.Prelude.{◌≡◌, ◌<◌};
    ghost use Rattle.ds_codec.specs.WriteControl.{resets_modified_tags, restores_keyboard, sounds_alarm};

    /// The write control character that a byte is.
    pub fn from_byte(byte: u8) -> WriteControlCharacter
        ensures { result ≡ byte }
    {
        WriteControlCharacter { byte }
    }

    /// The byte that it came as.
    pub fn byte(self) -> u8
        ensures value { result ≡ self }
        ensures eight { result < 256 }
    {
        let WriteControlCharacter { byte } = self;
        byte
    }

    /// Whether every modified data tag is reset before the orders (bit 01).
    pub fn resets_modified_tags(self) -> bool
        ensures { result ≡ resets_modified_tags self }
    {
        self.byte & RESETS_MODIFIED_TAGS != 0
    }

    /// Whether the keyboard is restored after the orders (bit 02).
    #[tactic(auto, using(crate::proofs::Masks::mask_restores))]
    pub fn restores_keyboard(self) -> bool
        ensures { result ≡ restores_keyboard self }
    {
        self.byte & RESTORES_KEYBOARD != 0
    }

    /// Whether the alarm sounds (bit 04).
    #[tactic(auto, using(crate::proofs::Masks::mask_alarm))]
    pub fn alarm(self) -> bool
        ensures { result ≡ sounds_alarm self }
    {
        self.byte & SOUNDS_ALARM != 0
    }
}
