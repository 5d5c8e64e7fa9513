//! Attention identifiers (GA23-0059, "Attention identifier").

use std::marker::Model;

/// Enter, then PF1 to PF24.
const LONG_AIDS: [u8; 25] = [
    0x7D, 0xF1, 0xF2, 0xF3, 0xF4, 0xF5, 0xF6, 0xF7, 0xF8, 0xF9, 0x7A, 0x7B, 0x7C, //
    0xC1, 0xC2, 0xC3, 0xC4, 0xC5, 0xC6, 0xC7, 0xC8, 0xC9, 0x4A, 0x4B, 0x4C, //
];

/// PA1, PA2, PA3 and Clear.
const SHORT_AIDS: [u8; 4] = [0x6C, 0x6E, 0x6B, 0x6D];

/// What made the terminal send: no key (60), Enter, a PF or PA key, or Clear.
#[derive(Clone, Copy, Debug, PartialEq, Eq)]
pub struct Aid {
    byte: u8,
}

impl Model for Aid {
    ghost use Rattle.std.specs.Prelude.{ℕ, ◌≡◌, true};
    ghost use Rattle.ds_codec.specs.Aid.{is_aid};

    ghost Value = { ℕ };

    ghost view = { λ a. a.byte };

    ghost invariant = { λ a. is_aid a.byte ≡ true };

    ghost inverse = { λ byte. record { byte = byte } };
}

impl Aid {
    ghost use Rattle.std.specs.Prelude.{◌≡◌, ◌<◌, ◌≤◌, true, if◌then◌else◌, Some, None};
    ghost use Rattle.ds_codec.specs.Aid.{is_aid, is_long_aid, is_short_aid, access_aid, function_aid};

    /// No attention key has been pressed: 60.
    #[tactic(auto, unfolding(crate::specs::Aid::is_aid))]
    pub fn none() -> Aid
        ensures { result ≡ 0x60 }
    {
        Aid { byte: 0x60 }
    }

    /// Enter: 7D.
    #[tactic(auto, unfolding(crate::specs::Aid::is_aid))]
    pub fn enter() -> Aid
        ensures { result ≡ 0x7D }
    {
        Aid { byte: 0x7D }
    }

    /// Clear: 6D.
    #[tactic(auto, unfolding(crate::specs::Aid::is_aid))]
    pub fn clear() -> Aid
        ensures { result ≡ 0x6D }
    {
        Aid { byte: 0x6D }
    }

    /// The AID of PA1 to PA3, by the key's number: 6C, 6E and 6B.
    #[tactic(auto, unfolding(crate::specs::Aid::is_aid))]
    pub fn pa(number: u8) -> Aid
        requires first { 1 ≤ number }
        requires last { number ≤ 3 }
        ensures { result ≡ access_aid number }
    {
        Aid {
            byte: SHORT_AIDS[usize::from(number) - 1],
        }
    }

    /// The AID of PF1 to PF24, by the key's number.
    pub fn pf(number: u8) -> Aid
        requires first { 1 ≤ number }
        requires last { number ≤ 24 }
        ensures { result ≡ function_aid number }
    {
        Aid {
            byte: LONG_AIDS[usize::from(number)],
        }
    }

    /// The AID of a byte: 60, Enter 7D, PF1 to PF9 F1 to F9, PF10 to PF12 7A to 7C, PF13 to PF21 C1 to
    /// C9, PF22 to PF24 4A to 4C, PA1 6C, PA2 6E, PA3 6B and Clear 6D. `None` for every other byte.
    #[tactic(auto, unfolding(crate::specs::Aid::is_aid, crate::specs::Aid::is_long_aid, crate::specs::Aid::is_short_aid))]
    pub fn from_byte(byte: u8) -> Option<Aid>
        ensures { result ≡ (if is_aid byte then Some byte else None) }
    {
        if LONG_AIDS.contains(&byte) || SHORT_AIDS.contains(&byte) || byte == 0x60 {
            Some(Aid { byte })
        } else {
            None
        }
    }

    /// The byte that is sent.
    pub fn byte(self) -> u8
        ensures value { result ≡ self }
        ensures valid { is_aid result ≡ true }
    {
        let Aid { byte } = self;
        byte
    }

    /// Whether the key sends the cursor address and the modified fields: Enter and PF1 to PF24.
    #[tactic(auto, unfolding(crate::specs::Aid::is_long_aid))]
    pub fn is_long(self) -> bool
        ensures { result ≡ is_long_aid self }
    {
        LONG_AIDS.contains(&self.byte)
    }

    /// Whether Read Modified answers with nothing but the attention identifier: PA1 to PA3 and Clear
    /// (GA23-0059, "Short read").
    #[tactic(auto, unfolding(crate::specs::Aid::is_short_aid))]
    pub fn is_short(self) -> bool
        ensures { result ≡ is_short_aid self }
    {
        SHORT_AIDS.contains(&self.byte)
    }
}
