//! Field attributes (GA23-0059, "Field attributes").

use std::marker::Model;

/// The operator can't type there.
const PROTECTED: u8 = 0x20;

/// Digits alone are to be typed; in a protected field the cursor skips over it.
const NUMERIC: u8 = 0x10;

/// How the characters are shown, and whether a pen can select the field: one of the next three, or neither bit.
const DISPLAY: u8 = 0x0C;

/// Shown, and a pen can select it.
const DETECTABLE: u8 = 0x04;

/// Shown brighter, and a pen can select it.
const INTENSIFIED: u8 = 0x08;

/// Not shown.
const HIDDEN: u8 = 0x0C;

/// The modified data tag, MDT.
const MODIFIED: u8 = 0x01;

/// A field attribute, six bits: 20 protected, 10 numeric, 0C display, 01 modified.
#[derive(Clone, Copy, Debug, PartialEq, Eq)]
pub struct Attr {
    bits: u8,
}

impl Model for Attr {
    ghost use Rattle.std.specs.Prelude.{ℕ, ◌<◌};

    ghost Value = { ℕ };

    ghost view = { λ a. a.bits };

    ghost invariant = { λ a. a.bits < 64 };

    ghost inverse = { λ bits. record { bits = bits } };
}

impl Attr {
    ghost use Rattle.std.specs.Prelude.{◌≡◌, ◌*◌, ◌/◌, ◌%◌, ◌<◌};
    ghost use Rattle.ds_codec.specs.Attribute.{is_protected, is_numeric, is_auto_skip, is_hidden, is_intensified, is_detectable, is_modified, with_protected, with_modified};

    /// The attribute that a byte stands for: its low six bits.
    pub fn new(byte: u8) -> Attr
        ensures { result ≡ byte % 64 }
    {
        Attr { bits: byte % 64 }
    }

    /// The six bits, 00 to 3F.
    pub fn bits(self) -> u8
        ensures value { result ≡ self }
        ensures six { result < 64 }
    {
        let Attr { bits } = self;
        bits
    }

    /// Whether the operator is kept from typing there (bit 20).
    pub fn protected(self) -> bool
        ensures { result ≡ is_protected self }
    {
        self.bits & PROTECTED != 0
    }

    /// Whether digits alone are to be typed (bit 10).
    #[tactic(auto, using(crate::proofs::Masks::mask_numeric))]
    pub fn numeric(self) -> bool
        ensures { result ≡ is_numeric self }
    {
        self.bits & NUMERIC != 0
    }

    /// Whether the cursor skips over the field (bits 20 and 10).
    pub fn auto_skip(self) -> bool
        ensures { result ≡ is_auto_skip self }
    {
        self.protected() && self.numeric()
    }

    /// Whether the field's characters are not shown (bits 0C, both).
    pub fn hidden(self) -> bool
        ensures { result ≡ is_hidden self }
    {
        self.display() == HIDDEN
    }

    /// Whether the field's characters are brighter (of bits 0C, 08 alone).
    pub fn intensified(self) -> bool
        ensures { result ≡ is_intensified self }
    {
        self.display() == INTENSIFIED
    }

    /// Whether a pen can select the field (of bits 0C, either alone).
    pub fn detectable(self) -> bool
        ensures { result ≡ is_detectable self }
    {
        matches!(self.display(), DETECTABLE | INTENSIFIED)
    }

    /// The display bits, 0C, alone.
    #[tactic(auto, using(crate::proofs::Masks::mask_display))]
    fn display(self) -> u8
        ensures { result ≡ 4 * (self / 4 % 4) }
    {
        self.bits & DISPLAY
    }

    /// Whether the field counts as modified (bit 01, the MDT).
    pub fn modified(self) -> bool
        ensures { result ≡ is_modified self }
    {
        self.bits & MODIFIED != 0
    }

    /// The same attribute, protected or not.
    #[tactic(auto, using(crate::proofs::Masks::mask_protect, crate::proofs::Masks::mask_unprotect))]
    pub fn with_protected(self, protected: bool) -> Attr
        ensures { result ≡ with_protected self protected }
    {
        if protected {
            Attr {
                bits: self.bits | PROTECTED,
            }
        } else {
            Attr {
                bits: self.bits & !PROTECTED,
            }
        }
    }

    /// The same attribute with the MDT set or reset.
    #[tactic(auto, using(crate::proofs::Masks::mask_set, crate::proofs::Masks::mask_reset))]
    pub fn with_modified(self, modified: bool) -> Attr
        ensures { result ≡ with_modified self modified }
    {
        if modified {
            Attr {
                bits: self.bits | MODIFIED,
            }
        } else {
            Attr {
                bits: self.bits & !MODIFIED,
            }
        }
    }
}
