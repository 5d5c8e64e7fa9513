//! The characters that a cell can hold.

ghost use Rattle.std.specs.Prelude.{◌≡◌};
ghost use Rattle.ds_codec.specs.Character.{is_text, is_graphic};

use std::marker::Model;

/// Whether a byte of a record is text: 40 to FF, or a control that is stored: NUL (00), FF (0C), CR (0D), NL (15), EM
/// (19), DUP (1C), FM (1E) and SUB (3F).
#[inline(always)]
#[tactic(auto, unfolding(crate::specs::Character::is_text))]
pub fn is_text_byte(byte: u8) -> bool
    ensures { result ≡ is_text byte }
{
    if 0x40 <= byte {
        return true;
    }
    match byte {
        0x00 | 0x0C | 0x0D | 0x15 | 0x19 | 0x1C | 0x1E | 0x3F => true,
        _ => false,
    }
}

/// Whether a code may follow the graphic escape: 40 to FE.
pub fn is_graphic_code(code: u8) -> bool
    ensures { result ≡ is_graphic code }
{
    0x40 <= code && code <= 0xFE
}

/// A character: a text byte, or a graphic code of the alternate set (GA23-0059, "Graphic Escape").
#[derive(Clone, Copy, Debug, PartialEq, Eq)]
pub struct Char {
    code: u8,
    alt: bool,
}

impl Model for Char {
    ghost use Rattle.std.specs.Prelude.{◌≡◌, true};
    ghost use Rattle.ds_codec.specs.Character.{Glyph, is_glyph};

    ghost Value = { Glyph };

    ghost view = { λ c. record { code = c.code; alt = c.alt } };

    ghost invariant = { λ c. is_glyph (record { code = c.code; alt = c.alt }) ≡ true };

    ghost inverse = { λ g. record { code = g.code; alt = g.alt } };
}

impl Char {
    ghost use Rattle.std.specs.Prelude.{◌≡◌, true, if◌then◌else◌, Some, None};
    ghost use Rattle.ds_codec.specs.Character.{is_glyph, glyph, null};

    /// The null, code 00: what new cells hold.
    #[tactic(auto, unfolding(crate::specs::Character::is_text))]
    pub fn null() -> Char
        ensures { result ≡ null }
    {
        Char {
            code: 0,
            alt: false,
        }
    }

    /// The character of a code, `None` where there is no such character: plain characters are the text
    /// bytes, those of the alternate set 40 to FE.
    #[inline(always)]
    pub fn new(code: u8, alt: bool) -> Option<Char>
        ensures { result ≡ (if is_glyph (glyph code alt) then Some (glyph code alt) else None) }
    {
        let exists = if alt {
            is_graphic_code(code)
        } else {
            is_text_byte(code)
        };
        if exists {
            Some(Char { code, alt })
        } else {
            None
        }
    }

    /// The code, 00 for the null.
    pub fn code(self) -> u8
        ensures value { result ≡ self.code }
        ensures valid { is_glyph self ≡ true }
    {
        let Char { code, .. } = self;
        code
    }

    /// Whether it is of the alternate set.
    pub fn alt(self) -> bool
        ensures { result ≡ self.alt }
    {
        let Char { alt, .. } = self;
        alt
    }
}
