//! The characters of a field, one after the other.

ghost use Rattle.std.specs.Prelude.{◌≡◌, ◌≤◌, length};
ghost use Rattle.ds_inbound.specs.Characters.{characters_in};

use crate::front::front_char;
use ds_codec::Char;
use std::marker::Model;

/// The characters that are still to come.
#[derive(Debug, Drop)]
pub struct Characters<'a> {
    rest: &'a [u8],
}

impl<'a> Model for Characters<'a> {
    ghost use Rattle.std.specs.Prelude.{List};
    ghost use Rattle.ds_codec.specs.Character.{Glyph};
    ghost use Rattle.ds_inbound.specs.Characters.{characters_in};

    ghost Value = { List Glyph };

    ghost view = { λ s. characters_in s.rest.now };
}

impl<'a> Iterator for Characters<'a> {
    type Item = Char;

    ghost use Rattle.std.specs.Iterator.{YieldsFirst, item_count};

    ghost next_gives = { YieldsFirst (λ rest. rest) };

    ghost remaining = { item_count (λ rest. rest) };

    fn next(&mut self) -> Option<Char> {
        let rest = self.rest;
        match front_char(rest) {
            Ok(found) => {
                self.rest = &rest[found.1..];
                Some(found.0)
            }
            Err(_) => None,
        }
    }
}

/// The characters of a field or of a lead, from its first byte up to one that begins none: text bytes but 00, and
/// 08 and a code from 40 to FE, which are one character of the alternate set. Takes no memory.
pub fn chars(raw: &[u8]) -> Characters<'_>
    ensures all { result ≡ characters_in raw.now }
    ensures few { length (characters_in raw.now) ≤ length raw.now }
{
    Characters { rest: raw }
}
