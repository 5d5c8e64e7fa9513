//! The fields of an answer, one after the other.

use crate::field::FieldSlice;
use crate::front::{front_item, run_length};
use crate::item::Item;
use ds_codec::Mode;
use std::marker::Model;

/// The fields of an answer that are still to come. They were all looked at when the answer was read, so
/// walking them cannot fail and takes no memory.
#[derive(Debug, Drop)]
pub struct Fields<'a> {
    mode: Mode,
    cells: u32,
    rest: &'a [u8],
}

impl<'a> Model for Fields<'a> {
    ghost use Rattle.std.specs.Prelude.{◌≡◌, List};
    ghost use Rattle.ds_inbound.specs.Answer.{Sent};
    ghost use Rattle.ds_inbound.specs.Reading.{AreFields, fields_in};

    ghost Value = { List Sent };

    ghost view = { λ s. fields_in s.mode s.cells s.rest.now };

    ghost invariant = { λ s. AreFields s.mode s.cells s.rest.now };
}

impl<'a> Fields<'a> {
    ghost use Rattle.std.specs.Prelude.{◌≡◌};
    ghost use Rattle.ds_inbound.specs.Reading.{AreFields, fields_in};

    pub(crate) fn new(mode: Mode, cells: u32, rest: &'a [u8]) -> Fields<'a>
        requires { AreFields mode cells rest.now }
        ensures { result ≡ fields_in mode cells rest.now }
    {
        Fields { mode, cells, rest }
    }
}

impl<'a> Iterator for Fields<'a> {
    type Item = FieldSlice<'a>;

    ghost use Rattle.std.specs.Iterator.{YieldsFirstBy, item_count};
    ghost use Rattle.ds_inbound.specs.Reading.{sent_of};

    ghost next_gives = { YieldsFirstBy sent_of (λ rest. rest) };

    ghost remaining = { item_count (λ rest. rest) };

    fn next(&mut self) -> Option<FieldSlice<'a>> {
        let rest = self.rest;
        if rest.is_empty() {
            return None;
        }
        let (field, others) = first_field(self.mode, self.cells, rest);
        self.rest = others;
        Some(field)
    }
}

ghost use Rattle.std.specs.Prelude.{◌≡◌, ◌<◌, ◌∷◌, length};
ghost use Rattle.ds_inbound.specs.Reading.{AreFields, fields_in, sent_of};

/// The first of some fields, and the bytes of the others.
fn first_field(mode: Mode, cells: u32, rest: &[u8]) -> (FieldSlice<'_>, &[u8])
    requires some { 0 < length rest.now }
    requires fields { AreFields mode cells rest.now }
    ensures first { fields_in mode cells rest.now
        ≡ sent_of result.0 ∷ fields_in mode cells result.1.now }
    ensures others { AreFields mode cells result.1.now }
{
    match front_item(mode, cells, rest) {
        Ok(found) => match found.0 {
            Item::Field(place) => {
                let body = &rest[found.1..];
                let size = run_length(body);
                let raw = &body[..size];
                (FieldSlice { place, raw }, &body[size..])
            }
            Item::Char(_) => unreachable!(),
        },
        Err(_) => unreachable!(),
    }
}
