//! Answers read (GA23-0059, "Inbound data streams").

use crate::fields::Fields;
use crate::front::{front_item, position, run_length};
use crate::refused::{Refused, Why};
use ds_codec::{Aid, Mode};
use std::marker::Model;

/// An answer that was read: the attention identifier, the cursor, and characters and fields that are lent from its
/// bytes. They were all looked at by `read`, so walking them cannot fail.
#[derive(Debug, Drop)]
pub struct Inbound<'a> {
    mode: Mode,
    cells: u32,
    aid: Aid,
    cursor: Option<u32>,
    lead: &'a [u8],
    fields: &'a [u8],
}

impl<'a> Model for Inbound<'a> {
    ghost use Rattle.std.specs.Prelude.{◌≡◌};
    ghost use Rattle.ds_inbound.specs.Answer.{Answer, written_characters};
    ghost use Rattle.ds_inbound.specs.Characters.{characters_in};
    ghost use Rattle.ds_inbound.specs.Reading.{AreFields, fields_in};

    ghost Value = { Answer };

    ghost view = { λ s. record { aid = s.aid; cursor = s.cursor; lead = characters_in s.lead.now; fields = fields_in s.mode s.cells s.fields.now } };

    ghost invariant = { λ s. (written_characters (characters_in s.lead.now) ≡ s.lead.now) × AreFields s.mode s.cells s.fields.now };
}

impl<'a> Inbound<'a> {
    ghost use Rattle.std.specs.Prelude.{◌≡◌, ℕ, IfOk, IfErr, Ok, Err};
    ghost use Rattle.ds_inbound.specs.declared.refused.Why.{Why};
    ghost use Rattle.ds_inbound.specs.Answer.{Answer, written_characters};
    ghost use Rattle.ds_inbound.specs.Inbound.{SpellsInbound, IsRefusedAt, IsLaidOut};
    ghost use Rattle.ds_inbound.specs.Characters.{characters_in};
    ghost use Rattle.ds_inbound.specs.Reading.{read_of};

    /// Reads an answer to Read Modified or Read Modified All, of a buffer of so many cells: the one that its bytes
    /// say, or the leftmost fault, of an item first a missing byte. Takes no memory.
    pub fn read(mode: Mode, cells: u32, bytes: &'a [u8]) -> Result<Inbound<'a>, Refused>
        ensures spelled { IfOk result (λ answer. SpellsInbound mode cells answer bytes.now) }
        ensures only { (answer : Answer) → SpellsInbound mode cells answer bytes.now
            → result ≡ Ok answer }
        ensures refused { IfErr result (λ e. IsRefusedAt mode cells bytes.now e.at e.why) }
        ensures refused_only { (at : ℕ) (why : Why) → IsRefusedAt mode cells bytes.now at why
            → result ≡ Err (record { at = at; why = why }) }
        ensures exact { result ≡ read_of mode cells bytes.now }
        ensures laid { IfOk result (IsLaidOut bytes.now) }
    {
        read_all(mode, cells, bytes)
    }

    /// The key that made the terminal send, or none.
    pub fn aid(&self) -> Aid
        ensures { result ≡ self.now.aid }
    {
        self.aid
    }

    /// The cursor's position, counted from 0; `None` where the attention identifier was sent alone.
    pub fn cursor(&self) -> Option<u32>
        ensures { result ≡ self.now.cursor }
    {
        self.cursor
    }

    /// The characters before the first field, as they were sent: all that an unformatted screen sends.
    pub fn lead(&self) -> &'a [u8]
        ensures characters { characters_in result.now ≡ self.now.lead }
        ensures whole { written_characters self.now.lead ≡ result.now }
    {
        self.lead
    }

    /// The fields, from first to last. Takes no memory.
    pub fn fields(&self) -> Fields<'a>
        ensures { result ≡ self.now.fields }
    {
        Fields::new(self.mode, self.cells, self.fields)
    }
}

ghost use Rattle.std.specs.Prelude.{◌≡◌};
ghost use Rattle.ds_codec.specs.Address.{address_at};
ghost use Rattle.ds_codec.specs.Reading.{refusal_in};
ghost use Rattle.ds_inbound.specs.Reading.{inside, tail_from, long_body, long_of, answer_after, read_of};

/// Looks at every character and every field of what stands behind the cursor.
fn check_tail(mode: Mode, cells: u32, body: &[u8]) -> Result<(), Refused>
    ensures { refusal_in result ≡ refusal_in (tail_from mode cells 0 3 body.now) }
{
    let mut at = 3;
    let mut rest = body;
    'items: while !rest.is_empty() {
        match front_item(mode, cells, rest) {
            Ok(found) => {
                at += found.1;
                rest = &rest[found.1..];
            }
            Err(why) => return Err(Refused { at, why }),
        }
    }
    Ok(())
}

/// What stands behind the cursor.
fn read_tail<'a>(
    mode: Mode,
    cells: u32,
    aid: Aid,
    cursor: u32,
    body: &'a [u8],
) -> Result<Inbound<'a>, Refused>
    ensures { result ≡ long_body mode cells aid cursor body.now }
{
    check_tail(mode, cells, body)?;
    let length = run_length(body);
    Ok(Inbound {
        mode,
        cells,
        aid,
        cursor: Some(cursor),
        lead: &body[..length],
        fields: &body[length..],
    })
}

/// What follows the attention identifier.
#[tactic(auto, unfolding(crate::specs::Reading::answer_after))]
fn read_after<'a>(mode: Mode, cells: u32, aid: Aid, rest: &'a [u8]) -> Result<Inbound<'a>, Refused>
    ensures { result ≡ answer_after mode cells aid rest.now }
{
    match rest {
        [first, second, body @ ..] => match position(mode, cells, *first, *second) {
            Ok(cursor) => read_tail(mode, cells, aid, cursor, body),
            Err(why) => Err(Refused { at: 1, why }),
        },
        [] if aid.is_short() => Ok(Inbound {
            mode,
            cells,
            aid,
            cursor: None,
            lead: rest,
            fields: rest,
        }),
        _ => Err(Refused {
            at: 1,
            why: Why::Truncated,
        }),
    }
}

#[tactic(auto, unfolding(crate::specs::Reading::read_of))]
fn read_all<'a>(mode: Mode, cells: u32, bytes: &'a [u8]) -> Result<Inbound<'a>, Refused>
    ensures { result ≡ read_of mode cells bytes.now }
{
    let [first, rest @ ..] = bytes else {
        return Err(Refused {
            at: 0,
            why: Why::Empty,
        });
    };
    match Aid::from_byte(*first) {
        Some(aid) => read_after(mode, cells, aid, rest),
        None => Err(Refused {
            at: 0,
            why: Why::UnknownAid,
        }),
    }
}
