//! The lines of an answer's fields.

ghost use Rattle.std.specs.Prelude.{◌≡◌, ◌++◌, map, OnOk};
ghost use Rattle.std.specs.String.{string_bytes};
ghost use Rattle.std.specs.List.{flat_map};
ghost use Rattle.ds_inbound.specs.Characters.{characters_in};
ghost use Rattle.ds_screen.specs.Shown.{text_of};
ghost use Rattle.scr_check.specs.Bound.{bound_seen};
ghost use Rattle.cli_binds.specs.Fields.{field_text, field_line};

use ds_inbound::chars;
use ds_screen::text_of;
use order_lines::push_bytes;
use scr_check::{Bound, name_at};
use scr_layout::Entry;
use std::alloc::AllocError;

/// How the characters of a field are printed.
#[derive(Clone, Copy, Debug, PartialEq, Eq)]
pub enum Form {
    /// As they were sent, in upper-case hexadecimal.
    Hexadecimal,
    /// Each by what is printed for its code, `?` for one of the alternate set and for a code that has no character.
    Text,
}

/// The text of characters.
fn push_text(out: &mut String, raw: &[u8]) -> Result<(), AllocError>
    ensures { OnOk result (string_bytes out.new
        ≡ string_bytes out.old ++ map text_of (characters_in raw.now)) }
{
    'characters: for character in chars(raw) {
        out.push(char::from(text_of(character)))?;
    }
    Ok(())
}

/// The characters of a field.
fn push_characters(out: &mut String, form: Form, pair: &Bound<'_>) -> Result<(), AllocError>
    ensures { OnOk result (string_bytes out.new
        ≡ string_bytes out.old ++ field_text form (bound_seen pair.now).characters) }
{
    let raw = pair.raw;
    match form {
        Form::Hexadecimal => push_bytes(out, raw),
        Form::Text => push_text(out, raw),
    }
}

fn push_field(
    out: &mut String,
    form: Form,
    entries: &[Entry],
    pair: &Bound<'_>,
) -> Result<(), AllocError>
    ensures { OnOk result (string_bytes out.new
        ≡ string_bytes out.old ++ field_line form entries.now (bound_seen pair.now)) }
{
    out.push_str(name_at(entries, pair.entry))?;
    out.push_str(" ")?;
    push_characters(out, form, pair)?;
    out.push_str("\n")
}

/// The lines of bound fields, in the order of the answer.
pub(crate) fn push_fields(
    out: &mut String,
    form: Form,
    entries: &[Entry],
    bound: &[Bound<'_>],
) -> Result<(), AllocError>
    ensures { OnOk result (string_bytes out.new ≡ string_bytes out.old
        ++ flat_map (field_line form entries.now) (map bound_seen bound.now)) }
{
    for pair in bound {
        push_field(out, form, entries, pair)?;
    }
    Ok(())
}
