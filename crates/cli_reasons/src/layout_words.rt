//! What is said of a key of a layout that is refused.

ghost use Rattle.std.specs.Prelude.{◌≡◌, ◌++◌, OnOk};
ghost use Rattle.std.specs.String.{string_bytes};
ghost use Rattle.scr_layout.specs.Fault.{key_text};
ghost use Rattle.cli_reasons.specs.Shown.{quoted};
ghost use Rattle.cli_reasons.specs.LayoutWords.{kind_words, fault_words, key_reason};

use crate::shown::push_quoted;
use scr_layout::{LayoutKey, Why};
use std::alloc::AllocError;

/// What a key takes.
fn kind_words(key: LayoutKey) -> &'static str
    ensures { result.now ≡ kind_words key }
{
    match key {
        LayoutKey::Version => "1 or 2",
        LayoutKey::Addresses => "14 or 16",
        LayoutKey::Screen => "\"default\" or \"alternate\"",
        LayoutKey::Kind => "\"input\" or \"fixed\"",
        LayoutKey::Field => "tables, each begun by [[field]]",
        LayoutKey::Default | LayoutKey::Alternate | LayoutKey::Name => "a text between quotes",
        LayoutKey::Unknown => "nothing",
        _ => "a whole number",
    }
}

/// What is said after the key's name.
fn fault_words(why: Why) -> &'static str
    ensures { result.now ≡ fault_words why }
{
    match why {
        Why::NotToml => " is no TOML",
        Why::MissingKey => " is missing in this field",
        Why::WrongKind => " takes ",
        Why::UnknownKey => " is no key",
        Why::BadSize => " takes a size of a terminal, as \"24x80\"",
        Why::BadName => " takes 1 to 32 letters, digits, '-' and '_'",
        Why::NameTwice => " is that of an earlier field",
        Why::PlaceOutside => " is outside the screen",
        Why::PlaceTwice => ": an earlier field begins at this place",
        Why::BadLength => " is from 1 to the cells of the screen less 1",
        Why::TooManyFields => ": more than 1,000 fields",
        Why::BadCount => " is from 1 to 255",
    }
}

/// Pushes a key, and what is said of it.
fn push_key(out: &mut String, key: LayoutKey, words: &str) -> Result<(), AllocError>
    ensures { OnOk result (string_bytes out.new
        ≡ string_bytes out.old ++ (quoted (key_text key) ++ words.now)) }
{
    push_quoted(out, key.word().as_bytes())?;
    out.push_str(words)
}

/// Pushes why a key is refused.
pub(crate) fn push_key_reason(out: &mut String, key: LayoutKey, why: Why) -> Result<(), AllocError>
    ensures { OnOk result (string_bytes out.new
        ≡ string_bytes out.old ++ key_reason key why) }
{
    push_key(out, key, fault_words(why))?;
    match why {
        Why::WrongKind => out.push_str(kind_words(key)),
        _ => Ok(()),
    }
}
