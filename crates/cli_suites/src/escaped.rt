//! Text in XML 1.0.

ghost use Rattle.std.specs.Prelude.{◌≡◌, ◌++◌, OnOk, chars, string_bytes};
ghost use Rattle.std.specs.List.{flat_map};
ghost use Rattle.cli_suites.specs.Escaped.{escaped, escaped_char};

use std::alloc::AllocError;

/// A character: what would be markup as an entity, and what XML has no character for as `?`.
fn push_char(out: &mut String, character: char) -> Result<(), AllocError>
    ensures { OnOk result (string_bytes out.new
        ≡ string_bytes out.old ++ escaped_char character) }
{
    match character {
        '&' => out.push_str("&amp;"),
        '<' => out.push_str("&lt;"),
        '>' => out.push_str("&gt;"),
        '"' => out.push_str("&quot;"),
        '\0'..='\x1F' | '\u{FFFE}' | '\u{FFFF}' => out.push_str("?"),
        _ => out.push(character),
    }
}

/// Adds a text as it stands between tags, or in an attribute in double quotes.
pub(crate) fn push_escaped(out: &mut String, text: &str) -> Result<(), AllocError>
    ensures { OnOk result (string_bytes out.new ≡ string_bytes out.old ++ escaped text.now) }
{
    for character in text.chars() {
        push_char(out, character)?;
    }
    Ok(())
}
