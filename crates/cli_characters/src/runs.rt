//! Texts as runs of characters between quotes and of digits.

ghost use Rattle.std.specs.Prelude.{◌≡◌, ◌++◌, ◌<◌, IfOk, OnOk};
ghost use Rattle.std.specs.String.{string_bytes};
ghost use Rattle.cli_characters.specs.Table.{character_of};
ghost use Rattle.cli_characters.specs.Runs.{after_byte, byte_text, ends, in_quotes, leads, opens, runs, runs_after};

use crate::table::character_of;
use order_lines::push_hex;
use std::alloc::AllocError;

/// What stands before a byte of a text.
#[derive(Clone, Copy)]
pub(crate) enum Before {
    Nothing,
    /// Characters, whose quote is open.
    Characters,
    /// The digits of a byte that has no character.
    Digits,
}

/// What begins a run of characters.
fn opens(before: Before) -> &'static str
    ensures { result.now ≡ opens before }
{
    match before {
        Before::Nothing => "'",
        Before::Characters => "",
        Before::Digits => " '",
    }
}

/// What comes before the digits of a byte.
fn leads(before: Before) -> &'static str
    ensures { result.now ≡ leads before }
{
    match before {
        Before::Characters => "' ",
        Before::Nothing | Before::Digits => "",
    }
}

/// What ends a text.
fn ends(before: Before) -> &'static str
    ensures { result.now ≡ ends before }
{
    match before {
        Before::Characters => "'",
        Before::Nothing | Before::Digits => "",
    }
}

/// A character between quotes: a quote stands twice.
fn push_in_quotes(out: &mut String, character: u8) -> Result<(), AllocError>
    requires { character < 128 }
    ensures { OnOk result (string_bytes out.new
        ≡ string_bytes out.old ++ in_quotes character) }
{
    if character == b'\'' {
        out.push_str("''")
    } else {
        out.push(char::from(character))
    }
}

/// A byte, by its character or by its digits, and what stands before the next.
fn push_byte(out: &mut String, before: Before, byte: u8) -> Result<Before, AllocError>
    ensures text { OnOk result (string_bytes out.new
        ≡ string_bytes out.old ++ byte_text before byte (character_of byte)) }
    ensures before { IfOk result (λ next. next ≡ after_byte (character_of byte)) }
{
    match character_of(byte) {
        Some(character) => {
            out.push_str(opens(before))?;
            push_in_quotes(out, character)?;
            Ok(Before::Characters)
        }
        None => {
            out.push_str(leads(before))?;
            push_hex(out, byte)?;
            Ok(Before::Digits)
        }
    }
}

/// The runs of a text.
pub(crate) fn push_runs(out: &mut String, bytes: &[u8]) -> Result<(), AllocError>
    ensures { OnOk result (string_bytes out.new ≡ string_bytes out.old ++ runs bytes.now) }
{
    let mut before = Before::Nothing;
    let mut rest = bytes;
    while let [byte, others @ ..] = rest {
        before = push_byte(out, before, *byte)?;
        rest = others;
    }
    out.push_str(ends(before))
}
