//! The sentence of a line of a terminal's buffer that is refused.

ghost use Rattle.std.specs.Prelude.{◌≡◌, ◌++◌, IfOk, OnOk};
ghost use Rattle.std.specs.Option.{option_map};
ghost use Rattle.std.specs.String.{string_bytes};
ghost use Rattle.cli_reasons.specs.BufferLine.{buffer_place, buffer_sentence, buffer_words, flaw_sentence, line_words};

use crate::head::{Place, push_head};
use buffer_lines::Flaw;
use cli_buffers::{BufferFlaw, BufferWhy, SizesLine, buffer_flaw};
use std::alloc::{AllocError, Global};

fn push_line_words(out: &mut String, flaw: Flaw) -> Result<(), AllocError>
    ensures { OnOk result (string_bytes out.new ≡ string_bytes out.old ++ line_words flaw) }
{
    match flaw {
        Flaw::NoCell(_) => out.push_str(
            "no cell of a row: two hexadecimal digits of a character, GE(..), SF(c0=..) or SA(..=..)",
        ),
        Flaw::OtherCells(count, first) => {
            write!(out, "a row of {count} cells after rows of {first}")
        }
        Flaw::TooManyRows => out.push_str("a row after 255 others"),
        Flaw::OtherSize(rows, cols) => write!(
            out,
            "another size than that of the rows before it, {rows}x{cols}"
        ),
        Flaw::NoTerminal => out.push_str("no terminal has a screen of this size"),
        Flaw::CursorOutside => out.push_str("the cursor is outside the screen"),
    }
}

fn push_words(out: &mut String, why: BufferWhy) -> Result<(), AllocError>
    ensures { OnOk result (string_bytes out.new ≡ string_bytes out.old ++ buffer_words why) }
{
    match why {
        BufferWhy::Line(flaw) => push_line_words(out, flaw),
        BufferWhy::OtherScreen => {
            out.push_str("a screen of another size than the first, and '--size' tells one")
        }
        BufferWhy::NoStatus => out.push_str("the status line after the rows is missing"),
    }
}

/// Where it is: of a word the column is told.
fn place_of(number: usize, why: BufferWhy) -> Place
    ensures { result ≡ buffer_place number why }
{
    match why {
        BufferWhy::Line(Flaw::NoCell(column)) => Place::Column(number as u64, column),
        _ => Place::Line(number as u64),
    }
}

fn flaw_sentence(alloc: Global, name: &str, flaw: BufferFlaw) -> Result<String, AllocError>
    ensures { IfOk result (λ text. string_bytes text ≡ flaw_sentence name.now flaw) }
{
    let mut out = String::new(alloc);
    push_head(&mut out, name, place_of(flaw.number, flaw.why))?;
    push_words(&mut out, flaw.why)?;
    out.push_str("\n")?;
    Ok(out)
}

/// The sentence of the first line of a terminal's buffer that is refused, in the input of this name, where one is.
///
/// # Errors
///
/// Where a request for memory was refused.
pub fn buffer_sentence(
    alloc: Global,
    name: &str,
    sizes: SizesLine,
    text: &[u8],
) -> Result<Option<String>, AllocError>
    ensures { IfOk result (λ said. option_map string_bytes said
        ≡ buffer_sentence name.now sizes text.now) }
{
    match buffer_flaw(alloc, sizes, text)? {
        Some(flaw) => Ok(Some(flaw_sentence(alloc, name, flaw)?)),
        None => Ok(None),
    }
}
