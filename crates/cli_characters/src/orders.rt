//! Lines of orders whose texts are characters.

ghost use Rattle.std.specs.Prelude.{◌≡◌, ◌++◌, IfOk, OnOk};
ghost use Rattle.std.specs.String.{string_bytes};
ghost use Rattle.ds_codec.specs.Digits.{bytes_from};
ghost use Rattle.hex.specs.Hex.{decode_of, encode_upper};
ghost use Rattle.cli_characters.specs.Operand.{told_of};
ghost use Rattle.cli_characters.specs.Orders.{character_line, character_text, plain_line, plain_text, word};

use crate::line::{split_line, split_text, without_return};
use crate::operand::told;
use crate::runs::push_runs;
use ds_codec::bytes_of_digits;
use order_lines::push_bytes;
use std::alloc::{AllocError, Global};

/// What begins the line of a text.
const WORD: &str = "TEXT ";

/// A line of orders, a text by its characters.
#[tactic(auto, unfolding(crate::specs::Orders::character_line))]
fn push_character_line(alloc: Global, out: &mut String, line: &str) -> Result<(), AllocError>
    ensures { OnOk result (string_bytes out.new
        ≡ string_bytes out.old ++ character_line line.now) }
{
    let bytes = line.as_bytes();
    if !bytes.starts_with(b"TEXT ".as_slice()) {
        return out.push_str(line);
    }
    match bytes_of_digits(alloc, &bytes[5..])? {
        Some(run) => {
            out.push_str(WORD)?;
            push_runs(out, run.as_slice())
        }
        None => out.push_str(line),
    }
}

/// Lines of orders, their texts by their characters.
pub(crate) fn character_text(alloc: Global, text: &str) -> Result<String, AllocError>
    ensures { IfOk result (λ out. string_bytes out ≡ character_text text.now) }
{
    let mut out = String::new(alloc);
    let mut rest = text;
    while let Some((line, others)) = split_text(rest) {
        push_character_line(alloc, &mut out, line)?;
        out.push_str("\n")?;
        rest = others;
    }
    push_character_line(alloc, &mut out, rest)?;
    Ok(out)
}

/// The line of a text by its digits.
fn text_line(alloc: Global, bytes: &[u8]) -> Result<Vec<u8>, AllocError>
    ensures { IfOk result (λ line. line.items ≡ word ++ encode_upper bytes.now) }
{
    let mut digits = String::new(alloc);
    digits.push_str(WORD)?;
    push_bytes(&mut digits, bytes)?;
    Ok(digits.into_bytes())
}

/// A line of orders as `convert --back` reads it: a text by its digits, where its characters are good.
#[tactic(auto, unfolding(crate::specs::Orders::plain_line))]
pub fn plain_line(alloc: Global, line: &[u8]) -> Result<Vec<u8>, AllocError>
    ensures { IfOk result (λ plain. plain.items ≡ plain_line line.now) }
{
    if !line.starts_with(b"TEXT ".as_slice()) {
        return Vec::from_slice(alloc, line);
    }
    match told(alloc, &without_return(line)[5..])? {
        Some(bytes) => text_line(alloc, bytes.as_slice()),
        None => Vec::from_slice(alloc, line),
    }
}

/// Lines of orders as `convert --back` reads them.
pub(crate) fn plain_text(alloc: Global, text: &[u8]) -> Result<Vec<u8>, AllocError>
    ensures { IfOk result (λ out. out.items ≡ plain_text text.now) }
{
    let mut out = Vec::new(alloc);
    let mut rest = text;
    while let Some((line, others)) = split_line(rest) {
        out.extend_from_slice(plain_line(alloc, line)?.as_slice())?;
        out.push(b'\n')?;
        rest = others;
    }
    out.extend_from_slice(plain_line(alloc, rest)?.as_slice())?;
    Ok(out)
}
