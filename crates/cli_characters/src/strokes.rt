//! Lines of strokes, among them strings that are typed.

ghost use Rattle.std.specs.Prelude.{◌≡◌, ◌++◌, length, IfOk, IfSome, OnOk};
ghost use Rattle.std.specs.Option.{option_map};
ghost use Rattle.std.specs.String.{string_bytes};
ghost use Rattle.cli_commands.specs.Causes.{ToldBy};
ghost use Rattle.cli_commands.specs.Fault.{Gives, GivesOrFails};
ghost use Rattle.cli_commands.specs.Held.{strokes_seen};
ghost use Rattle.cli_characters.specs.Lines.{joined, parts_of};
ghost use Rattle.cli_characters.specs.Strokes.{codes_of, count_of, error_in, line_from, some_of, string_of, type_line, typed_from, typed_in, typed_line, typed_text, typed_told};

use crate::line::{split_line, without_return};
use crate::table::code_of;
use cli_commands::{CommandError, Fault, GivesBytes, Strokes, read_text, strokes_in, within_limit};
use order_lines::push_hex;
use std::alloc::{AllocError, Global};

/// The codes of characters, if each is one of the 95.
fn codes_of(alloc: Global, characters: &[u8]) -> Result<Option<Vec<u8>>, AllocError>
    ensures { IfOk result (λ text. option_map (λ t. t.items) text ≡ codes_of characters.now) }
{
    let mut text = Vec::new(alloc);
    let mut rest = characters;
    while let [character, others @ ..] = rest {
        match code_of(*character) {
            Some(code) => text.push(code)?,
            None => return Ok(None),
        }
        rest = others;
    }
    Ok(Some(text))
}

/// The codes that a line `string` types: its characters, of which it has one at least.
#[tactic(auto, unfolding(crate::specs::Strokes::string_of))]
pub fn string_of(alloc: Global, line: &[u8]) -> Result<Option<Vec<u8>>, AllocError>
    ensures { IfOk result (λ text. option_map (λ t. t.items) text ≡ string_of line.now) }
{
    if !line.starts_with(b"string ".as_slice()) {
        return Ok(None);
    }
    match codes_of(alloc, &without_return(line)[7..])? {
        Some(text) if !text.is_empty() => Ok(Some(text)),
        _ => Ok(None),
    }
}

/// The line of a character key.
fn push_type_line(out: &mut String, code: u8) -> Result<(), AllocError>
    ensures { OnOk result (string_bytes out.new ≡ string_bytes out.old ++ type_line code) }
{
    out.push_str("type ")?;
    push_hex(out, code)
}

/// The lines of character keys, an LF between two.
fn type_lines(alloc: Global, text: &[u8]) -> Result<String, AllocError>
    ensures { IfOk result (λ lines. string_bytes lines ≡ joined type_line text.now) }
{
    let mut out = String::new(alloc);
    let mut rest = text;
    while let [code, next, others @ ..] = rest {
        push_type_line(&mut out, *code)?;
        out.push_str("\n")?;
        rest = &rest[1..];
    }
    if let [code] = rest {
        push_type_line(&mut out, *code)?;
    }
    Ok(out)
}

/// A line as lines of keys and strokes.
fn push_typed_line(alloc: Global, out: &mut Vec<u8>, line: &[u8]) -> Result<(), AllocError>
    ensures { OnOk result (out.new.items ≡ out.old.items ++ typed_line line.now) }
{
    match string_of(alloc, line)? {
        Some(text) => out.extend_from_slice(type_lines(alloc, text.as_slice())?.as_bytes()),
        None => out.extend_from_slice(line),
    }
}

/// Lines as lines of keys and strokes: a string is the lines `type` of its characters.
pub(crate) fn typed_text(alloc: Global, text: &[u8]) -> Result<Vec<u8>, AllocError>
    ensures { IfOk result (λ out. out.items ≡ typed_text text.now) }
{
    let mut out = Vec::new(alloc);
    let mut rest = text;
    while let Some((line, others)) = split_line(rest) {
        push_typed_line(alloc, &mut out, line)?;
        out.push(b'\n')?;
        rest = others;
    }
    push_typed_line(alloc, &mut out, rest)?;
    Ok(out)
}

/// How many characters there are, if each is one of the 95.
fn code_count(characters: &[u8]) -> Option<usize>
    ensures { result ≡ option_map length (codes_of characters.now) }
{
    let mut count = 0;
    while count < characters.len() {
        code_of(characters[count])?;
        count += 1;
    }
    Some(count)
}

/// How many lines of keys come of a line.
#[tactic(auto, unfolding(crate::specs::Strokes::string_of))]
fn count_of(line: &[u8]) -> usize
    ensures { result ≡ count_of (string_of line.now) }
{
    if !line.starts_with(b"string ".as_slice()) {
        return 1;
    }
    match code_count(&without_return(line)[7..]) {
        Some(count) => count.max(1),
        None => 1,
    }
}

/// The number of the line from which a line of keys comes, both counted from 1.
fn line_of(text: &[u8], key_line: usize) -> usize
    ensures { result ≡ line_from 1 (parts_of text.now) key_line }
{
    let mut number = 1;
    let mut left = key_line;
    let mut rest = text;
    while let Some((line, others)) = split_line(rest) {
        let count = count_of(line);
        if left <= count {
            return number;
        }
        left -= count;
        number += 1;
        rest = others;
    }
    number
}

/// An error, told by the line from which it comes where it is of a line of keys.
pub(crate) fn error_in(text: &[u8], error: CommandError) -> CommandError
    ensures { result ≡ error_in text.now error }
{
    match error {
        CommandError::Fault(Fault::BadKeyLine(number)) => {
            CommandError::Fault(Fault::BadKeyLine(line_of(text, number)))
        }
        error => error,
    }
}

/// The strokes that a text of strokes and strings names, or the first fault of its lines.
fn typed_told(alloc: Global, text: &[u8]) -> Result<Strokes, CommandError>
    ensures { Gives strokes_seen result (typed_told text.now) }
{
    let keys = typed_text(alloc, text)?;
    match strokes_in(alloc, keys.as_slice()) {
        Ok(strokes) => Ok(strokes),
        Err(error) => Err(error_in(text, error)),
    }
}

/// The strokes of a text, a line `string` by the keys of its characters.
///
/// # Errors
///
/// The first fault of its lines; out of memory.
pub fn typed_in(alloc: Global, text: &[u8]) -> Result<Strokes, CommandError>
    ensures { Gives strokes_seen result (typed_in text.now) }
{
    typed_told(alloc, within_limit(text)?)
}

/// The strokes of an input, a line `string` by the keys of its characters.
///
/// # Errors
///
/// The first fault of its lines; that a read failed; out of memory.
pub fn read_typed<R: GivesBytes>(alloc: Global, reader: &mut R) -> Result<Strokes, CommandError>
    ensures strokes { IfSome (R.remaining reader.old)
        (λ input. GivesOrFails strokes_seen result (typed_in input)) }
    ensures cause { ToldBy (R.failures reader.old) (R.failures reader.new) result }
{
    let text = read_text(alloc, reader)?;
    typed_in(alloc, text.as_slice())
}
