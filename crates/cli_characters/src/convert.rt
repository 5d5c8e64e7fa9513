//! `convert --chars`, and `convert --back --chars`.

ghost use Rattle.std.specs.Prelude.{◌≡◌, ◌+◌, IfSome};
ghost use Rattle.cli_commands.specs.Causes.{EndsBy, ToldBy};
ghost use Rattle.cli_commands.specs.Fault.{Gives, GivesOrFails};
ghost use Rattle.cli_commands.specs.Held.{answer_seen};
ghost use Rattle.cli_commands.specs.Streams.{Prints};
ghost use Rattle.cli_characters.specs.Convert.{back_characters, convert_characters, printed_back_characters, printed_convert_characters};

use crate::orders::{character_text, plain_text};
use cli_commands::{
    Answer, CommandError, GivesBytes, Status, TakesBytes, convert_back_text, convert_text, finish,
    read_text, within_limit,
};
use std::alloc::Global;

/// What `convert --chars` answers to a text of records: their orders, a line each, a text by its characters between quotes and by
/// the digits of other bytes.
///
/// # Errors
///
/// The first fault of the lines, then the first record that is refused; out of memory.
pub fn convert_characters_text(alloc: Global, records: &[u8]) -> Result<Answer, CommandError>
    ensures { Gives answer_seen result (convert_characters records.now) }
{
    let answer = convert_text(alloc, records)?;
    Ok(Answer {
        text: character_text(alloc, answer.text.as_str())?,
        status: answer.status,
    })
}

fn converted<R: GivesBytes>(alloc: Global, reader: &mut R) -> Result<Answer, CommandError>
    ensures answer { IfSome (R.remaining reader.old)
        (λ input. GivesOrFails answer_seen result (convert_characters input)) }
    ensures cause { ToldBy (R.failures reader.old) (R.failures reader.new) result }
{
    let text = read_text(alloc, reader)?;
    convert_characters_text(alloc, text.as_slice())
}

/// Reads records in hexadecimal, one a line, and prints their orders, a line each, a text by its characters between quotes and by
/// the digits of other bytes; or the first fault of the lines, or the first record that is refused. At most 16,777,216 bytes
/// and 1,000 records. After a read or a write that failed the status is `Failed`, where memory was refused `NoMemory`, and a
/// front of the text was written.
pub fn run_convert_characters<R: GivesBytes, W: TakesBytes>(
    alloc: Global,
    reader: &mut R,
    writer: &mut W,
) -> Status
    ensures prints { IfSome (R.remaining reader.old) (λ input.
        Prints (W.contents writer.old) (W.contents writer.new) result
        (printed_convert_characters input)) }
    ensures cause { IfSome (R.remaining reader.old) (λ input.
        EndsBy (R.failures reader.old + W.failures writer.old)
        (R.failures reader.new + W.failures writer.new)
        (printed_convert_characters input).status result) }
{
    let answer = converted(alloc, reader);
    finish(alloc, writer, answer)
}

/// What `convert --back --chars` answers to a text of order lines, whose texts are characters or digits.
///
/// # Errors
///
/// The first fault of the lines, then the first record that cannot be written; out of memory.
pub fn convert_back_characters_text(alloc: Global, lines: &[u8]) -> Result<Answer, CommandError>
    ensures { Gives answer_seen result (back_characters lines.now) }
{
    let plain = plain_text(alloc, within_limit(lines)?)?;
    convert_back_text(alloc, plain.as_slice())
}

fn converted_back<R: GivesBytes>(alloc: Global, reader: &mut R) -> Result<Answer, CommandError>
    ensures answer { IfSome (R.remaining reader.old)
        (λ input. GivesOrFails answer_seen result (back_characters input)) }
    ensures cause { ToldBy (R.failures reader.old) (R.failures reader.new) result }
{
    let text = read_text(alloc, reader)?;
    convert_back_characters_text(alloc, text.as_slice())
}

/// Reads order lines, whose texts are characters or digits, and prints the bytes of each record in hexadecimal, one a line; or the
/// first fault of the lines, or the first record that cannot be written. At most 16,777,216 bytes, as they are and with all
/// texts in digits, and 1,000 records; the statuses are those of `run_convert_characters`.
pub fn run_convert_back_characters<R: GivesBytes, W: TakesBytes>(
    alloc: Global,
    reader: &mut R,
    writer: &mut W,
) -> Status
    ensures prints { IfSome (R.remaining reader.old) (λ input.
        Prints (W.contents writer.old) (W.contents writer.new) result
        (printed_back_characters input)) }
    ensures cause { IfSome (R.remaining reader.old) (λ input.
        EndsBy (R.failures reader.old + W.failures writer.old)
        (R.failures reader.new + W.failures writer.new)
        (printed_back_characters input).status result) }
{
    let answer = converted_back(alloc, reader);
    finish(alloc, writer, answer)
}
