//! `press --strokes`, where strings are typed.

ghost use Rattle.std.specs.Prelude.{◌≡◌, ◌+◌, IfErr, IfSome};
ghost use Rattle.cli_commands.specs.Causes.{EndsBy, ToldBy};
ghost use Rattle.cli_commands.specs.Fault.{Gives, GivesOrFails};
ghost use Rattle.cli_commands.specs.Held.{answer_seen};
ghost use Rattle.cli_commands.specs.Records.{records_in};
ghost use Rattle.cli_commands.specs.Streams.{Prints};
ghost use Rattle.cli_commands.specs.declared.input.sizes.SizeLine.TheVariants.{Allowed};
ghost use Rattle.cli_characters.specs.Press.{printed_strike_typed, strike_input, strike_text, strike_typed};

use crate::strokes::{error_in, typed_text};
use cli_commands::{
    Answer, CommandError, GivesBytes, SizeLine, Source, Status, TakesBytes, Text, Whole, finish,
    press_strokes_texts, records_in, within_limit,
};
use std::alloc::Global;

/// What `press --strokes` answers to records and a text of strokes and strings.
fn strike_text(alloc: Global, records: &[u8], text: &[u8]) -> Result<Answer, CommandError>
    ensures { Gives answer_seen result (strike_text records.now text.now) }
{
    let keys = typed_text(alloc, text)?;
    match press_strokes_texts(alloc, records, keys.as_slice()) {
        Ok(answer) => Ok(answer),
        Err(error) => Err(error_in(text, error)),
    }
}

/// The same, unless the text is too long.
fn strike_input(alloc: Global, records: &[u8], text: &[u8]) -> Result<Answer, CommandError>
    ensures { Gives answer_seen result (strike_input records.now text.now) }
{
    strike_text(alloc, records, within_limit(text)?)
}

/// What `press --strokes` answers to good records and the strokes of a source.
fn strike_lines<K: Source>(
    alloc: Global,
    records: &[u8],
    strokes: &mut K,
) -> Result<Answer, CommandError>
    ensures answer { IfSome (K.remaining strokes.old)
        (λ lines. GivesOrFails answer_seen result (strike_input records.now lines)) }
    ensures cause { ToldBy (K.failures strokes.old) (K.failures strokes.new) result }
{
    let text = strokes.whole(alloc)?;
    strike_input(alloc, records, text.bytes())
}

/// What `press --strokes` answers to the sources of records and of strokes, a line `string` by the keys of its characters.
fn strike_read<R: Source, K: Source>(
    alloc: Global,
    records: &mut R,
    strokes: &mut K,
) -> Result<Answer, CommandError>
    ensures answer { IfSome (R.remaining records.old) (λ input. IfSome (K.remaining
        strokes.old) (λ lines. GivesOrFails answer_seen result (strike_typed input lines))) }
    ensures cause { ToldBy (R.failures records.old + K.failures strokes.old)
        (R.failures records.new + K.failures strokes.new) result }
    ensures unread { IfSome (R.remaining records.old) (λ input.
        IfErr (records_in Allowed input) (λ fault. strokes.new ≡ strokes.old)) }
{
    let records = records.whole(alloc)?;
    records_in(alloc, records.bytes(), SizeLine::Allowed)?;
    strike_lines(alloc, records.bytes(), strokes)
}

/// What `press --strokes` answers to the texts of records and of strokes, a line `string` by the keys of its characters.
///
/// # Errors
///
/// The first fault of the records' lines, then of the strokes' lines, then the first record that is refused; out of memory.
pub fn typed_texts(alloc: Global, records: &[u8], lines: &[u8]) -> Result<Answer, CommandError>
    ensures { Gives answer_seen result (strike_typed records.now lines.now) }
{
    strike_read(alloc, &mut Text(records), &mut Text(lines))
}

/// Reads records in hexadecimal, one a line, and strokes, one a line, a line `string` for the keys of its characters; applies the
/// records to a new screen, strikes in turn, and prints for each stroke what was answered and the cursor, or the bytes that
/// were sent; or the first fault: of the records' lines, then of the strokes' lines, then the first record that is refused.
/// Strokes aren't read where the records' lines have a fault. At most 16,777,216 bytes of either, as they are and with strings
/// as keys, 1,000 records of 32,768 bytes, 100,000 strokes. After a read or a write that failed the status is `Failed`, where
/// memory was refused `NoMemory`, and a front of the text was written.
pub fn run_press_typed<R: GivesBytes, K: GivesBytes, W: TakesBytes>(
    alloc: Global,
    reader: &mut R,
    strokes: &mut K,
    writer: &mut W,
) -> Status
    ensures prints { IfSome (R.remaining reader.old) (λ input. IfSome (K.remaining
        strokes.old) (λ lines.
        Prints (W.contents writer.old) (W.contents writer.new) result
        (printed_strike_typed input lines))) }
    ensures cause { IfSome (R.remaining reader.old) (λ input. IfSome (K.remaining
        strokes.old) (λ lines.
        EndsBy (R.failures reader.old + K.failures strokes.old + W.failures writer.old)
        (R.failures reader.new + K.failures strokes.new + W.failures writer.new)
        (printed_strike_typed input lines).status result)) }
    ensures unread { IfSome (R.remaining reader.old) (λ input.
        IfErr (records_in Allowed input) (λ fault. strokes.new ≡ strokes.old)) }
{
    let answer = strike_read(alloc, reader, strokes);
    finish(alloc, writer, answer)
}
