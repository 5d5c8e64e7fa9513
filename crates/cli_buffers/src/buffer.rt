//! The command `records --from buffer`.

ghost use Rattle.std.specs.Prelude.{◌≡◌, ◌+◌, IfSome};
ghost use Rattle.std.specs.String.{string_bytes};
ghost use Rattle.cli_commands.specs.Causes.{EndsBy, ToldBy};
ghost use Rattle.cli_commands.specs.Fault.{Gives, GivesOrFails};
ghost use Rattle.cli_commands.specs.Held.{answer_seen};
ghost use Rattle.cli_commands.specs.Streams.{Prints};
ghost use Rattle.cli_buffers.specs.Buffer.{buffer, buffer_within, printed_buffer};
ghost use Rattle.cli_buffers.specs.Reading.{ended, reading_seen};

use crate::reading::{Reading, all_lines};
use crate::sizes::SizesLine;
use cli_commands::{
    Answer, CommandError, Fault, GivesBytes, Status, TakesBytes, finish, read_text, within_limit,
};
use std::alloc::Global;

/// The records, unless the last screen isn't ended.
fn ended(reading: Reading) -> Result<String, CommandError>
    ensures { Gives string_bytes result (ended (reading_seen reading)) }
{
    if reading.open.is_empty() {
        Ok(reading.text)
    } else {
        Err(CommandError::Fault(Fault::BadLine(reading.number)))
    }
}

fn buffer_within(alloc: Global, sizes: SizesLine, text: &[u8]) -> Result<Answer, CommandError>
    ensures { Gives answer_seen result (buffer_within sizes text.now) }
{
    let reading = all_lines(alloc, sizes, text)?;
    Ok(Answer {
        text: ended(reading)?,
        status: Status::Done,
    })
}

/// The records that leave the screens which the answers of `ReadBuffer(Ebcdic)` show, one a line: of each its rows, in lines `data: `,
/// and the status line after them. Before the first the line of sizes, where it is asked for.
///
/// # Errors
///
/// The first line that is refused: it is none of an answer, its row has another number of cells than the first, the status line
/// doesn't tell the size of the rows, or no terminal has that size, or the cursor isn't on the screen; where sizes are told, a
/// screen of another size than the first; and the last line, where no status line ends the rows. More than 16,777,216 bytes; out of
/// memory.
pub fn buffer_text(alloc: Global, sizes: SizesLine, text: &[u8]) -> Result<Answer, CommandError>
    ensures { Gives answer_seen result (buffer sizes text.now) }
{
    let text = within_limit(text)?;
    buffer_within(alloc, sizes, text)
}

fn buffer_read<R: GivesBytes>(
    alloc: Global,
    sizes: SizesLine,
    reader: &mut R,
) -> Result<Answer, CommandError>
    ensures answer { IfSome (R.remaining reader.old)
        (λ input. GivesOrFails answer_seen result (buffer sizes input)) }
    ensures cause { ToldBy (R.failures reader.old) (R.failures reader.new) result }
{
    let text = read_text(alloc, reader)?;
    buffer_text(alloc, sizes, &text)
}

/// Reads the answers of `ReadBuffer(Ebcdic)`, and prints the record that leaves each screen, in hexadecimal, or the first line that is
/// refused alone, with the status `BadInput`. After a read or a write that failed the status is `Failed`, where memory was refused
/// `NoMemory`, and a front of the text was written.
pub fn run_buffers<R: GivesBytes, W: TakesBytes>(
    alloc: Global,
    sizes: SizesLine,
    reader: &mut R,
    writer: &mut W,
) -> Status
    ensures prints { IfSome (R.remaining reader.old) (λ input.
        Prints (W.contents writer.old) (W.contents writer.new) result (printed_buffer sizes input)) }
    ensures cause { IfSome (R.remaining reader.old) (λ input.
        EndsBy (R.failures reader.old + W.failures writer.old)
        (R.failures reader.new + W.failures writer.new) (printed_buffer sizes input).status result) }
{
    let answer = buffer_read(alloc, sizes, reader);
    finish(alloc, writer, answer)
}
