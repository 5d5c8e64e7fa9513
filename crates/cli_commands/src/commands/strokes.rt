//! The command `press --strokes`: what an operator strikes on a screen, insert mode among it, with the bytes that go out.

ghost use Rattle.std.specs.Prelude.{◌≡◌, ◌+◌, ◌++◌, IfErr, IfOk, IfSome, OnOk, Ok};
ghost use Rattle.std.specs.String.{string_bytes};
ghost use Rattle.ds_strokes.specs.StrokeStep.{after_stroke};
ghost use Rattle.ds_terminal.specs.Seen.{key_reply_seen};
ghost use Rattle.ds_terminal.specs.Strokes.{stroke_turn};
ghost use Rattle.ds_terminal.specs.Terminal.{key_turn};
ghost use Rattle.cli_commands.specs.declared.input.sizes.SizeLine.TheVariants.{Allowed};
ghost use Rattle.cli_commands.specs.declared.status.Status.TheVariants.{Done};
ghost use Rattle.cli_commands.specs.Causes.{EndsBy, ToldBy};
ghost use Rattle.cli_commands.specs.Fault.{Gives, GivesOrFails};
ghost use Rattle.cli_commands.specs.Held.{answer_seen, records_seen, strokes_seen};
ghost use Rattle.cli_commands.specs.Press.{turn_line};
ghost use Rattle.cli_commands.specs.Printed.{printed};
ghost use Rattle.cli_commands.specs.Records.{records_in};
ghost use Rattle.cli_commands.specs.Streams.{Prints};
ghost use Rattle.cli_commands.specs.Strike.{struck_text, strike_told, strike_lines, strike, printed_strike};

use crate::commands::press::push_reply;
use crate::fault::CommandError;
use crate::input::records::{Records, read_records};
use crate::input::sizes::SizeLine;
use crate::input::source::{Source, Text};
use crate::input::strokes::{Strokes, read_strokes};
use crate::output::answer::{Answer, finish};
use crate::shown::shown_on;
use crate::status::Status;
use crate::streams::{GivesBytes, TakesBytes};
use ds_inbound::write_inbound;
use ds_keys::Pressed;
use ds_screen::PlaneCells;
use ds_strokes::{Operator, Stroke};
use ds_terminal::KeyReply;
use std::alloc::{AllocError, Global};

/// Strikes, and gives what becomes of it.
fn reply_to(
    alloc: Global,
    operator: &mut Operator<PlaneCells>,
    stroke: Stroke,
) -> Result<KeyReply, AllocError>
    ensures turned { IfOk result (λ reply. key_turn operator.new.screen (key_reply_seen reply)
        ≡ stroke_turn operator.old stroke) }
    ensures struck { operator.new ≡ after_stroke operator.old stroke }
{
    match operator.strike(stroke) {
        Pressed::Done => Ok(KeyReply::Done),
        Pressed::Inhibited => Ok(KeyReply::Inhibited),
        Pressed::Ignored => Ok(KeyReply::Ignored),
        Pressed::Sent(_) => Ok(KeyReply::Sent(write_inbound(alloc, operator.screen(), false)?)),
    }
}

/// The line of a stroke.
fn push_stroke(
    alloc: Global,
    out: &mut String,
    operator: &mut Operator<PlaneCells>,
    stroke: Stroke,
) -> Result<(), AllocError>
    ensures line { OnOk result (string_bytes out.new ≡ string_bytes out.old
        ++ turn_line (stroke_turn operator.old stroke)) }
    ensures struck { operator.new ≡ after_stroke operator.old stroke }
{
    let reply = reply_to(alloc, operator, stroke)?;
    push_reply(out, operator.screen().cursor(), &reply)
}

/// The lines of strokes in turn.
fn push_strokes(
    alloc: Global,
    out: &mut String,
    operator: &mut Operator<PlaneCells>,
    strokes: &[Stroke],
) -> Result<(), AllocError>
    ensures { OnOk result
        (string_bytes out.new ≡ string_bytes out.old ++ struck_text operator.old strokes.now) }
{
    for stroke in strokes {
        push_stroke(alloc, out, operator, *stroke)?;
    }
    Ok(())
}

/// What `press --strokes` answers to strokes, on the screen where an operator begins.
fn strike_all(
    alloc: Global,
    operator: &mut Operator<PlaneCells>,
    named: &Strokes,
) -> Result<Answer, CommandError>
    ensures { Gives answer_seen result
        (Ok (printed (struck_text operator.old (strokes_seen named.now)) Done)) }
{
    let mut text = String::new(alloc);
    push_strokes(alloc, &mut text, operator, named.strokes.as_slice())?;
    Ok(Answer {
        text,
        status: Status::Done,
    })
}

/// What `press --strokes` answers to records and strokes.
fn strike_told(alloc: Global, told: &Records, named: &Strokes) -> Result<Answer, CommandError>
    ensures { Gives answer_seen result
        (strike_told (records_seen told.now) (strokes_seen named.now)) }
{
    let terminal = shown_on(alloc, told.geometry, told.records.as_slice())?;
    let mut operator = Operator::new(terminal.screen().copied(alloc)?);
    strike_all(alloc, &mut operator, named)
}

/// What `press --strokes` answers to records and the strokes of a source.
fn strike_lines<K: Source>(
    alloc: Global,
    told: &Records,
    strokes: &mut K,
) -> Result<Answer, CommandError>
    ensures answer { IfSome (K.remaining strokes.old)
        (λ lines. GivesOrFails answer_seen result (strike_lines (records_seen told.now) lines)) }
    ensures cause { ToldBy (K.failures strokes.old) (K.failures strokes.new) result }
{
    let named = read_strokes(alloc, strokes)?;
    strike_told(alloc, told, &named)
}

/// What `press --strokes` answers to the sources of records and of strokes.
fn strike_read<R: Source, K: Source>(
    alloc: Global,
    records: &mut R,
    strokes: &mut K,
) -> Result<Answer, CommandError>
    ensures answer { IfSome (R.remaining records.old) (λ input. IfSome (K.remaining
        strokes.old) (λ lines. GivesOrFails answer_seen result (strike input lines))) }
    ensures cause { ToldBy (R.failures records.old + K.failures strokes.old)
        (R.failures records.new + K.failures strokes.new) result }
    ensures unread { IfSome (R.remaining records.old) (λ input.
        IfErr (records_in Allowed input) (λ fault. strokes.new ≡ strokes.old)) }
{
    let told = read_records(alloc, records, SizeLine::Allowed)?;
    strike_lines(alloc, &told, strokes)
}

/// What `press --strokes` answers to the texts of records and of strokes.
///
/// # Errors
///
/// The first fault of the records' lines, then of the strokes' lines, then the first record that is refused; out of memory.
pub fn press_strokes_texts(
    alloc: Global,
    records: &[u8],
    strokes: &[u8],
) -> Result<Answer, CommandError>
    ensures { Gives answer_seen result (strike records.now strokes.now) }
{
    strike_read(alloc, &mut Text(records), &mut Text(strokes))
}

/// Reads records in hexadecimal, one a line, and strokes, one a line; applies the records to a new screen,
/// strikes in turn, and prints for each stroke what was answered and the cursor, or the bytes that were
/// sent; or the first fault: of the records' lines, then of the strokes' lines, then the first record that
/// is refused. Strokes aren't read where the records' lines have a fault. At most 16,777,216 bytes of
/// either, 1,000 records of 32,768 bytes, 100,000 strokes. After a read or a write that failed the status
/// is `Failed`, where memory was refused `NoMemory`, and a front of the text was written.
pub fn run_press_strokes<R: GivesBytes, K: GivesBytes, W: TakesBytes>(
    alloc: Global,
    reader: &mut R,
    strokes: &mut K,
    writer: &mut W,
) -> Status
    ensures prints { IfSome (R.remaining reader.old) (λ input. IfSome (K.remaining
        strokes.old) (λ lines.
        Prints (W.contents writer.old) (W.contents writer.new) result (printed_strike input lines))) }
    ensures cause { IfSome (R.remaining reader.old) (λ input. IfSome (K.remaining
        strokes.old) (λ lines.
        EndsBy (R.failures reader.old + K.failures strokes.old + W.failures writer.old)
        (R.failures reader.new + K.failures strokes.new + W.failures writer.new)
        (printed_strike input lines).status result)) }
    ensures unread { IfSome (R.remaining reader.old) (λ input.
        IfErr (records_in Allowed input) (λ fault. strokes.new ≡ strokes.old)) }
{
    let answer = strike_read(alloc, reader, strokes);
    finish(alloc, writer, answer)
}
