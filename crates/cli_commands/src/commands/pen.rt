//! The command `check` that tells of Cursor Select and light pens too.

ghost use Rattle.std.specs.Prelude.{◌≡◌, ◌+◌, IfErr, IfOk, IfSome};
ghost use Rattle.cli_commands.specs.Causes.{EndsBy, ToldBy};
ghost use Rattle.cli_commands.specs.Fault.{GivesOrFails};
ghost use Rattle.cli_commands.specs.Held.{answer_seen, records_held};
ghost use Rattle.cli_commands.specs.LayoutText.{layout_in};
ghost use Rattle.cli_commands.specs.PenCheck.{printed_pen_answer, check_pen_records, check_pen, printed_check_pen};
ghost use Rattle.cli_commands.specs.Streams.{Prints};

use crate::commands::check::{lent, verdict_text};
use crate::fault::CommandError;
use crate::input::layout::read_layout;
use crate::input::records::read_records;
use crate::input::sizes::SizeLine;
use crate::input::source::Source;
use crate::output::answer::{Answer, finish};
use crate::output::demo::Demos;
use crate::status::Status;
use crate::streams::{GivesBytes, TakesBytes};
use scr_check::check_with_pen;
use scr_layout::Layout;
use std::alloc::{AllocError, Global};

/// What `check` answers to a layout and records, with the fields that Cursor Select or a light pen may not select after all else.
///
/// # Errors
///
/// Where a request for memory was refused.
fn check_pen_answer(
    alloc: Global,
    layout: &Layout,
    records: &[Vec<u8>],
    demos: Demos,
) -> Result<Answer, AllocError>
    ensures { IfOk result (λ answer. answer_seen answer
        ≡ printed_pen_answer demos layout.now (records_held records.now)) }
{
    let slices = lent(alloc, records)?;
    let verdict = check_with_pen(alloc, slices.as_slice(), layout)?;
    verdict_text(alloc, layout, records, demos, &verdict)
}

/// The same of a layout and the records of a source.
fn check_pen_records<S: Source>(
    alloc: Global,
    layout: &Layout,
    source: &mut S,
    demos: Demos,
) -> Result<Answer, CommandError>
    ensures answer { IfSome (S.remaining source.old)
        (λ input. GivesOrFails answer_seen result (check_pen_records demos layout.now input)) }
    ensures cause { ToldBy (S.failures source.old) (S.failures source.new) result }
{
    let told = read_records(alloc, source, SizeLine::Refused)?;
    Ok(check_pen_answer(alloc, layout, told.records.as_slice(), demos)?)
}

fn check_pen_read<L: Source, R: Source>(
    alloc: Global,
    layout: &mut L,
    records: &mut R,
    demos: Demos,
) -> Result<Answer, CommandError>
    ensures answer { IfSome (L.remaining layout.old) (λ text. IfSome (R.remaining
        records.old) (λ input. GivesOrFails answer_seen result (check_pen demos text input))) }
    ensures cause { ToldBy (L.failures layout.old + R.failures records.old)
        (L.failures layout.new + R.failures records.new) result }
    ensures unread { IfSome (L.remaining layout.old) (λ text. IfErr (layout_in text) (λ fault.
        records.new ≡ records.old)) }
{
    let layout = read_layout(alloc, layout)?;
    check_pen_records(alloc, &layout, records, demos)
}

/// Reads a layout and then records as `run_check` does, and prints `yes` or what stands against them, and after it the fields
/// that Cursor Select or a light pen may not select.
pub fn run_check_pen<L: GivesBytes, R: GivesBytes, W: TakesBytes>(
    alloc: Global,
    layout: &mut L,
    reader: &mut R,
    writer: &mut W,
    demos: Demos,
) -> Status
    ensures prints { IfSome (L.remaining layout.old) (λ text. IfSome (R.remaining
        reader.old) (λ input.
        Prints (W.contents writer.old) (W.contents writer.new) result (printed_check_pen demos text input))) }
    ensures cause { IfSome (L.remaining layout.old) (λ text. IfSome (R.remaining
        reader.old) (λ input.
        EndsBy (L.failures layout.old + R.failures reader.old + W.failures writer.old)
        (L.failures layout.new + R.failures reader.new + W.failures writer.new)
        (printed_check_pen demos text input).status result)) }
    ensures unread { IfSome (L.remaining layout.old) (λ text. IfErr (layout_in text) (λ fault.
        reader.new ≡ reader.old)) }
{
    let answer = check_pen_read(alloc, layout, reader, demos);
    finish(alloc, writer, answer)
}
