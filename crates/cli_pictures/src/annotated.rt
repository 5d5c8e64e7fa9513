//! The command `show` with a layout.

ghost use Rattle.std.specs.Prelude.{◌≡◌, ◌+◌, IfErr, IfOk, IfSome, string_bytes};
ghost use Rattle.scr_check.specs.Findings.{answer_of};
ghost use Rattle.cli_commands.specs.Causes.{EndsBy, ToldBy};
ghost use Rattle.cli_commands.specs.Fault.{Finds, Gives, GivesOrFails};
ghost use Rattle.cli_commands.specs.Held.{answer_seen, records_held};
ghost use Rattle.cli_commands.specs.LayoutText.{layout_in};
ghost use Rattle.cli_commands.specs.Printed.{printed};
ghost use Rattle.cli_commands.specs.Streams.{Prints};
ghost use Rattle.cli_commands.specs.declared.status.Status.TheVariants.{Done};
ghost use Rattle.cli_pictures.specs.Annotated.{annotated_drawn, annotated_from, annotated_told, annotated_records, annotated, printed_annotated};

use crate::html::push_annotated_page;
use crate::list::push_annotated_svg;
use cli_commands::{
    Answer, CommandError, GivesBytes, SizeLine, Source, Status, TakesBytes, Text, findings_of,
    finish, read_layout, read_records, show_all,
};
use ds_screen::{PlaneCells, Screen};
use ds_terminal::Terminal;
use scr_check::Finding;
use scr_layout::{Entry, Layout};
use std::alloc::{AllocError, Global};

/// In which form a screen is drawn with its layout.
#[derive(Clone, Copy, Debug, PartialEq, Eq)]
pub enum Annotated {
    /// A drawing, SVG 1.1.
    Svg,
    /// A page with that drawing.
    Html,
}

/// The text of a screen in a form.
fn drawn(
    alloc: Global,
    form: Annotated,
    screen: &Screen<PlaneCells>,
    entries: &[Entry],
    findings: &[Finding],
) -> Result<String, AllocError>
    ensures { IfOk result (λ text. string_bytes text
        ≡ annotated_drawn form entries.now findings.now screen.now) }
{
    let mut out = String::new(alloc);
    match form {
        Annotated::Svg => push_annotated_svg(alloc, &mut out, screen, entries, findings)?,
        Annotated::Html => push_annotated_page(alloc, &mut out, screen, entries, findings)?,
    }
    Ok(out)
}

/// The screen that records left, in a form, with a layout and what is found of both.
fn annotated_screen(
    alloc: Global,
    form: Annotated,
    layout: &Layout,
    records: &[Vec<u8>],
    screen: &Screen<PlaneCells>,
) -> Result<Answer, AllocError>
    ensures { IfOk result (λ answer. answer_seen answer ≡ printed (annotated_drawn form
        layout.now.entries (answer_of layout.now (records_held records.now)) screen.now) Done) }
{
    let findings = findings_of(alloc, layout, records)?;
    let findings = findings.as_slice();
    Ok(Answer {
        text: drawn(alloc, form, screen, layout.entries(), findings)?,
        status: Status::Done,
    })
}

/// What is printed of a layout and records that are shown on a terminal.
fn annotated_from(
    alloc: Global,
    form: Annotated,
    layout: &Layout,
    terminal: &mut Terminal<PlaneCells>,
    records: &[Vec<u8>],
) -> Result<Answer, CommandError>
    ensures { Finds answer_seen result
        (annotated_from form layout.now terminal.old (records_held records.now)) }
{
    show_all(terminal, records)?;
    let screen = terminal.screen();
    Ok(annotated_screen(alloc, form, layout, records, screen)?)
}

/// What is printed of a layout and records that were told.
fn annotated_told(
    alloc: Global,
    form: Annotated,
    layout: &Layout,
    records: &[Vec<u8>],
) -> Result<Answer, CommandError>
    ensures { Gives answer_seen result
        (annotated_told form layout.now (records_held records.now)) }
{
    let mut terminal = Terminal::new(alloc, layout.geometry())?;
    annotated_from(alloc, form, layout, &mut terminal, records)
}

/// The same of a layout and the records of a source.
fn annotated_records<S: Source>(
    alloc: Global,
    form: Annotated,
    layout: &Layout,
    source: &mut S,
) -> Result<Answer, CommandError>
    ensures answer { IfSome (S.remaining source.old) (λ input. GivesOrFails answer_seen result
        (annotated_records form layout.now input)) }
    ensures cause { ToldBy (S.failures source.old) (S.failures source.new) result }
{
    let told = read_records(alloc, source, SizeLine::Refused)?;
    annotated_told(alloc, form, layout, told.records.as_slice())
}

/// The same of the sources of a layout and of records.
fn annotated_read<L: Source, R: Source>(
    alloc: Global,
    form: Annotated,
    layout: &mut L,
    records: &mut R,
) -> Result<Answer, CommandError>
    ensures answer { IfSome (L.remaining layout.old) (λ text. IfSome (R.remaining
        records.old) (λ input. GivesOrFails answer_seen result (annotated form text input))) }
    ensures cause { ToldBy (L.failures layout.old + R.failures records.old)
        (L.failures layout.new + R.failures records.new) result }
    ensures unread { IfSome (L.remaining layout.old) (λ text. IfErr (layout_in text) (λ fault.
        records.new ≡ records.old)) }
{
    let layout = read_layout(alloc, layout)?;
    annotated_records(alloc, form, &layout, records)
}

/// What is printed, in a form, of the screen that a text of records leaves on the terminal of a layout, with the names of the
/// layout's entries and with what `check` finds; or the first fault.
///
/// # Errors
///
/// The first fault of the layout, then of the lines, then the first record that is refused; out of memory.
pub fn annotated_text(
    alloc: Global,
    form: Annotated,
    layout: &[u8],
    records: &[u8],
) -> Result<Answer, CommandError>
    ensures { Gives answer_seen result (annotated form layout.now records.now) }
{
    annotated_read(alloc, form, &mut Text(layout), &mut Text(records))
}

/// Reads a layout and then records in hexadecimal, one a line, applies these to a new screen, and prints it in a form, with
/// the name of each entry at its first cell, and a frame with its words at the place of each finding of `check`, round the
/// screen where it has none; or the first fault: of the layout, then of the lines, or the first record that is refused.
/// Records aren't read where the layout has a fault. The sizes are the layout's, so a line of sizes is bad. At most
/// 16,777,216 bytes of either, 1,000 records of 32,768 bytes. After a read or a write that failed the status is `Failed`,
/// where memory was refused `NoMemory`, and a front of the text was written.
pub fn run_annotated<L: GivesBytes, R: GivesBytes, W: TakesBytes>(
    alloc: Global,
    form: Annotated,
    layout: &mut L,
    reader: &mut R,
    writer: &mut W,
) -> Status
    ensures prints { IfSome (L.remaining layout.old) (λ text. IfSome (R.remaining
        reader.old) (λ input.
        Prints (W.contents writer.old) (W.contents writer.new) result
        (printed_annotated form text input))) }
    ensures cause { IfSome (L.remaining layout.old) (λ text. IfSome (R.remaining
        reader.old) (λ input.
        EndsBy (L.failures layout.old + R.failures reader.old + W.failures writer.old)
        (L.failures layout.new + R.failures reader.new + W.failures writer.new)
        (printed_annotated form text input).status result)) }
    ensures unread { IfSome (L.remaining layout.old) (λ text. IfErr (layout_in text) (λ fault.
        reader.new ≡ reader.old)) }
{
    let answer = annotated_read(alloc, form, layout, reader);
    finish(alloc, writer, answer)
}
