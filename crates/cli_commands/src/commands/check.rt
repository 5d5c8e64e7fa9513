//! The command `check`: what stands against records and a layout.

ghost use Rattle.std.specs.Prelude.{◌≡◌, ◌+◌, if◌then◌else◌, map, IfErr, IfOk, IfSome};
ghost use Rattle.std.specs.List.{flat_map, list_any};
ghost use Rattle.scr_check.specs.Seen.{findings_in, TellsSome};
ghost use Rattle.cli_commands.specs.declared.status.Status.TheVariants.{Findings};
ghost use Rattle.cli_commands.specs.declared.output.demo.Demos.TheVariants.{Omitted, Printed};
ghost use Rattle.cli_commands.specs.Check.{printed_verdict, printed_answer, check_records, check, printed_check};
ghost use Rattle.cli_commands.specs.DemoLines.{finding_lines, has_keys, asked, shown_on};
ghost use Rattle.cli_commands.specs.Causes.{EndsBy, ToldBy};
ghost use Rattle.cli_commands.specs.Fault.{Gives, GivesOrFails};
ghost use Rattle.cli_commands.specs.Held.{answer_seen, records_held};
ghost use Rattle.cli_commands.specs.LayoutText.{layout_in};
ghost use Rattle.cli_commands.specs.Printed.{printed};
ghost use Rattle.cli_commands.specs.Streams.{Prints};

use crate::fault::CommandError;
use crate::input::checking::verdict_of;
use crate::input::layout::read_layout;
use crate::input::records::{read_records, records_in};
use crate::input::sizes::SizeLine;
use crate::input::source::{Source, Text};
use crate::output::answer::{Answer, finish};
use crate::output::demo::{Demos, demo_terminal};
use crate::output::findings::push_findings;
use crate::status::Status;
use crate::streams::{GivesBytes, TakesBytes};
use scr_check::{Finding, Outline, Verdict, check, check_on};
use scr_layout::Layout;
use std::alloc::{AllocError, Global};

/// The records as slices.
///
/// # Errors
///
/// Where a request for memory was refused.
pub fn lent<'a>(alloc: Global, records: &'a [Vec<u8>]) -> Result<Vec<&'a [u8]>, AllocError>
    ensures { IfOk result (λ v. map (λ bytes. bytes.now) v.items ≡ records_held records.now) }
{
    let mut slices = Vec::new(alloc);
    for bytes in records {
        slices.push(bytes.as_slice())?;
    }
    Ok(slices)
}

/// Whether keys show one of the findings.
fn have_keys(findings: &[Finding]) -> bool
    ensures { result ≡ list_any has_keys findings.now }
{
    findings.iter().any(|finding| finding.demo().is_some())
}

/// Demos, where a finding has keys; without one there is nothing to press on a screen.
fn demos_for(demos: Demos, findings: &[Finding]) -> Demos
    ensures { result ≡ (if list_any has_keys findings.now then demos else Omitted) }
{
    if have_keys(findings) {
        demos
    } else {
        Demos::Omitted
    }
}

/// The findings.
fn found(
    alloc: Global,
    layout: &Layout,
    records: &[Vec<u8>],
    demos: Demos,
    findings: &[Finding],
) -> Result<Answer, AllocError>
    ensures { IfOk result (λ answer. answer_seen answer
        ≡ printed (flat_map (finding_lines layout.now.entries (asked demos (shown_on layout.now (records_held records.now)))) findings.now) Findings) }
{
    let mut text = String::new(alloc);
    let terminal = demo_terminal(alloc, layout, records, demos)?;
    push_findings(alloc, &mut text, layout, terminal.as_ref(), findings)?;
    Ok(Answer {
        text,
        status: Status::Findings,
    })
}

/// `yes`, or the findings.
pub(crate) fn verdict_text(
    alloc: Global,
    layout: &Layout,
    records: &[Vec<u8>],
    demos: Demos,
    verdict: &Verdict,
) -> Result<Answer, AllocError>
    requires { TellsSome verdict.now }
    ensures { IfOk result (λ answer. answer_seen answer
        ≡ printed_verdict (finding_lines layout.now.entries (asked demos (shown_on layout.now (records_held records.now)))) (findings_in verdict.now)) }
{
    match verdict {
        Verdict::Yes => Ok(Answer {
            text: String::from_str(alloc, "yes\n")?,
            status: Status::Done,
        }),
        Verdict::No(findings) => {
            let findings = findings.as_slice();
            found(alloc, layout, records, demos_for(demos, findings), findings)
        }
    }
}

/// What `check` answers to a layout and records: `yes` and the status `Done`, or the findings, where demos are printed with
/// what their keys send, and the status `Findings`.
///
/// # Errors
///
/// Where a request for memory was refused.
pub fn check_answer(
    alloc: Global,
    layout: &Layout,
    records: &[Vec<u8>],
    demos: Demos,
) -> Result<Answer, AllocError>
    ensures { IfOk result (λ answer. answer_seen answer
        ≡ printed_answer demos layout.now (records_held records.now)) }
{
    let slices = lent(alloc, records)?;
    let verdict = check(alloc, slices.as_slice(), layout)?;
    verdict_text(alloc, layout, records, demos, &verdict)
}

/// The same without demos, on an outline that is kept for the next.
fn check_answer_on(
    alloc: Global,
    kept: &mut Option<Outline>,
    layout: &Layout,
    records: &[Vec<u8>],
) -> Result<Answer, AllocError>
    ensures { IfOk result (λ answer. answer_seen answer
        ≡ printed_answer Omitted layout.now (records_held records.now)) }
{
    let slices = lent(alloc, records)?;
    let verdict = check_on(alloc, kept, slices.as_slice(), layout)?;
    verdict_text(alloc, layout, records, Demos::Omitted, &verdict)
}

/// The same to a text of records.
pub(crate) fn check_on_last(
    alloc: Global,
    kept: &mut Option<Outline>,
    layout: &Layout,
    records: &[u8],
) -> Result<Answer, CommandError>
    ensures { Gives answer_seen result (check_records Omitted layout.now records.now) }
{
    let told = records_in(alloc, records, SizeLine::Refused)?;
    Ok(check_answer_on(alloc, kept, layout, told.records.as_slice())?)
}

/// What `check` answers without demos to a layout and the records of a source, each of which is checked as its line comes.
fn check_lines<S: Source>(
    alloc: Global,
    layout: &Layout,
    source: &mut S,
) -> Result<Answer, CommandError>
    ensures answer { IfSome (S.remaining source.old)
        (λ input. GivesOrFails answer_seen result (check_records Omitted layout.now input)) }
    ensures cause { ToldBy (S.failures source.old) (S.failures source.new) result }
{
    let verdict = verdict_of(alloc, layout, source)?;
    Ok(verdict_text(alloc, layout, &[], Demos::Omitted, &verdict)?)
}

/// The same with demos, from a screen that the records are shown on once they are held.
fn check_held<S: Source>(
    alloc: Global,
    layout: &Layout,
    source: &mut S,
) -> Result<Answer, CommandError>
    ensures answer { IfSome (S.remaining source.old)
        (λ input. GivesOrFails answer_seen result (check_records Printed layout.now input)) }
    ensures cause { ToldBy (S.failures source.old) (S.failures source.new) result }
{
    let told = read_records(alloc, source, SizeLine::Refused)?;
    Ok(check_answer(alloc, layout, told.records.as_slice(), Demos::Printed)?)
}

/// What `check` answers to a layout and the records of a source.
fn check_records<S: Source>(
    alloc: Global,
    layout: &Layout,
    source: &mut S,
    demos: Demos,
) -> Result<Answer, CommandError>
    ensures answer { IfSome (S.remaining source.old)
        (λ input. GivesOrFails answer_seen result (check_records demos layout.now input)) }
    ensures cause { ToldBy (S.failures source.old) (S.failures source.new) result }
{
    match demos {
        Demos::Omitted => check_lines(alloc, layout, source),
        Demos::Printed => check_held(alloc, layout, source),
    }
}

/// What `check` answers to the sources of a layout and of records.
fn check_read<L: Source, R: Source>(
    alloc: Global,
    layout: &mut L,
    records: &mut R,
    demos: Demos,
) -> Result<Answer, CommandError>
    ensures answer { IfSome (L.remaining layout.old) (λ text. IfSome (R.remaining
        records.old) (λ input. GivesOrFails answer_seen result (check demos text input))) }
    ensures cause { ToldBy (L.failures layout.old + R.failures records.old)
        (L.failures layout.new + R.failures records.new) result }
    ensures unread { IfSome (L.remaining layout.old) (λ text. IfErr (layout_in text) (λ fault.
        records.new ≡ records.old)) }
{
    let layout = read_layout(alloc, layout)?;
    check_records(alloc, &layout, records, demos)
}

/// What `check` answers to the texts of a layout and of records.
///
/// # Errors
///
/// The first fault of the layout, then of the lines; out of memory.
pub fn check_texts(
    alloc: Global,
    layout: &[u8],
    records: &[u8],
    demos: Demos,
) -> Result<Answer, CommandError>
    ensures { Gives answer_seen result (check demos layout.now records.now) }
{
    check_read(alloc, &mut Text(layout), &mut Text(records), demos)
}

/// Reads a layout and then records in hexadecimal, one a line, and prints `yes` or what stands against
/// them, where demos are printed with what the keys of a finding send; or the first fault: of the
/// layout, then of the lines. Records aren't read where the layout has a fault. The sizes are the
/// layout's, so a line of sizes is bad. At most 16,777,216 bytes of either, 1,000 records of 32,768
/// bytes. After a read or a write that failed the status is `Failed`, where memory was refused
/// `NoMemory`, and a front of the text was written.
pub fn run_check<L: GivesBytes, R: GivesBytes, W: TakesBytes>(
    alloc: Global,
    layout: &mut L,
    reader: &mut R,
    writer: &mut W,
    demos: Demos,
) -> Status
    ensures prints { IfSome (L.remaining layout.old) (λ text. IfSome (R.remaining
        reader.old) (λ input.
        Prints (W.contents writer.old) (W.contents writer.new) result (printed_check demos text input))) }
    ensures cause { IfSome (L.remaining layout.old) (λ text. IfSome (R.remaining
        reader.old) (λ input.
        EndsBy (L.failures layout.old + R.failures reader.old + W.failures writer.old)
        (L.failures layout.new + R.failures reader.new + W.failures writer.new)
        (printed_check demos text input).status result)) }
    ensures unread { IfSome (L.remaining layout.old) (λ text. IfErr (layout_in text) (λ fault.
        reader.new ≡ reader.old)) }
{
    let answer = check_read(alloc, layout, reader, demos);
    finish(alloc, writer, answer)
}
