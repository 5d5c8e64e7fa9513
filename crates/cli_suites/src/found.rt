//! What is found of one job as results of a log of SARIF, each at its place in the job's files.

ghost use Rattle.std.specs.Prelude.{◌≡◌, ◌++◌, [], ◌∷◌, IfOk, map, option_map, slice_get, string_bytes};
ghost use Rattle.std.specs.List.{filter};
ghost use Rattle.cli_commands.specs.Fault.{Gives};
ghost use Rattle.cli_commands.specs.Held.{answer_seen};
ghost use Rattle.cli_commands.specs.declared.fault.Fault.TheVariants.{LayoutRefused};
ghost use Rattle.scr_layout.specs.declared.fault.LayoutFault.{LayoutFault as ALayoutFault};
ghost use Rattle.cli_findings.specs.Results.{found_results, refused_result, results_seen};
ghost use Rattle.cli_suites.specs.Answers.{inputs_seen};
ghost use Rattle.cli_suites.specs.Found.{alone_results, alone_words, answered_results, fault_place, fault_results, first_results, input_results, is_accepted_of, layout_line, missing_results, path_at_fault, placed, results_in, screen_records, screen_results, screen_told, source_results, stale_by, stale_result, stale_results, unaccepted, unless_yes};

use crate::answers::{Inputs, first_layout, path_of_fault};
use crate::job::{Accepted, Job, Kind};
use crate::manifest::is_accepted;
use crate::rule::{rule_id, rule_index};
use crate::settled::{stale_lines, text_lines};
use bms_map::Control;
use cli_commands::{
    Answer, CommandError, Fault, SizeLine, Status, layout_in, lent, records_in, within_limit,
};
use cli_findings::{
    Pen, Region, Results, find, found_results, layout_line as line_of_layout, line_of_fault,
    one_result, refused_results,
};
use cli_maps::{Asked, map_results};
use cli_reports::talk_results;
use scr_check::Traced;
use scr_layout::Layout;
use std::alloc::{AllocError, Global};

/// A path from where the program was started, of one from a folder.
fn placed(alloc: Global, base: &str, path: &str) -> Result<String, AllocError>
    ensures { IfOk result (λ text. string_bytes text ≡ placed base.now path.now) }
{
    if path.as_bytes().starts_with(b"/".as_slice()) {
        String::from_str(alloc, path)
    } else {
        format!(in alloc; "{base}{path}")
    }
}

/// Whether the line of a finding is that of one that is accepted of the screen.
fn is_accepted_of(
    alloc: Global,
    name: &str,
    accepted: &[Accepted],
    layout: &Layout,
    traced: &Traced,
) -> Result<bool, AllocError>
    ensures { IfOk result (λ is. is ≡ is_accepted_of name.now accepted.now layout.now traced.now) }
{
    let mut line = String::new(alloc);
    traced.finding.push_text(&mut line, layout.entries())?;
    Ok(is_accepted(name, line.as_str(), accepted))
}

/// The findings that aren't accepted of the screen.
fn unaccepted(
    alloc: Global,
    name: &str,
    accepted: &[Accepted],
    layout: &Layout,
    found: &[Traced],
) -> Result<Vec<Traced>, AllocError>
    ensures { IfOk result (λ left. left.items
        ≡ unaccepted name.now accepted.now layout.now found.now) }
{
    let mut left = Vec::new(alloc);
    for traced in found {
        if !is_accepted_of(alloc, name, accepted, layout, traced)? {
            left.push(*traced)?;
        }
    }
    Ok(left)
}

/// The results of records in their text against a layout.
fn screen_told(
    alloc: Global,
    name: &str,
    accepted: &[Accepted],
    path: &str,
    layout: &Layout,
    text: &[u8],
) -> Result<Results, CommandError>
    ensures { Gives results_seen result
        (screen_told name.now accepted.now path.now layout.now text.now) }
{
    let told = records_in(alloc, text, SizeLine::Refused)?;
    let found = find(alloc, Pen::Ignored, layout, told.records.as_slice())?;
    let left = unaccepted(alloc, name, accepted, layout, found.as_slice())?;
    Ok(found_results(alloc, "", path, layout, text, left.as_slice())?)
}

fn screen_records(
    alloc: Global,
    name: &str,
    accepted: &[Accepted],
    path: &str,
    input: &[u8],
    layout: &Layout,
) -> Result<Results, CommandError>
    ensures { Gives results_seen result
        (screen_records name.now accepted.now path.now input.now layout.now) }
{
    let text = within_limit(input)?;
    screen_told(alloc, name, accepted, path, layout, text)
}

/// The results of records against the text of a layout.
fn screen_results(
    alloc: Global,
    name: &str,
    accepted: &[Accepted],
    path: &str,
    text: &[u8],
    input: &[u8],
) -> Result<Results, CommandError>
    ensures { Gives results_seen result
        (screen_results name.now accepted.now path.now text.now input.now) }
{
    let layout = layout_in(alloc, text)?;
    screen_records(alloc, name, accepted, path, input, &layout)
}

/// The results of records against the first of layouts.
fn first_results(
    alloc: Global,
    name: &str,
    accepted: &[Accepted],
    path: &str,
    layouts: &[&[u8]],
    input: &[u8],
) -> Result<Results, CommandError>
    ensures { Gives results_seen result (first_results name.now accepted.now path.now
        (map (λ text. text.now) layouts.now) input.now) }
{
    match layouts {
        [] => talk_results(alloc, path, layouts, input),
        [layout, ..] => screen_results(alloc, name, accepted, path, layout, input),
    }
}

/// The results of a source of maps.
fn source_results(alloc: Global, path: &str, source: &[u8]) -> Result<Results, CommandError>
    ensures { Gives results_seen result (source_results path.now source.now) }
{
    let control = Control {
        free_keyboard: false,
        reset_modified: false,
    };
    let asked = Asked {
        name: None,
        control,
    };
    map_results(alloc, path, source, asked)
}

/// The results of a job of this name and these accepted findings, of the texts of layouts and of the records at a path.
fn results_in(
    alloc: Global,
    kind: Kind,
    name: &str,
    accepted: &[Accepted],
    path: &str,
    layouts: &[&[u8]],
    records: &[u8],
) -> Result<Results, CommandError>
    ensures { Gives results_seen result (results_in kind name.now accepted.now path.now
        (map (λ text. text.now) layouts.now) records.now) }
{
    match kind {
        Kind::Screen => first_results(alloc, name, accepted, path, layouts, records),
        Kind::Dialogue => talk_results(alloc, path, layouts, records),
        Kind::Map | Kind::Alone => source_results(alloc, path, records),
    }
}

/// The line at which a layout is refused.
fn layout_line(text: Option<&[u8]>, fault: Fault) -> usize
    ensures { (inner : ALayoutFault) → fault ≡ LayoutRefused inner
        → result ≡ layout_line (option_map (λ text. text.now) text.entry) inner }
{
    match text {
        Some(text) => line_of_layout(text, fault),
        None => 1,
    }
}

fn text_at<'a>(layouts: &[&'a [u8]], index: usize) -> Option<&'a [u8]>
    ensures { option_map (λ text. text.now) result
        ≡ slice_get (map (λ text. text.now) layouts.now) index }
{
    match layouts.get(index) {
        Some(text) => Some(*text),
        None => None,
    }
}

/// The line of the file that is at fault.
fn fault_place(layouts: &[&[u8]], fault: Fault) -> usize
    ensures { result ≡ fault_place (map (λ text. text.now) layouts.now) fault }
{
    match fault {
        Fault::LayoutRefused(_) => layout_line(text_at(layouts, 0), fault),
        Fault::TurnLayoutRefused(turn, refused) => {
            layout_line(text_at(layouts, turn), Fault::LayoutRefused(refused))
        }
        _ => line_of_fault(fault),
    }
}

/// The path of the file that is at fault; of an input that is too long that of the records.
fn path_at_fault(job: &Job, fault: Fault) -> &str
    ensures { result.now ≡ path_at_fault job.now fault }
{
    match path_of_fault(job, fault) {
        Some(path) => path,
        None => job.records.as_str(),
    }
}

/// The one result of an input that is refused.
fn fault_results(
    alloc: Global,
    base: &str,
    job: &Job,
    layouts: &[&[u8]],
    fault: Fault,
) -> Result<Results, AllocError>
    ensures { IfOk result (λ results. results_seen results
        ≡ fault_results base.now job.now (map (λ text. text.now) layouts.now) fault) }
{
    let path = placed(alloc, base, path_at_fault(job, fault))?;
    let words = format!(in alloc; "{fault}")?;
    let line = fault_place(layouts, fault);
    refused_results(alloc, path.as_str(), line, words.as_str())
}

/// The results of the files of a job, or of the one that is refused.
fn input_results(
    alloc: Global,
    base: &str,
    accepted: &[Accepted],
    job: &Job,
    inputs: &Inputs<'_>,
) -> Result<Results, AllocError>
    ensures { IfOk result (λ results. results_seen results
        ≡ input_results base.now accepted.now job.now (inputs_seen inputs.now)) }
{
    let layouts = lent(alloc, inputs.layouts.as_slice())?;
    let layouts = layouts.as_slice();
    let path = placed(alloc, base, job.records.as_str())?;
    let found = results_in(
        alloc,
        job.kind,
        job.name.as_str(),
        accepted,
        path.as_str(),
        layouts,
        inputs.records.as_slice(),
    );
    match found {
        Ok(results) => Ok(results),
        Err(CommandError::Fault(fault)) => fault_results(alloc, base, job, layouts, fault),
        // Of texts no read fails.
        Err(CommandError::ReadFailed | CommandError::OutOfMemory) => Err(AllocError),
    }
}

/// What is accepted of a screen and doesn't come, by what its command answers.
fn stale_by(
    alloc: Global,
    name: &str,
    accepted: &[Accepted],
    answer: &Answer,
) -> Result<Vec<String>, AllocError>
    ensures { IfOk result (λ lines. map string_bytes lines.items ≡ stale_by name.now accepted.now
        (answer_seen answer.now).status (answer_seen answer.now).text) }
{
    match answer.status {
        Status::Done => stale_lines(alloc, name, accepted, &[]),
        Status::Findings => {
            let lines = text_lines(alloc, answer.text.as_str())?;
            stale_lines(alloc, name, accepted, lines.as_slice())
        }
        Status::BadInput | Status::Failed | Status::NoMemory => Ok(Vec::new(alloc)),
    }
}

/// The result of an accepted finding that doesn't come, in the file of the records.
fn stale_result(alloc: Global, path: &str, line: &str) -> Result<Results, AllocError>
    ensures { IfOk result (λ results. results_seen results ≡ stale_result path.now line.now ∷ []) }
{
    let region = Region {
        line: 1,
        columns: None,
    };
    one_result(alloc, rule_id(), rule_index(), path, region, line)
}

/// Those of lines.
fn each_stale(alloc: Global, path: &str, lines: &[String]) -> Result<Results, AllocError>
    ensures { IfOk result (λ results. results_seen results
        ≡ map (stale_result path.now) (map string_bytes lines.now)) }
{
    let mut results = Results::new(alloc);
    for line in lines {
        results.append(stale_result(alloc, path, line.as_str())?)?;
    }
    Ok(results)
}

fn stale_results(
    alloc: Global,
    base: &str,
    accepted: &[Accepted],
    job: &Job,
    answer: &Answer,
) -> Result<Results, AllocError>
    ensures { IfOk result (λ results. results_seen results
        ≡ stale_results base.now accepted.now job.now (answer_seen answer.now)) }
{
    let lines = stale_by(alloc, job.name.as_str(), accepted, answer)?;
    let path = placed(alloc, base, job.records.as_str())?;
    each_stale(alloc, path.as_str(), lines.as_slice())
}

/// The results of the files of a job whose command doesn't answer yes.
fn results_unless_yes(
    alloc: Global,
    base: &str,
    accepted: &[Accepted],
    job: &Job,
    inputs: &Inputs<'_>,
    status: Status,
) -> Result<Results, AllocError>
    ensures { IfOk result (λ results. results_seen results ≡ unless_yes status
        (input_results base.now accepted.now job.now (inputs_seen inputs.now))) }
{
    match status {
        Status::Done => Ok(Results::new(alloc)),
        Status::Findings | Status::BadInput | Status::Failed | Status::NoMemory => {
            input_results(alloc, base, accepted, job, inputs)
        }
    }
}

/// The results of the files of a job, to which its command answers so: the findings that aren't accepted, or what is refused, and
/// then what is accepted and doesn't come.
pub(crate) fn answered_results(
    alloc: Global,
    base: &str,
    accepted: &[Accepted],
    job: &Job,
    inputs: &Inputs<'_>,
    answer: &Answer,
) -> Result<Results, AllocError>
    ensures { IfOk result (λ results. results_seen results ≡ answered_results base.now
        accepted.now job.now (inputs_seen inputs.now) (answer_seen answer.now)) }
{
    let mut results = results_unless_yes(alloc, base, accepted, job, inputs, answer.status)?;
    results.append(stale_results(alloc, base, accepted, job, answer)?)?;
    Ok(results)
}

/// The one result of a file that can't be read.
pub(crate) fn missing_results(alloc: Global, base: &str, path: &str) -> Result<Results, AllocError>
    ensures { IfOk result (λ results. results_seen results ≡ missing_results base.now path.now) }
{
    let path = placed(alloc, base, path)?;
    refused_results(alloc, path.as_str(), 1, "cannot be read")
}

fn alone_words(alloc: Global, job: &Job) -> Result<String, AllocError>
    ensures { IfOk result (λ words. string_bytes words ≡ alone_words job.now) }
{
    let other = first_layout(job);
    format!(in alloc; "no {other} beside it")
}

/// The one result of a file beside which another one is missing.
pub(crate) fn alone_results(alloc: Global, base: &str, job: &Job) -> Result<Results, AllocError>
    ensures { IfOk result (λ results. results_seen results ≡ alone_results base.now job.now) }
{
    let path = placed(alloc, base, job.records.as_str())?;
    let words = alone_words(alloc, job)?;
    refused_results(alloc, path.as_str(), 1, words.as_str())
}
