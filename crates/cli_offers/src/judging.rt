//! What stands against an application: each way through it, by `check` and `talk`.

ghost use Rattle.std.specs.Prelude.{◌≡◌, ◌++◌, OnOk, IfOk, map, Result as AResult};
ghost use Rattle.std.specs.List.{flat_map};
ghost use Rattle.std.specs.String.{string_bytes};
ghost use Rattle.cli_commands.specs.Fault.{Gives};
ghost use Rattle.cli_commands.specs.Held.{answer_seen};
ghost use Rattle.cli_commands.specs.Printed.{Printed};
ghost use Rattle.cli_commands.specs.declared.fault.Fault.{Fault as AFault};
ghost use Rattle.cli_offers.specs.Judging.{answer_of, layout_text, lines_by, lines_told, name_at, records_text, talk_of, then_name, turn_line, turns_text, way_layouts, way_line, way_lines, way_names, ways_text};

use crate::sources::Files;
use crate::ways::Way;
use cli_applications::PlannedScreen;
use cli_commands::{Answer, CommandError, Demos, Status, check_texts, talk_texts};
use std::alloc::{AllocError, Global};

/// The line between two turns.
const TURN_LINE: &[u8] = b"\nturn\n";

/// The bytes of the layout of a number.
fn layout_text(files: &[Files], index: usize) -> &[u8]
    ensures { result.now ≡ layout_text files.now index }
{
    match files.get(index) {
        Some(files) => match &files.layout {
            Some(bytes) => bytes.as_slice(),
            None => &[],
        },
        None => &[],
    }
}

/// The bytes of the records of a number.
fn records_text(files: &[Files], index: usize) -> &[u8]
    ensures { result.now ≡ records_text files.now index }
{
    match files.get(index) {
        Some(files) => match &files.records {
            Some(bytes) => bytes.as_slice(),
            None => &[],
        },
        None => &[],
    }
}

/// The layouts of the screens of a way.
fn way_layouts<'a>(
    alloc: Global,
    files: &'a [Files],
    way: &Way,
) -> Result<Vec<&'a [u8]>, AllocError>
    ensures { IfOk result (λ v. map (λ text. text.now) v.items
        ≡ way_layouts files.now way.now) }
{
    let mut layouts = Vec::new(alloc);
    layouts.push(layout_text(files, way.first))?;
    for index in way.others.as_slice() {
        layouts.push(layout_text(files, *index))?;
    }
    Ok(layouts)
}

/// The records of the screens of a way as the text of turns.
fn turns_text(alloc: Global, files: &[Files], way: &Way) -> Result<Vec<u8>, AllocError>
    ensures { IfOk result (λ text. text.items ≡ turns_text files.now way.now) }
{
    let mut text = Vec::new(alloc);
    text.extend_from_slice(records_text(files, way.first))?;
    for index in way.others.as_slice() {
        text.extend_from_slice(TURN_LINE)?;
        text.extend_from_slice(records_text(files, *index))?;
    }
    Ok(text)
}

/// What `talk` says of the screens of a way.
fn talk_way(alloc: Global, files: &[Files], way: &Way) -> Result<Answer, CommandError>
    ensures { Gives answer_seen result (talk_of files.now way.now) }
{
    let layouts = way_layouts(alloc, files, way)?;
    let records = turns_text(alloc, files, way)?;
    talk_texts(alloc, layouts.as_slice(), records.as_slice())
}

/// What is said of a way.
fn answer_of(alloc: Global, files: &[Files], way: &Way) -> Result<Answer, CommandError>
    ensures { Gives answer_seen result (answer_of files.now way.now) }
{
    if way.others.is_empty() {
        let layout = layout_text(files, way.first);
        check_texts(
            alloc,
            layout,
            records_text(files, way.first),
            Demos::Omitted,
        )
    } else {
        talk_way(alloc, files, way)
    }
}

/// The name of the screen of a number.
fn name_at(plans: &[PlannedScreen], index: usize) -> &str
    ensures { result.now ≡ name_at plans.now index }
{
    match plans.get(index) {
        Some(plan) => plan.name.as_str(),
        None => "",
    }
}

/// A further name.
fn push_then(out: &mut String, name: &str) -> Result<(), AllocError>
    ensures { OnOk result (string_bytes out.new ≡ string_bytes out.old ++ then_name name.now) }
{
    out.push_str(" then ")?;
    out.push_str(name)
}

/// The names of the screens of a way.
fn push_names(out: &mut String, plans: &[PlannedScreen], way: &Way) -> Result<(), AllocError>
    ensures { OnOk result (string_bytes out.new
        ≡ string_bytes out.old ++ way_names plans.now way.now) }
{
    out.push_str(name_at(plans, way.first))?;
    for index in way.others.as_slice() {
        push_then(out, name_at(plans, *index))?;
    }
    Ok(())
}

/// The line that names the screens of a way.
fn push_way(out: &mut String, plans: &[PlannedScreen], way: &Way) -> Result<(), AllocError>
    ensures { OnOk result (string_bytes out.new
        ≡ string_bytes out.old ++ way_line plans.now way.now) }
{
    out.push_str("screen ")?;
    push_names(out, plans, way)?;
    out.push_str("\n")
}

/// The lines of a way, against which something stands.
fn push_lines(
    out: &mut String,
    plans: &[PlannedScreen],
    way: &Way,
    text: &str,
) -> Result<(), AllocError>
    ensures { OnOk result (string_bytes out.new
        ≡ string_bytes out.old ++ (way_line plans.now way.now ++ text.now)) }
{
    push_way(out, plans, way)?;
    out.push_str(text)
}

/// The lines of what is said of a way.
fn push_told(
    alloc: Global,
    out: &mut String,
    plans: &[PlannedScreen],
    way: &Way,
    answer: Result<Answer, CommandError>,
) -> Result<(), AllocError>
    ensures { (due : AResult Printed AFault) → Gives answer_seen answer due → OnOk result
        (string_bytes out.new
        ≡ string_bytes out.old ++ lines_told (way_line plans.now way.now) due) }
{
    match answer {
        Ok(answer) => match answer.status {
            Status::Done => Ok(()),
            _ => push_lines(out, plans, way, answer.text.as_str()),
        },
        Err(CommandError::Fault(fault)) => {
            let line = format!(in alloc; "{fault}\n")?;
            push_lines(out, plans, way, line.as_str())
        }
        // Of texts no read fails.
        Err(CommandError::ReadFailed | CommandError::OutOfMemory) => Err(AllocError),
    }
}

/// The lines of a way.
fn push_judged(
    alloc: Global,
    out: &mut String,
    plans: &[PlannedScreen],
    files: &[Files],
    way: &Way,
) -> Result<(), AllocError>
    ensures { OnOk result (string_bytes out.new
        ≡ string_bytes out.old ++ way_lines plans.now files.now way.now) }
{
    let answer = answer_of(alloc, files, way);
    push_told(alloc, out, plans, way, answer)
}

/// The lines of all ways.
pub(crate) fn ways_text(
    alloc: Global,
    plans: &[PlannedScreen],
    files: &[Files],
    ways: &[Way],
) -> Result<String, AllocError>
    ensures { IfOk result (λ text. string_bytes text ≡ ways_text plans.now files.now ways.now) }
{
    let mut out = String::new(alloc);
    for way in ways {
        push_judged(alloc, &mut out, plans, files, way)?;
    }
    Ok(out)
}
