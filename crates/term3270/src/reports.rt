//! `check` and `talk` with their findings explained, and `talk` for tools.

use crate::commands::{files_at, output, sized_file, sized_input};
use crate::reasons::{HeardFile, HeardInput, heard_file, heard_input, told_check, told_last};
use crate::stream::Named;
use clap::ArgMatches;
use cli_commands::{
    Answer, CommandError, Fault, GivesBytes, Status, Watched, finish, judge_talk, layout_in, lent,
    read_text,
};
use cli_findings::Pen;
use cli_reasons::{Heard, Lines};
use cli_reports::{TalkForm, run_explained, talk_log_texts, talk_report_texts};
use std::alloc::Global;
use std::io::Read;

/// `check` with its findings explained, of the records of a file or of standard input.
pub(crate) fn explain(rt: &HostRuntime, layout: &str, records: Option<&str>, pen: Pen) -> Status {
    match records {
        Some(path) => explain_over(rt, layout, &mut sized_file(rt, path), pen),
        None => explain_over(rt, layout, &mut sized_input(rt), pen),
    }
}

fn explain_over<R: Read>(
    rt: &HostRuntime,
    layout: &str,
    records: &mut Heard<Watched<Named<'_, R>>>,
    pen: Pen,
) -> Status {
    let mut layout = heard_file(rt, Lines::Layout, layout);
    let status = run_explained(rt.alloc(), pen, &mut layout, records, &mut output(rt));
    told_check(rt, status, &mut layout, records)
}

/// `talk` in a form, on the files that its words name.
pub(crate) fn report_talk(rt: &HostRuntime, matches: &ArgMatches<'_>, form: TalkForm) -> Status {
    talk_named(rt, matches, Some(form))
}

/// `talk` as a log, on the files that its words name.
pub(crate) fn log_talk(rt: &HostRuntime, matches: &ArgMatches<'_>) -> Status {
    talk_named(rt, matches, None)
}

/// Reports of the layouts' files that the words of `talk` name.
fn talk_named(rt: &HostRuntime, matches: &ArgMatches<'_>, form: Option<TalkForm>) -> Status {
    match matches.subcommand() {
        Some((_, words)) => match words.get_strs("LAYOUT") {
            Some(paths) => talk_over(rt, paths, form),
            None => Status::BadInput,
        },
        None => Status::BadInput,
    }
}

/// Reports of the layouts of these files, and of standard input, in a form or as a log.
fn talk_over(rt: &HostRuntime, paths: &[&str], form: Option<TalkForm>) -> Status {
    match files_at(rt, paths) {
        Ok(mut layouts) => {
            let mut records = heard_input(rt, Lines::Turns);
            let answer = talk_read(
                rt.alloc(),
                paths,
                form,
                layouts.as_mut_slice(),
                &mut records,
            );
            let status = finish(rt.alloc(), &mut output(rt), answer);
            told_last(rt, status, layouts.as_mut_slice(), &mut records)
        }
        Err(_) => Status::NoMemory,
    }
}

/// What is reported of these layouts and records, once all are read.
fn talk_read(
    alloc: Global,
    paths: &[&str],
    form: Option<TalkForm>,
    files: &mut [HeardFile<'_>],
    records: &mut HeardInput<'_>,
) -> Result<Answer, CommandError> {
    let texts = texts_of(alloc, files)?;
    let layouts = lent(alloc, texts.as_slice())?;
    let layouts = layouts.as_slice();
    let records = records_after(alloc, layouts, records)?;
    match form {
        Some(form) => talk_report_texts(alloc, form, layouts, records.as_slice()),
        None => talk_log_texts(alloc, paths, "stdin", layouts, records.as_slice()),
    }
}

/// The layouts that readers give, one after the other, up to the first that is refused.
fn texts_of<R: GivesBytes>(alloc: Global, readers: &mut [R]) -> Result<Vec<Vec<u8>>, CommandError> {
    let mut texts = Vec::new(alloc);
    for index in 0..readers.len() {
        let text = read_text(alloc, &mut readers[index])?;
        let is_refused = layout_in(alloc, text.as_slice()).is_err();
        texts.push(text)?;
        if is_refused {
            break;
        }
    }
    Ok(texts)
}

/// The records, which aren't read where a layout is refused.
fn records_after<R: GivesBytes>(
    alloc: Global,
    layouts: &[&[u8]],
    records: &mut R,
) -> Result<Vec<u8>, CommandError> {
    match judge_talk(alloc, layouts, b"".as_slice()) {
        Err(CommandError::Fault(Fault::TurnLayoutRefused(_, _) | Fault::OtherGeometry(_))) => {
            Ok(Vec::new(alloc))
        }
        _ => read_text(alloc, records),
    }
}
