//! Forms with a layout, from streams and of texts.

use crate::commands::name_of;
use crate::notation::read_text;
use cli_commands::{Answer, CommandError, Status, Watched, printed};
use cli_findings::{Paths, Pen, Report, report_texts, run_report};
use cli_pictures::{Annotated, annotated_text, run_annotated};
use std::alloc::Global;
use test_words::Row;

const PATHS: Paths<'static> = Paths {
    layout: "code.toml",
    records: "stdin",
};

/// What is printed of records and a layout.
#[derive(Clone, Copy)]
enum Form {
    Annotated(Annotated),
    Reported(Pen, Report<'static>),
}

/// The form of a name.
fn form_of(name: &str) -> Option<Form> {
    match name {
        "svg-layout" => Some(Form::Annotated(Annotated::Svg)),
        "html-layout" => Some(Form::Annotated(Annotated::Html)),
        "findings" => Some(Form::Reported(Pen::Ignored, Report::Json)),
        "pen-findings" => Some(Form::Reported(Pen::Asked, Report::Json)),
        "log" => Some(Form::Reported(Pen::Ignored, Report::Sarif(PATHS))),
        "pen-log" => Some(Form::Reported(Pen::Asked, Report::Sarif(PATHS))),
        _ => None,
    }
}

/// What is written from streams, and the status.
fn written(alloc: Global, form: Form, layout: &[u8], records: &[u8], text: &mut Vec<u8>) -> Status {
    let (mut layout, mut records) = (layout, records);
    let mut text = Watched::new(text);
    match form {
        Form::Annotated(form) => run_annotated(alloc, form, &mut layout, &mut records, &mut text),
        Form::Reported(pen, report) => run_report(
            alloc,
            pen,
            report,
            &mut layout,
            &mut records,
            &mut text,
        ),
    }
}

/// What is answered to texts.
fn answered(
    alloc: Global,
    form: Form,
    layout: &[u8],
    records: &[u8],
) -> Result<Answer, CommandError> {
    match form {
        Form::Annotated(form) => annotated_text(alloc, form, layout, records),
        Form::Reported(pen, report) => report_texts(alloc, pen, report, layout, records),
    }
}

/// The status, and whether both ways print the same with it.
fn push_same(row: &mut Row, form: Form, layout: &[u8], records: &[u8]) {
    let alloc = row.alloc();
    let mut text = Vec::new(alloc);
    let status = written(alloc, form, layout, records, &mut text);
    let answer = printed(alloc, answered(alloc, form, layout, records));
    if let Some(told) = row.take(answer) {
        let same = told.text.as_bytes() == text.as_slice() && told.status == status;
        row.word(name_of(status));
        row.word(if same { " the same" } else { " another" });
    }
}

/// Whether the form of `FORM TEXT` prints the same from streams and of texts.
pub(crate) fn push_form(row: &mut Row, layout: &[u8], words: &str) {
    let (form, text) = words.split_once(' ').unwrap_or((words, ""));
    let records = read_text(row, text);
    match form_of(form) {
        Some(form) => push_same(row, form, layout, records.as_slice()),
        None => row.spoil(),
    }
}
