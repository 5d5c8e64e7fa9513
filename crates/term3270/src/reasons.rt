//! Why an input is refused, on standard error, beside where on standard output.

use crate::file::FileAt;
use crate::prompt::Prompt;
use crate::stream::Named;
use cli_commands::{CommandError, Status, Watched};
use cli_reasons::{Ear, Heard, Lines};
use scr_layout::Layout;

/// What people call standard input.
const INPUT: &str = "standard input";

/// Standard input, whose lines are heard.
pub(crate) type HeardInput<'a> = Heard<Watched<Named<'a, Prompt<'a>>>>;

/// A file, whose lines are heard.
pub(crate) type HeardFile<'a> = Heard<Watched<Named<'a, FileAt<'a>>>>;

/// What people type where lines are read from a terminal.
fn asked_for(lines: Lines) -> &'static str {
    match lines {
        Lines::Orders | Lines::Characters => "commands and orders, one a line",
        Lines::Trace => "a trace of x3270, s3270 or c3270",
        Lines::Stream => "bytes of one side in hexadecimal",
        Lines::Buffer(_) => "what s3270 answers to ReadBuffer(Ebcdic)",
        Lines::Turns | Lines::SizedTurns => {
            "records in hexadecimal, with a line 'turn' between two turns"
        }
        Lines::Answers => "answers in hexadecimal",
        Lines::AnswersOfTurns => "answers in hexadecimal, with a line 'turn' between two turns",
        _ => "records in hexadecimal",
    }
}

/// Standard input, of such lines.
pub(crate) fn heard_input(rt: &HostRuntime, lines: Lines) -> HeardInput<'_> {
    let stream = Named {
        rt,
        name: INPUT,
        stream: Prompt::new(rt, asked_for(lines)),
    };
    Heard {
        stream: Watched::new(stream),
        ear: Ear::new(rt.alloc(), lines),
    }
}

/// The file of a path, of such lines, not yet opened.
pub(crate) fn heard_file<'a>(rt: &'a HostRuntime, lines: Lines, path: &'a str) -> HeardFile<'a> {
    let stream = Named {
        rt,
        name: path,
        stream: FileAt {
            rt,
            path,
            file: None,
        },
    };
    Heard {
        stream: Watched::new(stream),
        ear: Ear::new(rt.alloc(), lines),
    }
}

/// Says why an input of this name is refused, and tells whether it is.
fn is_told(rt: &HostRuntime, name: &str, ear: &mut Ear) -> bool {
    match ear.sentence(name) {
        Ok(Some(text)) => {
            let _ = eprint!(rt; "{text}");
            true
        }
        Ok(None) | Err(_) => false,
    }
}

/// Says why an input is refused, where the status says that one is, and tells whether it said so.
pub(crate) fn says<S>(
    rt: &HostRuntime,
    status: Status,
    input: &mut Heard<Watched<Named<'_, S>>>,
) -> bool {
    matches!(status, Status::BadInput) && is_told(rt, input.stream.stream.name, &mut input.ear)
}

/// Says why the first of two inputs is refused that is, and tells whether it said so.
pub(crate) fn says_first<S, T>(
    rt: &HostRuntime,
    status: Status,
    first: &mut Heard<Watched<Named<'_, S>>>,
    second: &mut Heard<Watched<Named<'_, T>>>,
) -> bool {
    says(rt, status, first) || says(rt, status, second)
}

/// Says why a record of an input is refused, where the status says that something is, and tells whether it said so.
fn says_refusal<S>(rt: &HostRuntime, status: Status, input: &Heard<Watched<Named<'_, S>>>) -> bool {
    if !matches!(status, Status::BadInput) {
        return false;
    }
    match input.ear.refusal(input.stream.stream.name) {
        Ok(Some(text)) => {
            let _ = eprint!(rt; "{text}");
            true
        }
        Ok(None) | Err(_) => false,
    }
}

/// Says why an input is refused, where one is, and tells the status.
pub(crate) fn told<S>(
    rt: &HostRuntime,
    status: Status,
    input: &mut Heard<Watched<Named<'_, S>>>,
) -> Status {
    if !says(rt, status, input) {
        says_refusal(rt, status, input);
    }
    status
}

/// Says why the first of two inputs is refused that is, and tells the status.
pub(crate) fn told_first<S, T>(
    rt: &HostRuntime,
    status: Status,
    first: &mut Heard<Watched<Named<'_, S>>>,
    second: &mut Heard<Watched<Named<'_, T>>>,
) -> Status {
    if !says_first(rt, status, first, second) && !says_refusal(rt, status, first) {
        says_refusal(rt, status, second);
    }
    status
}

/// The same of the layout and the records of `check`, and where records are given if a file of records stands in the layout's place.
pub(crate) fn told_check<S, T>(
    rt: &HostRuntime,
    status: Status,
    layout: &mut Heard<Watched<Named<'_, S>>>,
    records: &mut Heard<Watched<Named<'_, T>>>,
) -> Status {
    says_first(rt, status, layout, records);
    if matches!(status, Status::BadInput) && layout.ear.holds_records() {
        let _ = eprintln!(rt;
            "tip: records come on standard input, or from the file after '--records'; a layout comes first"
        );
    }
    status
}

/// Says why the first of some layouts is refused that is, and tells whether it said so.
fn says_layouts(rt: &HostRuntime, layouts: &mut [HeardFile<'_>]) -> bool {
    for layout in layouts {
        if is_told(rt, layout.stream.stream.name, &mut layout.ear) {
            return true;
        }
    }
    false
}

/// Says why the first of some layouts and of records after them is refused that is, and tells the status.
pub(crate) fn told_last(
    rt: &HostRuntime,
    status: Status,
    layouts: &mut [HeardFile<'_>],
    records: &mut HeardInput<'_>,
) -> Status {
    if !matches!(status, Status::BadInput) || says_layouts(rt, layouts) {
        return status;
    }
    told(rt, status, records)
}

/// The layouts of texts that were heard.
fn layouts_heard(rt: &HostRuntime, heard: &[HeardFile<'_>]) -> Result<Vec<Layout>, CommandError> {
    let mut layouts = Vec::new(rt.alloc());
    for file in heard {
        layouts.push(file.ear.layout()?)?;
    }
    Ok(layouts)
}

/// Says why answers are refused, or aren't those of the layouts' screens.
fn says_answers(rt: &HostRuntime, layouts: &[HeardFile<'_>], answers: &HeardInput<'_>) {
    let Ok(layouts) = layouts_heard(rt, layouts) else {
        return;
    };
    if let Ok(Some(text)) = answers.ear.answers(INPUT, layouts.as_slice()) {
        let _ = eprint!(rt; "{text}");
    }
}

/// Says why the first of some layouts or a line is refused, or else each answer that is, and tells the status.
pub(crate) fn told_answers(
    rt: &HostRuntime,
    status: Status,
    layouts: &mut [HeardFile<'_>],
    answers: &mut HeardInput<'_>,
) -> Status {
    if !matches!(status, Status::BadInput) || says_layouts(rt, layouts) {
        return status;
    }
    if !says(rt, status, answers) {
        says_answers(rt, layouts, answers);
    }
    status
}

/// Says why traces or streams are refused, or that nothing of a session was found in them, and tells the status.
pub(crate) fn told_traces(rt: &HostRuntime, status: Status, lines: &mut HeardInput<'_>) -> Status {
    if matches!(status, Status::Done) && lines.ear.has_none() {
        let _ = eprintln!(rt; "term3270: {INPUT}: no line of a session was found");
    }
    told(rt, status, lines)
}
