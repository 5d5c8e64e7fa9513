//! Each command on the standard streams, and on the files that it was given.

use crate::file::FileAt;
use crate::many::run_serve_many;
use crate::reasons::{
    HeardFile, HeardInput, heard_file, heard_input, says, says_first, told, told_answers,
    told_check, told_first, told_last, told_traces,
};
use crate::sessions::{run_attach, run_serve};
use crate::stream::Named;
use crate::tcp::Place;
use crate::tolerant::{Limits, run_tolerant};
use crate::withheld::Withheld;
use clap::ArgMatches;
use cli_binds::{Form, run_bind};
use cli_buffers::{SizesLine, run_buffers};
use cli_characters::{run_convert_back_characters, run_convert_characters, run_press_typed};
use cli_commands::{
    Demos, Status, Watched, failure, run_check, run_check_pen, run_convert, run_convert_back,
    run_press, run_show, run_talk,
};
use cli_drafts::run_draft;
use cli_findings::{Paths, Pen, Report, run_report};
use cli_maps::{
    Asked as MapsAsked, Form as MapForm, Rendering, Report as MapReport, run_check_map, run_map,
    run_render_map,
};
use cli_pictures::{Annotated, Drawing, run_annotated, run_picture};
use cli_reasons::{Heard, Lines, Names};
use cli_sessions::Output;
use cli_traces::{Asked, Source, run_records};
use cli_turns::{run_bind_turns, run_draft_turns};
use cli_words::{KeyLines, Many, ReportForm, When};
use std::alloc::AllocError;
use std::env;
use std::env::VarError;
use std::io::{IsTerminal, Read, Stdout};

/// A stream, and what people call it.
fn named<'a, S>(rt: &'a HostRuntime, name: &'a str, stream: S) -> Watched<Named<'a, S>> {
    Watched::new(Named { rt, name, stream })
}

pub(crate) fn output(rt: &HostRuntime) -> Watched<Named<'_, Stdout>> {
    named(rt, "standard output", rt.stdout())
}

/// Standard output of a picture, of which nothing is written where it can't be made.
fn picture(rt: &HostRuntime) -> Watched<Named<'_, Withheld<Stdout>>> {
    named(rt, "standard output", Withheld::new(rt.stdout()))
}

/// Writes a picture that is withheld, where it was made, and tells the status. Else what stands in its place is said on standard
/// error, unless more was said already.
fn released(
    rt: &HostRuntime,
    status: Status,
    is_said: bool,
    picture: &mut Watched<Named<'_, Withheld<Stdout>>>,
) -> Status {
    if matches!(status, Status::BadInput) {
        if !is_said {
            picture.stream.stream.tell(rt);
        }
        return status;
    }
    match picture.stream.release() {
        Ok(()) => status,
        Err(error) => failure(&error),
    }
}

/// Records on standard input, for the sizes of a layout.
pub(crate) fn sized_input(rt: &HostRuntime) -> HeardInput<'_> {
    heard_input(rt, Lines::SizedRecords)
}

/// Records in a file, for the sizes of a layout.
pub(crate) fn sized_file<'a>(rt: &'a HostRuntime, path: &'a str) -> HeardFile<'a> {
    heard_file(rt, Lines::SizedRecords, path)
}

/// The file of a path, not yet opened.
fn file_at<'a>(rt: &'a HostRuntime, path: &'a str) -> Watched<Named<'a, FileAt<'a>>> {
    let stream = FileAt {
        rt,
        path,
        file: None,
    };
    named(rt, path, stream)
}

/// `show` as text, with looks where they are asked for.
pub(crate) fn show(rt: &HostRuntime, color: When) -> Status {
    if is_colored(rt, color) {
        return color_screen(rt);
    }
    let mut records = heard_input(rt, Lines::Records);
    let status = run_show(rt.alloc(), &mut records, &mut output(rt));
    told(rt, status, &mut records)
}

/// `show` as text with looks.
fn color_screen(rt: &HostRuntime) -> Status {
    let mut records = heard_input(rt, Lines::Records);
    let status = run_picture(rt.alloc(), Drawing::Colored, &mut records, &mut output(rt));
    told(rt, status, &mut records)
}

/// `show` as a picture or as JSON.
pub(crate) fn draw(rt: &HostRuntime, drawing: Drawing) -> Status {
    let mut records = heard_input(rt, Lines::Records);
    let mut picture = picture(rt);
    let status = run_picture(rt.alloc(), drawing, &mut records, &mut picture);
    let is_said = says(rt, status, &mut records);
    released(rt, status, is_said, &mut picture)
}

/// `show` with the names of a layout.
pub(crate) fn annotate(rt: &HostRuntime, layout: &str, form: Annotated) -> Status {
    let mut layout = heard_file(rt, Lines::Layout, layout);
    let mut records = heard_input(rt, Lines::SizedRecords);
    let mut picture = picture(rt);
    let status = run_annotated(rt.alloc(), form, &mut layout, &mut records, &mut picture);
    let is_said = says_first(rt, status, &mut layout, &mut records);
    released(rt, status, is_said, &mut picture)
}

/// `check`, of the records of a file or of standard input.
pub(crate) fn check(
    rt: &HostRuntime,
    layout: &str,
    records: Option<&str>,
    demos: Demos,
    pen: Pen,
) -> Status {
    match records {
        Some(path) => check_over(rt, layout, &mut sized_file(rt, path), demos, pen),
        None => check_over(rt, layout, &mut sized_input(rt), demos, pen),
    }
}

/// `check` for tools, of the records of a file or of standard input.
pub(crate) fn report(
    rt: &HostRuntime,
    layout: &str,
    records: Option<&str>,
    form: ReportForm,
    pen: Pen,
) -> Status {
    match records {
        Some(path) => report_over(rt, layout, path, &mut sized_file(rt, path), form, pen),
        None => report_over(rt, layout, "stdin", &mut sized_input(rt), form, pen),
    }
}

/// `press`, with the keys of a file.
pub(crate) fn press(rt: &HostRuntime, keys: &str) -> Status {
    let mut keys = heard_file(rt, Lines::Names(Names::Keys), keys);
    let mut records = heard_input(rt, Lines::Records);
    let status = run_press(rt.alloc(), &mut records, &mut keys, &mut output(rt));
    told_first(rt, status, &mut records, &mut keys)
}

/// `press --strokes`, with the strokes of a file.
pub(crate) fn strike(rt: &HostRuntime, strokes: &str) -> Status {
    let mut strokes = heard_file(rt, Lines::Names(Names::Strokes), strokes);
    let mut records = heard_input(rt, Lines::Records);
    let status = run_press_typed(rt.alloc(), &mut records, &mut strokes, &mut output(rt));
    told_first(rt, status, &mut records, &mut strokes)
}

/// `convert`.
pub(crate) fn convert(rt: &HostRuntime) -> Status {
    let mut records = heard_input(rt, Lines::ReadRecords);
    let status = run_convert(rt.alloc(), &mut records, &mut output(rt));
    told(rt, status, &mut records)
}

/// `convert --back`.
pub(crate) fn convert_back(rt: &HostRuntime) -> Status {
    let mut orders = heard_input(rt, Lines::Orders);
    let status = run_convert_back(rt.alloc(), &mut orders, &mut output(rt));
    told(rt, status, &mut orders)
}

/// `convert --chars`.
pub(crate) fn convert_characters(rt: &HostRuntime) -> Status {
    let mut records = heard_input(rt, Lines::ReadRecords);
    let status = run_convert_characters(rt.alloc(), &mut records, &mut output(rt));
    told(rt, status, &mut records)
}

/// `convert --back --chars`.
pub(crate) fn convert_back_characters(rt: &HostRuntime) -> Status {
    let mut orders = heard_input(rt, Lines::Characters);
    let status = run_convert_back_characters(rt.alloc(), &mut orders, &mut output(rt));
    told(rt, status, &mut orders)
}

/// `draft`.
pub(crate) fn draft(rt: &HostRuntime) -> Status {
    let mut records = heard_input(rt, Lines::Records);
    let status = run_draft(rt.alloc(), &mut records, &mut output(rt));
    told(rt, status, &mut records)
}

/// `draft` of each turn.
pub(crate) fn draft_turns(rt: &HostRuntime) -> Status {
    let mut records = heard_input(rt, Lines::SizedTurns);
    let status = run_draft_turns(rt.alloc(), &mut records, &mut output(rt));
    told(rt, status, &mut records)
}

/// Whether a command was given several layouts.
fn has_layouts(matches: &ArgMatches<'_>) -> bool {
    match matches.subcommand() {
        Some((_, words)) => match words.get_strs("LAYOUT") {
            Some(paths) => paths.len() > 1,
            None => false,
        },
        None => false,
    }
}

/// `bind`, with the layout of a file.
pub(crate) fn bind(rt: &HostRuntime, matches: &ArgMatches<'_>, layout: &str, form: Form) -> Status {
    if has_layouts(matches) {
        let _ = eprintln!(rt; "error: several layouts go with '--turns'");
        return Status::BadInput;
    }
    let mut layouts = [heard_file(rt, Lines::Layout, layout)];
    let mut answers = heard_input(rt, Lines::Answers);
    let status = run_bind(
        rt.alloc(),
        &mut layouts[0],
        &mut answers,
        &mut output(rt),
        form,
    );
    told_answers(rt, status, &mut layouts, &mut answers)
}

/// `bind` of each turn, with the layouts of files.
pub(crate) fn bind_turns(rt: &HostRuntime, matches: &ArgMatches<'_>, form: Form) -> Status {
    match matches.subcommand() {
        Some((_, words)) => match words.get_strs("LAYOUT") {
            Some(paths) => bind_over(rt, paths, form),
            None => Status::BadInput,
        },
        None => Status::BadInput,
    }
}

/// Runs `bind --turns` on these files and the standard streams.
fn bind_over(rt: &HostRuntime, paths: &[&str], form: Form) -> Status {
    match files_at(rt, paths) {
        Ok(mut layouts) => {
            let mut answers = heard_input(rt, Lines::AnswersOfTurns);
            let status = run_bind_turns(
                rt.alloc(),
                layouts.as_mut_slice(),
                &mut answers,
                &mut output(rt),
                form,
            );
            told_answers(rt, status, layouts.as_mut_slice(), &mut answers)
        }
        Err(_) => Status::NoMemory,
    }
}

/// `records`.
pub(crate) fn records(rt: &HostRuntime, asked: Asked) -> Status {
    let mut lines = heard_input(rt, traced_lines(asked.source));
    let status = run_records(rt.alloc(), asked, &mut lines, &mut output(rt));
    told_traces(rt, status, &mut lines)
}

/// `records` of a terminal's buffer.
pub(crate) fn buffers(rt: &HostRuntime, sizes: SizesLine) -> Status {
    let mut lines = heard_input(rt, Lines::Buffer(sizes));
    let status = run_buffers(rt.alloc(), sizes, &mut lines, &mut output(rt));
    told(rt, status, &mut lines)
}

/// What the lines of traces are, or of streams.
fn traced_lines(source: Source) -> Lines {
    match source {
        Source::Trace => Lines::Trace,
        Source::Stream => Lines::Stream,
    }
}

/// `serve`, with the layout of a file.
pub(crate) fn serve(rt: &HostRuntime, layout: &str, place: Place<'_>, count: u16) -> Status {
    let mut layout = heard_file(rt, Lines::Layout, layout);
    let mut records = sized_input(rt);
    let status = run_serve(
        rt,
        &mut layout,
        &mut records,
        place,
        count,
        &mut Output::new(output(rt)),
    );
    told_first(rt, status, &mut layout, &mut records)
}

/// `serve` for many terminals at once, with the layout of a file.
pub(crate) fn serve_many(rt: &HostRuntime, layout: &str, place: Place<'_>, many: Many) -> Status {
    let mut layout = heard_file(rt, Lines::Layout, layout);
    let mut records = sized_input(rt);
    let status = run_serve_many(
        rt,
        &mut layout,
        &mut records,
        place,
        many,
        &mut Output::new(output(rt)),
    );
    told_first(rt, status, &mut layout, &mut records)
}

/// `attach`, with the keys or strokes of a file.
pub(crate) fn attach(
    rt: &HostRuntime,
    place: Place<'_>,
    keys: &str,
    lines: KeyLines,
    device: &str,
) -> Status {
    let mut keys = heard_file(rt, names_of(lines), keys);
    let status = run_attach(
        rt,
        place,
        &mut keys,
        lines,
        device,
        &mut Output::new(output(rt)),
    );
    told(rt, status, &mut keys)
}

/// `attach --tolerant`, with the keys or strokes of a file.
pub(crate) fn attach_tolerant(
    rt: &HostRuntime,
    place: Place<'_>,
    keys: &str,
    lines: KeyLines,
    device: &str,
    limits: Limits,
) -> Status {
    let mut keys = heard_file(rt, names_of(lines), keys);
    let status = run_tolerant(
        rt,
        place,
        &mut keys,
        lines,
        device,
        limits,
        &mut Output::new(output(rt)),
    );
    told(rt, status, &mut keys)
}

/// What the lines of keys, or of strokes, are.
fn names_of(lines: KeyLines) -> Lines {
    match lines {
        KeyLines::Keys => Lines::Names(Names::Keys),
        KeyLines::Strokes => Lines::Names(Names::Strokes),
    }
}

/// Runs `check` on a layout's file and these records.
fn check_over<R: Read>(
    rt: &HostRuntime,
    layout: &str,
    records: &mut Heard<Watched<Named<'_, R>>>,
    demos: Demos,
    pen: Pen,
) -> Status {
    let mut layout = heard_file(rt, Lines::Layout, layout);
    let status = match pen {
        Pen::Ignored => run_check(rt.alloc(), &mut layout, records, &mut output(rt), demos),
        Pen::Asked => run_check_pen(rt.alloc(), &mut layout, records, &mut output(rt), demos),
    };
    told_check(rt, status, &mut layout, records)
}

/// Runs `check` for tools on a layout's file and the records of this path.
fn report_over<R: Read>(
    rt: &HostRuntime,
    layout: &str,
    path: &str,
    records: &mut Heard<Watched<Named<'_, R>>>,
    form: ReportForm,
    pen: Pen,
) -> Status {
    let report = match form {
        ReportForm::Json => Report::Json,
        ReportForm::Sarif => Report::Sarif(Paths {
            layout,
            records: path,
        }),
    };
    let mut layout = heard_file(rt, Lines::Layout, layout);
    let status = run_report(
        rt.alloc(),
        pen,
        report,
        &mut layout,
        records,
        &mut output(rt),
    );
    told_check(rt, status, &mut layout, records)
}

/// Says on standard error that a form doesn't draw a layout.
pub(crate) fn refuse_undrawn(rt: &HostRuntime) -> Status {
    let _ = eprintln!(rt; "error: '--layout <FILE>' needs '--format svg' or '--format html'");
    Status::BadInput
}

/// `map`, of the source of a file.
pub(crate) fn map(rt: &HostRuntime, source: &str, asked: MapsAsked<'_>, form: MapForm) -> Status {
    let mut source = file_at(rt, source);
    run_map(rt.alloc(), &mut source, &mut output(rt), asked, form)
}

/// `check` of the maps of a file, in the form that is named.
pub(crate) fn check_map(
    rt: &HostRuntime,
    path: &str,
    asked: MapsAsked<'_>,
    form: Option<ReportForm>,
) -> Status {
    let report = match form {
        None => MapReport::Text,
        Some(ReportForm::Json) => MapReport::Json(path),
        Some(ReportForm::Sarif) => MapReport::Sarif(path),
    };
    let mut source = file_at(rt, path);
    run_check_map(rt.alloc(), report, &mut source, &mut output(rt), asked)
}

/// `show` or `draft` of a map of a file.
pub(crate) fn render_map(
    rt: &HostRuntime,
    path: &str,
    asked: MapsAsked<'_>,
    rendering: Rendering,
) -> Status {
    let mut source = file_at(rt, path);
    run_render_map(rt.alloc(), rendering, &mut source, &mut output(rt), asked)
}

/// Says that `check` has nothing to check with.
pub(crate) fn refuse_no_layout(rt: &HostRuntime) -> Status {
    let _ = eprintln!(rt; "error: 'check' needs a layout, or '--map <FILE>'");
    Status::BadInput
}

/// Says that a stream has no turns.
pub(crate) fn refuse_one_side(rt: &HostRuntime) -> Status {
    let _ = eprintln!(rt;
        "error: a stream shows one side, and so no turns: '--turns' and '--turn' need a trace"
    );
    Status::BadInput
}

/// Says that a buffer has a screen alone.
pub(crate) fn refuse_one_screen(rt: &HostRuntime) -> Status {
    let _ = eprintln!(rt;
        "error: a buffer shows one screen: of the options of 'records' '--size' alone goes with '--from buffer'"
    );
    Status::BadInput
}

/// Whether the looks of cells are printed.
fn is_colored(rt: &HostRuntime, color: When) -> bool {
    match color {
        When::Auto => rt.stdout().is_terminal() && !refuses_color(rt),
        When::Always => true,
        When::Never => false,
    }
}

/// Whether the environment says `NO_COLOR`, which counts where it isn't empty.
fn refuses_color(rt: &HostRuntime) -> bool {
    match env::var(rt, "NO_COLOR") {
        Ok(text) => !text.is_empty(),
        Err(VarError::NotPresent) => false,
        Err(_) => true,
    }
}

/// `talk`, on the files that its words name.
pub(crate) fn talk(rt: &HostRuntime, matches: &ArgMatches<'_>) -> Status {
    match matches.subcommand() {
        Some((_, words)) => match words.get_strs("LAYOUT") {
            Some(paths) => talk_over(rt, paths),
            None => Status::BadInput,
        },
        None => Status::BadInput,
    }
}

/// Runs `talk` on these files and the standard streams.
fn talk_over(rt: &HostRuntime, paths: &[&str]) -> Status {
    match files_at(rt, paths) {
        Ok(mut layouts) => {
            let mut records = heard_input(rt, Lines::Turns);
            let status = run_talk(
                rt.alloc(),
                layouts.as_mut_slice(),
                &mut records,
                &mut output(rt),
            );
            told_last(rt, status, layouts.as_mut_slice(), &mut records)
        }
        Err(_) => Status::NoMemory,
    }
}

/// The layouts of several paths, none yet opened.
pub(crate) fn files_at<'a>(
    rt: &'a HostRuntime,
    paths: &'a [&'a str],
) -> Result<Vec<HeardFile<'a>>, AllocError> {
    let mut files = Vec::new(rt.alloc());
    for path in paths {
        files.push(heard_file(rt, Lines::Layout, path))?;
    }
    Ok(files)
}
