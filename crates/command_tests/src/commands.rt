//! The commands, each over readers and a writer in memory.

use crate::files::texts_of;
use crate::notation::push_written;
use anyhow::{Context, Result, ensure};
use bms_map::Control;
use cli_characters::{run_convert_back_characters, run_convert_characters, run_press_typed};
use cli_commands::{
    Demos, GivesBytes, Status, TakesBytes, Watched, failure, run_check, run_convert,
    run_convert_back, run_press, run_press_strokes, run_show, run_talk,
};
use cli_maps::{Asked, Form, Rendering, Report, run_check_map, run_map, run_render_map};
use cli_traces::{Asked as Traced, Source, Turns, run_records};
use std::alloc::Global;
use std::io;
use std::io::{Read, Write};
use test_words::{Row, push_word_number};
use tn_traces::Side;

/// A command of the program.
#[derive(Clone, Copy)]
pub(crate) enum Command {
    Show,
    Convert,
    Back,
    Characters,
    BackCharacters,
    Type,
    Press,
    Strike,
    Check,
    Demo,
    Talk,
    Map,
    MapLayout,
    MapCheck,
    MapReport,
    MapLog,
    MapShow,
    Turns,
    TurnsOfAnswers,
    Sizes,
    Lines,
}

/// The command of a name.
pub(crate) fn command_of(name: &str) -> Option<Command> {
    match name {
        "show" => Some(Command::Show),
        "convert" => Some(Command::Convert),
        "back" => Some(Command::Back),
        "characters" => Some(Command::Characters),
        "back-characters" => Some(Command::BackCharacters),
        "type" => Some(Command::Type),
        "press" => Some(Command::Press),
        "strike" => Some(Command::Strike),
        "check" => Some(Command::Check),
        "demo" => Some(Command::Demo),
        "talk" => Some(Command::Talk),
        "map" => Some(Command::Map),
        "map-layout" => Some(Command::MapLayout),
        "map-check" => Some(Command::MapCheck),
        "map-report" => Some(Command::MapReport),
        "map-log" => Some(Command::MapLog),
        "map-show" => Some(Command::MapShow),
        "turns" => Some(Command::Turns),
        "turns-of-answers" => Some(Command::TurnsOfAnswers),
        "sizes" => Some(Command::Sizes),
        "stream" => Some(Command::Lines),
        _ => None,
    }
}

/// Runs a command on all maps of a source.
fn run_on_maps<R: GivesBytes, W: TakesBytes>(
    alloc: Global,
    command: Command,
    input: &mut R,
    writer: &mut W,
) -> Status {
    let control = Control {
        free_keyboard: false,
        reset_modified: false,
    };
    let asked = Asked {
        name: None,
        control,
    };
    match command {
        Command::Map => run_map(alloc, input, writer, asked, Form::Records),
        Command::MapLayout => run_map(alloc, input, writer, asked, Form::Layout),
        Command::MapReport => {
            run_check_map(alloc, Report::Json("screen.bms"), input, writer, asked)
        }
        Command::MapLog => run_check_map(alloc, Report::Sarif("screen.bms"), input, writer, asked),
        Command::MapShow => run_render_map(alloc, Rendering::Text, input, writer, asked),
        _ => run_check_map(alloc, Report::Text, input, writer, asked),
    }
}

/// What a command asks of a trace, or of a stream.
fn traced_of(command: Command) -> Traced {
    let host = Traced::records(Source::Trace, Side::Host);
    match command {
        Command::Turns => Traced {
            turns: Turns::Marked,
            ..host
        },
        Command::TurnsOfAnswers => Traced {
            turns: Turns::Marked,
            ..Traced::records(Source::Trace, Side::Terminal)
        },
        Command::Sizes => Traced {
            turns: Turns::UpTo(0),
            size: true,
            ..host
        },
        _ => Traced::records(Source::Stream, Side::Host),
    }
}

/// Runs a command that reads at most one file.
fn run_with_file<R: GivesBytes, F: GivesBytes, W: TakesBytes>(
    alloc: Global,
    command: Command,
    input: &mut R,
    file: &mut F,
    writer: &mut W,
) -> Status {
    match command {
        Command::Show => run_show(alloc, input, writer),
        Command::Convert => run_convert(alloc, input, writer),
        Command::Back => run_convert_back(alloc, input, writer),
        Command::Characters => run_convert_characters(alloc, input, writer),
        Command::BackCharacters => run_convert_back_characters(alloc, input, writer),
        Command::Type => run_press_typed(alloc, input, file, writer),
        Command::Press => run_press(alloc, input, file, writer),
        Command::Strike => run_press_strokes(alloc, input, file, writer),
        Command::Check => run_check(alloc, file, input, writer, Demos::Omitted),
        Command::Map
        | Command::MapLayout
        | Command::MapCheck
        | Command::MapReport
        | Command::MapLog
        | Command::MapShow => run_on_maps(alloc, command, input, writer),
        Command::Turns | Command::TurnsOfAnswers | Command::Sizes | Command::Lines => {
            run_records(alloc, traced_of(command), input, writer)
        }
        _ => run_check(alloc, file, input, writer, Demos::Printed),
    }
}

/// Files that count the calls that failed.
fn watched<F: Drop>(alloc: Global, files: Vec<F>) -> Result<Vec<Watched<F>>> {
    let mut all = Vec::new(alloc);
    for file in files {
        all.push(Watched::new(file))?;
    }
    Ok(all)
}

/// Runs a command over files that count the calls that failed.
fn run_watched<R: GivesBytes, F: GivesBytes + Drop, W: TakesBytes>(
    alloc: Global,
    command: Command,
    input: &mut R,
    files: &mut [F],
    writer: &mut W,
) -> Result<Status> {
    if let Command::Talk = command {
        return Ok(run_talk(alloc, files, input, writer));
    }
    let file = files.first_mut().context("a file")?;
    Ok(run_with_file(alloc, command, input, file, writer))
}

fn failures<F>(files: &[Watched<F>]) -> u64 {
    let mut all = 0u64;
    for file in files {
        all = all.saturating_add(file.failures);
    }
    all
}

/// Runs a command; `files` are what it reads besides its input. Its status is `Failed` exactly where a call of a stream
/// failed.
pub(crate) fn run<R: Read, F: Read + Drop, W: Write>(
    alloc: Global,
    command: Command,
    input: &mut R,
    files: Vec<F>,
    writer: &mut W,
) -> Result<Status> {
    let mut input = Watched::new(input);
    let mut files = watched(alloc, files)?;
    let mut writer = Watched::new(writer);
    let status = run_watched(
        alloc,
        command,
        &mut input,
        files.as_mut_slice(),
        &mut writer,
    )?;
    let failed = failures(files.as_slice())
        .saturating_add(input.failures)
        .saturating_add(writer.failures);
    ensure!(
        (status == Status::Failed) == (failed > 0),
        "a failure without a cause"
    );
    Ok(status)
}

pub(crate) fn name_of(status: Status) -> &'static str {
    match status {
        Status::Done => "Done",
        Status::Findings => "Findings",
        Status::BadInput => "BadInput",
        Status::Failed => "Failed",
        Status::NoMemory => "NoMemory",
    }
}

/// The status, and what is written.
pub(crate) fn push_told(
    alloc: Global,
    out: &mut String,
    status: Status,
    written: &[u8],
) -> Result<()> {
    out.push_str(name_of(status))?;
    push_word_number(out, " ", u32::from(status.code()))?;
    out.push(' ')?;
    push_written(alloc, out, written)
}

/// A command's status, and what it writes.
pub(crate) fn written<W: Write>(
    alloc: Global,
    command: Command,
    input: &[u8],
    file: &[u8],
    writer: &mut W,
) -> Result<Status> {
    let mut input = input;
    let files = texts_of(alloc, command, file)?;
    run(alloc, command, &mut input, files, writer)
}

/// Adds the status of a command that could be run, and what it wrote.
pub(crate) fn push_ran(row: &mut Row, status: Option<Status>, written: &[u8]) {
    if let Some(status) = status {
        let pushed = push_told(row.alloc(), &mut row.text, status, written);
        let _pushed = row.take(pushed);
    }
}

/// Adds the status of a command that could be run.
pub(crate) fn push_name(row: &mut Row, status: Option<Status>) {
    if let Some(status) = status {
        row.word(name_of(status));
    }
}

/// A command's status and what it writes.
pub(crate) fn push_run(row: &mut Row, command: Command, input: &[u8], file: &[u8]) {
    let mut text = Vec::new(row.alloc());
    let status = row.take(written(row.alloc(), command, input, file, &mut text));
    push_ran(row, status, text.as_slice());
}

/// A command's status alone.
pub(crate) fn push_status(row: &mut Row, command: Command, input: &[u8], file: &[u8]) {
    let mut text = Vec::new(row.alloc());
    let status = row.take(written(row.alloc(), command, input, file, &mut text));
    push_name(row, status);
}

/// The statuses of an error of want of memory and of another one.
pub(crate) fn push_failures(row: &mut Row) {
    row.word(name_of(failure(&io::Error::from(io::ErrorKind::OutOfMemory))));
    row.word(" ");
    row.word(name_of(failure(&io::Error::from(io::ErrorKind::ConnectionReset))));
}
