//! What is found of one job: what `check`, `talk` or `check --map` prints of its files.

ghost use Rattle.std.specs.Prelude.{◌≡◌, [], ◌∷◌, true, Ok, IfOk, IfSome, map, Result as AResult, string_bytes, slice_get, option_map};
ghost use Rattle.cli_commands.specs.Fault.{Gives, fault_line};
ghost use Rattle.cli_commands.specs.Held.{answer_seen, records_held};
ghost use Rattle.cli_commands.specs.Printed.{Printed};
ghost use Rattle.cli_commands.specs.declared.fault.Fault.{Fault as AFault};
ghost use Rattle.cli_suites.specs.Answers.{AreLayouts, AreOf, Held, Reads, alone, answer_in, answer_of, at_path, check_first, check_maps, explain_first, fault_answer, front_of, inputs_seen, job_read, layouts_read, missing, path_of_fault, path_or_none, read_one, told, told_answer, with_read};

use crate::files::Files;
use crate::job::{Job, Kind};
use crate::last_layout::check_remembering;
use bms_map::Control;
use cli_commands::{Answer, CommandError, Fault, LastLayout, Status, lent, talk_texts};
use cli_findings::Pen;
use cli_maps::{Asked, Report, check_map_text};
use cli_reports::{TalkForm, explained_texts, talk_report_texts};
use std::alloc::{AllocError, AllocFailed, Global};

/// Whether lines under each finding explain it.
#[derive(Clone, Copy, Debug, PartialEq, Eq)]
pub(crate) enum Detail {
    Omitted,
    Explained,
}

/// Why files have no bytes.
#[derive(Drop)]
pub(crate) enum ReadError {
    /// The file of this path can't be read.
    Missing(String),
    OutOfMemory,
}

impl From<AllocError> for ReadError {
    ghost use Rattle.cli_suites.specs.declared.answers.ReadError.TheVariants.{OutOfMemory};

    ghost from_gives = { λ _ e. e ≡ OutOfMemory };

    fn from(_e: AllocError) -> ReadError {
        ReadError::OutOfMemory
    }
}

impl<T: Drop> From<AllocFailed<T>> for ReadError {
    ghost use Rattle.cli_suites.specs.declared.answers.ReadError.TheVariants.{OutOfMemory};

    ghost from_gives = { λ _ e. e ≡ OutOfMemory };

    fn from(_e: AllocFailed<T>) -> ReadError {
        ReadError::OutOfMemory
    }
}

/// The files of a job.
#[derive(Drop)]
pub(crate) struct Inputs<'j> {
    /// The paths of the layouts.
    paths: &'j [String],
    pub layouts: Vec<Vec<u8>>,
    pub records: Vec<u8>,
}

/// What `check` prints against the first of layouts.
fn check_first(
    alloc: Global,
    last: &mut Option<LastLayout>,
    layouts: &[&[u8]],
    records: &[u8],
) -> Result<Answer, CommandError>
    ensures { Gives answer_seen result
        (check_first (map (λ text. text.now) layouts.now) records.now) }
{
    match layouts {
        [] => talk_texts(alloc, layouts, records),
        [layout, ..] => check_remembering(alloc, last, layout, records),
    }
}

/// The same, explained.
fn explain_first(alloc: Global, layouts: &[&[u8]], records: &[u8]) -> Result<Answer, CommandError>
    ensures { Gives answer_seen result
        (explain_first (map (λ text. text.now) layouts.now) records.now) }
{
    match layouts {
        [] => talk_texts(alloc, layouts, records),
        [layout, ..] => explained_texts(alloc, Pen::Ignored, layout, records),
    }
}

/// What `check --map` prints.
fn check_maps(alloc: Global, source: &[u8]) -> Result<Answer, CommandError>
    ensures { Gives answer_seen result (check_maps source.now) }
{
    let control = Control {
        free_keyboard: false,
        reset_modified: false,
    };
    let asked = Asked {
        name: None,
        control,
    };
    check_map_text(alloc, Report::Text, source, asked)
}

/// What the command of a kind prints of the texts of layouts and of records.
fn answer_in(
    alloc: Global,
    last: &mut Option<LastLayout>,
    detail: Detail,
    kind: Kind,
    layouts: &[&[u8]],
    records: &[u8],
) -> Result<Answer, CommandError>
    ensures { Gives answer_seen result
        (answer_in detail kind (map (λ text. text.now) layouts.now) records.now) }
{
    match (kind, detail) {
        (Kind::Screen, Detail::Omitted) => check_first(alloc, last, layouts, records),
        (Kind::Screen, Detail::Explained) => explain_first(alloc, layouts, records),
        (Kind::Dialogue, Detail::Omitted) => talk_texts(alloc, layouts, records),
        (Kind::Dialogue, Detail::Explained) => {
            talk_report_texts(alloc, TalkForm::Explained, layouts, records)
        }
        (Kind::Map | Kind::Alone, _) => check_maps(alloc, records),
    }
}

/// A line behind the path of a file.
fn at_path(alloc: Global, path: &str, line: &str) -> Result<String, AllocError>
    ensures { IfOk result (λ text. string_bytes text ≡ at_path path.now line.now) }
{
    format!(in alloc; "{path}: {line}")
}

/// The path of the file that is at fault, where one is.
pub(crate) fn path_of_fault(job: &Job, fault: Fault) -> Option<&str>
    ensures { option_map (λ path. path.now) result ≡ path_of_fault job.now fault }
{
    match fault {
        Fault::TooLong => None,
        Fault::LayoutRefused(_) => layout_at(job, 0),
        Fault::TurnLayoutRefused(turn, _) | Fault::OtherGeometry(turn) => layout_at(job, turn),
        Fault::BadLine(_)
        | Fault::BadKeyLine(_)
        | Fault::RecordRefused(_, _)
        | Fault::Unwritable(_, _)
        | Fault::OtherCount(_, _) => Some(job.records.as_str()),
    }
}

fn layout_at(job: &Job, index: usize) -> Option<&str>
    ensures { option_map (λ path. path.now) result ≡ slice_get job.now.layouts index }
{
    match job.layouts.get(index) {
        Some(path) => Some(path.as_str()),
        None => None,
    }
}

/// The line of a fault, behind the path of the file that is at fault.
fn fault_line(alloc: Global, path: Option<&str>, fault: Fault) -> Result<String, AllocError>
    ensures { IfOk result (λ text. string_bytes text
        ≡ front_of (option_map (λ path. path.now) path.entry) (fault_line fault)) }
{
    match path {
        Some(path) => format!(in alloc; "{path}: {fault}\n"),
        None => format!(in alloc; "{fault}\n"),
    }
}

/// What is told of an input that is refused.
fn fault_answer(alloc: Global, job: &Job, fault: Fault) -> Result<Answer, AllocError>
    ensures { IfOk result (λ answer. answer_seen answer ≡ fault_answer job.now fault) }
{
    Ok(Answer {
        text: fault_line(alloc, path_of_fault(job, fault), fault)?,
        status: Status::BadInput,
    })
}

/// What is told of an answer: itself, or what is refused behind the path of the source.
fn told_answer(alloc: Global, job: &Job, answer: Answer) -> Result<Answer, AllocError>
    ensures { IfOk result (λ told. answer_seen told
        ≡ told_answer job.now (answer_seen answer)) }
{
    match answer.status {
        Status::BadInput => Ok(Answer {
            text: at_path(alloc, job.records.as_str(), answer.text.as_str())?,
            status: Status::BadInput,
        }),
        _ => Ok(answer),
    }
}

/// What is told of what a command answers.
fn told(
    alloc: Global,
    job: &Job,
    answer: Result<Answer, CommandError>,
) -> Result<Answer, AllocError>
    ensures { (due : AResult Printed AFault) → Gives answer_seen answer due
        → IfOk result (λ answer. answer_seen answer ≡ told job.now due) }
{
    match answer {
        Ok(answer) => told_answer(alloc, job, answer),
        Err(CommandError::Fault(fault)) => fault_answer(alloc, job, fault),
        // Of texts no read fails.
        Err(CommandError::ReadFailed | CommandError::OutOfMemory) => Err(AllocError),
    }
}

/// What is told of the files of a job.
pub(crate) fn answer_of(
    alloc: Global,
    last: &mut Option<LastLayout>,
    detail: Detail,
    job: &Job,
    inputs: &Inputs<'_>,
) -> Result<Answer, AllocError>
    ensures { IfOk result (λ answer. answer_seen answer
        ≡ answer_of detail job.now (inputs_seen inputs.now)) }
{
    let layouts = lent(alloc, inputs.layouts.as_slice())?;
    let answer = answer_in(
        alloc,
        last,
        detail,
        job.kind,
        layouts.as_slice(),
        inputs.records.as_slice(),
    );
    told(alloc, job, answer)
}

/// The bytes of one file, for which there is room.
fn read_one<F: Files>(
    alloc: Global,
    files: &F,
    room: Vec<u8>,
    path: &str,
) -> Result<Vec<u8>, ReadError>
    ensures { IfSome (F.contents files.now)
        (λ held. Reads (λ v. v.items) result (read_one held path.now)) }
{
    match files.read(alloc, path, room)? {
        Some(bytes) => Ok(bytes),
        None => Err(ReadError::Missing(String::from_str(alloc, path)?)),
    }
}

/// The bytes before, and behind them those of one more file.
fn with_read<F: Files>(
    alloc: Global,
    files: &F,
    before: Vec<Vec<u8>>,
    path: &str,
) -> Result<Vec<Vec<u8>>, ReadError>
    ensures { IfSome (F.contents files.now) (λ held. Reads (λ v. records_held v.items) result
        (with_read held (records_held before.items) path.now)) }
{
    let bytes = read_one(alloc, files, Vec::new(alloc), path)?;
    let mut read = before;
    read.push(bytes)?;
    Ok(read)
}

/// The bytes of files in order, up to the first that can't be read.
fn layouts_read<F: Files>(
    alloc: Global,
    files: &F,
    paths: &[String],
) -> Result<Vec<Vec<u8>>, ReadError>
    ensures { IfSome (F.contents files.now) (λ held. Reads (λ v. records_held v.items) result
        (layouts_read held [] (map string_bytes paths.now))) }
{
    let mut read = Vec::new(alloc);
    for path in paths {
        read = with_read(alloc, files, read, path.as_str())?;
    }
    Ok(read)
}

/// The same, where the files of other paths are known: of the same paths they aren't read again.
fn layouts_after<F: Files>(
    alloc: Global,
    files: &F,
    known: &[String],
    before: Vec<Vec<u8>>,
    paths: &[String],
) -> Result<Vec<Vec<u8>>, ReadError>
    requires { IfSome (F.contents files.now) (λ held. AreLayouts held
        (map string_bytes known.now) (records_held before.items)) }
    ensures { IfSome (F.contents files.now) (λ held. Reads (λ v. records_held v.items) result
        (layouts_read held [] (map string_bytes paths.now))) }
{
    if are_same(known, paths) {
        Ok(before)
    } else {
        layouts_read(alloc, files, paths)
    }
}

#[tactic(auto, using(crate::proofs::SameLaws::same_texts))]
fn are_same(known: &[String], paths: &[String]) -> bool
    ensures { result ≡ true → map string_bytes known.now ≡ map string_bytes paths.now }
{
    known == paths
}

impl<'j> Inputs<'j> {
    /// Of no job.
    pub(crate) fn none(alloc: Global) -> Inputs<'j>
        ensures { (held : Held) → AreOf held result }
    {
        Inputs {
            paths: &[],
            layouts: Vec::new(alloc),
            records: Vec::new(alloc),
        }
    }

    /// The files of a job, its layouts and then its records, after those of another, of which what serves is used again.
    pub(crate) fn read<F: Files>(
        alloc: Global,
        files: &F,
        before: Inputs<'j>,
        job: &'j Job,
    ) -> Result<Inputs<'j>, ReadError>
        requires { IfSome (F.contents files.now) (λ held. AreOf held before) }
        ensures read { IfSome (F.contents files.now)
            (λ held. Reads inputs_seen result (job_read held job.now)) }
        ensures paths { IfSome (F.contents files.now)
            (λ held. IfOk result (AreOf held)) }
    {
        let Inputs {
            paths,
            layouts,
            records,
        } = before;
        let layouts = layouts_after(alloc, files, paths, layouts, job.layouts.as_slice())?;
        let records = read_one(alloc, files, records, job.records.as_str())?;
        Ok(Inputs {
            paths: job.layouts.as_slice(),
            layouts,
            records,
        })
    }
}

/// What is told of a file that can't be read.
pub(crate) fn missing(alloc: Global, path: &str) -> Result<Answer, AllocError>
    ensures { IfOk result (λ answer. answer_seen answer ≡ missing path.now) }
{
    Ok(Answer {
        text: format!(in alloc; "{path}: cannot be read\n")?,
        status: Status::BadInput,
    })
}

/// The path of the first layout, or nothing.
pub(crate) fn first_layout(job: &Job) -> &str
    ensures { result.now ≡ path_or_none (slice_get job.now.layouts 0) }
{
    match layout_at(job, 0) {
        Some(path) => path,
        None => "",
    }
}

/// What is told of a file beside which another one is missing.
pub(crate) fn alone(alloc: Global, job: &Job) -> Result<Answer, AllocError>
    ensures { IfOk result (λ answer. answer_seen answer ≡ alone job.now) }
{
    let path = job.records.as_str();
    let other = first_layout(job);
    Ok(Answer {
        text: format!(in alloc; "{path}: no {other} beside it\n")?,
        status: Status::BadInput,
    })
}
