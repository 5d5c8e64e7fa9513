//! `suite`: the files of a manifest, or those of a folder.

use crate::commands::output;
use crate::script_layouts::MOST_BYTES;
use crate::walk::paths_below;
use cli_commands::{Answer, CommandError, Status, failure, finish};
use cli_reasons::{Ear, Lines};
use cli_suites::{Files, Form, Job, Kind, suite_folder, suite_text};
use std::alloc::{AllocError, Global};
use std::fs::metadata;
use std::io::{IsTerminal, Read};
use std::{fs, io};

/// Room for a screen's records or a layout, so that most files are read at once.
const ROOM: usize = 8_192;

/// Files of the disk, by paths from a folder.
#[derive(Drop)]
struct Disk<'a> {
    rt: &'a HostRuntime,
    /// The path of the manifest, or of the folder.
    start: &'a str,
    /// The folder from which paths go, with its last slash, or nothing.
    base: &'a str,
    /// Whether it is shown how far the suite has come.
    is_shown: bool,
}

/// What a file holds, up to one byte more than an input can have, in place of what is in the room.
fn text_at(rt: &HostRuntime, path: &str, room: Vec<u8>) -> io::Result<Vec<u8>> {
    let mut text = room;
    text.clear();
    text.reserve(ROOM)?;
    fs::open(rt, path)?.take(MOST_BYTES).read_to_end(&mut text)?;
    Ok(text)
}

/// The bytes of a file of the disk, up to one more than an input can have, in place of what is in the room. That it can't be
/// read is said.
fn read_into(rt: &HostRuntime, path: &str, room: Vec<u8>) -> Result<Vec<u8>, CommandError> {
    match text_at(rt, path, room) {
        Ok(text) => Ok(text),
        Err(error) => {
            let _ = eprintln!(rt; "term3270: {path}: {error}");
            Err(CommandError::from(error))
        }
    }
}

/// The bytes of a file of the disk, up to one more than an input can have. That it can't be read is said.
pub(crate) fn read_file(rt: &HostRuntime, path: &str) -> Result<Vec<u8>, CommandError> {
    read_into(rt, path, Vec::new(rt.alloc()))
}

impl Files for Disk<'_> {
    ghost use Rattle.std.specs.Prelude.{None};

    ghost contents = { λ disk. None };

    ghost base = { λ disk. disk.base.now };

    ghost origin = { λ disk. disk.start.now };

    fn folder(&self) -> &str {
        self.base
    }

    fn start(&self) -> &str {
        self.start
    }

    fn refuse(&self, alloc: Global, job: &Job, layouts: &[Vec<u8>], records: &[u8]) {
        self.clear();
        if let Ok(Some(sentence)) = self.sentence(alloc, job, layouts, records) {
            let _ = eprint!(self.rt; "{sentence}");
        }
    }

    fn read(
        &self,
        alloc: Global,
        path: &str,
        room: Vec<u8>,
    ) -> Result<Option<Vec<u8>>, AllocError> {
        let whole = self.whole(alloc, path)?;
        self.clear();
        match read_into(self.rt, whole.as_str(), room) {
            Ok(bytes) => Ok(Some(bytes)),
            Err(CommandError::OutOfMemory) => Err(AllocError),
            Err(CommandError::ReadFailed | CommandError::Fault(_)) => Ok(None),
        }
    }

    fn hear(&self, done: u64, all: usize, name: &str) {
        if self.is_shown {
            let number = done.saturating_add(1);
            let _ = eprint!(self.rt; "\r\x1B[K{number} of {all} {name}");
        }
    }
}

/// What the lines of a job's records are.
fn record_lines(kind: Kind) -> Option<Lines> {
    match kind {
        Kind::Screen => Some(Lines::SizedRecords),
        Kind::Dialogue => Some(Lines::Turns),
        Kind::Map | Kind::Alone => None,
    }
}

/// Why a text of such lines is refused, in the input of a name, where it is.
pub(crate) fn heard(alloc: Global, lines: Lines, name: &str, text: &[u8]) -> Option<String> {
    let mut ear = Ear::new(alloc, lines);
    ear.hear(text);
    ear.sentence(name).unwrap_or(None)
}

impl Disk<'_> {
    /// The path of a file from where the program was started.
    fn whole(&self, alloc: Global, path: &str) -> Result<String, AllocError> {
        let base = if path.starts_with('/') { "" } else { self.base };
        let mut whole = String::with_capacity(alloc, base.len().saturating_add(path.len()))?;
        whole.push_str(base)?;
        whole.push_str(path)?;
        Ok(whole)
    }

    /// Why the first of the files of a job is refused that is: of the layouts in their order, or of the records.
    fn sentence(
        &self,
        alloc: Global,
        job: &Job,
        layouts: &[Vec<u8>],
        records: &[u8],
    ) -> Result<Option<String>, AllocError> {
        for (path, layout) in job.layouts.as_slice().iter().zip(layouts) {
            let name = self.whole(alloc, path.as_str())?;
            let told = heard(alloc, Lines::Layout, name.as_str(), layout.as_slice());
            if told.is_some() {
                return Ok(told);
            }
        }
        match record_lines(job.kind) {
            Some(lines) => {
                let name = self.whole(alloc, job.records.as_str())?;
                Ok(heard(alloc, lines, name.as_str(), records))
            }
            None => Ok(None),
        }
    }

    /// Takes back the line that shows how far the suite has come.
    fn clear(&self) {
        if self.is_shown {
            let _ = eprint!(self.rt; "\r\x1B[K");
        }
    }
}

/// The folder of a file, with its last slash.
pub(crate) fn folder_of(path: &str) -> &str {
    match path.rfind('/') {
        Some(slash) => match path.get(..slash.saturating_add(1)) {
            Some(folder) => folder,
            None => "",
        },
        None => "",
    }
}

/// What is printed of the files of a folder.
fn folder_answer(
    rt: &HostRuntime,
    path: &str,
    only: Option<&str>,
    form: Form,
) -> Result<Answer, CommandError> {
    let paths = match paths_below(rt, path) {
        Ok(paths) => paths,
        Err(error) => {
            let _ = eprintln!(rt; "term3270: {path}: {error}");
            return Err(CommandError::from(error));
        }
    };
    let disk = Disk {
        rt,
        start: path,
        base: "",
        is_shown: rt.stderr().is_terminal(),
    };
    let answer = suite_folder(rt.alloc(), &disk, form, only, paths.as_slice())?;
    disk.clear();
    Ok(answer)
}

/// What is printed of a manifest.
fn manifest_answer(
    rt: &HostRuntime,
    path: &str,
    only: Option<&str>,
    form: Form,
) -> Result<Answer, CommandError> {
    let manifest = read_file(rt, path)?;
    let disk = Disk {
        rt,
        start: path,
        base: folder_of(path),
        is_shown: rt.stderr().is_terminal(),
    };
    let answer = suite_text(rt.alloc(), &disk, form, only, manifest.as_slice())?;
    disk.clear();
    Ok(answer)
}

fn is_folder(rt: &HostRuntime, path: &str) -> bool {
    match metadata(rt, path) {
        Ok(metadata) => metadata.is_dir(),
        Err(_) => false,
    }
}

/// `suite`, of a manifest or of a folder.
pub(crate) fn suite(rt: &HostRuntime, path: &str, only: Option<&str>, form: Form) -> Status {
    let answer = if is_folder(rt, path) {
        folder_answer(rt, path, only, form)
    } else {
        manifest_answer(rt, path, only, form)
    };
    finish(rt.alloc(), &mut output(rt), answer)
}
