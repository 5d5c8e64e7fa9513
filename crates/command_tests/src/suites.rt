//! Suites over files in memory.

use crate::notation::read_text;
use cli_commands::Answer;
use cli_suites::{Files, Form, Job, manifest_in, suite_folder, suite_jobs, suite_text};
use std::alloc::{AllocError, Global};
use test_words::Row;

/// Files in memory: `PATH=TEXT` each, with `|` between two of them.
#[derive(Drop)]
struct InMemory<'a> {
    text: &'a str,
}

impl Files for InMemory<'_> {
    ghost use Rattle.std.specs.Prelude.{None, codes};

    ghost contents = { λ files. None };

    ghost base = { λ files. codes "made/" };

    ghost origin = { λ files. codes "made/suite.toml" };

    fn folder(&self) -> &str {
        "made/"
    }

    fn start(&self) -> &str {
        "made/suite.toml"
    }

    fn refuse(&self, _alloc: Global, _job: &Job, _layouts: &[Vec<u8>], _records: &[u8]) {}

    fn read(
        &self,
        _alloc: Global,
        path: &str,
        room: Vec<u8>,
    ) -> Result<Option<Vec<u8>>, AllocError> {
        for file in self.text.split('|') {
            let (own, bytes) = file.split_once('=').unwrap_or((file, ""));
            if own == path {
                let mut copy = room;
                copy.clear();
                copy.extend_from_slice(bytes.as_bytes())?;
                return Ok(Some(copy));
            }
        }
        Ok(None)
    }

    fn hear(&self, _done: u64, _all: usize, _name: &str) {}
}

fn form_of(name: &str) -> Form {
    match name {
        "json" => Form::Json,
        "junit" => Form::Junit,
        "sarif" => Form::Sarif,
        _ => Form::Text,
    }
}

/// The words of a text, each a path.
fn paths_of(alloc: Global, words: &str) -> Result<Vec<String>, AllocError> {
    let mut paths = Vec::new(alloc);
    for word in words.split(' ') {
        paths.push(String::from_str(alloc, word)?)?;
    }
    Ok(paths)
}

fn push_answered(row: &mut Row, answer: Result<Answer, AllocError>) {
    if let Some(answer) = row.take(answer) {
        row.word("\n");
        row.word(answer.text.as_str());
        row.word("status ");
        row.number(u32::from(answer.status.code()));
    }
}

/// The screens of a manifest that is read before them answer the same.
fn push_jobs(row: &mut Row, files: &InMemory<'_>, form: Form, manifest: &[u8], due: &str) {
    let Ok(manifest) = manifest_in(row.alloc(), manifest) else {
        return;
    };
    let jobs = manifest.jobs.as_slice();
    let answer = suite_jobs(
        row.alloc(),
        files,
        form,
        None,
        jobs,
        manifest.accepted.as_slice(),
    );
    if let Some(answer) = row.take(answer) {
        row.word_if(answer.text.as_str() != due, " otherwise of its jobs");
    }
}

/// What `suite` answers to a manifest, and to its jobs.
fn push_suite(row: &mut Row, files: &InMemory<'_>, form: Form, manifest: &[u8]) {
    let answer = suite_text(row.alloc(), files, form, None, manifest);
    if let Ok(answer) = &answer {
        push_jobs(row, files, form, manifest, answer.text.as_str());
    }
    push_answered(row, answer);
}

/// What `suite` answers to paths of which files may be gone.
fn push_folder(row: &mut Row, files: &InMemory<'_>, form: Form, words: &str) {
    if let Some(paths) = row.take(paths_of(row.alloc(), words)) {
        let answer = suite_folder(row.alloc(), files, form, None, paths.as_slice());
        push_answered(row, answer);
    }
}

/// Adds what a verb of suites answers; whether it is one of these.
pub(crate) fn push_answer(row: &mut Row, file: &[u8], verb: &str, words: &str) -> bool {
    let (name, text) = words.split_once(' ').unwrap_or((words, ""));
    let files = InMemory {
        text: str::from_utf8(file).unwrap_or(""),
    };
    match verb {
        "suite" => {
            let manifest = read_text(row, text);
            push_suite(row, &files, form_of(name), manifest.as_slice());
        }
        "suite-folder" => push_folder(row, &files, form_of(name), text),
        _ => return false,
    }
    true
}
