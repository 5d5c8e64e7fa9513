//! What is told of one job: what its command prints of its files, and in the log of a suite its results.

ghost use Rattle.std.specs.Prelude.{◌≡◌, IfOk, IfSome, OnOk};
ghost use Rattle.cli_commands.specs.Held.{answer_seen};
ghost use Rattle.cli_findings.specs.Results.{results_seen};
ghost use Rattle.cli_suites.specs.Answers.{AreOf, inputs_seen};
ghost use Rattle.cli_suites.specs.Found.{alone_results, answered_results, missing_results};
ghost use Rattle.cli_suites.specs.Told.{alone_told, detail_of, in_log, inputs_told, job_told, missing_told, read_told, told_seen};

use crate::answers::{Detail, Inputs, ReadError, alone, answer_of, missing};
use crate::files::Files;
use crate::found::{alone_results, answered_results, missing_results};
use crate::job::{Accepted, Job, Kind};
use crate::kept::Kept;
use crate::report::Form;
use cli_commands::{Answer, LastLayout, Status};
use cli_findings::Results;
use std::alloc::{AllocError, Global};
use std::mem;

/// What is told of a job.
#[derive(Drop)]
pub(crate) struct Told {
    pub answer: Answer,
    /// In the log of a suite, the results of the job; in other forms none.
    pub results: Results,
}

/// Explained in the form that has room for it.
fn detail_of(form: Form) -> Detail
    ensures { result ≡ detail_of form }
{
    match form {
        Form::Text | Form::Json | Form::Sarif => Detail::Omitted,
        Form::Junit => Detail::Explained,
    }
}

/// The results of the files of a job, to which its command answers so, in the form that has results.
fn results_of(
    alloc: Global,
    form: Form,
    base: &str,
    accepted: &[Accepted],
    job: &Job,
    inputs: &Inputs<'_>,
    answer: &Answer,
) -> Result<Results, AllocError>
    ensures { IfOk result (λ results. results_seen results ≡ in_log form
        (answered_results base.now accepted.now job.now (inputs_seen inputs.now) (answer_seen answer.now))) }
{
    match form {
        Form::Sarif => answered_results(alloc, base, accepted, job, inputs, answer),
        Form::Text | Form::Json | Form::Junit => Ok(Results::new(alloc)),
    }
}

/// What is told of the files of a job. That one is refused is heard.
fn inputs_told<F: Files>(
    alloc: Global,
    files: &F,
    last: &mut Option<LastLayout>,
    form: Form,
    accepted: &[Accepted],
    job: &Job,
    inputs: &Inputs<'_>,
) -> Result<Told, AllocError>
    ensures { IfOk result (λ told. told_seen told ≡ inputs_told form (F.base files.now)
        accepted.now job.now (inputs_seen inputs.now)) }
{
    let answer = answer_of(alloc, last, detail_of(form), job, inputs)?;
    if matches!(answer.status, Status::BadInput) {
        files.refuse(
            alloc,
            job,
            inputs.layouts.as_slice(),
            inputs.records.as_slice(),
        );
    }
    let base = files.folder();
    let results = results_of(alloc, form, base, accepted, job, inputs, &answer)?;
    Ok(Told { answer, results })
}

/// What is told of a file that can't be read.
fn missing_told(alloc: Global, form: Form, base: &str, path: &str) -> Result<Told, AllocError>
    ensures { IfOk result (λ told. told_seen told ≡ missing_told form base.now path.now) }
{
    let answer = missing(alloc, path)?;
    let results = match form {
        Form::Sarif => missing_results(alloc, base, path)?,
        Form::Text | Form::Json | Form::Junit => Results::new(alloc),
    };
    Ok(Told { answer, results })
}

/// What is told of a file beside which another one is missing.
fn alone_told(alloc: Global, form: Form, base: &str, job: &Job) -> Result<Told, AllocError>
    ensures { IfOk result (λ told. told_seen told ≡ alone_told form base.now job.now) }
{
    let answer = alone(alloc, job)?;
    let results = match form {
        Form::Sarif => alone_results(alloc, base, job)?,
        Form::Text | Form::Json | Form::Junit => Results::new(alloc),
    };
    Ok(Told { answer, results })
}

/// What is told of the files of a job, or of the first that can't be read.
fn read_told<'j, F: Files>(
    alloc: Global,
    files: &F,
    kept: &mut Kept<'j>,
    form: Form,
    accepted: &[Accepted],
    job: &'j Job,
) -> Result<Told, AllocError>
    requires { IfSome (F.contents files.now) (λ held. AreOf held kept.old.inputs) }
    ensures told { IfSome (F.contents files.now) (λ held. IfOk result (λ told. told_seen told
        ≡ read_told form (F.base files.now) held accepted.now job.now)) }
    ensures kept { IfSome (F.contents files.now)
        (λ held. OnOk result (AreOf held kept.new.inputs)) }
{
    let before = mem::replace(&mut kept.inputs, Inputs::none(alloc));
    match Inputs::read(alloc, files, before, job) {
        Ok(inputs) => {
            let last = &mut kept.last;
            let told = inputs_told(alloc, files, last, form, accepted, job, &inputs)?;
            kept.inputs = inputs;
            Ok(told)
        }
        Err(ReadError::Missing(path)) => {
            missing_told(alloc, form, files.folder(), path.as_str())
        }
        Err(ReadError::OutOfMemory) => Err(AllocError),
    }
}

/// What is told of a job: what its command prints of its files, or that one can't be read.
pub(crate) fn job_told<'j, F: Files>(
    alloc: Global,
    files: &F,
    kept: &mut Kept<'j>,
    form: Form,
    accepted: &[Accepted],
    job: &'j Job,
) -> Result<Told, AllocError>
    requires { IfSome (F.contents files.now) (λ held. AreOf held kept.old.inputs) }
    ensures told { IfSome (F.contents files.now) (λ held. IfOk result (λ told. told_seen told
        ≡ job_told form (F.base files.now) held accepted.now job.now)) }
    ensures kept { IfSome (F.contents files.now)
        (λ held. OnOk result (AreOf held kept.new.inputs)) }
{
    match job.kind {
        Kind::Alone => alone_told(alloc, form, files.folder(), job),
        Kind::Screen | Kind::Dialogue | Kind::Map => {
            read_told(alloc, files, kept, form, accepted, job)
        }
    }
}
