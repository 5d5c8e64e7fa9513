//! The command `suite`: every screen in turn, one at a time.

ghost use Rattle.std.specs.Prelude.{◌≡◌, IfOk, IfSome, OnOk, map, option_map, string_bytes};
ghost use Rattle.cli_commands.specs.Held.{answer_seen};
ghost use Rattle.cli_suites.specs.Answers.{AreOf};
ghost use Rattle.cli_suites.specs.Manifest.{manifest_seen};
ghost use Rattle.cli_suites.specs.Report.{no_report, report_seen};
ghost use Rattle.cli_suites.specs.Suite.{add_job, after_job, all_jobs, fault_words, has_asked, is_asked, is_long, printed_folder, printed_jobs, printed_suite, refused_log, refused_suite, refused_text, some_jobs, told_suite};

use crate::fault::{ManifestError, ManifestFault};
use crate::files::Files;
use crate::folder::jobs_of_paths;
use crate::job::{Accepted, Job};
use crate::json::push_json_refusal;
use crate::junit::push_junit_refusal;
use crate::kept::Kept;
use crate::manifest::{Manifest, has_name, manifest_in};
use crate::report::{Form, Report, add, log_text, no_report, printed_report};
use crate::settled::settle;
use crate::told::job_told;
use cli_commands::{Answer, MOST_BYTES, Status};
use cli_findings::refused_results;
use std::alloc::{AllocError, Global};

/// Whether a screen is asked for: its name is, or none.
fn is_asked(only: Option<&str>, job: &Job) -> bool
    ensures { result ≡ is_asked (option_map (λ name. name.now) only.entry) job.now }
{
    match only {
        Some(name) => job.name.as_str() == name,
        None => true,
    }
}

/// Adds a screen to a report: it is judged, and its inputs are kept for the next.
fn add_job<'j, F: Files>(
    alloc: Global,
    files: &F,
    kept: &mut Kept<'j>,
    form: Form,
    accepted: &[Accepted],
    report: &mut Report,
    job: &'j Job,
) -> Result<(), AllocError>
    requires { IfSome (F.contents files.now) (λ held. AreOf held kept.old.inputs) }
    ensures report { IfSome (F.contents files.now) (λ held. OnOk result (report_seen report.new
        ≡ add_job form (F.base files.now) held accepted.now (report_seen report.old) job.now)) }
    ensures kept { IfSome (F.contents files.now)
        (λ held. OnOk result (AreOf held kept.new.inputs)) }
{
    let told = job_told(alloc, files, kept, form, accepted, job)?;
    let name = job.name.as_str();
    let settled = settle(alloc, name, accepted, &told.answer)?;
    add(alloc, form, report, name, &settled, told.results)
}

/// The same, where the screen is asked for.
fn after_job<'j, F: Files>(
    alloc: Global,
    files: &F,
    kept: &mut Kept<'j>,
    form: Form,
    accepted: &[Accepted],
    only: Option<&str>,
    report: &mut Report,
    job: &'j Job,
) -> Result<(), AllocError>
    requires { IfSome (F.contents files.now) (λ held. AreOf held kept.old.inputs) }
    ensures report { IfSome (F.contents files.now) (λ held. OnOk result (report_seen report.new
        ≡ after_job form (F.base files.now) held accepted.now
        (option_map (λ name. name.now) only.entry) (report_seen report.old) job.now)) }
    ensures kept { IfSome (F.contents files.now)
        (λ held. OnOk result (AreOf held kept.new.inputs)) }
{
    if is_asked(only, job) {
        add_job(alloc, files, kept, form, accepted, report, job)
    } else {
        Ok(())
    }
}

/// The report of screens.
fn all_jobs<F: Files>(
    alloc: Global,
    files: &F,
    form: Form,
    accepted: &[Accepted],
    only: Option<&str>,
    jobs: &[Job],
) -> Result<Report, AllocError>
    ensures { IfSome (F.contents files.now) (λ held. IfOk result (λ report. report_seen report
        ≡ all_jobs form (F.base files.now) held accepted.now
        (option_map (λ name. name.now) only.entry) no_report jobs.now)) }
{
    let mut report = no_report(alloc);
    let mut kept = Kept::none(alloc);
    for job in jobs {
        files.hear(report.totals.screens, jobs.len(), job.name.as_str());
        after_job(
            alloc,
            files,
            &mut kept,
            form,
            accepted,
            only,
            &mut report,
            job,
        )?;
    }
    Ok(report)
}

/// The log of a suite that is refused, whose manifest or folder has this path.
fn refused_log(alloc: Global, path: &str, words: &str) -> Result<String, AllocError>
    ensures { IfOk result (λ text. string_bytes text ≡ refused_log path.now words.now) }
{
    log_text(alloc, refused_results(alloc, path, 1, words)?)
}

/// The text of a suite that is refused.
fn refused_text(alloc: Global, form: Form, path: &str, words: &str) -> Result<String, AllocError>
    ensures { IfOk result (λ text. string_bytes text ≡ refused_text form path.now words.now) }
{
    let mut text = String::new(alloc);
    match form {
        Form::Text => {
            text.push_str(words)?;
            text.push_str("\n")?;
        }
        Form::Json => push_json_refusal(alloc, &mut text, words)?,
        Form::Junit => push_junit_refusal(&mut text, words)?,
        Form::Sarif => return refused_log(alloc, path, words),
    }
    Ok(text)
}

/// What is printed of a suite that is refused.
fn refused_suite(alloc: Global, form: Form, path: &str, words: &str) -> Result<Answer, AllocError>
    ensures { IfOk result (λ answer. answer_seen answer ≡ refused_suite form path.now words.now) }
{
    Ok(Answer {
        text: refused_text(alloc, form, path, words)?,
        status: Status::BadInput,
    })
}

fn has_asked(only: Option<&str>, jobs: &[Job]) -> bool
    ensures { result ≡ has_asked (option_map (λ name. name.now) only.entry) jobs.now }
{
    match only {
        Some(name) => has_name(name, jobs),
        None => true,
    }
}

/// What is printed of the screens of a suite, of which the one that is asked for is there.
fn some_jobs<F: Files>(
    alloc: Global,
    files: &F,
    form: Form,
    accepted: &[Accepted],
    only: Option<&str>,
    jobs: &[Job],
) -> Result<Answer, AllocError>
    ensures { IfSome (F.contents files.now) (λ held. IfOk result (λ answer. answer_seen answer
        ≡ some_jobs form (F.base files.now) held accepted.now
        (option_map (λ name. name.now) only.entry) jobs.now)) }
{
    let report = all_jobs(alloc, files, form, accepted, only, jobs)?;
    printed_report(alloc, form, report)
}

/// What `suite` prints of screens and of findings that are accepted: all screens, or the one of a name. Each is what `check`,
/// `talk` or `check --map` prints of its files; of a file that can't be read its path is told.
///
/// # Errors
///
/// Where a request for memory was refused.
pub fn suite_jobs<F: Files>(
    alloc: Global,
    files: &F,
    form: Form,
    only: Option<&str>,
    jobs: &[Job],
    accepted: &[Accepted],
) -> Result<Answer, AllocError>
    ensures { IfSome (F.contents files.now) (λ held. IfOk result (λ answer. answer_seen answer
        ≡ printed_jobs form (F.base files.now) (F.origin files.now) held
        (option_map (λ name. name.now) only.entry) jobs.now accepted.now)) }
{
    if has_asked(only, jobs) {
        some_jobs(alloc, files, form, accepted, only, jobs)
    } else {
        refused_suite(alloc, form, files.start(), "no screen of this name")
    }
}

fn fault_words(alloc: Global, fault: ManifestFault) -> Result<String, AllocError>
    ensures { IfOk result (λ words. string_bytes words ≡ fault_words fault) }
{
    format!(in alloc; "manifest refused: {fault}")
}

/// What `suite` prints of a manifest that was read, or why it is refused.
fn told_suite<F: Files>(
    alloc: Global,
    files: &F,
    form: Form,
    only: Option<&str>,
    manifest: &Manifest,
) -> Result<Answer, AllocError>
    ensures { IfSome (F.contents files.now) (λ held. IfOk result (λ answer. answer_seen answer
        ≡ told_suite form (F.base files.now) (F.origin files.now) held
        (option_map (λ name. name.now) only.entry) (manifest_seen manifest.now))) }
{
    let jobs = manifest.jobs.as_slice();
    suite_jobs(alloc, files, form, only, jobs, manifest.accepted.as_slice())
}

fn refused_manifest(
    alloc: Global,
    form: Form,
    path: &str,
    fault: ManifestFault,
) -> Result<Answer, AllocError>
    ensures { IfOk result (λ answer. answer_seen answer
        ≡ refused_suite form path.now (fault_words fault)) }
{
    let words = fault_words(alloc, fault)?;
    refused_suite(alloc, form, path, words.as_str())
}

/// Whether a text has more bytes than an input may have.
#[tactic(auto, unfolding(crate::specs::Suite::is_long))]
fn is_long(text: &[u8]) -> bool
    ensures { result ≡ is_long text.now }
{
    MOST_BYTES < text.len()
}

/// What `suite` prints of the text of a manifest: of all its screens, or of the one of a name. A manifest that is refused is an
/// answer of status `BadInput`.
///
/// # Errors
///
/// Where a request for memory was refused.
pub fn suite_text<F: Files>(
    alloc: Global,
    files: &F,
    form: Form,
    only: Option<&str>,
    manifest: &[u8],
) -> Result<Answer, AllocError>
    ensures { IfSome (F.contents files.now) (λ held. IfOk result (λ answer. answer_seen answer
        ≡ printed_suite form (F.base files.now) (F.origin files.now) held
        (option_map (λ name. name.now) only.entry) manifest.now)) }
{
    if is_long(manifest) {
        return refused_suite(alloc, form, files.start(), "manifest too long");
    }
    match manifest_in(alloc, manifest) {
        Ok(manifest) => told_suite(alloc, files, form, only, &manifest),
        Err(ManifestError::Refused(fault)) => {
            refused_manifest(alloc, form, files.start(), fault)
        }
        Err(ManifestError::OutOfMemory) => Err(AllocError),
    }
}

/// What `suite` prints of the files of a folder, whose paths are given in the order of the report: a screen for each `NAME.hex`
/// with `NAME.toml`, the maps of each `NAME.bms`, and a refusal for each `NAME.hex` or `NAME.toml` without the other.
///
/// # Errors
///
/// Where a request for memory was refused.
pub fn suite_folder<F: Files>(
    alloc: Global,
    files: &F,
    form: Form,
    only: Option<&str>,
    paths: &[String],
) -> Result<Answer, AllocError>
    ensures { IfSome (F.contents files.now) (λ held. IfOk result (λ answer. answer_seen answer
        ≡ printed_folder form (F.base files.now) (F.origin files.now) held
        (option_map (λ name. name.now) only.entry) (map string_bytes paths.now))) }
{
    let jobs = jobs_of_paths(alloc, paths)?;
    suite_jobs(alloc, files, form, only, jobs.as_slice(), &[])
}
