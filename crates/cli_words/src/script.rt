//! What the words of `script` ask for.

ghost use Rattle.std.specs.Prelude.{◌≡◌};
ghost use Rattle.clap.specs.Words.{found_of, rows_of};
ghost use Rattle.cli_words.specs.Script.{IsCodePage, IsReportFormat, IsScript};

use crate::asked::{path_in, text_in};
use clap::ArgMatches;
use script_checks::ReportFormat;
use script_screens::CodePage;

/// What is asked of `script`.
#[derive(Clone, Copy)]
pub struct ScriptAsked<'a> {
    /// The host that is connected before the first line, and its port.
    pub host: Option<&'a str>,
    pub device: &'a str,
    pub code_page: CodePage,
    /// The folder of the layouts by which screens are judged.
    pub layouts: Option<&'a str>,
    /// The file of the report.
    pub report: Option<&'a str>,
    pub report_format: ReportFormat,
}

fn code_page_in(words: &ArgMatches<'_>) -> CodePage
    ensures { IsCodePage (rows_of (found_of words.now)) result }
{
    match text_in(words, "code-page") {
        "037" => CodePage::CodePage037,
        _ => CodePage::Bracket,
    }
}

fn report_format_in(words: &ArgMatches<'_>) -> ReportFormat
    ensures { IsReportFormat (rows_of (found_of words.now)) result }
{
    match text_in(words, "report-format") {
        "json" => ReportFormat::Json,
        "junit" => ReportFormat::Junit,
        _ => ReportFormat::Text,
    }
}

/// What the words of `script` ask for.
pub(crate) fn script_of<'a>(words: &ArgMatches<'a>) -> ScriptAsked<'a>
    ensures { IsScript (rows_of (found_of words.now)) result }
{
    ScriptAsked {
        host: path_in(words, "HOST"),
        device: text_in(words, "device"),
        code_page: code_page_in(words),
        layouts: path_in(words, "layouts"),
        report: path_in(words, "report"),
        report_format: report_format_in(words),
    }
}
