//! What is told of screens, in the forms of a report.

ghost use Rattle.std.specs.Prelude.{◌≡◌, ◌++◌, [], map, IfOk, OnOk, string_bytes, false};
ghost use Rattle.std.specs.Str.{is_utf8};
ghost use Rattle.script_checks.specs.Forms.{screen_text, told_words, told_texts, plain_byte, shown_name, form_lines, case_name, counted, json_byte, json_text, quoted, with_comma, quoted_after, verdict_word, numbered, json_lines, json_name, json_verdict, json_case, json_end, failure_begin, failed_part, refused_part, case_begin, head, xml_byte, xml_text, xml_line, xml_lines, told_part, junit_case, junit_begin, most, no_totals, counted_in, due_at_once, due_later, due_at_the_end};
ghost use Rattle.script_checks.specs.Lines.{line_after, lines_after};
ghost use Rattle.script_checks.specs.ToldView.{told_seen};

use crate::lines::{PLAIN, push_clean, push_decimal, push_line};
use crate::told::{Told, Verdict};
use std::alloc::{AllocError, Global};

/// The form of a report.
#[derive(Clone, Copy, Debug, PartialEq, Eq)]
pub enum ReportFormat {
    /// A line for each screen, and its findings below it, each on a line.
    Text,
    /// A JSON object on a line for each screen, and one of the totals.
    Json,
    /// The XML of JUnit: a test case for each screen.
    Junit,
}

/// How many screens were judged, and what became of them.
#[derive(Clone, Copy, Debug, PartialEq, Eq)]
pub(crate) struct Totals {
    pub screens: u64,
    pub yes: u64,
    pub no: u64,
    pub refused: u64,
    pub findings: u64,
}

/// None yet.
pub(crate) fn no_totals() -> Totals
    ensures { result ≡ no_totals }
{
    Totals {
        screens: 0,
        yes: 0,
        no: 0,
        refused: 0,
        findings: 0,
    }
}

/// A sum, at most 18,446,744,073,709,551,615.
fn most(count: u64, more: u64) -> u64
    ensures { result ≡ most count more }
{
    count.saturating_add(more)
}

/// The totals with one more screen.
pub(crate) fn counted_in(totals: Totals, told: &Told) -> Totals
    ensures { result ≡ counted_in totals (told_seen told.now) told.now.verdict }
{
    let screens = most(totals.screens, 1);
    match told.verdict {
        Verdict::NoLayout => totals,
        Verdict::NotKept => Totals {
            screens,
            refused: most(totals.refused, 1),
            ..totals
        },
        Verdict::Yes => Totals {
            screens,
            yes: most(totals.yes, 1),
            ..totals
        },
        Verdict::No => Totals {
            screens,
            no: most(totals.no, 1),
            findings: most(totals.findings, told.findings),
            ..totals
        },
    }
}

// ---- a text

/// Adds what is said of a screen.
fn push_words(out: &mut Vec<u8>, name: &[u8], verdict: Verdict) -> Result<(), AllocError>
    ensures { OnOk result (out.new.items ≡ out.old.items ++ told_words name.now verdict) }
{
    match verdict {
        Verdict::NoLayout => out.extend_from_slice(b"none"),
        Verdict::NotKept => {
            push_clean(out, name)?;
            out.extend_from_slice(b" input too long")
        }
        Verdict::Yes => {
            push_clean(out, name)?;
            out.extend_from_slice(b" yes")
        }
        Verdict::No => {
            push_clean(out, name)?;
            out.extend_from_slice(b" no")
        }
    }
}

/// Adds the line of a screen.
fn push_screen(
    out: &mut Vec<u8>,
    number: u64,
    name: &[u8],
    verdict: Verdict,
) -> Result<(), AllocError>
    ensures { OnOk result (out.new.items
        ≡ out.old.items ++ line_after [] (screen_text number (told_words name.now verdict))) }
{
    out.extend_from_slice(b"screen ")?;
    push_decimal(out, number)?;
    out.extend_from_slice(b" ")?;
    push_words(out, name, verdict)?;
    out.extend_from_slice(b"\n")
}

fn push_lines(out: &mut Vec<u8>, lines: &[String]) -> Result<(), AllocError>
    ensures { OnOk result (out.new.items
        ≡ out.old.items ++ lines_after [] (map string_bytes lines.now)) }
{
    for line in lines {
        push_line(out, PLAIN, line.as_bytes())?;
    }
    Ok(())
}

fn push_text(out: &mut Vec<u8>, number: u64, told: &Told) -> Result<(), AllocError>
    ensures { OnOk result (out.new.items
        ≡ out.old.items ++ lines_after [] (told_texts number (told_seen told.now))) }
{
    push_screen(out, number, &told.name, told.verdict)?;
    push_lines(out, told.lines.as_slice())
}

// ---- names

fn plain_byte(byte: u8) -> u8
    ensures { result ≡ plain_byte byte }
{
    if byte < 0x20 || 0x7E < byte {
        b'?'
    } else {
        byte
    }
}

fn push_plain(out: &mut Vec<u8>, name: &[u8]) -> Result<(), AllocError>
    ensures { OnOk result (out.new.items ≡ out.old.items ++ map plain_byte name.now) }
{
    for byte in name {
        out.push(plain_byte(*byte))?;
    }
    Ok(())
}

/// Whether a name is UTF-8.
fn is_text(name: &[u8]) -> bool
    ensures { result ≡ is_utf8 name.now }
{
    match str::from_utf8(name) {
        Ok(_text) => true,
        Err(_) => false,
    }
}

fn push_name(out: &mut Vec<u8>, name: &[u8]) -> Result<(), AllocError>
    ensures { OnOk result (out.new.items ≡ out.old.items ++ shown_name name.now) }
{
    if is_text(name) {
        push_clean(out, name)
    } else {
        push_plain(out, name)
    }
}

/// The name of a screen's case: its number, and the name of its layout's file.
fn case_name(alloc: Global, number: u64, name: &[u8]) -> Result<Vec<u8>, AllocError>
    ensures { IfOk result (λ v. v.items ≡ case_name number name.now) }
{
    let mut text = Vec::new(alloc);
    push_decimal(&mut text, number)?;
    text.extend_from_slice(b" ")?;
    push_name(&mut text, name)?;
    Ok(text)
}

// ---- JSON

fn push_json_byte(out: &mut Vec<u8>, byte: u8) -> Result<(), AllocError>
    ensures { OnOk result (out.new.items ≡ out.old.items ++ json_byte byte) }
{
    if byte == b'"' || byte == b'\\' {
        out.push(b'\\')?;
    }
    out.push(byte)?;
    Ok(())
}

fn push_json_text(out: &mut Vec<u8>, text: &[u8]) -> Result<(), AllocError>
    ensures { OnOk result (out.new.items ≡ out.old.items ++ json_text text.now) }
{
    for byte in text {
        push_json_byte(out, *byte)?;
    }
    Ok(())
}

#[tactic(auto, unfolding(crate::specs::Forms::quoted))]
fn push_quoted(out: &mut Vec<u8>, text: &[u8]) -> Result<(), AllocError>
    ensures { OnOk result (out.new.items ≡ out.old.items ++ quoted text.now) }
{
    out.extend_from_slice(b"\"")?;
    push_json_text(out, text)?;
    out.extend_from_slice(b"\"")
}

fn push_later(out: &mut Vec<u8>, later: bool, text: &[u8]) -> Result<(), AllocError>
    ensures { OnOk result (out.new.items ≡ out.old.items ++ with_comma later text.now) }
{
    if later {
        out.extend_from_slice(b",")?;
    }
    push_quoted(out, text)
}

fn push_all_quoted(out: &mut Vec<u8>, lines: &[String]) -> Result<(), AllocError>
    ensures { OnOk result (out.new.items
        ≡ out.old.items ++ quoted_after false (map string_bytes lines.now)) }
{
    let mut later = false;
    for line in lines {
        push_later(out, later, line.as_bytes())?;
        later = true;
    }
    Ok(())
}

fn push_json_lines(out: &mut Vec<u8>, told: &Told) -> Result<(), AllocError>
    ensures { OnOk result (out.new.items ≡ out.old.items
        ++ quoted_after false (form_lines told.now.verdict (told_seen told.now).lines)) }
{
    match told.verdict {
        Verdict::NotKept => push_quoted(out, b"input too long"),
        Verdict::NoLayout | Verdict::Yes | Verdict::No => {
            push_all_quoted(out, told.lines.as_slice())
        }
    }
}

fn verdict_word(verdict: Verdict) -> &'static str
    ensures { result.now ≡ verdict_word verdict }
{
    match verdict {
        Verdict::NoLayout => "none",
        Verdict::NotKept => "refused",
        Verdict::Yes => "yes",
        Verdict::No => "no",
    }
}

/// Adds a label, and a number after it.
#[tactic(auto, unfolding(crate::specs::Forms::numbered))]
fn push_numbered(out: &mut Vec<u8>, label: &[u8], number: u64) -> Result<(), AllocError>
    ensures { OnOk result (out.new.items ≡ out.old.items ++ numbered label.now number) }
{
    out.extend_from_slice(label)?;
    push_decimal(out, number)
}

/// Adds what a screen's object begins with: how many findings there are, and their lines.
#[tactic(auto, unfolding(crate::specs::Forms::json_lines))]
fn push_json_begin(out: &mut Vec<u8>, told: &Told) -> Result<(), AllocError>
    ensures { OnOk result (out.new.items
        ≡ out.old.items ++ json_lines (told_seen told.now)) }
{
    push_numbered(out, b"{\"accepted\":[],\"findings\":", told.findings)?;
    out.extend_from_slice(b",\"lines\":[")?;
    push_json_lines(out, told)
}

/// Adds its name.
#[tactic(auto, unfolding(crate::specs::Forms::json_name))]
fn push_json_name(out: &mut Vec<u8>, name: &[u8]) -> Result<(), AllocError>
    ensures { OnOk result (out.new.items ≡ out.old.items ++ json_name name.now) }
{
    out.extend_from_slice(b"],\"screen\":")?;
    push_quoted(out, name)?;
    Ok(())
}

/// Adds what it ends with: its verdict.
#[tactic(auto, unfolding(crate::specs::Forms::json_verdict))]
fn push_json_verdict(out: &mut Vec<u8>, verdict: Verdict) -> Result<(), AllocError>
    ensures { OnOk result (out.new.items ≡ out.old.items ++ json_verdict verdict) }
{
    out.extend_from_slice(b",\"verdict\":")?;
    push_quoted(out, verdict_word(verdict).as_bytes())?;
    out.extend_from_slice(b"}\n")
}

fn push_json_case(
    alloc: Global,
    out: &mut Vec<u8>,
    number: u64,
    told: &Told,
) -> Result<(), AllocError>
    ensures { OnOk result (out.new.items
        ≡ out.old.items ++ json_case number (told_seen told.now)) }
{
    let name = case_name(alloc, number, &told.name)?;
    push_json_begin(out, told)?;
    push_json_name(out, &name)?;
    push_json_verdict(out, told.verdict)
}

#[tactic(auto, unfolding(crate::specs::Forms::json_end))]
fn push_json_end(out: &mut Vec<u8>, totals: Totals) -> Result<(), AllocError>
    ensures { OnOk result (out.new.items ≡ out.old.items ++ json_end totals) }
{
    push_numbered(out, b"{\"accepted\":0,\"findings\":", totals.findings)?;
    push_numbered(out, b",\"no\":", totals.no)?;
    push_numbered(out, b",\"refused\":", totals.refused)?;
    push_numbered(out, b",\"screens\":", totals.screens)?;
    push_numbered(out, b",\"yes\":", totals.yes)?;
    out.extend_from_slice(b"}\n")
}

// ---- XML

fn push_xml_byte(out: &mut Vec<u8>, byte: u8) -> Result<(), AllocError>
    ensures { OnOk result (out.new.items ≡ out.old.items ++ xml_byte byte) }
{
    match byte {
        b'&' => out.extend_from_slice(b"&amp;"),
        b'<' => out.extend_from_slice(b"&lt;"),
        b'>' => out.extend_from_slice(b"&gt;"),
        b'"' => out.extend_from_slice(b"&quot;"),
        _ => {
            out.push(byte)?;
            Ok(())
        }
    }
}

fn push_xml_text(out: &mut Vec<u8>, text: &[u8]) -> Result<(), AllocError>
    ensures { OnOk result (out.new.items ≡ out.old.items ++ xml_text text.now) }
{
    for byte in text {
        push_xml_byte(out, *byte)?;
    }
    Ok(())
}

fn push_xml_line(out: &mut Vec<u8>, line: &[u8]) -> Result<(), AllocError>
    ensures { OnOk result (out.new.items ≡ out.old.items ++ xml_line line.now) }
{
    push_xml_text(out, line)?;
    out.extend_from_slice(b"\n")
}

fn push_xml_lines(out: &mut Vec<u8>, lines: &[String]) -> Result<(), AllocError>
    ensures { OnOk result (out.new.items
        ≡ out.old.items ++ xml_lines (map string_bytes lines.now)) }
{
    for line in lines {
        push_xml_line(out, line.as_bytes())?;
    }
    Ok(())
}

#[tactic(auto, unfolding(crate::specs::Forms::counted))]
fn push_counted(out: &mut Vec<u8>, count: u64) -> Result<(), AllocError>
    ensures { OnOk result (out.new.items ≡ out.old.items ++ counted count) }
{
    push_decimal(out, count)?;
    if count == 1 {
        out.extend_from_slice(b" finding")
    } else {
        out.extend_from_slice(b" findings")
    }
}

/// Adds how many findings there are.
#[tactic(auto, unfolding(crate::specs::Forms::failure_begin))]
fn push_failure(out: &mut Vec<u8>, findings: u64) -> Result<(), AllocError>
    ensures { OnOk result (out.new.items ≡ out.old.items ++ failure_begin findings) }
{
    out.extend_from_slice(b"<failure message=\"")?;
    push_counted(out, findings)?;
    out.extend_from_slice(b"\">")
}

#[tactic(auto, unfolding(crate::specs::Forms::failed_part))]
fn push_failed(out: &mut Vec<u8>, told: &Told) -> Result<(), AllocError>
    ensures { OnOk result (out.new.items
        ≡ out.old.items ++ failed_part (told_seen told.now)) }
{
    push_failure(out, told.findings)?;
    push_xml_lines(out, told.lines.as_slice())?;
    out.extend_from_slice(b"</failure>\n")
}

#[tactic(auto, unfolding(crate::specs::Forms::refused_part))]
fn push_refused(out: &mut Vec<u8>) -> Result<(), AllocError>
    ensures { OnOk result (out.new.items ≡ out.old.items ++ refused_part) }
{
    out.extend_from_slice(b"<error message=\"refused\">")?;
    push_xml_line(out, b"input too long")?;
    out.extend_from_slice(b"</error>\n")
}

#[tactic(auto, unfolding(crate::specs::Forms::told_part))]
fn push_told_part(out: &mut Vec<u8>, told: &Told) -> Result<(), AllocError>
    ensures { OnOk result (out.new.items
        ≡ out.old.items ++ told_part (told_seen told.now) told.now.verdict) }
{
    match told.verdict {
        Verdict::NoLayout | Verdict::Yes => Ok(()),
        Verdict::NotKept => push_refused(out),
        Verdict::No => push_failed(out, told),
    }
}

#[tactic(auto, unfolding(crate::specs::Forms::case_begin))]
fn push_case_begin(out: &mut Vec<u8>, name: &[u8]) -> Result<(), AllocError>
    ensures { OnOk result (out.new.items ≡ out.old.items ++ case_begin name.now) }
{
    out.extend_from_slice(b"<testcase classname=\"screens\" name=\"")?;
    push_xml_text(out, name)?;
    out.extend_from_slice(b"\">\n")
}

fn push_junit_case(
    alloc: Global,
    out: &mut Vec<u8>,
    number: u64,
    told: &Told,
) -> Result<(), AllocError>
    ensures { OnOk result (out.new.items
        ≡ out.old.items ++ junit_case number (told_seen told.now)) }
{
    let name = case_name(alloc, number, &told.name)?;
    push_case_begin(out, &name)?;
    push_told_part(out, told)?;
    out.extend_from_slice(b"</testcase>\n")
}

#[tactic(auto, unfolding(crate::specs::Forms::head))]
fn push_head(out: &mut Vec<u8>) -> Result<(), AllocError>
    ensures { OnOk result (out.new.items ≡ out.old.items ++ head) }
{
    out.extend_from_slice(
        b"<?xml version=\"1.0\" encoding=\"UTF-8\"?>\n<testsuites>\n<testsuite name=\"term3270 script\"",
    )
}

#[tactic(auto, unfolding(crate::specs::Forms::junit_begin))]
fn push_junit_begin(out: &mut Vec<u8>, totals: Totals) -> Result<(), AllocError>
    ensures { OnOk result (out.new.items ≡ out.old.items ++ junit_begin totals) }
{
    push_head(out)?;
    push_numbered(out, b" tests=\"", totals.screens)?;
    push_numbered(out, b"\" failures=\"", totals.no)?;
    push_numbered(out, b"\" errors=\"", totals.refused)?;
    out.extend_from_slice(b"\">\n")
}

// ---- all forms

/// Adds what is due of a screen at once.
pub(crate) fn push_at_once(
    alloc: Global,
    format: ReportFormat,
    out: &mut Vec<u8>,
    number: u64,
    told: &Told,
) -> Result<(), AllocError>
    ensures { OnOk result (out.new.items
        ≡ out.old.items ++ due_at_once format number (told_seen told.now)) }
{
    match (format, told.verdict) {
        (ReportFormat::Text, _) => push_text(out, number, told),
        (ReportFormat::Junit, _) | (ReportFormat::Json, Verdict::NoLayout) => Ok(()),
        (ReportFormat::Json, Verdict::NotKept | Verdict::Yes | Verdict::No) => {
            push_json_case(alloc, out, number, told)
        }
    }
}

/// Adds what is due of it at the end.
pub(crate) fn push_later_due(
    alloc: Global,
    format: ReportFormat,
    out: &mut Vec<u8>,
    number: u64,
    told: &Told,
) -> Result<(), AllocError>
    ensures { OnOk result (out.new.items
        ≡ out.old.items ++ due_later format number (told_seen told.now)) }
{
    match (format, told.verdict) {
        (ReportFormat::Text | ReportFormat::Json, _) | (ReportFormat::Junit, Verdict::NoLayout) =>
            Ok(()),
        (ReportFormat::Junit, Verdict::NotKept | Verdict::Yes | Verdict::No) => {
            push_junit_case(alloc, out, number, told)
        }
    }
}

/// Adds what is due at the end, after these cases.
pub(crate) fn push_end(
    format: ReportFormat,
    out: &mut Vec<u8>,
    totals: Totals,
    cases: &[u8],
) -> Result<(), AllocError>
    ensures { OnOk result (out.new.items
        ≡ out.old.items ++ due_at_the_end format totals cases.now) }
{
    match format {
        ReportFormat::Text => Ok(()),
        ReportFormat::Json => push_json_end(out, totals),
        ReportFormat::Junit => {
            push_junit_begin(out, totals)?;
            out.extend_from_slice(cases)?;
            out.extend_from_slice(b"</testsuite>\n</testsuites>\n")
        }
    }
}
