//! The list below a drawing: the names whose numbers stand in it, and the words of findings.

ghost use Rattle.std.specs.Prelude.{◌≡◌, ◌≤◌, ◌+◌, ◌++◌, codes, map, IfOk, OnOk, string_bytes};
ghost use Rattle.std.specs.List.{flat_map};
ghost use Rattle.std.specs.Fmt.{decimal};
ghost use Rattle.scr_check.specs.FindingText.{finding_text};
ghost use Rattle.cli_pictures.specs.Notes.{is_listed, names_listed, findings_listed, line_begin, list_line, list_lines, list_begin, list_element, widest, wide, high, mark_words};
ghost use Rattle.cli_pictures.specs.Annotated.{notes, below, listed_svg, annotated_svg};

use crate::notes::{mark_text, push_findings, push_names, push_style, push_words, words_of};
use crate::room::{Stand, stand_of};
use crate::svg::{push_cursor, push_lines, push_sized_head, push_texts};
use ds_codec::Size;
use ds_screen::{PlaneCells, Screen};
use scr_check::Finding;
use scr_layout::Entry;
use std::alloc::{AllocError, Global};

/// The lines of the list.
#[derive(Drop)]
pub(crate) struct ListLines {
    pub names: Vec<String>,
    pub findings: Vec<String>,
}

/// Whether the number of an entry stands in the drawing.
fn is_listed(screen: &Screen<PlaneCells>, all: &[Entry], entry: &Entry) -> bool
    ensures { result ≡ is_listed screen.now all.now entry.now }
{
    if entry.place >= screen.size().cells() {
        return false;
    }
    match stand_of(screen, all, entry) {
        Stand::Above | Stand::Behind => false,
        Stand::Numbered => true,
    }
}

/// A number and a name.
fn name_text(alloc: Global, number: usize, name: &str) -> Result<String, AllocError>
    ensures { IfOk result (λ text. string_bytes text
        ≡ decimal number ++ (codes " " ++ name.now)) }
{
    format!(in alloc; "{number} {name}")
}

/// The entries whose numbers stand in the drawing, each by its number and its name.
fn names_listed(
    alloc: Global,
    screen: &Screen<PlaneCells>,
    entries: &[Entry],
) -> Result<Vec<String>, AllocError>
    ensures { IfOk result (λ lines. map string_bytes lines.items
        ≡ names_listed screen.now entries.now 1 entries.now) }
{
    let mut lines = Vec::new(alloc);
    for (index, entry) in entries.iter().enumerate() {
        if is_listed(screen, entries, entry) {
            lines.push(name_text(alloc, index + 1, entry.name.as_str())?)?;
        }
    }
    Ok(lines)
}

/// A finding by its number and its words.
fn finding_line(
    alloc: Global,
    entries: &[Entry],
    number: usize,
    finding: &Finding,
) -> Result<String, AllocError>
    ensures { IfOk result (λ text. string_bytes text
        ≡ mark_words number ++ (codes " " ++ finding_text entries.now finding.now)) }
{
    let mut text = mark_text(alloc, number)?;
    text.push_str(" ")?;
    let words = words_of(alloc, entries, finding)?;
    text.push_str(words.as_str())?;
    Ok(text)
}

/// The findings, each by its number and its words.
fn findings_listed(
    alloc: Global,
    entries: &[Entry],
    findings: &[Finding],
) -> Result<Vec<String>, AllocError>
    ensures { IfOk result (λ lines. map string_bytes lines.items
        ≡ findings_listed entries.now 1 findings.now) }
{
    let mut lines = Vec::new(alloc);
    for (index, finding) in findings.iter().enumerate() {
        lines.push(finding_line(alloc, entries, index + 1, finding)?)?;
    }
    Ok(lines)
}

/// The lines of the list of a drawing.
pub(crate) fn listed(
    alloc: Global,
    screen: &Screen<PlaneCells>,
    entries: &[Entry],
    findings: &[Finding],
) -> Result<ListLines, AllocError>
    ensures names { IfOk result (λ list. map string_bytes list.names.items
        ≡ names_listed screen.now entries.now 1 entries.now) }
    ensures findings { IfOk result (λ list. map string_bytes list.findings.items
        ≡ findings_listed entries.now 1 findings.now) }
{
    Ok(ListLines {
        names: names_listed(alloc, screen, entries)?,
        findings: findings_listed(alloc, entries, findings)?,
    })
}

#[tactic(auto, unfolding(crate::specs::Notes::line_begin))]
fn push_line_begin(out: &mut String, class: &str) -> Result<(), AllocError>
    ensures { OnOk result (string_bytes out.new ≡ string_bytes out.old ++ line_begin class.now) }
{
    write!(out, "<tspan{class} x=\"10\" dy=\"16\">")
}

/// A line of the list.
fn push_line(out: &mut String, class: &str, words: &[u8]) -> Result<(), AllocError>
    ensures { OnOk result (string_bytes out.new
        ≡ string_bytes out.old ++ list_line class.now words.now) }
{
    push_line_begin(out, class)?;
    push_words(out, words)?;
    out.push_str("</tspan>\n")
}

fn push_all(out: &mut String, class: &str, lines: &[String]) -> Result<(), AllocError>
    ensures { OnOk result (string_bytes out.new
        ≡ string_bytes out.old ++ list_lines class.now (map string_bytes lines.now)) }
{
    for line in lines {
        push_line(out, class, line.as_bytes())?;
    }
    Ok(())
}

#[tactic(auto, unfolding(crate::specs::Notes::list_begin))]
fn push_list_begin(out: &mut String, y: u32) -> Result<(), AllocError>
    ensures { OnOk result (string_bytes out.new ≡ string_bytes out.old ++ list_begin y) }
{
    write!(out, "<text class=\"list\" x=\"10\" y=\"{y}\">\n")
}

/// The list.
pub(crate) fn push_list(out: &mut String, size: Size, list: &ListLines) -> Result<(), AllocError>
    ensures { OnOk result (string_bytes out.new ≡ string_bytes out.old
        ++ list_element size (map string_bytes list.now.names.items) (map string_bytes list.now.findings.items)) }
{
    push_list_begin(out, 20 * u32::from(size.rows) + 16)?;
    push_all(out, "", list.names.as_slice())?;
    push_all(out, " class=\"finding\"", list.findings.as_slice())?;
    out.push_str("</text>\n")
}

/// How long the longest of these lines is, 1,000 at most.
fn widest(lines: &[String]) -> u32
    ensures value { result ≡ widest (map string_bytes lines.now) }
    ensures few { result ≤ 1000 }
{
    let mut most = 0;
    for line in lines {
        most = most.max(line.len().min(1000) as u32);
    }
    most
}

/// How wide the drawing is.
pub(crate) fn wide(size: Size, list: &ListLines) -> u32
    ensures { result
        ≡ wide size (map string_bytes list.now.names.items) (map string_bytes list.now.findings.items) }
{
    let longest = widest(list.names.as_slice()).max(widest(list.findings.as_slice()));
    (10 * u32::from(size.cols) + 20).max(8 * longest + 20)
}

/// How high the drawing is.
pub(crate) fn high(size: Size, list: &ListLines) -> u32
    ensures { result
        ≡ high size (map string_bytes list.now.names.items) (map string_bytes list.now.findings.items) }
{
    let lines = list.names.len().min(100_000) + list.findings.len().min(100_000);
    20 * u32::from(size.rows) + 20 + 16 * lines as u32
}

fn push_notes(
    alloc: Global,
    out: &mut String,
    screen: &Screen<PlaneCells>,
    entries: &[Entry],
    findings: &[Finding],
) -> Result<(), AllocError>
    ensures { OnOk result (string_bytes out.new
        ≡ string_bytes out.old ++ notes entries.now findings.now screen.now) }
{
    push_style(out)?;
    push_names(alloc, out, screen, entries)?;
    push_findings(alloc, out, screen, entries, findings)
}

/// What comes after the screen: what is written on it, and the list.
fn push_below(
    alloc: Global,
    out: &mut String,
    screen: &Screen<PlaneCells>,
    entries: &[Entry],
    findings: &[Finding],
    list: &ListLines,
) -> Result<(), AllocError>
    ensures { OnOk result (string_bytes out.new ≡ string_bytes out.old
        ++ below entries.now findings.now screen.now (map string_bytes list.now.names.items) (map string_bytes list.now.findings.items)) }
{
    push_notes(alloc, out, screen, entries, findings)?;
    push_list(out, screen.size(), list)?;
    out.push_str("</svg>\n")
}

/// The drawing with these lines in its list.
fn push_listed(
    alloc: Global,
    out: &mut String,
    screen: &Screen<PlaneCells>,
    entries: &[Entry],
    findings: &[Finding],
    list: &ListLines,
) -> Result<(), AllocError>
    ensures { OnOk result (string_bytes out.new ≡ string_bytes out.old
        ++ listed_svg entries.now findings.now screen.now (map string_bytes list.now.names.items) (map string_bytes list.now.findings.items)) }
{
    let size = screen.size();
    push_sized_head(out, screen, wide(size, list), high(size, list))?;
    push_lines(out, screen)?;
    push_texts(out, screen)?;
    push_cursor(out, size.cols, screen.cursor())?;
    push_below(alloc, out, screen, entries, findings, list)
}

/// The drawing with the names of entries and with findings.
#[tactic(auto, using(crate::proofs::ListLaws::same_list), unfolding(crate::specs::Annotated::annotated_svg))]
pub(crate) fn push_annotated_svg(
    alloc: Global,
    out: &mut String,
    screen: &Screen<PlaneCells>,
    entries: &[Entry],
    findings: &[Finding],
) -> Result<(), AllocError>
    ensures { OnOk result (string_bytes out.new
        ≡ string_bytes out.old ++ annotated_svg entries.now findings.now screen.now) }
{
    let list = listed(alloc, screen, entries, findings)?;
    push_listed(alloc, out, screen, entries, findings, &list)
}
