//! What is written on a drawing: the names of entries, frames and numbers of findings.

ghost use Rattle.std.specs.Prelude.{◌≡◌, ◌<◌, ◌≤◌, ◌+◌, ◌-◌, ◌++◌, length, IfOk, OnOk, string_bytes};
ghost use Rattle.std.specs.List.{flat_map, range_with_len};
ghost use Rattle.std.specs.Fmt.{decimal};
ghost use Rattle.scr_check.specs.FindingText.{finding_text};
ghost use Rattle.cli_pictures.specs.Marks.{place_of};
ghost use Rattle.cli_pictures.specs.Notes.{escaped_byte, escaped_text, notes_style, note_begin, note, name_element, name_on, names_from, frame_begin, frame_end, frame_element, part_element, parts, mark_words, mark, place_shown, marked_at, finding_element, findings_from};

use crate::marks::{Frame, begins_part, marked_length, part_frame, place_of, screen_frame};
use crate::room::{Stand, behind, stand_of};
use crate::svg::{corner_of, left_of, push_escaped, top_of};
use ds_screen::{PlaneCells, Screen};
use scr_check::Finding;
use scr_layout::Entry;
use std::alloc::{AllocError, Global};

/// The look of what is written.
const STYLE: &str =
    "<style>\ntext.name { fill: yellow; font: 8px monospace }\ntext.number { fill: yellow; font: 7px monospace; text-anchor: end }\ntext.mark { fill: #f66; font: 7px monospace; text-anchor: end }\ntext.list { fill: yellow; font: 12px monospace }\ntspan.finding { fill: #f66 }\nrect.finding { fill: none; stroke: red; pointer-events: all }\n</style>\n";

/// A byte as it is written in XML.
#[tactic(auto, unfolding(crate::specs::Notes::escaped_byte))]
fn push_byte(out: &mut String, byte: u8) -> Result<(), AllocError>
    ensures { OnOk result (string_bytes out.new ≡ string_bytes out.old ++ escaped_byte byte) }
{
    if byte < 128 {
        push_escaped(out, byte)
    } else {
        out.push_str("?")
    }
}

/// A text as it is written in XML.
pub(crate) fn push_words(out: &mut String, bytes: &[u8]) -> Result<(), AllocError>
    ensures { OnOk result (string_bytes out.new ≡ string_bytes out.old ++ escaped_text bytes.now) }
{
    for byte in bytes {
        push_byte(out, *byte)?;
    }
    Ok(())
}

#[tactic(auto, unfolding(crate::specs::Notes::notes_style))]
pub(crate) fn push_style(out: &mut String) -> Result<(), AllocError>
    ensures { OnOk result (string_bytes out.new ≡ string_bytes out.old ++ notes_style) }
{
    out.push_str(STYLE)
}

/// The begin of a text of a class.
#[tactic(auto, unfolding(crate::specs::Notes::note_begin))]
fn push_note_begin(out: &mut String, class: &str, x: u64, y: u64) -> Result<(), AllocError>
    ensures { OnOk result (string_bytes out.new
        ≡ string_bytes out.old ++ note_begin class.now x y) }
{
    write!(out, "<text class=\"{class}\" x=\"{x}\" y=\"{y}\">")
}

/// A text of a class.
fn push_note(out: &mut String, class: &str, x: u64, y: u64, words: &[u8]) -> Result<(), AllocError>
    ensures { OnOk result (string_bytes out.new
        ≡ string_bytes out.old ++ note class.now x y words.now) }
{
    push_note_begin(out, class, x, y)?;
    push_words(out, words)?;
    out.push_str("</text>\n")
}

/// A number.
fn decimal_text(alloc: Global, number: usize) -> Result<String, AllocError>
    ensures { IfOk result (λ text. string_bytes text ≡ decimal number) }
{
    format!(in alloc; "{number}")
}

/// The name of an entry above or behind its field, or its number before it.
fn push_name(
    alloc: Global,
    out: &mut String,
    columns: u16,
    stand: Stand,
    number: usize,
    entry: &Entry,
) -> Result<(), AllocError>
    requires { 0 < columns }
    ensures { OnOk result (string_bytes out.new
        ≡ string_bytes out.old ++ name_element columns stand number entry.now) }
{
    let place = u64::from(entry.place);
    let left = left_of(columns, place);
    let top = top_of(columns, place);
    let name = entry.name.as_bytes();
    match stand {
        Stand::Above => push_note(out, "name", left, top - 3, name),
        Stand::Behind => {
            let start = behind(entry);
            push_note(
                out,
                "name",
                left_of(columns, start),
                top_of(columns, start) + 14,
                name,
            )
        }
        Stand::Numbered => {
            let text = decimal_text(alloc, number)?;
            push_note(out, "number", left, top + 7, text.as_bytes())
        }
    }
}

/// The same, where its first cell is on the screen.
#[tactic(auto, unfolding(crate::specs::Notes::name_on))]
fn push_name_on(
    alloc: Global,
    out: &mut String,
    screen: &Screen<PlaneCells>,
    all: &[Entry],
    number: usize,
    entry: &Entry,
) -> Result<(), AllocError>
    ensures { OnOk result (string_bytes out.new
        ≡ string_bytes out.old ++ name_on screen.now all.now number entry.now) }
{
    let size = screen.size();
    if entry.place < size.cells() {
        let stand = stand_of(screen, all, entry);
        push_name(alloc, out, size.cols, stand, number, entry)
    } else {
        Ok(())
    }
}

/// The names of entries.
pub(crate) fn push_names(
    alloc: Global,
    out: &mut String,
    screen: &Screen<PlaneCells>,
    entries: &[Entry],
) -> Result<(), AllocError>
    ensures { OnOk result (string_bytes out.new
        ≡ string_bytes out.old ++ names_from screen.now entries.now 1 entries.now) }
{
    for (index, entry) in entries.iter().enumerate() {
        push_name_on(alloc, out, screen, entries, index + 1, entry)?;
    }
    Ok(())
}

/// The begin of a frame, up to its words.
#[tactic(auto, unfolding(crate::specs::Notes::frame_begin))]
fn push_frame_begin(out: &mut String, frame: Frame) -> Result<(), AllocError>
    ensures { OnOk result (string_bytes out.new ≡ string_bytes out.old ++ frame_begin frame) }
{
    let Frame {
        left,
        top,
        width,
        height,
    } = frame;
    write!(
        out,
        "<rect class=\"finding\" x=\"{left}\" y=\"{top}\" width=\"{width}\" height=\"{height}\"><title>"
    )
}

#[tactic(auto, unfolding(crate::specs::Notes::frame_end))]
fn push_frame_end(out: &mut String) -> Result<(), AllocError>
    ensures { OnOk result (string_bytes out.new ≡ string_bytes out.old ++ frame_end) }
{
    out.push_str("</title></rect>\n")
}

/// A frame that tells some words.
fn push_frame(out: &mut String, frame: Frame, words: &[u8]) -> Result<(), AllocError>
    ensures { OnOk result (string_bytes out.new
        ≡ string_bytes out.old ++ frame_element frame words.now) }
{
    push_frame_begin(out, frame)?;
    push_words(out, words)?;
    push_frame_end(out)
}

/// The frame of the part of a row that begins at a position, if one does.
#[tactic(auto, unfolding(crate::specs::Notes::part_element))]
fn push_part(
    out: &mut String,
    screen: &Screen<PlaneCells>,
    p: u32,
    count: u32,
    words: &[u8],
    steps: u32,
) -> Result<(), AllocError>
    requires { steps < count }
    ensures { OnOk result (string_bytes out.new
        ≡ string_bytes out.old ++ part_element screen.now p count words.now steps) }
{
    if begins_part(screen, p, steps) {
        push_frame(out, part_frame(screen, p, count, steps), words)
    } else {
        Ok(())
    }
}

/// The frames round so many cells, row by row.
fn push_parts(
    out: &mut String,
    screen: &Screen<PlaneCells>,
    p: u32,
    count: u32,
    words: &[u8],
) -> Result<(), AllocError>
    ensures { OnOk result (string_bytes out.new
        ≡ string_bytes out.old ++ parts screen.now p count words.now) }
{
    for steps in 0..count {
        push_part(out, screen, p, count, words, steps)?;
    }
    Ok(())
}

/// How a finding is known in the drawing and in the list.
pub(crate) fn mark_text(alloc: Global, number: usize) -> Result<String, AllocError>
    ensures { IfOk result (λ text. string_bytes text ≡ mark_words number) }
{
    format!(in alloc; "!{number}")
}

/// The same before a place.
fn push_mark(
    alloc: Global,
    out: &mut String,
    columns: u16,
    p: u32,
    number: usize,
) -> Result<(), AllocError>
    requires { 0 < columns }
    ensures { OnOk result (string_bytes out.new ≡ string_bytes out.old ++ mark columns p number) }
{
    let text = mark_text(alloc, number)?;
    let p = u64::from(p);
    push_note(
        out,
        "mark",
        left_of(columns, p),
        top_of(columns, p) + 18,
        text.as_bytes(),
    )
}

/// The words of a finding.
pub(crate) fn words_of(
    alloc: Global,
    entries: &[Entry],
    finding: &Finding,
) -> Result<String, AllocError>
    ensures { IfOk result (λ words. string_bytes words ≡ finding_text entries.now finding.now) }
{
    let mut words = String::new(alloc);
    finding.push_text(&mut words, entries)?;
    Ok(words)
}

/// The place of a finding that is on the screen.
fn place_on_screen(screen: &Screen<PlaneCells>, entries: &[Entry], finding: &Finding) -> Option<u32>
    ensures { result ≡ place_shown screen.now (place_of entries.now finding.now) }
{
    let place = place_of(entries, finding)?;
    if place < screen.size().cells() {
        Some(place)
    } else {
        None
    }
}

/// Frames with a finding's words, and its number before them.
#[tactic(auto, unfolding(crate::specs::Notes::finding_element))]
fn push_finding(
    alloc: Global,
    out: &mut String,
    screen: &Screen<PlaneCells>,
    entries: &[Entry],
    number: usize,
    finding: &Finding,
) -> Result<(), AllocError>
    ensures { OnOk result (string_bytes out.new
        ≡ string_bytes out.old ++ finding_element screen.now entries.now number finding.now) }
{
    let words = words_of(alloc, entries, finding)?;
    let size = screen.size();
    match place_on_screen(screen, entries, finding) {
        Some(p) => {
            let count = marked_length(screen, entries, finding, p);
            push_parts(out, screen, p, count, words.as_bytes())?;
            push_mark(alloc, out, size.cols, p, number)
        }
        None => {
            push_frame(out, screen_frame(size), words.as_bytes())?;
            push_mark(alloc, out, size.cols, 0, number)
        }
    }
}

/// The frames of findings.
pub(crate) fn push_findings(
    alloc: Global,
    out: &mut String,
    screen: &Screen<PlaneCells>,
    entries: &[Entry],
    findings: &[Finding],
) -> Result<(), AllocError>
    ensures { OnOk result (string_bytes out.new
        ≡ string_bytes out.old ++ findings_from screen.now entries.now 1 findings.now) }
{
    for (index, finding) in findings.iter().enumerate() {
        push_finding(alloc, out, screen, entries, index + 1, finding)?;
    }
    Ok(())
}
