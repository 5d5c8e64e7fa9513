//! A screen as a drawing in SVG. A cell has 10 by 20 units, and round all of them is a margin of 10.

ghost use Rattle.std.specs.Prelude.{◌≡◌, ◌<◌, ◌≤◌, ◌+◌, ◌*◌, ◌%◌, ◌^◌, ◌++◌, length, OnOk, if◌then◌else◌, string_bytes};
ghost use Rattle.std.specs.List.{flat_map};
ghost use Rattle.cli_pictures.specs.Seen.{seen_at};
ghost use Rattle.cli_pictures.specs.Svg.{left_of, top_of, places, escaped, class_of, text_element, seen_text, text_at, line_element, begins_line, line_at, size_words, cursor_words, cursor_place, keyboard_words, title, title_line, root_line, style_lines, sized_head, head_lines, box_element, cursor_element, svg_element};

use crate::seen::{open_length, ruling, seen_at};
use cli_commands::lock_word;
use ds_codec::Attr;
use ds_screen::{Lock, PlaneCells, Screen};
use std::alloc::AllocError;

/// The look of a drawing: green on black, what is intensified and the cursor white.
const STYLE: &str =
    "<style>\ntext { fill: lime; font: 16px monospace }\ntext.bright { fill: white }\nline { stroke: lime }\nrect.cursor { fill: none; stroke: white }\n</style>\n<rect width=\"100%\" height=\"100%\"/>\n";

/// Where a cell stands: its left edge and its upper edge.
#[derive(Clone, Copy)]
pub(crate) struct Corner {
    pub left: u32,
    pub top: u32,
}

/// The left edge of the cell at a position, on a screen of so many columns.
pub(crate) fn left_of(columns: u16, p: u64) -> u64
    requires some { 0 < columns }
    ensures value { result ≡ left_of columns p }
    ensures narrow { result ≤ 655360 }
{
    10 * (p % u64::from(columns)) + 10
}

/// Its upper edge.
pub(crate) fn top_of(columns: u16, p: u64) -> u64
    requires some { 0 < columns }
    requires inside { p < 2 ^ 40 }
    ensures { result ≡ top_of columns p }
{
    20 * (p / u64::from(columns)) + 10
}

/// The corner of the cell at a position, on a screen of so many columns.
pub(crate) fn corner_of(columns: u16, p: u32) -> Corner
    requires some { 0 < columns }
    requires inside { p < 65025 }
    ensures left { result.left ≡ left_of columns p }
    ensures top { result.top ≡ top_of columns p }
    ensures narrow { result.left ≤ 655360 }
    ensures low { result.top ≤ 1300510 }
{
    let columns = u32::from(columns);
    Corner {
        left: 10 * (p % columns) + 10,
        top: 20 * (p / columns) + 10,
    }
}

/// A character as it is written in XML.
#[tactic(auto, unfolding(crate::specs::Svg::escaped))]
pub(crate) fn push_escaped(out: &mut String, character: u8) -> Result<(), AllocError>
    requires { character < 128 }
    ensures { OnOk result (string_bytes out.new ≡ string_bytes out.old ++ escaped character) }
{
    match character {
        b'&' => out.push_str("&amp;"),
        b'<' => out.push_str("&lt;"),
        b'>' => out.push_str("&gt;"),
        b'"' => out.push_str("&quot;"),
        b'\'' => out.push_str("&#39;"),
        _ => out.push(char::from(character)),
    }
}

/// The class of a text, by what rules it.
fn class_of(ruling: Attr) -> &'static str
    ensures { result.now ≡ class_of ruling }
{
    if ruling.intensified() {
        " class=\"bright\""
    } else {
        ""
    }
}

/// The element of a character at a position.
#[tactic(auto, unfolding(crate::specs::Svg::text_element))]
fn push_text(
    out: &mut String,
    columns: u16,
    p: u32,
    ruling: Attr,
    character: u8,
) -> Result<(), AllocError>
    requires some { 0 < columns }
    requires inside { p < 65025 }
    requires ascii { character < 128 }
    ensures { OnOk result (string_bytes out.new
        ≡ string_bytes out.old ++ text_element columns p ruling character) }
{
    let corner = corner_of(columns, p);
    let class = class_of(ruling);
    let x = corner.left;
    let y = corner.top + 15;
    write!(out, "<text{class} x=\"{x}\" y=\"{y}\">")?;
    push_escaped(out, character)?;
    out.push_str("</text>\n")
}

/// The element of the character that is seen at a position, if there is one.
fn push_text_at(out: &mut String, screen: &Screen<PlaneCells>, p: u32) -> Result<(), AllocError>
    requires { p < length screen.now.cells }
    ensures { OnOk result (string_bytes out.new ≡ string_bytes out.old ++ text_at screen.now p) }
{
    let columns = screen.size().cols;
    match seen_at(screen, p) {
        Some(character) => push_text(out, columns, p, ruling(screen, p), character),
        None => Ok(()),
    }
}

/// The elements of all characters that are seen.
pub(crate) fn push_texts(out: &mut String, screen: &Screen<PlaneCells>) -> Result<(), AllocError>
    ensures { OnOk result (string_bytes out.new ≡ string_bytes out.old
        ++ flat_map (text_at screen.now) (places screen.now)) }
{
    let cells = screen.size().cells();
    for p in 0..cells {
        push_text_at(out, screen, p)?;
    }
    Ok(())
}

/// A line under so many cells of a row.
#[tactic(auto, unfolding(crate::specs::Svg::line_element))]
fn push_line(out: &mut String, columns: u16, p: u32, count: u32) -> Result<(), AllocError>
    requires some { 0 < columns }
    requires inside { p < 65025 }
    requires few { count < 65536 }
    ensures { OnOk result (string_bytes out.new
        ≡ string_bytes out.old ++ line_element columns p count) }
{
    let corner = corner_of(columns, p);
    let left = corner.left;
    let right = left + 10 * count;
    let y = corner.top + 18;
    write!(
        out,
        "<line x1=\"{left}\" y1=\"{y}\" x2=\"{right}\" y2=\"{y}\"/>\n"
    )
}

/// Whether a line begins at a position.
fn begins_line(screen: &Screen<PlaneCells>, p: u32) -> bool
    requires { p < length screen.now.cells }
    ensures { result ≡ begins_line screen.now.size.cols screen.now.cells p }
{
    let columns = u32::from(screen.size().cols);
    screen.is_open(p) && (p % columns == 0 || !screen.is_open(p - 1))
}

/// The line that begins at a position, if one does.
#[tactic(auto, using(crate::proofs::RowLaws::row_fits, crate::proofs::RowLaws::few_cells))]
fn push_line_at(out: &mut String, screen: &Screen<PlaneCells>, p: u32) -> Result<(), AllocError>
    requires { p < length screen.now.cells }
    ensures { OnOk result (string_bytes out.new ≡ string_bytes out.old ++ line_at screen.now p) }
{
    if !begins_line(screen, p) {
        return Ok(());
    }
    let columns = screen.size().cols;
    let most = u32::from(columns) - p % u32::from(columns);
    let count = open_length(screen, p, most);
    push_line(out, columns, p, count)
}

/// A line under each part of a row that may be typed over.
pub(crate) fn push_lines(out: &mut String, screen: &Screen<PlaneCells>) -> Result<(), AllocError>
    ensures { OnOk result (string_bytes out.new ≡ string_bytes out.old
        ++ flat_map (line_at screen.now) (places screen.now)) }
{
    let cells = screen.size().cells();
    for p in 0..cells {
        push_line_at(out, screen, p)?;
    }
    Ok(())
}

#[tactic(auto, unfolding(crate::specs::Svg::size_words))]
fn push_size(out: &mut String, rows: u16, columns: u16) -> Result<(), AllocError>
    ensures { OnOk result (string_bytes out.new ≡ string_bytes out.old ++ size_words rows columns) }
{
    write!(out, "{rows}x{columns}")
}

#[tactic(auto, unfolding(crate::specs::Svg::cursor_words))]
fn push_place(out: &mut String, row: u32, column: u32) -> Result<(), AllocError>
    ensures { OnOk result (string_bytes out.new ≡ string_bytes out.old ++ cursor_words row column) }
{
    write!(out, ", cursor at row {row}, column {column}")
}

#[tactic(auto, unfolding(crate::specs::Svg::keyboard_words))]
fn push_keyboard(out: &mut String, lock: Lock) -> Result<(), AllocError>
    ensures { OnOk result (string_bytes out.new ≡ string_bytes out.old ++ keyboard_words lock) }
{
    out.push_str(", keyboard ")?;
    out.push_str(lock_word(lock))
}

/// Where the cursor stands.
#[tactic(auto, unfolding(crate::specs::Svg::cursor_place))]
fn push_cursor_place(out: &mut String, screen: &Screen<PlaneCells>) -> Result<(), AllocError>
    ensures { OnOk result (string_bytes out.new ≡ string_bytes out.old ++ cursor_place screen.now) }
{
    let columns = u32::from(screen.size().cols);
    let cursor = screen.cursor();
    push_place(out, cursor / columns + 1, cursor % columns + 1)
}

fn push_title(out: &mut String, screen: &Screen<PlaneCells>) -> Result<(), AllocError>
    ensures { OnOk result (string_bytes out.new ≡ string_bytes out.old ++ title screen.now) }
{
    let size = screen.size();
    push_size(out, size.rows, size.cols)?;
    push_cursor_place(out, screen)?;
    push_keyboard(out, screen.lock())
}

/// The line of the title: the size, the cursor and the keyboard.
#[tactic(auto, unfolding(crate::specs::Svg::title_line))]
pub(crate) fn push_title_line(
    out: &mut String,
    screen: &Screen<PlaneCells>,
) -> Result<(), AllocError>
    ensures { OnOk result (string_bytes out.new ≡ string_bytes out.old ++ title_line screen.now) }
{
    out.push_str("<title>")?;
    push_title(out, screen)?;
    out.push_str("</title>\n")
}

#[tactic(auto, unfolding(crate::specs::Svg::root_line))]
fn push_root(out: &mut String, width: u32, height: u32) -> Result<(), AllocError>
    ensures { OnOk result (string_bytes out.new ≡ string_bytes out.old ++ root_line width height) }
{
    write!(
        out,
        "<svg xmlns=\"http://www.w3.org/2000/svg\" viewBox=\"0 0 {width} {height}\" width=\"{width}\" height=\"{height}\">\n"
    )
}

#[tactic(auto, unfolding(crate::specs::Svg::style_lines))]
fn push_style(out: &mut String) -> Result<(), AllocError>
    ensures { OnOk result (string_bytes out.new ≡ string_bytes out.old ++ style_lines) }
{
    out.push_str(STYLE)
}

/// The head of a drawing of this size.
pub(crate) fn push_sized_head(
    out: &mut String,
    screen: &Screen<PlaneCells>,
    width: u32,
    height: u32,
) -> Result<(), AllocError>
    ensures { OnOk result (string_bytes out.new
        ≡ string_bytes out.old ++ sized_head screen.now width height) }
{
    push_root(out, width, height)?;
    push_title_line(out, screen)?;
    push_style(out)
}

pub(crate) fn push_head(out: &mut String, screen: &Screen<PlaneCells>) -> Result<(), AllocError>
    ensures { OnOk result (string_bytes out.new ≡ string_bytes out.old ++ head_lines screen.now) }
{
    let size = screen.size();
    push_sized_head(
        out,
        screen,
        10 * u32::from(size.cols) + 20,
        20 * u32::from(size.rows) + 20,
    )
}

/// A hollow rectangle round the cell with this corner.
#[tactic(auto, unfolding(crate::specs::Svg::box_element))]
fn push_box(out: &mut String, x: u32, y: u32) -> Result<(), AllocError>
    ensures { OnOk result (string_bytes out.new ≡ string_bytes out.old ++ box_element x y) }
{
    write!(
        out,
        "<rect class=\"cursor\" x=\"{x}\" y=\"{y}\" width=\"10\" height=\"20\"/>\n"
    )
}

/// The cursor at a position.
pub(crate) fn push_cursor(out: &mut String, columns: u16, p: u32) -> Result<(), AllocError>
    requires some { 0 < columns }
    requires inside { p < 65025 }
    ensures { OnOk result (string_bytes out.new
        ≡ string_bytes out.old ++ cursor_element columns p) }
{
    let corner = corner_of(columns, p);
    push_box(out, corner.left, corner.top)
}

/// The drawing.
#[tactic(auto, unfolding(crate::specs::Svg::svg_element))]
pub(crate) fn push_svg(out: &mut String, screen: &Screen<PlaneCells>) -> Result<(), AllocError>
    ensures { OnOk result (string_bytes out.new ≡ string_bytes out.old ++ svg_element screen.now) }
{
    push_head(out, screen)?;
    push_lines(out, screen)?;
    push_texts(out, screen)?;
    push_cursor(out, screen.size().cols, screen.cursor())?;
    out.push_str("</svg>\n")
}
