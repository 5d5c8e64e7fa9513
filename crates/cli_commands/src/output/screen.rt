//! The text of a screen.

ghost use Rattle.std.specs.Prelude.{◌≡◌, ◌++◌, ◌<◌, OnOk, IfOk};
ghost use Rattle.std.specs.String.{string_bytes};
ghost use Rattle.std.specs.List.{flat_map, range_with_len};
ghost use Rattle.ds_screen.specs.Fields.{fields_of};
ghost use Rattle.cli_commands.specs.Screen.{lock_word, header_line, field_line, row_line, screen_text};

use ds_screen::{FieldAt, Lock, PlaneCells, Screen};
use order_lines::push_hex;
use std::alloc::{AllocError, Global};

/// The word of a keyboard's state: `free`, `waiting` or `error`.
pub fn lock_word(lock: Lock) -> &'static str
    ensures { result.now ≡ lock_word lock }
{
    match lock {
        Lock::Free => "free",
        Lock::Waiting => "waiting",
        Lock::Error => "error",
    }
}

/// Adds the line of a screen: its size, cursor, keyboard and attention identifier.
///
/// # Errors
///
/// Where a request for memory was refused.
pub fn push_screen_line(out: &mut String, screen: &Screen<PlaneCells>) -> Result<(), AllocError>
    ensures { OnOk result (string_bytes out.new ≡ string_bytes out.old ++ header_line screen.now) }
{
    let size = screen.size();
    let rows = size.rows;
    let cols = size.cols;
    let cursor = screen.cursor();
    let lock = lock_word(screen.lock());
    write!(
        out,
        "screen {rows}x{cols} cursor {cursor} keyboard {lock} aid "
    )?;
    push_hex(out, screen.aid().byte())?;
    out.push_str("\n")
}

fn push_field(out: &mut String, field: FieldAt) -> Result<(), AllocError>
    ensures { OnOk result (string_bytes out.new ≡ string_bytes out.old ++ field_line field) }
{
    let FieldAt {
        at,
        attr,
        place,
        length,
    } = field;
    write!(out, "field {at} attr ")?;
    push_hex(out, attr.bits())?;
    write!(out, " place {place} length {length}\n")
}

/// Adds a line for each field, in the order of their places: its attribute, its first cell and its length.
///
/// # Errors
///
/// Where a request for memory was refused.
pub fn push_field_lines(out: &mut String, screen: &Screen<PlaneCells>) -> Result<(), AllocError>
    ensures { OnOk result (string_bytes out.new ≡ string_bytes out.old
        ++ flat_map field_line (fields_of screen.now.cells)) }
{
    for field in screen.fields() {
        push_field(out, field)?;
    }
    Ok(())
}

fn push_row(
    alloc: Global,
    out: &mut String,
    screen: &Screen<PlaneCells>,
    row: u16,
) -> Result<(), AllocError>
    requires { row < screen.now.size.rows }
    ensures { OnOk result (string_bytes out.new ≡ string_bytes out.old ++ row_line screen.now row) }
{
    let text = screen.shown_row(alloc, row)?;
    write!(out, "|{text}|\n")
}

fn push_rows(alloc: Global, out: &mut String, screen: &Screen<PlaneCells>) -> Result<(), AllocError>
    ensures { OnOk result (string_bytes out.new ≡ string_bytes out.old
        ++ flat_map (row_line screen.now) (range_with_len 0 screen.now.size.rows)) }
{
    let size = screen.size();
    for row in 0..size.rows {
        push_row(alloc, out, screen, row)?;
    }
    Ok(())
}

/// The screen's text.
pub fn screen_text(alloc: Global, screen: &Screen<PlaneCells>) -> Result<String, AllocError>
    ensures { IfOk result (λ text. string_bytes text ≡ screen_text screen.now) }
{
    // A byte for each position, and what most screens need beside.
    let room = (screen.position_count() as usize).saturating_add(1024);
    let mut out = String::with_capacity(alloc, room)?;
    push_screen_line(&mut out, screen)?;
    push_field_lines(&mut out, screen)?;
    push_rows(alloc, &mut out, screen)?;
    Ok(out)
}
