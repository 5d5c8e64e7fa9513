//! Snap: a kept screen.

ghost use Rattle.std.specs.Prelude.{◌≡◌, ◌++◌, codes, map, OnOk, IfOk};
ghost use Rattle.std.specs.Fmt.{decimal};
ghost use Rattle.script_screens.specs.Lines.{data_line, failed, Says};
ghost use Rattle.script_screens.specs.Status.{link_seen};
ghost use Rattle.script_screens.specs.Snap.{is_word, reading_word, alone, or_unknown, snap_with, snap_of, said_of_kept, snap_fault_words};

use crate::code_page::CodePage;
use crate::connection::Connection;
use crate::lines::{Outcome, begin_line, end_line, push_decimal, push_fault};
use crate::reading::{Reading, push_reading};
use crate::status::push_status_data;
use ds_screen::{PlaneCells, Screen};
use std::alloc::AllocError;

/// What is read of a kept screen.
#[derive(Clone, Copy, Debug, PartialEq, Eq)]
pub enum Kept {
    /// The first eleven words of its status line.
    Status,
    /// How many rows it has.
    Rows,
    /// How many columns it has.
    Columns,
    /// What the action reads of it.
    Reading(Reading),
}

/// Why Snap says nothing.
#[derive(Clone, Copy, Debug, PartialEq, Eq)]
pub enum SnapFault {
    /// No screen was kept.
    NotSaved,
    /// A word comes after one that takes none.
    Extra,
    /// There is no such word.
    Unknown,
}

/// What Snap is asked for.
#[derive(Clone, Copy, Debug, PartialEq, Eq)]
pub enum Snap {
    /// To keep the screen.
    Save,
    Kept(Kept),
    Fault(SnapFault),
}

/// Whether a text is a word, in letters of either case.
fn is_word(text: &[u8], word: &[u8]) -> bool
    ensures { result ≡ is_word text.now word.now }
{
    text.eq_ignore_ascii_case(word)
}

/// The action of a name that reads what was kept.
fn reading_word(text: &[u8]) -> Option<Kept>
    ensures { result ≡ reading_word text.now }
{
    if is_word(text, b"Ascii") {
        return Some(Kept::Reading(Reading::Ascii));
    }
    if is_word(text, b"Ascii1") {
        return Some(Kept::Reading(Reading::Ascii1));
    }
    if is_word(text, b"Ebcdic") {
        return Some(Kept::Reading(Reading::Ebcdic));
    }
    if is_word(text, b"Ebcdic1") {
        return Some(Kept::Reading(Reading::Ebcdic1));
    }
    if is_word(text, b"ReadBuffer") {
        return Some(Kept::Reading(Reading::ReadBuffer));
    }
    None
}

/// What is asked for by a word that takes no others.
fn alone(snap: Snap, words: &[Vec<u8>]) -> Snap
    ensures { result ≡ alone snap (map (λ word. word.items) words.now) }
{
    match words {
        [] => snap,
        [_, ..] => Snap::Fault(SnapFault::Extra),
    }
}

fn or_unknown(kept: Option<Kept>) -> Snap
    ensures { result ≡ or_unknown kept }
{
    match kept {
        Some(kept) => Snap::Kept(kept),
        None => Snap::Fault(SnapFault::Unknown),
    }
}

fn snap_with(text: &[u8], words: &[Vec<u8>]) -> Snap
    ensures { result ≡ snap_with text.now (map (λ word. word.items) words.now) }
{
    if is_word(text, b"Save") {
        return alone(Snap::Save, words);
    }
    if is_word(text, b"Status") {
        return alone(Snap::Kept(Kept::Status), words);
    }
    if is_word(text, b"Rows") {
        return alone(Snap::Kept(Kept::Rows), words);
    }
    if is_word(text, b"Cols") {
        return alone(Snap::Kept(Kept::Columns), words);
    }
    or_unknown(reading_word(text))
}

/// What the arguments of Snap ask for, in letters of either case; where it is an action that reads, its own arguments come after the
/// first.
pub fn snap_of(arguments: &[Vec<u8>]) -> Snap
    ensures { result ≡ snap_of (map (λ argument. argument.items) arguments.now) }
{
    match arguments {
        [] => Snap::Save,
        [word, words @ ..] => snap_with(word, words),
    }
}

/// Adds a data line of a number.
fn push_number_line(out: &mut Vec<u8>, number: u16) -> Result<(), AllocError>
    ensures { OnOk result (out.new.items ≡ out.old.items ++ data_line (decimal number)) }
{
    begin_line(out)?;
    push_decimal(out, u64::from(number))?;
    end_line(out)
}

/// Adds the data lines of what is read of a kept screen, and tells how that ends. The connection is the one that was there when it was
/// kept; the arguments are those after the first of Snap.
pub fn push_kept(
    out: &mut Vec<u8>,
    screen: &Screen<PlaneCells>,
    connection: Option<Connection<'_>>,
    model: u8,
    code_page: CodePage,
    kept: Kept,
    arguments: &[Vec<u8>],
) -> Result<Outcome, AllocError>
    ensures { IfOk result (λ outcome. Says out.old.items out.new.items outcome
        (said_of_kept code_page screen.now (link_seen connection.entry) model kept
        (map (λ argument. argument.items) arguments.now))) }
{
    match kept {
        Kept::Status => push_status_data(out, screen, connection, model)?,
        Kept::Rows => push_number_line(out, screen.size().rows)?,
        Kept::Columns => push_number_line(out, screen.size().cols)?,
        Kept::Reading(reading) => return push_reading(out, screen, code_page, reading, arguments),
    }
    Ok(Outcome::Done)
}

/// Adds the data line of a fault of Snap.
pub fn push_snap_fault(out: &mut Vec<u8>, fault: SnapFault) -> Result<Outcome, AllocError>
    ensures { IfOk result (λ outcome. Says out.old.items out.new.items outcome
        (failed (codes "Snap(): " ++ snap_fault_words fault))) }
{
    match fault {
        SnapFault::NotSaved => push_fault(out, b"Snap(): ", b"No saved state"),
        SnapFault::Extra => push_fault(out, b"Snap(): ", b"Extra argument(s)"),
        SnapFault::Unknown => push_fault(
            out,
            b"Snap(): ",
            b"Parameter must be save, status, rows, cols, Wait, Ascii, Ascii1, Ebcdic, Ebcdic1 or ReadBuffer",
        ),
    }
}
