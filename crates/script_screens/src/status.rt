//! The status line.

ghost use Rattle.std.specs.Prelude.{◌≡◌, ◌++◌, codes, is_some, OnOk, if◌then◌else◌};
ghost use Rattle.std.specs.Fmt.{decimal};
ghost use Rattle.ds_codec.specs.Attribute.{is_protected};
ghost use Rattle.ds_screen.specs.Fields.{attribute_before, ruling_bits};
ghost use Rattle.script_screens.specs.Lines.{data_line};
ghost use Rattle.script_screens.specs.Status.{link_seen, is_free, keyboard_word, screen_word, field_word, connection_word, mode_word, spaced, state_words, number_words, status_words, status_line};

use crate::cells::{columns, ruling_at};
use crate::connection::Connection;
use crate::lines::{begin_line, end_line, push_decimal};
use ds_screen::{Lock, PlaneCells, Screen};
use std::alloc::AllocError;

fn is_free(lock: Lock) -> bool
    ensures { result ≡ is_free lock }
{
    match lock {
        Lock::Free => true,
        Lock::Waiting | Lock::Error => false,
    }
}

/// Adds a word and a space.
fn push_word(out: &mut Vec<u8>, word: &[u8]) -> Result<(), AllocError>
    ensures { OnOk result (out.new.items ≡ out.old.items ++ spaced word.now) }
{
    out.extend_from_slice(word)?;
    out.extend_from_slice(b" ")
}

/// Adds a number and a space.
fn push_number(out: &mut Vec<u8>, number: u32) -> Result<(), AllocError>
    ensures { OnOk result (out.new.items ≡ out.old.items ++ spaced (decimal number)) }
{
    push_decimal(out, u64::from(number))?;
    out.extend_from_slice(b" ")
}

fn push_keyboard(out: &mut Vec<u8>, connected: bool, lock: Lock) -> Result<(), AllocError>
    ensures { OnOk result (out.new.items
        ≡ out.old.items ++ spaced (keyboard_word connected lock)) }
{
    if connected && is_free(lock) {
        push_word(out, b"U")
    } else {
        push_word(out, b"L")
    }
}

/// Whether there is an attribute.
pub(crate) fn is_formatted(screen: &Screen<PlaneCells>) -> bool
    ensures { result ≡ is_some (attribute_before screen.now.cells screen.now.cursor) }
{
    screen.attr_before(screen.cursor()).is_some()
}

fn push_screen(out: &mut Vec<u8>, formatted: bool) -> Result<(), AllocError>
    ensures { OnOk result (out.new.items ≡ out.old.items ++ spaced (screen_word formatted)) }
{
    if formatted {
        push_word(out, b"F")
    } else {
        push_word(out, b"U")
    }
}

fn push_field(out: &mut Vec<u8>, protected: bool) -> Result<(), AllocError>
    ensures { OnOk result (out.new.items ≡ out.old.items ++ spaced (field_word protected)) }
{
    if protected {
        push_word(out, b"P")
    } else {
        push_word(out, b"U")
    }
}

fn is_protected(screen: &Screen<PlaneCells>) -> bool
    ensures { result ≡ is_protected (ruling_bits screen.now.cells screen.now.cursor) }
{
    ruling_at(screen, screen.cursor()).protected()
}

fn push_host(out: &mut Vec<u8>, host: &[u8]) -> Result<(), AllocError>
    ensures { OnOk result (out.new.items
        ≡ out.old.items ++ spaced (codes "C(" ++ (host.now ++ codes ")"))) }
{
    out.extend_from_slice(b"C(")?;
    out.extend_from_slice(host)?;
    out.extend_from_slice(b") ")
}

fn push_connection(out: &mut Vec<u8>, connection: Option<Connection<'_>>) -> Result<(), AllocError>
    ensures { OnOk result (out.new.items
        ≡ out.old.items ++ spaced (connection_word (link_seen connection.entry))) }
{
    match connection {
        Some(connection) => push_host(out, connection.host),
        None => push_word(out, b"N"),
    }
}

fn push_mode(out: &mut Vec<u8>, connected: bool) -> Result<(), AllocError>
    ensures { OnOk result (out.new.items
        ≡ out.old.items ++ spaced (if connected then codes "I" else codes "N")) }
{
    if connected {
        push_word(out, b"I")
    } else {
        push_word(out, b"N")
    }
}

/// Adds the words of the keyboard, the screen, the cursor's field, the connection and its mode.
fn push_state(
    out: &mut Vec<u8>,
    screen: &Screen<PlaneCells>,
    connection: Option<Connection<'_>>,
) -> Result<(), AllocError>
    ensures { OnOk result (out.new.items
        ≡ out.old.items ++ state_words screen.now (link_seen connection.entry)) }
{
    let connected = connection.is_some();
    push_keyboard(out, connected, screen.lock())?;
    push_screen(out, is_formatted(screen))?;
    push_field(out, is_protected(screen))?;
    push_connection(out, connection)?;
    push_mode(out, connected)
}

/// Adds the numbers of the model, of rows and columns, and the cursor's.
fn push_numbers(out: &mut Vec<u8>, screen: &Screen<PlaneCells>, model: u8) -> Result<(), AllocError>
    ensures { OnOk result (out.new.items ≡ out.old.items ++ number_words screen.now model) }
{
    let columns = u32::from(columns(screen));
    push_number(out, u32::from(model))?;
    push_number(out, u32::from(screen.size().rows))?;
    push_number(out, columns)?;
    push_number(out, screen.cursor() / columns)?;
    push_number(out, screen.cursor() % columns)
}

/// Adds eleven words.
fn push_words(
    out: &mut Vec<u8>,
    screen: &Screen<PlaneCells>,
    connection: Option<Connection<'_>>,
    model: u8,
) -> Result<(), AllocError>
    ensures { OnOk result (out.new.items
        ≡ out.old.items ++ status_words screen.now (link_seen connection.entry) model) }
{
    push_state(out, screen, connection)?;
    push_numbers(out, screen, model)?;
    out.extend_from_slice(b"0x0")
}

/// Adds the status line of twelve words, with the line's end: the keyboard (`U` free, `L` locked), the screen (`F` formatted, `U` not), the
/// cursor's field (`P` protected, `U` not), the connection (`C(HOST)`, `N`), its mode (`I`, `N`), the number of the model, rows and columns
/// in use, the cursor's row and column from 0, `0x0`, and `-`.
pub fn push_status(
    out: &mut Vec<u8>,
    screen: &Screen<PlaneCells>,
    connection: Option<Connection<'_>>,
    model: u8,
) -> Result<(), AllocError>
    ensures { OnOk result (out.new.items
        ≡ out.old.items ++ status_line screen.now (link_seen connection.entry) model) }
{
    push_words(out, screen, connection, model)?;
    out.extend_from_slice(b" -\n")
}

/// Adds a data line of the first eleven words.
pub(crate) fn push_status_data(
    out: &mut Vec<u8>,
    screen: &Screen<PlaneCells>,
    connection: Option<Connection<'_>>,
    model: u8,
) -> Result<(), AllocError>
    ensures { OnOk result (out.new.items ≡ out.old.items
        ++ data_line (status_words screen.now (link_seen connection.entry) model)) }
{
    begin_line(out)?;
    push_words(out, screen, connection, model)?;
    end_line(out)
}
