//! The lines of one answer.

ghost use Rattle.std.specs.Prelude.{◌≡◌, ◌++◌, map, OnOk, Ok, option_map};
ghost use Rattle.std.specs.List.{flat_map};
ghost use Rattle.std.specs.String.{string_bytes};
ghost use Rattle.scr_check.specs.Bound.{bound_seen};
ghost use Rattle.tn_dialogue.specs.Answers.{answered_view};
ghost use Rattle.cli_dialogues.specs.Applications.{name_of};
ghost use Rattle.cli_dialogues.specs.Answers.{answered_lines, answer_lines, cursor_words, field_lines, front_line, pair_line, pair_lines, read_lines, screen_words, sent_line};

use crate::application::{Application, Telling};
use ds_inbound::Inbound;
use order_lines::{push_bytes, push_hex};
use scr_check::{BindError, Bound, bind, name_at};
use scr_layout::Entry;
use std::alloc::{AllocError, Global};
use tn_dialogue::{Answered, Reading, Screen};

/// The screen's name, where it has one.
fn push_screen(out: &mut String, name: Option<&str>) -> Result<(), AllocError>
    ensures { OnOk result (string_bytes out.new
        ≡ string_bytes out.old ++ screen_words (option_map (λ text. text.now) name.entry)) }
{
    match name {
        Some(name) => {
            out.push_str(" screen ")?;
            out.push_str(name)
        }
        None => Ok(()),
    }
}

/// The cursor address, where any answer will do.
fn push_cursor(out: &mut String, reading: Reading, cursor: Option<u32>) -> Result<(), AllocError>
    ensures { OnOk result (string_bytes out.new
        ≡ string_bytes out.old ++ cursor_words reading cursor) }
{
    match (reading, cursor) {
        (Reading::Any, Some(cursor)) => write!(out, " cursor {cursor}"),
        (Reading::Any, None) | (Reading::Fields, _) => Ok(()),
    }
}

/// The line of the key.
fn push_front(
    out: &mut String,
    number: u64,
    name: Option<&str>,
    reading: Reading,
    answer: &Inbound<'_>,
) -> Result<(), AllocError>
    ensures { OnOk result (string_bytes out.new ≡ string_bytes out.old
        ++ front_line number (option_map (λ text. text.now) name.entry) reading answer.now) }
{
    write!(out, "terminal {number}")?;
    push_screen(out, name)?;
    out.push_str(" aid ")?;
    push_hex(out, answer.aid().byte())?;
    push_cursor(out, reading, answer.cursor())?;
    out.push_str("\n")
}

/// A field.
fn push_pair(out: &mut String, entries: &[Entry], pair: &Bound<'_>) -> Result<(), AllocError>
    ensures { OnOk result (string_bytes out.new
        ≡ string_bytes out.old ++ pair_line entries.now (bound_seen pair.now)) }
{
    out.push_str(name_at(entries, pair.entry))?;
    out.push_str(" ")?;
    push_bytes(out, pair.raw)?;
    out.push_str("\n")
}

/// Fields.
fn push_pairs(out: &mut String, entries: &[Entry], pairs: &[Bound<'_>]) -> Result<(), AllocError>
    ensures { OnOk result (string_bytes out.new ≡ string_bytes out.old
        ++ pair_lines entries.now (Ok (map bound_seen pairs.now))) }
{
    for pair in pairs {
        push_pair(out, entries, pair)?;
    }
    Ok(())
}

/// The fields of an answer, where they are the layout's.
fn push_fields(
    alloc: Global,
    out: &mut String,
    screen: &Screen,
    answer: &Inbound<'_>,
) -> Result<(), AllocError>
    ensures { OnOk result (string_bytes out.new
        ≡ string_bytes out.old ++ field_lines screen.now answer.now) }
{
    match bind(alloc, &screen.layout, answer) {
        Ok(pairs) => push_pairs(out, screen.layout.entries(), pairs.as_slice()),
        Err(BindError::Refused(_)) => Ok(()),
        Err(BindError::OutOfMemory) => Err(AllocError),
    }
}

/// What was read of an answer.
fn push_read(
    alloc: Global,
    out: &mut String,
    screen: &Screen,
    answer: &Inbound<'_>,
) -> Result<(), AllocError>
    ensures { OnOk result (string_bytes out.new
        ≡ string_bytes out.old ++ read_lines screen.now.reading screen.now answer.now) }
{
    match screen.reading {
        Reading::Fields => push_fields(alloc, out, screen, answer),
        Reading::Any => Ok(()),
    }
}

/// The bytes of an answer, where they are told.
fn push_sent(out: &mut String, telling: Telling, bytes: &[u8]) -> Result<(), AllocError>
    ensures { OnOk result (string_bytes out.new
        ≡ string_bytes out.old ++ sent_line telling bytes.now) }
{
    match telling {
        Telling::Read => Ok(()),
        Telling::Bytes => {
            out.push_str("sent ")?;
            push_bytes(out, bytes)?;
            out.push_str("\n")
        }
    }
}

/// The name of the screen of an index.
fn name_of(application: &Application, screen: usize) -> Option<&str>
    ensures { option_map (λ text. text.now) result ≡ name_of application.now screen }
{
    match application.names.get(screen) {
        Some(name) => Some(name.as_str()),
        None => None,
    }
}

/// The lines of an answer that was read at a screen.
fn push_answer(
    alloc: Global,
    out: &mut String,
    application: &Application,
    number: u64,
    answered: &Answered,
    screen: &Screen,
    answer: &Inbound<'_>,
) -> Result<(), AllocError>
    ensures { OnOk result (string_bytes out.new ≡ string_bytes out.old
        ++ answer_lines application.now number answered.now.screen screen.now answered.now.bytes.items
        answer.now) }
{
    let name = name_of(application, answered.screen);
    push_front(out, number, name, screen.reading, answer)?;
    push_read(alloc, out, screen, answer)?;
    push_sent(out, application.telling, answered.bytes.as_slice())
}

/// The lines of an answer of the terminal of this number.
pub(crate) fn push_answered(
    alloc: Global,
    out: &mut String,
    application: &Application,
    number: u64,
    answered: &Answered,
) -> Result<(), AllocError>
    ensures { OnOk result (string_bytes out.new ≡ string_bytes out.old
        ++ answered_lines application.now number (answered_view answered.now)) }
{
    let Some(screen) = application.screens.get(answered.screen) else {
        return Ok(());
    };
    let mode = screen.layout.geometry().mode();
    let cells = screen.layout.size().cells();
    match Inbound::read(mode, cells, answered.bytes.as_slice()) {
        Ok(answer) => push_answer(alloc, out, application, number, answered, screen, &answer),
        Err(_) => Ok(()),
    }
}
