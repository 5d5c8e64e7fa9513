//! The sentences of answers that are refused, or that aren't those of a layout's screen.

ghost use Rattle.std.specs.Prelude.{◌≡◌, ◌++◌, ◌≤◌, length, map, IfOk, OnOk};
ghost use Rattle.std.specs.String.{string_bytes};
ghost use Rattle.scr_check.specs.Binding.{bound_of};
ghost use Rattle.cli_commands.specs.Lines.{lines_in};
ghost use Rattle.cli_reasons.specs.RefusedAnswer.{answer_reason, answer_said, answers_said, bound_said, line_said, refused_said, unbound_reason, unbound_said};

use crate::head::{Place, push_head};
use crate::refusal::byte_column;
use crate::walk::MOST_RECORD_BYTES;
use bstr::ByteSlice;
use cli_commands::{CommandError, SizeLine, is_turn, records_in};
use ds_inbound::{Inbound, Refused, Why};
use scr_check::{BindError, BindFault, bind};
use scr_layout::Layout;
use std::alloc::{AllocError, Global};

/// Where an answer stands: the input's name, the line's number, counted from 1, and the line.
#[derive(Clone, Copy)]
struct Standing<'a> {
    name: &'a str,
    number: u64,
    line: &'a [u8],
}

/// Why bytes are no answer.
fn answer_reason(why: Why) -> &'static str
    ensures { result.now ≡ answer_reason why }
{
    match why {
        Why::Empty => "the answer has no byte",
        Why::UnknownAid =>
            "an answer begins with an attention identifier, as 7D, and this byte is none",
        Why::Truncated =>
            "bytes of the cursor's address, of a field's place or of a pair are missing",
        Why::BadAddress => "the address begins with the bits 10, or is outside the screen",
        Why::BadCharacter => "no character has this code",
        Why::Null => "a null is never sent",
    }
}

/// Why an answer isn't that of the layout's screen.
fn unbound_reason(fault: BindFault) -> &'static str
    ensures { result.now ≡ unbound_reason fault }
{
    match fault {
        BindFault::NotDeclared =>
            "a field of the answer is at a place where the layout has no entry",
        BindFault::Longer => "a field of the answer has more characters than the layout declares",
        BindFault::Twice => "two fields of the answer are at one place",
        BindFault::Lead => "the answer has characters before the place of a field",
    }
}

fn push_refused(
    out: &mut String,
    standing: Standing<'_>,
    refused: Refused,
) -> Result<(), AllocError>
    ensures { OnOk result (string_bytes out.new ≡ string_bytes out.old
        ++ refused_said standing.entry.name.now standing.entry.number standing.entry.line.now refused) }
{
    let column = byte_column(standing.line, refused.at.min(MOST_RECORD_BYTES));
    push_head(out, standing.name, Place::Column(standing.number, column))?;
    out.push_str(answer_reason(refused.why))?;
    out.push_str("\n")
}

fn push_unbound(
    out: &mut String,
    standing: Standing<'_>,
    fault: BindFault,
) -> Result<(), AllocError>
    ensures { OnOk result (string_bytes out.new ≡ string_bytes out.old
        ++ unbound_said standing.entry.name.now standing.entry.number fault) }
{
    push_head(out, standing.name, Place::Line(standing.number))?;
    out.push_str(unbound_reason(fault))?;
    out.push_str("\n")
}

/// Pushes why an answer that was read isn't that of the layout's screen, where it isn't.
fn push_read(
    alloc: Global,
    out: &mut String,
    layout: &Layout,
    standing: Standing<'_>,
    answer: &Inbound<'_>,
) -> Result<(), AllocError>
    ensures { OnOk result (string_bytes out.new ≡ string_bytes out.old
        ++ bound_said standing.entry.name.now standing.entry.number (bound_of layout.now.entries answer.now)) }
{
    match bind(alloc, layout, answer) {
        Ok(_) => Ok(()),
        Err(BindError::Refused(fault)) => push_unbound(out, standing, fault),
        Err(BindError::OutOfMemory) => Err(AllocError),
    }
}

/// Pushes why an answer is refused, or isn't that of the layout's screen, where it is so.
fn push_answer(
    alloc: Global,
    out: &mut String,
    layout: &Layout,
    standing: Standing<'_>,
    bytes: &[u8],
) -> Result<(), AllocError>
    ensures { OnOk result (string_bytes out.new ≡ string_bytes out.old
        ++ answer_said layout.now standing.entry.name.now standing.entry.number standing.entry.line.now bytes.now) }
{
    match Inbound::read(layout.geometry().mode(), layout.size().cells(), bytes) {
        Ok(answer) => push_read(alloc, out, layout, standing, &answer),
        Err(refused) => push_refused(out, standing, refused),
    }
}

/// The same of the answer of a line, where it has one.
fn push_line(
    alloc: Global,
    out: &mut String,
    layout: &Layout,
    standing: Standing<'_>,
) -> Result<(), AllocError>
    ensures { OnOk result (string_bytes out.new ≡ string_bytes out.old
        ++ line_said layout.now standing.entry.name.now standing.entry.number standing.entry.line.now) }
{
    match records_in(alloc, standing.line, SizeLine::Refused) {
        Ok(told) => match told.records.as_slice() {
            [bytes, ..] => push_answer(alloc, out, layout, standing, bytes.as_slice()),
            [] => Ok(()),
        },
        Err(CommandError::Fault(_)) => Ok(()),
        Err(_) => Err(AllocError),
    }
}

/// The sentences of the answers in a text that are refused, or aren't those of the layout's screen, each answer by the layout of
/// its turn. A line `turn` stands between two turns.
///
/// # Errors
///
/// Where a request for memory was refused.
pub fn answer_sentences(
    alloc: Global,
    name: &str,
    layouts: &[Layout],
    text: &[u8],
) -> Result<String, AllocError>
    requires { length text.now ≤ 16777216 }
    ensures { IfOk result (λ said. string_bytes said
        ≡ answers_said name.now 1 layouts.now (lines_in text.now)) }
{
    let mut out = String::new(alloc);
    let mut turns = layouts;
    let mut number = 1;
    'lines: for line in text.lines() {
        let [layout, later @ ..] = turns else {
            return Ok(out);
        };
        if is_turn(line) {
            turns = later;
        } else {
            push_line(alloc, &mut out, layout, Standing { name, number, line })?;
        }
        number += 1;
    }
    Ok(out)
}
