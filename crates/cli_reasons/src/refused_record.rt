//! The sentence of a record that is refused, or cannot be written.

ghost use Rattle.std.specs.Prelude.{◌≡◌, ◌≤◌, ◌^◌, ◌-◌, false, length, min, IfOk};
ghost use Rattle.std.specs.Option.{option_map};
ghost use Rattle.std.specs.String.{string_bytes};
ghost use Rattle.ds_terminal.specs.Refused.{refused_at};
ghost use Rattle.cli_commands.specs.Lines.{lines_in};
ghost use Rattle.cli_reasons.specs.Refusal.{order_from, record_from};
ghost use Rattle.cli_reasons.specs.RefusedRecord.{apply_reason, flaw_line, flaw_reason, flaw_words, read_reason, refusal_sentence, refused_reason, refused_words};

use crate::head::{Place, push_head};
use crate::refusal::{byte_column, order_line, record_line};
use crate::walk::MOST_RECORD_BYTES;
use cli_commands::Fault;
use ds_codec::{Unwritable, Why};
use ds_terminal::Refused;
use std::alloc::{AllocError, Global};

/// Why bytes are no record.
fn read_reason(why: Why) -> &'static str
    ensures { result.now ≡ read_reason why }
{
    match why {
        Why::Empty => "the record has no byte",
        Why::UnknownCommand => "a record begins with a command, as F5, and this byte is none",
        Why::StructuredField => "Write Structured Field is not taken",
        Why::NoWcc => "the write control character after the command is missing",
        Why::UnknownOrder => "this byte begins no order and is no character",
        Why::Truncated => "the record ends inside an order",
        Why::ReservedAddress => "an address does not begin with the bits 10",
        Why::BadType => "this attribute type is not known",
        Why::BadCharacter => "no character has this code",
        Why::Trailing => "nothing follows this command",
    }
}

/// Why a screen can't do what a record says.
fn apply_reason(why: ds_screen::Why) -> &'static str
    ensures { result.now ≡ apply_reason why }
{
    match why {
        ds_screen::Why::AddressOutside => "the order's address is outside the screen",
        ds_screen::Why::NoFieldHere => "Modify Field stands where no attribute is",
        ds_screen::Why::NotAWrite => "a read command or no operation writes no screen",
    }
}

fn refused_reason(refused: Refused) -> &'static str
    ensures { result.now ≡ refused_reason refused }
{
    match refused {
        Refused::Read(refused) => read_reason(refused.why),
        Refused::Apply(refused) => apply_reason(refused.why),
    }
}

/// Why a record can't be written.
fn flaw_reason(flaw: Unwritable) -> &'static str
    ensures { result.now ≡ flaw_reason flaw }
{
    match flaw {
        Unwritable::AddressOutside(_) => "the address is outside the screen",
        Unwritable::BadText(_) => "a text right after another, or a byte that is no character",
        Unwritable::BadPairs(_) => "a pair of a type that is not known, or more than 255 pairs",
        Unwritable::BadCode(_) => "no character has this code",
        Unwritable::NotAllowed => "its command takes no orders",
        Unwritable::OutOfMemory => "out of memory",
    }
}

/// The line of its record that a flaw is of: the command's is the first.
fn flaw_line(flaw: Unwritable) -> usize
    ensures { result ≡ min (flaw_line flaw) (2 ^ 64 - 1) }
{
    match flaw {
        Unwritable::AddressOutside(order)
        | Unwritable::BadText(order)
        | Unwritable::BadPairs(order)
        | Unwritable::BadCode(order) => order.saturating_add(1),
        Unwritable::NotAllowed => 1,
        Unwritable::OutOfMemory => 0,
    }
}

/// The sentence of a record that is refused, in the input of a name and a text.
fn refused_sentence(
    alloc: Global,
    name: &str,
    text: &[u8],
    index: usize,
    refused: Refused,
) -> Result<Option<String>, AllocError>
    requires { length text.now ≤ 16777216 }
    ensures { IfOk result (λ said. option_map string_bytes said
        ≡ option_map (refused_words name.now refused) (record_from 1 index (lines_in text.now))) }
{
    let Some((number, line)) = record_line(text, index) else {
        return Ok(None);
    };
    let mut out = String::new(alloc);
    let column = byte_column(line, refused.at().min(MOST_RECORD_BYTES));
    push_head(&mut out, name, Place::Column(number as u64, column))?;
    out.push_str(refused_reason(refused))?;
    out.push_str("\n")?;
    Ok(Some(out))
}

/// The sentence of a record that can't be written, in the input of a name and a text.
fn flaw_sentence(
    alloc: Global,
    name: &str,
    text: &[u8],
    index: usize,
    flaw: Unwritable,
) -> Result<Option<String>, AllocError>
    requires { length text.now ≤ 16777216 }
    ensures { IfOk result (λ said. option_map string_bytes said
        ≡ option_map (flaw_words name.now flaw) (order_from 1 false index (min (flaw_line flaw) (2 ^ 64 - 1)) (lines_in text.now))) }
{
    let Some(number) = order_line(text, index, flaw_line(flaw)) else {
        return Ok(None);
    };
    let mut out = String::new(alloc);
    push_head(&mut out, name, Place::Line(number as u64))?;
    out.push_str(flaw_reason(flaw))?;
    out.push_str("\n")?;
    Ok(Some(out))
}

/// The sentence that says why a record of a text is refused, or can't be written, where that is the fault.
///
/// # Errors
///
/// Where a request for memory was refused.
pub(crate) fn refusal_sentence(
    alloc: Global,
    name: &str,
    text: &[u8],
    fault: Fault,
) -> Result<Option<String>, AllocError>
    requires { length text.now ≤ 16777216 }
    ensures { IfOk result (λ said. option_map string_bytes said
        ≡ refusal_sentence name.now text.now fault) }
{
    match fault {
        Fault::RecordRefused(index, refused) => {
            refused_sentence(alloc, name, text, index, refused)
        }
        Fault::Unwritable(index, flaw) => flaw_sentence(alloc, name, text, index, flaw),
        _ => Ok(None),
    }
}
