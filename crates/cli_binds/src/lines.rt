//! The lines of one answer.

ghost use Rattle.std.specs.Prelude.{◌≡◌, ◌++◌, IfOk, OnOk};
ghost use Rattle.std.specs.String.{string_bytes};
ghost use Rattle.scr_check.specs.Binding.{bound_of};
ghost use Rattle.cli_binds.specs.Lines.{told_bound, told_of, is_bound, cursor_words, refused_line, unbound_line, head_line, answer_lines};

use crate::fields::{Form, push_fields};
use ds_inbound::{Inbound, Refused};
use order_lines::push_hex;
use scr_check::{BindError, BindFault, bind};
use scr_layout::Layout;
use std::alloc::{AllocError, Global};

fn push_refused(out: &mut String, index: usize, refused: Refused) -> Result<(), AllocError>
    ensures { OnOk result
        (string_bytes out.new ≡ string_bytes out.old ++ refused_line index refused) }
{
    let Refused { at, why } = refused;
    write!(out, "answer {index} refused at {at}: {why}\n")
}

fn push_unbound(out: &mut String, index: usize, fault: BindFault) -> Result<(), AllocError>
    ensures { OnOk result
        (string_bytes out.new ≡ string_bytes out.old ++ unbound_line index fault) }
{
    write!(out, "answer {index} unbound: {fault}\n")
}

/// The cursor, where the answer has one.
fn push_cursor(out: &mut String, cursor: Option<u32>) -> Result<(), AllocError>
    ensures { OnOk result (string_bytes out.new ≡ string_bytes out.old ++ cursor_words cursor) }
{
    match cursor {
        Some(cursor) => write!(out, " cursor {cursor}"),
        None => Ok(()),
    }
}

/// The attention identifier and the cursor of an answer.
fn push_head(out: &mut String, index: usize, answer: &Inbound<'_>) -> Result<(), AllocError>
    ensures { OnOk result
        (string_bytes out.new ≡ string_bytes out.old ++ head_line index answer.now) }
{
    write!(out, "answer {index} aid ")?;
    push_hex(out, answer.aid().byte())?;
    push_cursor(out, answer.cursor())?;
    out.push_str("\n")
}

/// The lines of an answer that was read; whether it is bound.
fn push_read(
    alloc: Global,
    out: &mut String,
    form: Form,
    layout: &Layout,
    index: usize,
    answer: &Inbound<'_>,
) -> Result<bool, AllocError>
    ensures lines { OnOk result (string_bytes out.new ≡ string_bytes out.old
        ++ answer_lines form layout.now index (told_bound answer.now (bound_of layout.now.entries answer.now))) }
    ensures bound { IfOk result (λ bound. bound
        ≡ is_bound (told_bound answer.now (bound_of layout.now.entries answer.now))) }
{
    match bind(alloc, layout, answer) {
        Ok(bound) => {
            push_head(out, index, answer)?;
            push_fields(out, form, layout.entries(), bound.as_slice())?;
            Ok(true)
        }
        Err(BindError::Refused(fault)) => {
            push_unbound(out, index, fault)?;
            Ok(false)
        }
        Err(BindError::OutOfMemory) => Err(AllocError),
    }
}

/// The lines of the answer of this index; whether it is bound.
pub(crate) fn push_answer(
    alloc: Global,
    out: &mut String,
    form: Form,
    layout: &Layout,
    index: usize,
    bytes: &[u8],
) -> Result<bool, AllocError>
    ensures lines { OnOk result (string_bytes out.new ≡ string_bytes out.old
        ++ answer_lines form layout.now index (told_of layout.now bytes.now)) }
    ensures bound { IfOk result (λ bound. bound ≡ is_bound (told_of layout.now bytes.now)) }
{
    match Inbound::read(layout.geometry().mode(), layout.size().cells(), bytes) {
        Ok(answer) => push_read(alloc, out, form, layout, index, &answer),
        Err(refused) => {
            push_refused(out, index, refused)?;
            Ok(false)
        }
    }
}
