//! The field of the cursor.

ghost use Rattle.std.specs.Prelude.{◌≡◌, ◌<◌, ◌++◌, length, IfOk, OnOk};
ghost use Rattle.ds_screen.specs.Fields.{attribute_before};
ghost use Rattle.script_screens.specs.Fields.{first_of, field_length};
ghost use Rattle.script_screens.specs.Lines.{data_lines, Says};
ghost use Rattle.script_screens.specs.Reading.{field_texts, cursor_field_said};

use crate::cells::push_region;
use crate::code_page::CodePage;
use crate::lines::{Outcome, push_fault};
use crate::region::Region;
use crate::shown::Form;
use ds_screen::ring::{distance, next};
use ds_screen::{PlaneCells, Screen};
use std::alloc::AllocError;

/// The position after an attribute.
fn first_of(screen: &Screen<PlaneCells>, at: u32) -> u32
    requires { at < length screen.now.cells }
    ensures first { result ≡ first_of screen.now.cells at }
    ensures inside { result < length screen.now.cells }
{
    next(screen.size().cells(), at)
}

/// How many cells the field of an attribute has.
pub(crate) fn field_length(screen: &Screen<PlaneCells>, at: u32) -> u32
    requires { at < length screen.now.cells }
    ensures length { result ≡ field_length screen.now.cells at }
    ensures small { result < 0xFFFFFFFF }
{
    let first = first_of(screen, at);
    match screen.attr_from(first) {
        Some(stop) => distance(screen.size().cells(), first, stop),
        None => 0,
    }
}

/// Adds the data lines of the field of an attribute.
fn push_field(
    out: &mut Vec<u8>,
    screen: &Screen<PlaneCells>,
    code_page: CodePage,
    form: Form,
    at: u32,
) -> Result<(), AllocError>
    requires { at < length screen.now.cells }
    ensures { OnOk result (out.new.items
        ≡ out.old.items ++ data_lines (field_texts code_page form screen.now at)) }
{
    let length = field_length(screen, at);
    if length == 0 {
        return Ok(());
    }
    let region = Region::Stretch(first_of(screen, at), length);
    push_region(out, screen, code_page, form, region)
}

/// Adds the data lines of the cursor's field.
pub(crate) fn push_cursor_field(
    out: &mut Vec<u8>,
    screen: &Screen<PlaneCells>,
    code_page: CodePage,
    form: Form,
    name: &[u8],
) -> Result<Outcome, AllocError>
    ensures { IfOk result (λ outcome. Says out.old.items out.new.items outcome
        (cursor_field_said code_page form screen.now name.now
        (attribute_before screen.now.cells screen.now.cursor))) }
{
    let cursor = screen.cursor();
    match screen.attr_before(cursor) {
        Some(at) => {
            push_field(out, screen, code_page, form, at)?;
            Ok(Outcome::Done)
        }
        None => push_fault(out, name, b"(): Screen is not formatted"),
    }
}
