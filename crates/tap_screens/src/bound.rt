//! The lines of an answer that is read back into the fields of its screen's layout.

ghost use Rattle.std.specs.Prelude.{◌≡◌, ◌++◌, codes, IfOk, OnOk, string_bytes};
ghost use Rattle.hex.specs.Hex.{encode_upper};
ghost use Rattle.cli_commands.specs.Fault.{fault_text};
ghost use Rattle.script_checks.specs.NamedView.{named_view};
ghost use Rattle.tap_screens.specs.Bound.{bound_text, printed_text, screen_front};
ghost use Rattle.tap_screens.specs.Text.{line_after};

use crate::text::{other_lines, push_line, push_lines};
use cli_binds::{Form, bind_answers};
use cli_commands::{Answer, CommandError, Fault, Status};
use order_lines::push_bytes;
use script_checks::Named;
use std::alloc::{AllocError, Global};

/// What each line of a screen begins with.
pub(crate) fn screen_front(alloc: Global, name: &[u8]) -> Result<Vec<u8>, AllocError>
    ensures { IfOk result (λ front. front.items ≡ screen_front name.now) }
{
    let mut front = Vec::new(alloc);
    front.extend_from_slice(b"# screen ")?;
    front.extend_from_slice(name)?;
    front.extend_from_slice(b": ")?;
    Ok(front)
}

fn push_printed(
    alloc: Global,
    out: &mut Vec<u8>,
    name: &[u8],
    printed: &Answer,
) -> Result<(), AllocError>
    ensures { OnOk result (out.new.items ≡ out.old.items
        ++ printed_text name.now (string_bytes printed.now.text) printed.now.status) }
{
    let text = printed.text.as_bytes();
    if matches!(printed.status, Status::Done) {
        return push_lines(out, b"# ", other_lines(text));
    }
    let front = screen_front(alloc, name)?;
    push_lines(out, &front, text)
}

fn push_fault(alloc: Global, out: &mut Vec<u8>, name: &[u8], fault: Fault) -> Result<(), AllocError>
    ensures { OnOk result (out.new.items ≡ out.old.items
        ++ line_after (screen_front name.now) (fault_text fault)) }
{
    let front = screen_front(alloc, name)?;
    let words = format!(in alloc; "{fault}")?;
    push_line(out, &front, words.as_bytes())
}

fn digits_of(alloc: Global, bytes: &[u8]) -> Result<String, AllocError>
    ensures { IfOk result (λ digits. string_bytes digits ≡ encode_upper bytes.now) }
{
    let mut digits = String::new(alloc);
    push_bytes(&mut digits, bytes)?;
    Ok(digits)
}

/// Adds the fields of an answer to a layout's screen, as `bind --text` reads them, each as a comment.
pub(crate) fn push_bound(
    alloc: Global,
    out: &mut Vec<u8>,
    one: &Named,
    bytes: &[u8],
) -> Result<(), AllocError>
    ensures { OnOk result (out.new.items
        ≡ out.old.items ++ bound_text (named_view one.now) bytes.now) }
{
    let digits = digits_of(alloc, bytes)?;
    match bind_answers(alloc, &one.layout, digits.as_bytes(), Form::Text) {
        Ok(printed) => push_printed(alloc, out, &one.name, &printed),
        Err(CommandError::Fault(fault)) => push_fault(alloc, out, &one.name, fault),
        Err(CommandError::ReadFailed | CommandError::OutOfMemory) => Err(AllocError),
    }
}
