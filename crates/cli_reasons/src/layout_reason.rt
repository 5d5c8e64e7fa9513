//! Why a layout is refused, in a sentence.

ghost use Rattle.std.specs.Prelude.{◌≡◌, ◌++◌, ◌≤◌, length, IfErr, IfOk, OnOk};
ghost use Rattle.cli_commands.specs.declared.fault.CommandError.TheVariants.{OutOfMemory};
ghost use Rattle.std.specs.Option.{option_map};
ghost use Rattle.std.specs.String.{string_bytes};
ghost use Rattle.cli_reasons.specs.Head.{column_head};
ghost use Rattle.cli_commands.specs.LayoutText.{layout_in};
ghost use Rattle.cli_reasons.specs.SaysLayout.{SaysFault, SaysLayout};
ghost use Rattle.cli_reasons.specs.TomlPlace.{place_after};

use crate::flaw::{Flaw, Limit, Why};
use crate::head::{Place, push_head};
use crate::layout_fault::push_key_fault;
use crate::telling::sentence;
use crate::toml_place::place_after;
use cli_commands::{CommandError, Fault, MOST_BYTES, layout_in};
use scr_layout::LayoutFault;
use std::alloc::{AllocError, Global};

/// Pushes the head of a sentence, of the place after these bytes of a text.
fn push_place_after(out: &mut String, name: &str, bytes: &[u8]) -> Result<(), AllocError>
    ensures { OnOk result (string_bytes out.new ≡ string_bytes out.old
        ++ (let place = place_after 1 1 bytes.now in column_head name.now place.line place.column)) }
{
    let place = place_after(bytes);
    push_head(out, name, Place::Column(place.line, place.column))
}

/// Pushes where a text stops to be TOML, and why.
fn push_toml_fault(
    alloc: Global,
    out: &mut String,
    name: &str,
    text: &str,
) -> Result<(), AllocError> {
    let Err(error) = toml::table_from_str(alloc, text) else {
        return push_head(out, name, Place::Whole);
    };
    match error.span() {
        Some(span) if span.start <= text.len() => {
            push_place_after(out, name, &text.as_bytes()[..span.start])?;
        }
        _ => push_head(out, name, Place::Whole)?,
    }
    out.push_str("no TOML: ")?;
    out.push_str(error.message())
}

/// Pushes why a text is no TOML: its first byte that is no UTF-8, or where TOML stops.
fn push_no_toml(
    alloc: Global,
    out: &mut String,
    name: &str,
    text: &[u8],
) -> Result<(), AllocError> {
    match str::from_utf8(text) {
        Ok(text) => push_toml_fault(alloc, out, name, text),
        Err(error) => {
            let valid = error.valid_up_to();
            push_place_after(out, name, &text[..valid])?;
            Why::NotUtf8(text[valid]).push_text(out)
        }
    }
}

/// The sentence of a fault of a layout.
fn fault_sentence(
    alloc: Global,
    name: &str,
    text: &[u8],
    fault: LayoutFault,
) -> Result<String, AllocError>
    requires { length text.now ≤ 16777216 }
    ensures { IfOk result (λ said. SaysFault name.now text.now fault (string_bytes said)) }
{
    let mut out = String::new(alloc);
    match fault.which {
        Some(_) => push_key_fault(alloc, &mut out, name, text, fault)?,
        None => push_no_toml(alloc, &mut out, name, text)?,
    }
    out.push_str("\n")?;
    Ok(out)
}

/// The sentence that says why a layout of this name is refused, where it is.
///
/// # Errors
///
/// Where a request for memory was refused.
#[tactic(auto, unfolding(cli_commands::specs::Lines::within_limit))]
pub fn layout_sentence(
    alloc: Global,
    name: &str,
    text: &[u8],
) -> Result<Option<String>, CommandError>
    ensures says { IfOk result (λ said. SaysLayout name.now text.now
        (option_map (λ words. string_bytes words) said) (layout_in text.now)) }
    ensures failed { IfErr result (λ error. error ≡ OutOfMemory) }
{
    if MOST_BYTES < text.len() {
        let flaw = Flaw::at(1, Why::TooLong(Limit::Bytes));
        return Ok(Some(sentence(alloc, name, 1, flaw, b"")?));
    }
    match layout_in(alloc, text) {
        Ok(_) => Ok(None),
        Err(CommandError::Fault(Fault::LayoutRefused(fault))) => {
            Ok(Some(fault_sentence(alloc, name, text, fault)?))
        }
        Err(error) => Err(error),
    }
}
