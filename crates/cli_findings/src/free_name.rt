//! A name for a field that has no entry.

ghost use Rattle.std.specs.Prelude.{◌≡◌, ◌<◌, ◌+◌, ◌^◌, IfOk};
ghost use Rattle.std.specs.String.{string_bytes};
ghost use Rattle.cli_findings.specs.FieldName.{field_form, is_taken, field_name};
ghost use Rattle.cli_findings.specs.Help.{names_in};

use scr_layout::Entry;
use std::alloc::{AllocError, Global};

/// The form of a field's name once so many forms are taken.
fn field_form(alloc: Global, place: u32, taken: usize) -> Result<String, AllocError>
    requires { taken + 1 < 2 ^ 64 }
    ensures { IfOk result (λ name. string_bytes name ≡ field_form place taken) }
{
    let mut name = format!(in alloc; "field-{place}")?;
    if taken != 0 {
        let number = taken + 1;
        write!(name, "-{number}")?;
    }
    Ok(name)
}

/// Whether an entry has the name.
fn is_taken(entries: &[Entry], name: &str) -> bool
    ensures { result ≡ is_taken (names_in entries.now) name.now }
{
    for entry in entries {
        if name == entry.name.as_str() {
            return true;
        }
    }
    false
}

/// The first form of a field's name that no entry has.
///
/// # Errors
///
/// Where a request for memory was refused.
pub fn field_name(alloc: Global, entries: &[Entry], place: u32) -> Result<String, AllocError>
    ensures { IfOk result (λ name. string_bytes name ≡ field_name (names_in entries.now) place) }
{
    for taken in 0..entries.len() {
        let name = field_form(alloc, place, taken)?;
        if !is_taken(entries, name.as_str()) {
            return Ok(name);
        }
    }
    let name = field_form(alloc, place, entries.len())?;
    Ok(name)
}
