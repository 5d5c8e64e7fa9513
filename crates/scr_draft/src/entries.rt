//! The fields that a draft declares, in rising order, each with its name.

ghost use Rattle.std.specs.Prelude.{◌≡◌, nat_lt, length, IfOk};
ghost use Rattle.std.specs.String.{string_bytes};
ghost use Rattle.scr_draft.specs.Drafted.{is_drafted, drafted_fields, drafts_of, label_before, named};

use crate::drafted::Drafted;
use crate::label::{label_of, push_label};
use crate::name::free_name;
use ds_screen::{FieldAt, PlaneCells, Screen};
use std::alloc::{AllocError, Global};

/// Whether a field governs cells, and an operator can type into it or it is sent as it came.
pub(crate) fn is_drafted(field: &FieldAt) -> bool
    ensures { result ≡ is_drafted field.now }
{
    field.length > 0 && (!field.attr.protected() || field.attr.modified())
}

/// The most fields of a layout.
const MOST_FIELDS: u32 = 1000;

/// Whether a draft would have more fields than a layout may.
pub(crate) fn has_too_many(screen: &Screen<PlaneCells>) -> bool
    ensures { result ≡ nat_lt 1000 (length (drafted_fields screen.now.cells)) }
{
    let mut left = MOST_FIELDS;
    'fields: for field in screen.fields() {
        if is_drafted(&field) {
            if left == 0 {
                return true;
            }
            left -= 1;
        }
    }
    false
}

/// The label of a field.
pub(crate) fn label_before(
    alloc: Global,
    screen: &Screen<PlaneCells>,
    field: &FieldAt,
) -> Result<String, AllocError>
    ensures { IfOk result (λ text. string_bytes text ≡ label_before screen.now field.now) }
{
    let mut text = String::new(alloc);
    push_label(&mut text, screen, label_of(screen, field.place))?;
    Ok(text)
}

/// A field with its name.
fn named(
    alloc: Global,
    screen: &Screen<PlaneCells>,
    before: &[Drafted],
    field: FieldAt,
) -> Result<Drafted, AllocError>
    ensures { IfOk result (λ draft. draft ≡ named screen.now before.now field) }
{
    let label = label_before(alloc, screen, &field)?;
    let cols = u32::from(screen.size().cols);
    let name = free_name(alloc, before, cols, field.place, label.as_bytes())?;
    Ok(Drafted { name, field })
}

/// The fields that a draft declares, in rising order of their attributes.
pub(crate) fn drafts_of(
    alloc: Global,
    screen: &Screen<PlaneCells>,
) -> Result<Vec<Drafted>, AllocError>
    ensures { IfOk result (λ drafts. drafts.items ≡ drafts_of screen.now) }
{
    let mut drafts = Vec::new(alloc);
    'fields: for field in screen.fields() {
        if is_drafted(&field) {
            let draft = named(alloc, screen, drafts.as_slice(), field)?;
            drafts.push(draft)?;
        }
    }
    Ok(drafts)
}
