//! The draft of a screen.

ghost use Rattle.std.specs.Prelude.{◌≡◌, ◌≤◌, ◌<◌, length, IfOk, Ok, Err};
ghost use Rattle.std.specs.String.{string_bytes};
ghost use Rattle.scr_layout.specs.Fault.{at_key};
ghost use Rattle.scr_layout.specs.Layout.{layout_of};
ghost use Rattle.scr_layout.specs.Results.{Gives};
ghost use Rattle.scr_draft.specs.Draft.{drafted};
ghost use Rattle.scr_draft.specs.Drafted.{drafted_fields, drafts_of, declared_by};
ghost use Rattle.scr_draft.specs.Text.{draft_text};
ghost use Rattle.scr_draft.specs.Best.{SaysBest};

use crate::entries::{drafts_of, has_too_many};
use crate::text::draft_text;
use ds_screen::{PlaneCells, Screen};
use scr_layout::{LayoutError, LayoutFault, LayoutKey, Why};
use std::alloc::Global;

/// A layout for a screen, as text: an entry for each field that governs cells and is unprotected, or protected and
/// modified, in rising order of their attributes, named by the text before it on its row. With at most 1,000 such
/// fields there is one, and it is read as this layout. Against that layout nothing is found, by any records that led to
/// the screen, but what is found against every layout: a field of no cells that is sent all the same (F13). So it conforms to
/// them if any layout does.
///
/// # Errors
///
/// L11 where there are more than 1,000 fields, for which it asks for no memory; or `OutOfMemory` where a request for memory
/// was refused.
pub fn draft(alloc: Global, screen: &Screen<PlaneCells>) -> Result<String, LayoutError>
    ensures exact { Gives string_bytes result (drafted screen.now) }
    ensures printed { length (drafted_fields screen.now.cells) ≤ 1000
        → drafted screen.now ≡ Ok (draft_text screen.now (drafts_of screen.now)) }
    ensures refused { 1000 < length (drafted_fields screen.now.cells)
        → result ≡ Err (LayoutError.Refused (at_key LayoutKey.Field Why.TooManyFields)) }
    ensures reads { IfOk result (λ text. layout_of (string_bytes text)
        ≡ Ok (declared_by screen.now)) }
    ensures best { IfOk result (λ text. SaysBest screen.now (string_bytes text)) }
{
    let _size = screen.size();
    drafted(alloc, screen)
}

#[tactic(auto, unfolding(crate::specs::Draft::drafted))]
fn drafted(alloc: Global, screen: &Screen<PlaneCells>) -> Result<String, LayoutError>
    ensures exact { Gives string_bytes result (drafted screen.now) }
    ensures refused { 1000 < length (drafted_fields screen.now.cells)
        → result ≡ Err (LayoutError.Refused (at_key LayoutKey.Field Why.TooManyFields)) }
{
    if has_too_many(screen) {
        return Err(LayoutError::Refused(LayoutFault {
            field: None,
            which: Some(LayoutKey::Field),
            why: Why::TooManyFields,
        }));
    }
    let drafts = drafts_of(alloc, screen)?;
    Ok(draft_text(alloc, screen, drafts.as_slice())?)
}
