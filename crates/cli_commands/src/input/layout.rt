//! The text of a layout.

ghost use Rattle.std.specs.Prelude.{◌≡◌, IfSome};
ghost use Rattle.scr_layout.specs.Results.{Gives as GivesLayout};
ghost use Rattle.cli_commands.specs.Causes.{ToldBy};
ghost use Rattle.cli_commands.specs.Fault.{Gives, GivesOrFails};
ghost use Rattle.cli_commands.specs.LayoutText.{layout_said, layout_in};

use crate::fault::CommandError;
use crate::input::bytes::within_limit;
use crate::input::lines::text_of;
use crate::input::source::{Source, Whole};
use scr_layout::{Layout, LayoutError, LayoutFault, Why};
use std::alloc::Global;

/// The layout that bytes say.
fn layout_of(alloc: Global, bytes: &[u8]) -> Result<Layout, LayoutError>
    ensures { GivesLayout (λ l. l) result (layout_said bytes.now) }
{
    match text_of(bytes) {
        Some(text) => Layout::from_text(alloc, text),
        None => Err(LayoutError::Refused(LayoutFault {
            field: None,
            which: None,
            why: Why::NotToml,
        })),
    }
}

/// The layout of a text, or its first fault.
pub fn layout_in(alloc: Global, text: &[u8]) -> Result<Layout, CommandError>
    ensures { Gives (λ l. l) result (layout_in text.now) }
{
    let said = within_limit(text)?;
    Ok(layout_of(alloc, said)?)
}

/// The layout of an input, or its first fault.
pub fn read_layout<S: Source>(alloc: Global, source: &mut S) -> Result<Layout, CommandError>
    ensures layout { IfSome (S.remaining source.old)
        (λ input. GivesOrFails (λ l. l) result (layout_in input)) }
    ensures cause { ToldBy (S.failures source.old) (S.failures source.new) result }
{
    let text = source.whole(alloc)?;
    layout_in(alloc, text.bytes())
}
