//! The layouts of the turns of a dialogue: one that several turns in a row name is read once.

ghost use Rattle.std.specs.Prelude.{◌≡◌, [], IfSome, map};
ghost use Rattle.cli_commands.specs.Causes.{ToldBy, all_failures};
ghost use Rattle.cli_commands.specs.Fault.{Gives, GivesOrFails};
ghost use Rattle.cli_commands.specs.LayoutText.{layout_in};
ghost use Rattle.cli_commands.specs.Talk.{turn_layout_in, layouts_from};
ghost use Rattle.cli_commands.specs.TurnsHeld.{all_remaining};

use crate::fault::{CommandError, Fault};
use crate::input::last_layout::LastLayout;
use crate::input::source::{Source, Whole, sources_of};
use scr_layout::Layout;
use std::alloc::Global;

/// The layout of a text. It is then the last.
fn layout_again(
    alloc: Global,
    last: &mut Option<LastLayout>,
    text: &[u8],
) -> Result<Layout, CommandError>
    ensures { Gives (λ l. l) result (layout_in text.now) }
{
    if let Some(known) = last {
        if known.is_of(text) {
            return known.copied(alloc);
        }
    }
    let read = LastLayout::new(alloc, text)?;
    let layout = read.copied(alloc);
    *last = Some(read);
    layout
}

/// The layout of the turn of this number.
fn turn_layout_in(
    alloc: Global,
    last: &mut Option<LastLayout>,
    turn: usize,
    text: &[u8],
) -> Result<Layout, CommandError>
    ensures { Gives (λ l. l) result (turn_layout_in turn text.now) }
{
    match layout_again(alloc, last, text) {
        Ok(layout) => Ok(layout),
        Err(CommandError::Fault(Fault::LayoutRefused(fault))) => {
            Err(CommandError::Fault(Fault::TurnLayoutRefused(turn, fault)))
        }
        Err(error) => Err(error),
    }
}

fn read_turn_layout<S: Source>(
    alloc: Global,
    last: &mut Option<LastLayout>,
    turn: usize,
    source: &mut S,
) -> Result<Layout, CommandError>
    ensures layout { IfSome (S.remaining source.old)
        (λ input. GivesOrFails (λ l. l) result (turn_layout_in turn input)) }
    ensures cause { ToldBy (S.failures source.old) (S.failures source.new) result }
{
    let text = source.whole(alloc)?;
    turn_layout_in(alloc, last, turn, text.bytes())
}

/// The layouts of the turns in order, or the first fault.
pub fn read_layouts<L: Source>(
    alloc: Global,
    sources: &mut [L],
) -> Result<Vec<Layout>, CommandError>
    ensures layouts { IfSome (all_remaining L.remaining sources.old)
        (λ texts. GivesOrFails (λ v. v.items) result (layouts_from 0 [] texts)) }
    ensures cause { ToldBy (all_failures L.failures sources.old)
        (all_failures L.failures sources.new) result }
{
    let mut layouts = Vec::new(alloc);
    let mut last = None;
    for turn in 0..sources.len() {
        match read_turn_layout(alloc, &mut last, turn, &mut sources[turn]) {
            Ok(layout) => layouts.push(layout)?,
            Err(error) => return Err(error),
        }
    }
    Ok(layouts)
}

/// The same of texts.
pub fn layouts_in(alloc: Global, texts: &[&[u8]]) -> Result<Vec<Layout>, CommandError>
    ensures { Gives (λ v. v.items) result
        (layouts_from 0 [] (map (λ text. text.now) texts.now)) }
{
    let mut sources = sources_of(alloc, texts)?;
    read_layouts(alloc, sources.as_mut_slice())
}
