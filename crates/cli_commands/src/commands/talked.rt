//! A dialogue and what stands against it, for those who report it otherwise.

ghost use Rattle.std.specs.Prelude.{◌≡◌, length, map, None, IfOk};
ghost use Rattle.scr_check.specs.TalkSeen.{stop_in};
ghost use Rattle.cli_commands.specs.Fault.{Gives};
ghost use Rattle.cli_commands.specs.Talk.{first_other};
ghost use Rattle.cli_commands.specs.Talked.{judged_turns, talked_told, talked_turns, judged_talk};
ghost use Rattle.cli_commands.specs.TalkedHeld.{talked_seen};
ghost use Rattle.cli_commands.specs.TurnsHeld.{turns_held};

use crate::commands::talk::{one_geometry, turns_verdict};
use crate::fault::{CommandError, Fault};
use crate::input::layouts::layouts_in;
use crate::input::turns::turns_in;
use scr_check::TalkVerdict;
use scr_layout::Layout;
use std::alloc::{AllocError, Global};

/// The turns of a dialogue, their layouts, and the verdict on them.
#[derive(Drop)]
pub struct Talked {
    /// The layout of each turn.
    pub layouts: Vec<Layout>,
    /// The records of each turn.
    pub turns: Vec<Vec<Vec<u8>>>,
    pub verdict: TalkVerdict,
}

/// The verdict on as many turns as layouts, with these.
fn judged_turns(
    alloc: Global,
    layouts: Vec<Layout>,
    turns: Vec<Vec<Vec<u8>>>,
) -> Result<Talked, AllocError>
    requires same { first_other layouts.items ≡ None }
    requires as_many { length turns.items ≡ length layouts.items }
    ensures { IfOk result (λ talked. talked_seen talked
        ≡ judged_turns layouts.items (turns_held turns.items)) }
{
    let verdict = turns_verdict(alloc, layouts.as_slice(), turns.as_slice())?;
    Ok(Talked {
        layouts,
        turns,
        verdict,
    })
}

/// The same of turns and layouts, unless their numbers differ.
fn talked_told(
    alloc: Global,
    layouts: Vec<Layout>,
    turns: Vec<Vec<Vec<u8>>>,
) -> Result<Talked, CommandError>
    requires { first_other layouts.items ≡ None }
    ensures { Gives talked_seen result (talked_told layouts.items (turns_held turns.items)) }
{
    if turns.len() != layouts.len() {
        return Err(CommandError::Fault(Fault::OtherCount(turns.len(), layouts.len())));
    }
    Ok(judged_turns(alloc, layouts, turns)?)
}

/// The same of layouts of one geometry and a text of turns.
fn talked_turns(alloc: Global, layouts: Vec<Layout>, records: &[u8]) -> Result<Talked, CommandError>
    requires { first_other layouts.items ≡ None }
    ensures { Gives talked_seen result (talked_turns layouts.items records.now) }
{
    let turns = turns_in(alloc, records)?;
    talked_told(alloc, layouts, turns)
}

/// What the texts of layouts and of turns tell, and the verdict on it: the one that `talk` prints.
///
/// # Errors
///
/// The first fault, as of `talk_texts`; out of memory.
pub fn judge_talk(alloc: Global, layouts: &[&[u8]], records: &[u8]) -> Result<Talked, CommandError>
    ensures { Gives talked_seen result
        (judged_talk (map (λ text. text.now) layouts.now) records.now) }
{
    let layouts = layouts_in(alloc, layouts)?;
    one_geometry(layouts.as_slice())?;
    talked_turns(alloc, layouts, records)
}
