//! The records that made a screen, as the turns of a dialogue that all have one layout.

ghost use Rattle.std.specs.Prelude.{◌≡◌, ◌∷◌, map, IfOk};
ghost use Rattle.std.specs.List.{list_any};
ghost use Rattle.cli_commands.specs.TurnsHeld.{lent_held};
ghost use Rattle.scr_check.specs.TalkSeen.{rounds_of, stop_in};
ghost use Rattle.tn_session.specs.KeptView.{kept_view};
ghost use Rattle.script_checks.specs.Turns.{turns_of, later_turns, this_turn, are_several, rounds_with, stop_of};

use scr_check::{TalkVerdict, Turn, check_talk};
use scr_layout::Layout;
use std::alloc::{AllocError, Global};
use std::mem;
use tn_session::KeptRecord;

/// The turns that begin with this one, of the records after its first.
fn turns_from<'a>(
    alloc: Global,
    first: &'a [u8],
    others: &'a [KeptRecord],
) -> Result<Vec<Vec<&'a [u8]>>, AllocError>
    ensures { IfOk result (λ turns. lent_held turns.items
        ≡ (first.now ∷ this_turn (map kept_view others.now)) ∷ later_turns (map kept_view others.now)) }
{
    let mut turns = Vec::new(alloc);
    let mut turn = vec![in alloc; first]?;
    for record in others {
        if record.begins_turn {
            turns.push(mem::replace(&mut turn, Vec::new(alloc)))?;
        }
        turn.push(record.bytes.as_slice())?;
    }
    turns.push(turn)?;
    Ok(turns)
}

/// The records of each turn; one turn of no record where there is none.
fn turns_of(alloc: Global, kept: &[KeptRecord]) -> Result<Vec<Vec<&[u8]>>, AllocError>
    ensures { IfOk result (λ turns. lent_held turns.items ≡ turns_of (map kept_view kept.now)) }
{
    match kept.split_first() {
        Some((first, others)) => turns_from(alloc, first.bytes.as_slice(), others),
        None => {
            let mut turns = Vec::new(alloc);
            turns.push(Vec::new(alloc))?;
            Ok(turns)
        }
    }
}

/// Each turn's records with the layout.
fn with_layout<'a, 'r>(
    alloc: Global,
    turns: &'a [Vec<&'r [u8]>],
    layout: &'a Layout,
) -> Result<Vec<Turn<'a, 'r>>, AllocError>
    ensures { IfOk result (λ v. rounds_of v.items
        ≡ rounds_with layout.now (lent_held turns.now)) }
{
    let mut rounds = Vec::new(alloc);
    for records in turns {
        rounds.push(Turn {
            records: records.as_slice(),
            layout,
        })?;
    }
    Ok(rounds)
}

/// The verdict on the turns of these records, as `check` gives it on one turn, and `talk` on several.
pub(crate) fn verdict_on(
    alloc: Global,
    kept: &[KeptRecord],
    layout: &Layout,
) -> Result<TalkVerdict, AllocError>
    ensures { IfOk result (λ verdict. stop_in verdict
        ≡ stop_of layout.now (map kept_view kept.now)) }
{
    let turns = turns_of(alloc, kept)?;
    let rounds = with_layout(alloc, turns.as_slice(), layout)?;
    check_talk(alloc, rounds.as_slice())
}

/// Whether one of the records begins a turn.
fn begin_turns(kept: &[KeptRecord]) -> bool
    ensures { result ≡ list_any (λ one. one.begins_turn) kept.now }
{
    kept.iter().any(|record| record.begins_turn)
}

/// Whether there is more than one turn.
#[tactic(auto, using(crate::proofs::Lists::any_mapped))]
pub(crate) fn are_several(kept: &[KeptRecord]) -> bool
    ensures { result ≡ are_several (map kept_view kept.now) }
{
    match kept.split_first() {
        Some((_, others)) => begin_turns(others),
        None => false,
    }
}
