//! Dialogues: several screens in turn, with an operator between them.

ghost use Rattle.std.specs.Prelude.{◌≡◌, ◌↔◌, [], ◌∷◌, true, Some, IfOk};
ghost use Rattle.ds_screen.specs.Outline.{IsOutlineOf};
ghost use Rattle.ds_screen.specs.Picture.{Picture};
ghost use Rattle.scr_check.specs.Findings.{findings_of};
ghost use Rattle.scr_check.specs.Walk.{stops_or, walk_from, walk_of};
ghost use Rattle.scr_check.specs.Talk.{TalksKeep};
ghost use Rattle.scr_check.specs.Any.{TalksKeepForAny};
ghost use Rattle.scr_check.specs.TalkSeen.{rounds_of, stop_in, AreOfGeometry, HaveOneGeometry};

use crate::checker::open;
use crate::fields::findings_of;
use crate::finding::Finding;
use crate::later::later_findings;
use crate::opening::Opening;
use ds_codec::Geometry;
use ds_screen::Outline;
use scr_layout::Layout;
use std::alloc::{AllocError, Global};

/// A turn of a dialogue.
#[derive(Clone, Copy)]
pub struct Turn<'a, 'r> {
    /// What the host sends, in order.
    pub records: &'a [&'r [u8]],
    /// The screen to which it leads.
    pub layout: &'a Layout,
}

/// Whether a dialogue and its layouts agree.
#[derive(Debug, Drop)]
pub enum TalkVerdict {
    /// Nothing stands against any turn.
    Yes,
    /// The first turn against which something stands, counted from 0, and all that does.
    No { turn: usize, findings: Vec<Finding> },
}

/// Whether the layouts of the turns are for a terminal of this geometry.
fn are_of_geometry(geometry: Geometry, turns: &[Turn<'_, '_>]) -> bool
    ensures { result ≡ true ↔ AreOfGeometry geometry (rounds_of turns.now) }
{
    for turn in turns {
        if turn.layout.geometry() != geometry {
            return false;
        }
    }
    true
}

/// Whether all layouts are for a terminal of one geometry, as `check_talk` asks. No turn at all is good.
pub fn have_one_geometry(turns: &[Turn<'_, '_>]) -> bool
    ensures { result ≡ true ↔ HaveOneGeometry (rounds_of turns.now) }
{
    match turns.split_first() {
        Some((first, others)) => are_of_geometry(first.layout.geometry(), others),
        None => true,
    }
}

/// The turns after the first, each on the worst that an operator can have left of the one before.
fn check_later(
    alloc: Global,
    outline: &mut Outline,
    turns: &[Turn<'_, '_>],
) -> Result<TalkVerdict, AllocError>
    ensures { IfOk result (λ verdict. (v : Picture) → IsOutlineOf outline.old v
        → stop_in verdict ≡ walk_from 1 v (rounds_of turns.now)) }
{
    for (index, turn) in turns.iter().enumerate() {
        let findings = later_findings(alloc, outline, turn.records, turn.layout)?;
        if !findings.is_empty() {
            return Ok(TalkVerdict::No {
                turn: index + 1,
                findings,
            });
        }
    }
    Ok(TalkVerdict::Yes)
}

/// The one finding against the first turn.
fn stopped_first(alloc: Global, finding: Finding) -> Result<TalkVerdict, AllocError>
    ensures { IfOk result (λ verdict. stop_in verdict
        ≡ Some (record { turn = 0; findings = finding ∷ [] })) }
{
    Ok(TalkVerdict::No {
        turn: 0,
        findings: vec![in alloc; finding]?,
    })
}

/// What stands against the screen that the first turn opened, or else against the later turns.
fn check_opened(
    alloc: Global,
    outline: &mut Outline,
    layout: &Layout,
    others: &[Turn<'_, '_>],
) -> Result<TalkVerdict, AllocError>
    ensures { IfOk result (λ verdict. (v : Picture) → IsOutlineOf outline.old v
        → v.size ≡ layout.now.size → stop_in verdict ≡ stops_or 0 (findings_of layout.now v)
        (walk_from 1 v (rounds_of others.now))) }
{
    let findings = findings_of(alloc, outline, layout)?;
    if !findings.is_empty() {
        return Ok(TalkVerdict::No { turn: 0, findings });
    }
    check_later(alloc, outline, others)
}

/// Whether the records of each turn, on whatever an operator can have left of the turn before without Clear,
/// lead to a screen with exactly the fields of that turn's layout; otherwise the first turn that does not, and
/// all its findings, as `check` tells them. The first turn is on a new terminal; the others need not erase, but
/// may not depend on the cursor. The keys of a later turn's findings are 0 and 0. No turn at all is a yes. It
/// builds no screen, and takes time for the records' bytes and the fields that they touch.
///
/// # Errors
///
/// Where a request for memory was refused.
pub fn check_talk(alloc: Global, turns: &[Turn<'_, '_>]) -> Result<TalkVerdict, AllocError>
    requires { HaveOneGeometry (rounds_of turns.now) }
    ensures exact { IfOk result (λ verdict. stop_in verdict ≡ walk_of (rounds_of turns.now)) }
    ensures yes { IfOk result
        (λ verdict. verdict ≡ TalkVerdict.Yes → TalksKeep (rounds_of turns.now)) }
    ensures any { IfOk result
        (λ verdict. verdict ≡ TalkVerdict.Yes → TalksKeepForAny (rounds_of turns.now)) }
{
    let Some((first, others)) = turns.split_first() else {
        return Ok(TalkVerdict::Yes);
    };
    match open(alloc, first.records, first.layout)? {
        Opening::Leads(mut outline) => check_opened(alloc, &mut outline, first.layout, others),
        Opening::Stands(finding) => stopped_first(alloc, finding),
    }
}
