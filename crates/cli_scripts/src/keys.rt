//! Actions that press keys.

ghost use Rattle.std.specs.Prelude.{◌≡◌, ◌++◌, is_some, map, None, IfOk, OnOk};
ghost use Rattle.script_screens.specs.declared.lines.Outcome.TheVariants.{Done};
ghost use Rattle.cli_scripts.specs.declared.doing.Step.TheVariants.{Ended};
ghost use Rattle.cli_scripts.specs.Keying.{OnWaiting, PressedSo, SaysKeys, SaysCode, TypesCode};
ghost use Rattle.script_keys.specs.Runs.{keys_of};
ghost use Rattle.script_keys.specs.Steps.{runs_of};
ghost use Rattle.tn_session.specs.TerminalTalk.{OfStanding};
ghost use Rattle.cli_scripts.specs.declared.deed.Deed.TheVariants.{Pressed};
ghost use Rattle.cli_scripts.specs.Acts.{is_clear, is_reset, unconnected_deeds, PressesKeys, PressesOnly, WorksKeys};
ghost use Rattle.cli_scripts.specs.Desks.{Keeps};
ghost use Rattle.cli_scripts.specs.Workers.{AfterSent};

use crate::answer::Saying;
use crate::came::Need;
use crate::desk::Desk;
use crate::doing::{Doing, Step};
use ds_codec::Aid;
use ds_keys::Key;
use script_keys::{Keys, runs_of, typed_runs};
use script_screens::Outcome;
use std::alloc::{AllocError, Global};

/// What is said where a key can't act.
const LOCKED: &[u8] = b"Keyboard locked";

fn is_reset(keys: &Keys) -> bool
    ensures { result ≡ is_reset keys.now }
{
    matches!(keys, Keys::Plain(Key::Reset))
}

fn is_clear(keys: &Keys) -> bool
    ensures { result ≡ is_clear keys.now }
{
    match keys {
        Keys::Plain(Key::Attention(aid)) => *aid == Aid::clear(),
        _ => false,
    }
}

/// Presses keys at a terminal that isn't connected: Clear clears its screen, the others do nothing.
fn press_unconnected(alloc: Global, desk: &mut Desk, keys: &Keys) -> Result<Step, AllocError>
    ensures keeps { Keeps desk.old desk.new }
    ensures deeds { OnOk result (desk.new.deeds ≡ desk.old.deeds ++ unconnected_deeds keys.now) }
    ensures over { IfOk result (λ step. step ≡ Ended Done) }
    ensures works { OnOk result (WorksKeys None keys.now desk.old desk.new) }
{
    if is_clear(keys) {
        desk.clear(alloc)?;
    }
    Ok(Step::Ended(Outcome::Done))
}

/// Presses keys at a keyboard that doesn't wait, or Reset at any.
fn press_now(
    alloc: Global,
    desk: &mut Desk,
    keys: &Keys,
    saying: &mut Saying,
) -> Result<Step, AllocError>
    ensures keeps { Keeps desk.old desk.new }
    ensures deeds { OnOk result (OfStanding (λ state. desk.old.deeds
        ++ map Pressed (keys_of (runs_of state.terminal keys.now))) desk.old.talk desk.new.deeds) }
    ensures says { IfOk result (λ step. OnWaiting desk.old.talk (λ state.
        PressedSo keys.now desk.old.talk state step saying.old saying.new)) }
    ensures only { OnOk result (PressesOnly desk.old desk.new) }
{
    let runs = runs_of(alloc, desk.screen(), *keys)?;
    if desk.press_runs(alloc, &runs)? {
        return Ok(Step::Ended(saying.fail(alloc, LOCKED)?));
    }
    if desk.waits() && !is_reset(keys) {
        return Ok(Step::Waits(Doing::Sent, Need::Bytes));
    }
    Ok(Step::Ended(Outcome::Done))
}

/// Presses the keys of an action, once the keyboard doesn't wait; after one that sends it waits until it doesn't.
pub(crate) fn press(
    alloc: Global,
    desk: &mut Desk,
    keys: &Keys,
    saying: &mut Saying,
) -> Result<Step, AllocError>
    ensures keeps { Keeps desk.old desk.new }
    ensures deeds { OnOk result (PressesKeys keys.now desk.old desk.new) }
    ensures says { IfOk result (λ step. SaysKeys keys.now desk.old.host desk.old.talk step
        saying.old saying.new) }
    ensures works { OnOk result (WorksKeys desk.old.host keys.now desk.old desk.new) }
{
    if !desk.is_connected() {
        return press_unconnected(alloc, desk, keys);
    }
    if desk.waits() && !is_reset(keys) {
        return Ok(Step::Waits(Doing::Pressing(*keys), Need::Bytes));
    }
    press_now(alloc, desk, keys, saying)
}

/// Types a character, once the keyboard doesn't wait.
pub(crate) fn type_code(
    alloc: Global,
    desk: &mut Desk,
    fills: bool,
    code: u8,
    saying: &mut Saying,
) -> Result<Step, AllocError>
    ensures keeps { Keeps desk.old desk.new }
    ensures deeds { OnOk result (PressesOnly desk.old desk.new) }
    ensures typed { OnOk result (TypesCode fills code desk.old desk.new) }
    ensures says { IfOk result (λ step. SaysCode fills code desk.old.host desk.old.talk step
        saying.old saying.new) }
{
    if !desk.is_connected() {
        return Ok(Step::Ended(Outcome::Done));
    }
    if desk.waits() {
        return Ok(Step::Waits(Doing::TypingCode(code), Need::Bytes));
    }
    let runs = typed_runs(alloc, desk.screen(), fills, code)?;
    if desk.press_runs(alloc, &runs)? {
        return Ok(Step::Ended(saying.fail(alloc, LOCKED)?));
    }
    Ok(Step::Ended(Outcome::Done))
}

/// What a key that sent waits for: whether it still does.
pub(crate) fn after_sent(desk: &Desk) -> Step
    ensures { AfterSent (is_some desk.now.host) desk.now.talk result }
{
    if desk.is_connected() && desk.waits() {
        Step::Waits(Doing::Sent, Need::Bytes)
    } else {
        Step::Ended(Outcome::Done)
    }
}
