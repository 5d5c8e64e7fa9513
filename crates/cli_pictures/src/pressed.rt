//! The screen that keys leave, in the further forms.

ghost use Rattle.std.specs.Prelude.{◌≡◌, OnOk};
ghost use Rattle.ds_keys.specs.KeyRuns.{after};
ghost use Rattle.cli_commands.specs.Fault.{Finds, Gives};
ghost use Rattle.cli_commands.specs.Held.{answer_seen, keys_seen, records_held, records_seen};
ghost use Rattle.cli_pictures.specs.Pressed.{pressed_from, pressed_told, pressed_keys, pressed};

use crate::drawing::Drawing;
use crate::picture::drawn_answer;
use cli_commands::{Answer, CommandError, Keys, Records, SizeLine, keys_in, records_in, show_all};
use ds_keys::Key;
use ds_screen::PlaneCells;
use ds_terminal::Terminal;
use std::alloc::{AllocError, Global};

/// Presses keys in turn; what they send is left aside.
#[tactic(auto, unfolding(ds_keys::specs::KeyRuns::after))]
fn press_all(
    alloc: Global,
    terminal: &mut Terminal<PlaneCells>,
    keys: &[Key],
) -> Result<(), AllocError>
    ensures { OnOk result (terminal.new ≡ after terminal.old keys.now) }
{
    for key in keys {
        let _reply = terminal.press(alloc, *key)?;
    }
    Ok(())
}

/// What is told, in a form, of the screen that keys leave of the one that records leave on a terminal.
fn pressed_from(
    alloc: Global,
    drawing: Drawing,
    terminal: &mut Terminal<PlaneCells>,
    records: &[Vec<u8>],
    named: &Keys,
) -> Result<Answer, CommandError>
    ensures { Finds answer_seen result
        (pressed_from drawing terminal.old (records_held records.now) (keys_seen named.now)) }
{
    show_all(terminal, records)?;
    press_all(alloc, terminal, named.keys.as_slice())?;
    Ok(drawn_answer(alloc, drawing, terminal.screen())?)
}

/// What is told, in a form, of the screen that records and then keys leave.
fn pressed_told(
    alloc: Global,
    drawing: Drawing,
    told: &Records,
    named: &Keys,
) -> Result<Answer, CommandError>
    ensures { Gives answer_seen result
        (pressed_told drawing (records_seen told.now) (keys_seen named.now)) }
{
    let mut terminal = Terminal::new(alloc, told.geometry)?;
    pressed_from(
        alloc,
        drawing,
        &mut terminal,
        told.records.as_slice(),
        named,
    )
}

/// The same of a text of keys.
fn pressed_keys(
    alloc: Global,
    drawing: Drawing,
    told: &Records,
    keys: &[u8],
) -> Result<Answer, CommandError>
    ensures { Gives answer_seen result (pressed_keys drawing (records_seen told.now) keys.now) }
{
    let named = keys_in(alloc, keys)?;
    pressed_told(alloc, drawing, told, &named)
}

/// What is told, in a form, of the screen that the keys of a text leave, pressed in turn on the screen that a text of records
/// leaves; or the first fault. At most 16,777,216 bytes of either, 1,000 records of 32,768 bytes, 100,000 keys.
///
/// # Errors
///
/// The first fault of the records' lines, then of the keys' lines, then the first record that is refused; out of memory.
pub fn pressed_text(
    alloc: Global,
    drawing: Drawing,
    records: &[u8],
    keys: &[u8],
) -> Result<Answer, CommandError>
    ensures { Gives answer_seen result (pressed drawing records.now keys.now) }
{
    let told = records_in(alloc, records, SizeLine::Allowed)?;
    pressed_keys(alloc, drawing, &told, keys)
}
