//! The keys of a demo, pressed on a screen whose modified attributes are listed, with notes of what they change.

ghost use Rattle.std.specs.Prelude.{◌≡◌, replicate, true, OnOk};
ghost use Rattle.ds_screen.specs.Picture.{Picture};
ghost use Rattle.ds_keys.specs.declared.key.Key.{Key};
ghost use Rattle.ds_keys.specs.KeyRuns.{after, after_key, answer_of, is_accepted};
ghost use Rattle.demo_screens.specs.Notes.{LeadBack};
ghost use Rattle.demo_screens.specs.Modified.{modified_places};

use crate::notes::{Note, take_note};
use ds_codec::Aid;
use ds_keys::{Key, press};
use ds_places::add;
use ds_screen::{Cells, Lock, Screen};
use std::alloc::AllocError;

/// Presses Right so many times: on a free keyboard the cursor goes on round the buffer, else nothing happens.
pub(crate) fn press_rights<C: Cells>(screen: &mut Screen<C>, rights: u32)
    ensures { screen.new ≡ after screen.old (replicate rights Key.Right) }
{
    match screen.lock() {
        Lock::Free => {
            let n = u64::from(screen.size().cells());
            let ahead = (u64::from(screen.cursor()) + u64::from(rights)) % n;
            screen.move_cursor(ahead as u32);
        }
        Lock::Waiting | Lock::Error => {}
    }
}

/// Whether C1 is accepted where the cursor stands.
fn can_type<C: Cells>(screen: &Screen<C>) -> bool
    ensures { result ≡ is_accepted (answer_of screen.now (Key.Typed 0xC1)) }
{
    match screen.lock() {
        Lock::Free => screen.is_open(screen.cursor()),
        Lock::Waiting | Lock::Error => false,
    }
}

/// Notes the cells that C1 changes where it is accepted, and lists the attribute that it makes modified.
fn note_typing<C: Cells>(
    screen: &Screen<C>,
    listed: &mut Vec<u32>,
    notes: &mut Vec<Note>,
) -> Result<(), AllocError>
    requires accepted { is_accepted (answer_of screen.now (Key.Typed 0xC1)) ≡ true }
    requires listed { listed.old.items ≡ modified_places screen.now.cells }
    ensures listed { OnOk result (listed.new.items
        ≡ modified_places (after_key screen.now (Key.Typed 0xC1)).cells) }
    ensures ahead { OnOk result ((before : Picture) → LeadBack before screen.now notes.old.items
        → LeadBack before (after_key screen.now (Key.Typed 0xC1)) notes.new.items) }
    ensures here { (before : Picture) → LeadBack before screen.now notes.old.items
        → LeadBack before screen.now notes.new.items }
{
    let cursor = screen.cursor();
    match screen.attr_before(cursor) {
        Some(at) => {
            take_note(screen, notes, at)?;
            add(listed, at)?;
            take_note(screen, notes, cursor)?;
            Ok(())
        }
        None => {
            take_note(screen, notes, cursor)?;
            Ok(())
        }
    }
}

/// Types C1.
fn type_once<C: Cells>(
    screen: &mut Screen<C>,
    listed: &mut Vec<u32>,
    notes: &mut Vec<Note>,
) -> Result<(), AllocError>
    requires { listed.old.items ≡ modified_places screen.old.cells }
    ensures pressed { OnOk result (screen.new ≡ after_key screen.old (Key.Typed 0xC1)) }
    ensures listed { OnOk result (listed.new.items ≡ modified_places screen.new.cells) }
    ensures back { (before : Picture) → LeadBack before screen.old notes.old.items
        → LeadBack before screen.new notes.new.items }
{
    if can_type(screen) {
        note_typing(screen, listed, notes)?;
    }
    let _answer = press(screen, Key::Typed(0xC1));
    Ok(())
}

/// Types C1 so many times.
pub(crate) fn type_times<C: Cells>(
    screen: &mut Screen<C>,
    listed: &mut Vec<u32>,
    notes: &mut Vec<Note>,
    times: u32,
) -> Result<(), AllocError>
    requires { listed.old.items ≡ modified_places screen.old.cells }
    ensures pressed { OnOk result
        (screen.new ≡ after screen.old (replicate times (Key.Typed 0xC1))) }
    ensures listed { OnOk result (listed.new.items ≡ modified_places screen.new.cells) }
    ensures back { (before : Picture) → LeadBack before screen.old notes.old.items
        → LeadBack before screen.new notes.new.items }
{
    'times: for _ in 0..times {
        type_once(screen, listed, notes)?;
    }
    Ok(())
}

/// Presses Enter.
pub(crate) fn press_enter<C: Cells>(screen: &mut Screen<C>)
    ensures { screen.new ≡ after_key screen.old (Key.Attention 0x7D) }
{
    let _answer = press(screen, Key::Attention(Aid::enter()));
}
