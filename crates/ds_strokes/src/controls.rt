//! Duplicate and field mark, the two characters with keys of their own (GA23-0059, "Keyboard").

ghost use Rattle.std.specs.Prelude.{◌≡◌, true, ◌<◌, length};
ghost use Rattle.ds_codec.specs.Character.{is_text};
ghost use Rattle.ds_screen.specs.declared.lock.Lock.{Lock};
ghost use Rattle.ds_screen.specs.Fields.{is_open};
ghost use Rattle.ds_keys.specs.KeyStep.{step, inhibited};
ghost use Rattle.ds_keys.specs.declared.key.Key.{Key};
ghost use Rattle.ds_strokes.specs.StrokeStep.{goes_on, tabs, stored, put_step, free_key_step};

use crate::room::make_room;
use ds_codec::{Char, is_graphic_code};
use ds_keys::{Key, Pressed, press};
use ds_screen::{Cells, Lock, Screen};

const SPACE: u8 = 0x40;

const DUPLICATE: u8 = 0x1C;

const FIELD_MARK: u8 = 0x1E;

/// Locks the keyboard: the stroke can't act here.
fn inhibit<C: Cells>(screen: &mut Screen<C>) -> Pressed
    ensures { step screen.new result ≡ inhibited screen.old }
{
    screen.set_lock(Lock::Error);
    Pressed::Inhibited
}

/// Puts a character that has no key of its own where the cursor stands: a space is typed there, and the character takes its
/// place.
fn store<C: Cells>(screen: &mut Screen<C>, code: u8)
    requires free { screen.old.lock ≡ Lock.Free }
    requires opens { is_open screen.old.cells screen.old.cursor ≡ true }
    requires text { is_text code ≡ true }
    ensures { screen.new ≡ (stored screen.old code goes_on).after }
{
    let character = Char::new(code, false).unwrap();
    let cursor = screen.cursor();
    press(screen, Key::Typed(SPACE));
    screen.put_char(cursor, character);
}

/// Where Tab takes the cursor.
fn place_of_tab<C: Cells>(screen: &mut Screen<C>) -> u32
    requires free { screen.old.lock ≡ Lock.Free }
    ensures place { result ≡ tabs screen.old }
    ensures inside { result < length screen.old.cells }
    ensures same { screen.new ≡ screen.old }
{
    let cursor = screen.cursor();
    press(screen, Key::Tab);
    let place = screen.cursor();
    screen.move_cursor(cursor);
    place
}

/// Types a code, 40 to FE, where the cursor stands.
pub(crate) fn type_code<C: Cells>(screen: &mut Screen<C>, inserts: bool, code: u8) -> Pressed
    requires { screen.old.lock ≡ Lock.Free }
    ensures { step screen.new result ≡ free_key_step inserts screen.old (Key.Typed code) }
{
    if !is_graphic_code(code) {
        return Pressed::Ignored;
    }
    if !make_room(screen, inserts) {
        return inhibit(screen);
    }
    press(screen, Key::Typed(code))
}

/// Puts duplicate where the cursor stands, and presses Tab there.
pub(crate) fn duplicate<C: Cells>(screen: &mut Screen<C>, inserts: bool) -> Pressed
    requires { screen.old.lock ≡ Lock.Free }
    ensures { step screen.new result ≡ put_step inserts screen.old 0x1C tabs }
{
    if !make_room(screen, inserts) {
        return inhibit(screen);
    }
    let next = place_of_tab(screen);
    store(screen, DUPLICATE);
    screen.move_cursor(next);
    Pressed::Done
}

/// Puts field mark where the cursor stands.
pub(crate) fn mark_field<C: Cells>(screen: &mut Screen<C>, inserts: bool) -> Pressed
    requires { screen.old.lock ≡ Lock.Free }
    ensures { step screen.new result ≡ put_step inserts screen.old 0x1E goes_on }
{
    if !make_room(screen, inserts) {
        return inhibit(screen);
    }
    store(screen, FIELD_MARK);
    Pressed::Done
}
