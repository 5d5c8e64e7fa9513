//! A key is pressed (GA23-0059, "Keyboard").

ghost use Rattle.std.specs.Prelude.{◌≡◌, ◌<◌, length};
ghost use Rattle.ds_keys.specs.KeyStep.{step, erase_input_step, attention_step, free_step, error_step, moved, KeyStep};
ghost use Rattle.ds_keys.specs.Kept.{place_after};

use crate::edits::{delete, erase_eof, type_code};
use crate::key::Key;
use crate::moves::{place_back, row_after};
use crate::pressed::Pressed;
use ds_codec::Aid;
use ds_screen::ring::{backward, forward};
use ds_screen::{Cells, Lock, Screen};

/// Moves the cursor.
fn move_to<C: Cells>(screen: &mut Screen<C>, place: u32) -> Pressed
    requires { place < length screen.old.cells }
    ensures { step screen.new result ≡ moved screen.old place }
{
    screen.move_cursor(place);
    Pressed::Done
}

/// The place to which a cursor key moves the cursor; for another key where it stands.
fn place_of<C: Cells>(screen: &Screen<C>, key: Key) -> u32
    ensures place { result ≡ place_after screen.now key }
    ensures inside { result < length screen.now.cells }
{
    let n = screen.position_count();
    let cursor = screen.cursor();
    let cols = u32::from(screen.size().cols);
    match key {
        Key::Left => backward(n, cursor, 1),
        Key::Right => forward(n, cursor, 1),
        Key::Up => backward(n, cursor, cols),
        Key::Down => forward(n, cursor, cols),
        Key::Tab => screen.start_ahead(cursor),
        Key::BackTab => place_back(screen, cursor),
        Key::NewLine => screen.first_open(row_after(n, cols, cursor)),
        Key::Home => screen.first_open(0),
        _ => cursor,
    }
}

/// Erases what can be typed over, and goes to the first open position.
#[tactic(auto, unfolding(crate::specs::KeyStep::erase_input_step))]
fn erase_input<C: Cells>(screen: &mut Screen<C>) -> Pressed
    ensures { step screen.new result ≡ erase_input_step screen.old }
{
    screen.clear_unprotected();
    Pressed::Done
}

/// An attention key: the keyboard waits for the host, and the terminal sends. Clear erases first. 60 is
/// no key.
#[tactic(auto, unfolding(crate::specs::KeyStep::attention_step))]
fn attend<C: Cells>(screen: &mut Screen<C>, aid: Aid) -> Pressed
    ensures { step screen.new result ≡ attention_step screen.old aid }
{
    if !(aid.is_long() || aid.is_short()) {
        return Pressed::Ignored;
    }
    if aid == Aid::clear() {
        screen.erase_default();
    }
    screen.set_aid(aid);
    screen.set_lock(Lock::Waiting);
    Pressed::Sent(aid)
}

/// A key on a free keyboard.
#[tactic(auto, unfolding(crate::specs::KeyStep::free_step))]
fn press_free<C: Cells>(screen: &mut Screen<C>, key: Key) -> Pressed
    ensures { step screen.new result ≡ free_step screen.old key }
{
    match key {
        Key::Typed(code) => type_code(screen, code),
        Key::EraseEof => erase_eof(screen),
        Key::EraseInput => erase_input(screen),
        Key::Delete => delete(screen),
        Key::Attention(aid) => attend(screen, aid),
        _ => {
            let place = place_of(screen, key);
            move_to(screen, place)
        }
    }
}

/// A key after an error.
fn press_in_error<C: Cells>(screen: &mut Screen<C>, key: Key) -> Pressed
    ensures { step screen.new result ≡ error_step screen.old key }
{
    if let Key::Reset = key {
        screen.set_lock(Lock::Free);
        return Pressed::Done;
    }
    Pressed::Ignored
}

/// Presses a key. It takes no memory and always succeeds. A keyboard that waits ignores every key; after an
/// error Reset alone acts, and frees it. A key that cannot act where the cursor stands is inhibited, which
/// sets the error and nothing else. Keys that look for a field go from attribute to attribute by the searches of
/// `Cells`, so in planes they cost those that they pass and not the buffer's size; Clear and Erase Input go over
/// the whole buffer; the others take time linear in the cells of the cursor's field. The lock's rules and the
/// end of Delete at the row's end are our own.
#[tactic(auto, unfolding(crate::specs::KeyStep::step_of))]
pub fn press<C: Cells>(screen: &mut Screen<C>, key: Key) -> Pressed
    ensures { KeyStep screen.old key screen.new result }
{
    match screen.lock() {
        Lock::Free => press_free(screen, key),
        Lock::Error => press_in_error(screen, key),
        Lock::Waiting => Pressed::Ignored,
    }
}
