//! What a stroke does to a screen, and to insert mode.

ghost use Rattle.std.specs.Prelude.{◌≡◌};
ghost use Rattle.ds_screen.specs.declared.lock.Lock as the_lock;
ghost use Rattle.ds_keys.specs.KeyStep.{step};
ghost use Rattle.ds_strokes.specs.StrokeStep.{free_stroke_step, locked_stroke_step, operating, stroke_step, done_inserts, inserts_after, StrokeStep};

use crate::controls::{duplicate, mark_field, type_code};
use crate::stroke::Stroke;
use ds_keys::{Key, Pressed, press};
use ds_screen::{Cells, Lock, Screen};

/// A stroke on a free keyboard.
fn strike_free<C: Cells>(screen: &mut Screen<C>, inserts: bool, stroke: &Stroke) -> Pressed
    requires { screen.old.lock ≡ the_lock.Lock.Free }
    ensures { step screen.new result ≡ free_stroke_step inserts screen.old stroke.now }
{
    match stroke {
        Stroke::Key(Key::Typed(code)) => type_code(screen, inserts, *code),
        Stroke::Key(key) => press(screen, *key),
        Stroke::Insert => Pressed::Done,
        Stroke::Dup => duplicate(screen, inserts),
        Stroke::FieldMark => mark_field(screen, inserts),
    }
}

/// A stroke on a keyboard that is locked.
fn strike_locked<C: Cells>(screen: &mut Screen<C>, stroke: &Stroke) -> Pressed
    ensures { step screen.new result ≡ locked_stroke_step screen.old stroke.now }
{
    match stroke {
        Stroke::Key(key) => press(screen, *key),
        Stroke::Insert | Stroke::Dup | Stroke::FieldMark => Pressed::Ignored,
    }
}

/// What a stroke does to the screen.
fn strike_screen<C: Cells>(screen: &mut Screen<C>, inserts: bool, stroke: &Stroke) -> Pressed
    ensures { step screen.new result ≡ stroke_step (operating screen.old inserts) stroke.now }
{
    match screen.lock() {
        Lock::Free => strike_free(screen, inserts, stroke),
        Lock::Waiting => strike_locked(screen, stroke),
        Lock::Error => strike_locked(screen, stroke),
    }
}

/// Whether insert mode is on after a stroke that was done.
fn done_inserts(inserts: bool, stroke: &Stroke) -> bool
    ensures { result ≡ done_inserts inserts stroke.now }
{
    match stroke {
        Stroke::Insert => true,
        Stroke::Key(Key::Reset) => false,
        Stroke::Key(_) | Stroke::Dup | Stroke::FieldMark => inserts,
    }
}

/// Whether insert mode is on after a stroke that was answered so.
fn inserts_after(inserts: bool, stroke: &Stroke, pressed: &Pressed) -> bool
    ensures { result ≡ inserts_after inserts stroke.now pressed.now }
{
    match pressed {
        Pressed::Done => done_inserts(inserts, stroke),
        Pressed::Sent(_) => false,
        Pressed::Inhibited | Pressed::Ignored => inserts,
    }
}

/// Strikes on a screen, with insert mode on or off: what [`Operator::strike`](crate::Operator::strike) does, for whoever
/// keeps the two apart.
pub fn strike<C: Cells>(screen: &mut Screen<C>, inserts: &mut bool, stroke: Stroke) -> Pressed
    ensures { StrokeStep (operating screen.old inserts.old) stroke
        (operating screen.new inserts.new) result }
{
    let pressed = strike_screen(screen, *inserts, &stroke);
    *inserts = inserts_after(*inserts, &stroke, &pressed);
    pressed
}
