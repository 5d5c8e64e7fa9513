//! The operator.

use crate::step::strike;
use crate::stroke::Stroke;
use ds_keys::Pressed;
use ds_screen::{Cells, Screen};
use std::marker::Model;

/// An operator at a screen: the screen, and whether insert mode is on.
#[derive(Drop)]
pub struct Operator<C: Cells> {
    screen: Screen<C>,
    inserts: bool,
}

impl<C: Cells> Model for Operator<C> {
    ghost use Rattle.ds_strokes.specs.StrokeStep.{Operating};

    ghost Value = { Operating };

    ghost view = { λ o. record { screen = o.screen; inserts = o.inserts } };
}

impl<C: Cells> Operator<C> {
    ghost use Rattle.std.specs.Prelude.{◌≡◌, false};
    ghost use Rattle.ds_keys.specs.KeyStep.{KeyStep};
    ghost use Rattle.ds_strokes.specs.StrokeStep.{operating, StrokeStep, IsKey};

    /// An operator who begins at a screen, without insert mode.
    pub fn new(screen: Screen<C>) -> Operator<C>
        ensures { result ≡ operating screen false }
    {
        Operator {
            screen,
            inserts: false,
        }
    }

    /// The screen.
    pub fn screen(&self) -> &Screen<C>
        ensures { result.now ≡ self.now.screen }
    {
        &self.screen
    }

    /// Whether insert mode is on.
    pub fn inserts(&self) -> bool
        ensures { result ≡ self.now.inserts }
    {
        self.inserts
    }

    /// Strikes. It takes no memory and always succeeds. In insert mode a character that is put at the cursor moves the
    /// characters from there up to the first null of its field on by one, round the buffer; without a null in the rest of
    /// the field it is inhibited. Insert mode ends by Reset and by each key that sends. Without it a key does what `press`
    /// does; a keyboard that is locked ignores Insert, Dup and FieldMark.
    pub fn strike(&mut self, stroke: Stroke) -> Pressed
        ensures step { StrokeStep self.old stroke self.new result }
        ensures pressed { self.old.inserts ≡ false → IsKey stroke
            (λ key. KeyStep self.old.screen key self.new.screen result) }
    {
        strike(&mut self.screen, &mut self.inserts, stroke)
    }
}
