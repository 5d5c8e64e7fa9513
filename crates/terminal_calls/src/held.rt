//! A terminal that is held for C: a handle to its screen.

ghost use Rattle.std.specs.Prelude.{◌≡◌, Option, Some, None, option_map};
ghost use Rattle.ds_screen.specs.Picture.{Picture};
ghost use Rattle.kept_boxes.specs.Owned.{box_at};
ghost use Rattle.terminal_calls.specs.Screens.{screen_row};

use ds_screen::{PlaneCells, Screen};
use kept_boxes::Kept;
use std::alloc::Global;
use std::marker::{Model, Send};
use std::mem::replace;

/// A terminal that is held, or none where its pointer is null. No code can lose it: `free_held` frees it.
#[repr(C)]
pub struct HeldTerminal {
    at: *mut u8,
    pub ghost screen: { Option Picture },
}

impl Model for HeldTerminal {
    ghost also_owns = { λ held. box_at screen_row held.at held.screen };
}

// It owns what a box of a screen owns, so it may go to another thread.
unsafe impl Send for HeldTerminal {}

impl HeldTerminal {
    fn from_kept(kept: Kept<Screen<PlaneCells>>) -> HeldTerminal
        ensures { result.screen ≡ kept.value }
    {
        let Kept { at } = kept;
        HeldTerminal { at: at as *mut u8 }
    }

    fn into_kept(self) -> Kept<Screen<PlaneCells>>
        ensures { result.value ≡ self.screen }
    {
        let HeldTerminal { at } = self;
        Kept {
            at: at as *mut Screen<PlaneCells>,
        }
    }

    /// Takes the screen out, so that the handle is null.
    pub(crate) fn take(&mut self, alloc: Global) -> Option<Box<Screen<PlaneCells>>>
        ensures out { option_map (λ screen. screen.value) result ≡ self.old.screen }
        ensures null { self.new.screen ≡ None }
    {
        let empty = HeldTerminal::from_kept(Kept::none());
        replace(self, empty).into_kept().open(alloc)
    }

    /// Puts a screen in. One that was there is freed.
    pub(crate) fn put(&mut self, alloc: Global, screen: Box<Screen<PlaneCells>>)
        ensures { self.new.screen ≡ Some screen.value }
    {
        let full = HeldTerminal::from_kept(Kept::of(screen));
        drop(replace(self, full).into_kept().open(alloc));
    }
}
