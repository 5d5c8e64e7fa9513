//! A session that is held for C.

ghost use Rattle.std.specs.Prelude.{◌≡◌, Option, Some, None, option_map};
ghost use Rattle.kept_boxes.specs.Owned.{box_at};
ghost use Rattle.session_calls.specs.Lines.{Line};
ghost use Rattle.session_calls.specs.Rows.{line_row};

use crate::talking::Talking;
use kept_boxes::Kept;
use std::alloc::Global;
use std::marker::{Model, Send};
use std::mem::replace;

/// A session that is held, or none where its pointer is null. No code can lose it: `free_session` frees it.
#[repr(C)]
pub struct HeldSession {
    at: *mut u8,
    pub ghost line: { Option Line },
}

impl Model for HeldSession {
    ghost also_owns = { λ held. box_at line_row held.at held.line };
}

// It owns what a box of a session owns, so it may go to another thread.
unsafe impl Send for HeldSession {}

impl HeldSession {
    fn from_kept(kept: Kept<Talking>) -> HeldSession
        ensures { result.line ≡ kept.value }
    {
        let Kept { at } = kept;
        HeldSession { at: at as *mut u8 }
    }

    fn into_kept(self) -> Kept<Talking>
        ensures { result.value ≡ self.line }
    {
        let HeldSession { at } = self;
        Kept {
            at: at as *mut Talking,
        }
    }

    /// Takes the session out, so that the handle is null.
    pub(crate) fn take(&mut self, alloc: Global) -> Option<Box<Talking>>
        ensures out { option_map (λ line. line.value) result ≡ self.old.line }
        ensures null { self.new.line ≡ None }
    {
        let empty = HeldSession::from_kept(Kept::none());
        replace(self, empty).into_kept().open(alloc)
    }

    /// Puts a session in. One that was there is freed.
    pub(crate) fn put(&mut self, alloc: Global, line: Box<Talking>)
        ensures { self.new.line ≡ Some line.value }
    {
        let full = HeldSession::from_kept(Kept::of(line));
        drop(replace(self, full).into_kept().open(alloc));
    }
}
