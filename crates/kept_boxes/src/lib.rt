//! A value on the heap behind a pointer, or none behind a null one, so that a struct of such a pointer can go to C and come back.
#![tactic(auto)]

ghost use Rattle.std.specs.Prelude.{◌≡◌, Option, Some, None, option_map};
ghost use Rattle.kept_boxes.specs.Owned.{box_at};

use std::alloc::Global;
use std::marker::Model;
use std::ptr::null_mut;

/// A value on the heap, or none. It isn't `Drop`: no code can lose it, and only `open` gives the value back.
pub struct Kept<T> {
    pub at: *mut T,
    pub ghost value: { Option T },
}

impl<T> Model for Kept<T> {
    ghost also_owns = { λ kept. box_at T.row kept.at kept.value };
}

impl<T> Kept<T> {
    /// None.
    pub fn none() -> Kept<T>
        ensures { result.value ≡ None }
    {
        Kept { at: null_mut() }
    }

    /// The value of a box.
    pub fn of(kept: Box<T>) -> Kept<T>
    where
        T: Drop,
        ensures { result.value ≡ Some kept.value }
    {
        Kept {
            at: Box::into_raw(kept),
        }
    }

    /// The box again, where there is one.
    pub fn open(self, alloc: Global) -> Option<Box<T>>
        ensures { option_map (λ kept. kept.value) result ≡ self.value }
    {
        let Kept { at } = self;
        if at.is_null() {
            return None;
        }
        Some(unsafe { Box::from_raw(alloc, at) })
    }
}
