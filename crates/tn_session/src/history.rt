//! A history that only proofs read. It takes no memory, and its methods do nothing at run time.

ghost use Rattle.std.specs.Prelude.{◌≡◌, List, [], ◌∷◌, ◌++◌};
ghost use Rattle.std.specs.Borrow.{ftrue};

use std::marker::{Model, PhantomData};

/// Values one after the other. A clause reads them as `items`.
#[derive(Drop)]
pub struct History<A> {
    of: PhantomData<A>,
    pub ghost items: { List A },
}

impl<A> Model for History<A> {
    ghost also_owns = { λ _. ftrue };
}

impl<A> History<A> {
    /// No value yet.
    pub fn new() -> History<A>
        ensures { result.items ≡ [] }
    {
        History { of: PhantomData }
    }

    /// This history, and then one more value.
    pub fn and(&self, value: &A) -> History<A>
        ensures { result.items ≡ self.now.items ++ value.now ∷ [] }
    {
        History { of: PhantomData }
    }
}

/// Adds bytes to a history.
pub(crate) fn add_bytes(history: &mut History<u8>, bytes: &[u8])
    ensures { history.new.items ≡ history.old.items ++ bytes.now }
{
    for byte in bytes {
        *history = history.and(byte);
    }
}
