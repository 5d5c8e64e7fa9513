//! The records that a checker took, as only proofs see them. They take no memory, and the methods do nothing at run time.

ghost use Rattle.std.specs.Prelude.{◌≡◌, ℕ, List, [], ◌∷◌, ◌++◌};
ghost use Rattle.std.specs.Borrow.{ftrue};

use std::marker::Model;

/// Records one after the other. A clause reads them as `items`.
#[derive(Drop)]
pub(crate) struct TakenRecords {
    pub ghost items: { List (List ℕ) },
}

impl Model for TakenRecords {
    ghost also_owns = { λ _. ftrue };
}

impl TakenRecords {
    /// No record yet.
    pub(crate) fn new() -> TakenRecords
        ensures { result.items ≡ [] }
    {
        TakenRecords {}
    }

    /// One more record, after the others.
    pub(crate) fn add(&mut self, _bytes: &[u8])
        ensures { self.new.items ≡ self.old.items ++ _bytes.now ∷ [] }
    {}
}
