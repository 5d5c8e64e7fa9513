//! What changes entries.

ghost use Rattle.std.specs.Prelude.{◌≡◌};

/// A change of an entry.
pub trait Change<T> {
    /// What becomes of an entry.
    ghost changed: { Self → T → T };

    /// The entry that is made of this one.
    fn change(&self, entry: T) -> T
        ensures { result ≡ changed self.now entry };
}
