//! What has a place.

ghost use Rattle.std.specs.Prelude.{◌≡◌, ℕ};

/// An entry of a list that is kept in the order of places.
pub trait Placed: Copy {
    /// Its place.
    ghost place_of: { Self → ℕ };

    /// Its place, counted from 0.
    fn place(&self) -> u32
        ensures { result ≡ place_of self.now };
}

impl Placed for u32 {
    ghost place_of = { λ p. p };

    fn place(&self) -> u32 {
        *self
    }
}
