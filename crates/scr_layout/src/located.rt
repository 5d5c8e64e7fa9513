//! Entries by their places.

use ds_places::Placed;

/// An entry's place, and its index.
#[derive(Clone, Copy, Debug)]
pub(crate) struct Located {
    pub place: u32,
    pub index: usize,
}

impl Placed for Located {
    ghost place_of = { λ located. located.place };

    fn place(&self) -> u32 {
        self.place
    }
}
