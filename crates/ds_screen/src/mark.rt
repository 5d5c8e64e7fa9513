//! An attribute, by itself.

use ds_codec::Attr;
use ds_places::Placed;

/// An attribute and its position, counted from 0.
#[derive(Clone, Copy)]
pub struct Mark {
    pub at: u32,
    pub attribute: Attr,
}

impl Placed for Mark {
    ghost place_of = { λ mark. mark.at };

    fn place(&self) -> u32 {
        self.at
    }
}
