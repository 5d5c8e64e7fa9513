//! Lists of entries in the rising order of their places, with searches by halving and edits that keep the order.
#![tactic(auto)]

mod blocks;
mod change;
mod counted;
mod edits;
mod pages;
mod placed;
mod search;

pub use change::Change;
pub use edits::add;
pub use pages::{Nearest, Pages};
pub use placed::Placed;
pub use search::{held, held_near};
