//! The command `tap`: between a terminal and a host, whose bytes it hands on as they came and whose session it tells as it goes.
#![tactic(auto)]

mod listener;
mod tap;
mod text;
mod turn;

pub use listener::Listener;
pub use tap::Tap;
pub use turn::Turn;
