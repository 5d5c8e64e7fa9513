//! A relay between a terminal and a host, without its sockets: bytes go both ways as they came, and so do ends.
#![tactic(auto)]

mod line;
mod pipe;
mod relay;

pub use line::{Gave, Line, Took};
pub use relay::Relay;
