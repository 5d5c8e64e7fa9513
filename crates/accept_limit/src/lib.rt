//! How many connections are accepted from one address in a second.
//!
//! A limit reads no clock and has no sockets. Whoever accepts connections tells it where each came from and when, and is told
//! whether it is to be kept.
#![tactic(auto)]

mod laws;
mod limit;

pub use laws::{history_law, room_law, window_law};
pub use limit::{AcceptLimit, Arrival};

#[cfg(test)]
mod tests;
