//! Many sessions side by side, without a line: each has a seat in a hub, which its own events alone change.
//!
//! A hub reads and writes nothing, waits for nothing and has no clock. Whoever has the lines tells it what happened: a terminal
//! came, bytes came, bytes went out, a line closed or broke, time passed. It has the bytes that are due to each terminal, and
//! gives each session that ended, with how.
#![tactic(auto)]

mod hub;
mod laws;
mod seat;
mod session;

pub use hub::{Ended, Hub};
pub use laws::{alone_law, isolation_law, own_law};
pub use seat::{End, Limits, Stand};
pub use session::{Came, Session};

#[cfg(test)]
mod tests;
