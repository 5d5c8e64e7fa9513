//! Taps over TCP: a port, a host behind it, and the pairs of sockets that came of it, all on one thread.
#![tactic(auto)]

mod pair;
mod printing;
mod server;
mod socket;

pub use server::{LeavesScreens, Outside, Taps, run_taps};
