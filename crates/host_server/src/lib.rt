//! Many terminals at once over TCP: a listener, the lines that came of it, and the hub that they are of.
#![tactic(auto)]

mod asked;
mod gathered;
mod one_line;
mod outlet;
mod pending;
mod place;
mod server;
mod tally;
mod watch;

pub use asked::Asked;
pub use outlet::Outlet;
pub use server::{Server, serve_all};
