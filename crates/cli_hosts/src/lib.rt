//! The command `serve` for many terminals at once: the sessions of a hub as hosts of one screen, and what is printed of each.
#![tactic(auto)]

mod hosted;
mod hosts;
mod laws;
mod limits;
mod lines;
mod screen_hosts;
mod settling;
mod word;

pub use hosted::{Hosted, open_host};
pub use hosts::Hosts;
pub use laws::host_law;
pub use limits::{host_limits, record_room};
pub use lines::{fault_text, limit_text, print, starved_text};
pub use screen_hosts::ScreenHosts;
pub use session_hub::{End, Ended, Hub, Limits, Stand};
pub use settling::{Settled, settle};

#[cfg(test)]
mod tests;
