//! The command `serve` for applications: terminals are led through several screens, and what is printed of each of their answers.
#![tactic(auto)]

mod answer;
mod application;
mod hosted;
mod hosts;
mod last;
mod laws;
mod limits;
mod settling;

pub use application::{Application, Telling};
pub use hosted::{Dialogue, open_dialogue};
pub use hosts::DialogueHosts;
pub use last::Last;
pub use laws::dialogue_host_law;
pub use limits::dialogue_limits;
pub use settling::settle_dialogue;

#[cfg(test)]
mod tests;
