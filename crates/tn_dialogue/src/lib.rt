//! A host's session of several screens, without a line: where each key leads, and what was sent at each screen.
#![tactic(auto)]

mod dialogue;
mod laws;
mod machine;
mod screen;
mod sent;
mod session;
mod turn;

pub use dialogue::DialogueSession;
pub use laws::dialogue_law;
pub use screen::{Answered, Lead, Next, Reading, Screen};
