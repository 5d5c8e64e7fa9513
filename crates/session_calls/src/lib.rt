//! What each call on a terminal's session leaves to C: a status, what is due to the host, what was agreed on, and why it failed.
#![tactic(auto)]

mod agreed;
mod calls;
mod due;
mod fault;
mod held;
mod talking;

pub use agreed::{SessionStatus, agreed_left};
pub use calls::{free_session, new_session, press_session, screen_left, take_left};
pub use due::due_left;
pub use fault::fault_left;
pub use held::HeldSession;
