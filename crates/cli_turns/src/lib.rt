//! Commands over the turns of a dialogue, each by itself.
#![tactic(auto)]

mod bind;
mod draft;
mod law;
mod part;

pub use bind::run_bind_turns;
pub use draft::{draft_turns_text, each_draft, run_draft_turns};
pub use law::drafts_law;
