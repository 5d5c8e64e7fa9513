//! Findings told where an operator sees them and with what mends them, and dialogues in forms that tools read.
#![tactic(auto)]

mod add;
mod blanked;
mod explain;
mod explained;
mod extent;
mod label;
mod numbers;
mod stop;
mod talk;
mod talk_found;
mod talk_json;
mod talk_log;

pub use explained::{explained_texts, run_explained};
pub use talk::{TalkForm, talk_report_texts};
pub use talk_found::talk_results;
pub use talk_log::talk_log_texts;
