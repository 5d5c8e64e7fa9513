//! What the words of a command line ask for, as a value.
#![tactic(auto)]

mod asked;
mod many;
mod script;
mod tap;

pub use crate::asked::{Asked, KeyLines, ReportForm, When};
pub use crate::many::Many;
pub use crate::script::ScriptAsked;
pub use crate::tap::TapAsked;
