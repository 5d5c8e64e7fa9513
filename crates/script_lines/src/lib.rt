//! Lines of a script as s3270 4.1 reads them: actions, each with its arguments, one at the front of a line.
#![tactic(auto)]

mod action;
mod arguments;
mod blanks;
mod fault;
mod quoted;

pub use action::{Action, Found, next_action};
pub use fault::{SyntaxFault, SyntaxWhy};
