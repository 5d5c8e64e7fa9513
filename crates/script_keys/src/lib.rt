//! Actions of a script by their names and arguments, and the keys that they press at a screen.
#![tactic(auto)]

mod action;
mod arity;
mod ends;
mod fault;
mod fill;
mod keys;
mod laws;
mod name;
mod number;
mod places;
mod run;
mod steps;
mod target;

pub use action::{Action, read_action};
pub use arity::Arity;
pub use fault::{Fault, push_fault};
pub use fill::typed_runs;
pub use keys::Keys;
pub use laws::{move_law, quiet_law};
pub use name::{Name, name_of};
pub use number::{Number, number_of};
pub use run::Run;
pub use steps::{margin_run, runs_of};
pub use target::Target;
