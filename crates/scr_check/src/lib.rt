//! The screen layout checker: whether records and a layout agree, or exactly what stands against them.
#![tactic(auto)]

mod binding;
mod bound;
mod checker;
mod cursor;
mod fields;
mod finding;
mod finding_text;
mod later;
mod laws;
mod opening;
mod origins;
mod pen;
mod reached;
mod taken_records;
mod taking;
mod talk;
mod traced;
mod verdict;

pub use binding::{BindError, BindFault, bind};
pub use bound::Bound;
pub use checker::Checker;
pub use ds_screen::Outline;
pub use finding::{Demo, Finding, Overlong};
pub use finding_text::name_at;
pub use laws::{any_terminal_law, bind_law, own_keys_law, pen_law, yes_law};
pub use opening::{FirstTurn, ready_for};
pub use origins::{Origin, Origins, find_origins};
pub use pen::{check_with_pen, find_selectable};
pub use taking::{TurnRule, take_by};
pub use talk::{TalkVerdict, Turn, check_talk, have_one_geometry};
pub use traced::{Traced, attribute_place, trace_findings};
pub use verdict::{Verdict, check, check_on};
