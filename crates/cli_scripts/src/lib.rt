//! The command `script`: a terminal that test tools drive by lines, as s3270 4.1 is driven.
#![tactic(auto)]

mod answer;
mod came;
mod connecting;
mod deed;
mod desk;
mod doing;
mod files;
mod host;
mod kept;
mod keys;
mod kind;
mod laws;
mod machine;
mod reading;
mod run;
mod script;
mod sent_screen;
mod settings;
mod tool;
mod typing;
mod waiting;
mod worker;
mod world;

pub use came::{Came, Need, Wants};
pub use deed::Deed;
pub use laws::{deeds_law, runs_law};
pub use machine::Machine;
pub use run::run_script;
pub use sent_screen::SentScreen;
pub use world::{Heard, Patience, World};
