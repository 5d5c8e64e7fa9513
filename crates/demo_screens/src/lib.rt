//! The keys of demos, tried on one screen one demo after the other.
#![tactic(auto)]

mod answer;
mod keys;
mod notes;
mod rehearsal;

pub use rehearsal::Rehearsal;
