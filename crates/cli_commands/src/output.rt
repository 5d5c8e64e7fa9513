//! What the commands print.

pub mod answer;
pub mod bytes;
pub mod demo;
pub mod findings;
pub mod pieces;
pub mod screen;
