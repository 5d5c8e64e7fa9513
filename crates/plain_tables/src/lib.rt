//! Tables of TOML in their usual form, pairs of a key and a string or a scalar at the top and under headers such as `[[key]]`, read line
//! by line and without a tree. A text of another form, and one that is to be refused, is left to TOML's own reader.
#![tactic(auto)]

mod line;
mod table;

pub use line::{header, pair};
pub use table::pairs;

#[cfg(test)]
mod tests;
