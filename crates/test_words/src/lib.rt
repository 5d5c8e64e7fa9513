//! Words of the scripts that the test programs run: numbers, bytes and texts, read and printed.
#![tactic(auto)]

mod printed;
mod read;
mod row;
mod script;
mod standing;

pub use printed::{
    push_bool, push_bytes, push_hex, push_length, push_letters, push_number, push_word_hex,
    push_word_number,
};
pub use read::{
    between_bars, byte, cut_word, is_answer, is_row, number, push_words, two_bytes, two_numbers,
};
pub use row::Row;
pub use script::{Answers, print_differences};
pub use standing::Standing;
