//! Why an input is refused: of a line the column and what stands there, in a sentence for standard error.
#![tactic(auto)]

mod buffer_line;
mod character_line;
mod digits;
mod ear;
mod flaw;
mod head;
mod heard;
mod judged;
mod key_line;
mod layout_fault;
mod layout_line;
mod layout_reason;
mod layout_words;
mod near;
mod order_line;
mod record_line;
mod refusal;
mod refused_answer;
mod refused_record;
mod shown;
mod telling;
mod text;
mod toml_place;
mod walk;
mod words;

pub use buffer_line::buffer_sentence;
pub use ear::Ear;
pub use flaw::{Flaw, Limit, Why};
pub use head::Place;
pub use heard::Heard;
pub use key_line::{Names, key_flaw};
pub use layout_reason::layout_sentence;
pub use near::nearest;
pub use order_line::order_flaw;
pub use record_line::{SizesBy, record_flaw};
pub use refused_answer::answer_sentences;
pub use telling::sentence;
pub use walk::Lines;
