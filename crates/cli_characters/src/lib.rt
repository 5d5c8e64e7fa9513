//! Characters where people write: texts between quotes in lines of orders, and strings that are typed as strokes. The 95 characters
//! from the space to the tilde stand for their EBCDIC codes.
#![tactic(auto)]

mod convert;
mod law;
mod line;
mod operand;
mod orders;
mod place;
mod press;
mod runs;
mod strokes;
mod table;

pub use convert::{
    convert_back_characters_text, convert_characters_text, run_convert_back_characters,
    run_convert_characters,
};
pub use law::{characters_law, table_law};
pub use operand::{Stop, first_stop};
pub use orders::plain_line;
pub use place::Place;
pub use press::{run_press_typed, typed_texts};
pub use strokes::{read_typed, string_of, typed_in};
pub use table::code_of;
