//! What an operator strikes beside keys: insert mode, and the keys of the characters duplicate and field mark, above those
//! of `ds_keys`.
#![tactic(auto)]

mod controls;
mod laws;
mod line;
mod operator;
mod room;
mod step;
mod stroke;

pub use laws::{stroke_keep_law, stroke_sound_law, stroke_touched_law, strokes_keep_law};
pub use line::stroke_of_line;
pub use operator::Operator;
pub use step::strike;
pub use stroke::Stroke;
