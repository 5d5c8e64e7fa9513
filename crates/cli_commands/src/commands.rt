//! The commands, each a function of its inputs.

mod back;
pub mod backward;
mod check;
mod convert;
mod found;
mod pen;
mod press;
mod show;
mod strokes;
mod talk;
mod talked;

pub use back::{convert_back_text, run_convert_back};
pub(crate) use check::check_on_last;
pub use check::{check_answer, check_texts, lent, run_check};
pub use convert::{convert_text, run_convert};
pub use found::findings_of;
pub use pen::run_check_pen;
pub use press::{press_texts, run_press};
pub use show::{run_show, show_text};
pub use strokes::{press_strokes_texts, run_press_strokes};
pub use talk::{run_talk, talk_texts};
pub use talked::{Talked, judge_talk};
