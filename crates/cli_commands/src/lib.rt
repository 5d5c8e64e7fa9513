//! The commands of the program `term3270`, each from texts to its answer, and over readers and a writer: lines are taken as
//! they are read (`input`), a command makes an answer of them (`commands`), and it is written (`output`).
#![tactic(auto)]

mod commands;
mod fault;
mod input;
mod law;
mod output;
mod shown;
mod status;
mod streams;

pub use commands::{
    Talked, check_answer, check_texts, convert_back_text, convert_text, findings_of, judge_talk,
    lent, press_strokes_texts, press_texts, run_check, run_check_pen, run_convert,
    run_convert_back, run_press, run_press_strokes, run_show, run_talk, show_text, talk_texts,
};
pub use fault::{CommandError, Fault, failure};
pub use input::ahead::ReadAhead;
pub use input::bytes::{MOST_BYTES, read_text, within_limit};
pub use input::keys::{Keys, keys_in, read_keys};
pub use input::last_layout::LastLayout;
pub use input::layout::{layout_in, read_layout};
pub use input::layouts::read_layouts;
pub use input::lines::is_ignored;
pub use input::next::{next_line, without_end};
pub use input::records::{Records, read_records, records_in};
pub use input::sizes::SizeLine;
pub use input::source::{Source, Text, Whole};
pub use input::strokes::{Strokes, read_strokes, strokes_in};
pub use input::turn_lines::{is_turn, left_after, push_line};
pub use law::{convert_law, lines_law, own_strokes_law};
pub use output::answer::{Answer, finish, printed};
pub use output::demo::{Demos, demo_sends, demo_terminal};
pub use output::screen::{lock_word, push_field_lines, push_screen_line};
pub use shown::{show_all, shown_on};
pub use status::Status;
pub use streams::{GivesBytes, TakesBytes, Watched};
