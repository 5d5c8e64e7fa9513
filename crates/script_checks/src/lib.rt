//! What a script asks of the screen that it drives: whether it agrees with a layout, when it is asked, and at each key that sends.
#![tactic(auto)]

mod check;
mod chosen;
mod dialogue;
mod form;
mod judge;
mod law;
mod layouts;
mod lines;
mod read;
mod told;

pub use check::push_check;
pub use chosen::choose;
pub use form::ReportFormat;
pub use judge::{Judge, records_copied};
pub use law::{chosen_law, lines_law, texts_law, yes_law};
pub use layouts::{Layouts, Named};
pub use read::{LayoutRefusal, LayoutText};
pub use told::{Told, Verdict, kept_told};

#[cfg(test)]
mod tests {
    #[test]
    fn nothing() {}
}
