//! The layout that was read last: where the next text is the same, it isn't read again.

ghost use Rattle.std.specs.Prelude.{◌≡◌, true, Ok, IfOk};
ghost use Rattle.cli_commands.specs.Fault.{Gives};
ghost use Rattle.cli_commands.specs.LayoutText.{layout_in};
ghost use Rattle.cli_commands.specs.declared.output.demo.Demos.TheVariants.{Omitted};
ghost use Rattle.cli_commands.specs.Check.{check};
ghost use Rattle.cli_commands.specs.Held.{answer_seen};

use crate::commands::check_on_last;
use crate::fault::CommandError;
use crate::input::layout::layout_in;
use crate::output::answer::Answer;
use scr_check::Outline;
use scr_layout::Layout;
use std::alloc::Global;
use std::marker::Model;

/// A layout that was read, and its text.
#[derive(Drop)]
pub struct LastLayout {
    text: Vec<u8>,
    layout: Layout,
    outline: Option<Outline>,
}

impl Model for LastLayout {
    ghost use Rattle.std.specs.Prelude.{◌≡◌, Ok};
    ghost use Rattle.cli_commands.specs.LayoutText.{layout_in};
    ghost use Rattle.cli_commands.specs.LastLayout.{Remembered};

    ghost Value = { Remembered };

    ghost view = { λ l. record { text = l.text.items; layout = l.layout } };

    ghost invariant = { λ l. layout_in l.text.items ≡ Ok l.layout };
}

impl LastLayout {
    /// The layout of a text, or its first fault.
    pub fn new(alloc: Global, text: &[u8]) -> Result<LastLayout, CommandError>
        ensures layout { Gives (λ last. last.layout) result (layout_in text.now) }
        ensures text { IfOk result (λ last. last.text ≡ text.now) }
    {
        let layout = layout_in(alloc, text)?;
        Ok(LastLayout {
            text: text.to_vec(alloc)?,
            layout,
            outline: None,
        })
    }

    /// Whether it is that of a text.
    pub fn is_of(&self, text: &[u8]) -> bool
        ensures { result ≡ true → self.now.text ≡ text.now }
    {
        self.text.as_slice() == text
    }

    /// The layout.
    pub fn layout(&self) -> &Layout
        ensures value { result.now ≡ self.now.layout }
        ensures read { layout_in self.now.text ≡ Ok result.now }
    {
        &self.layout
    }

    /// What `check` answers without demos by the layout to a text of records. The outline on which it works is kept for the next.
    pub fn check(&mut self, alloc: Global, records: &[u8]) -> Result<Answer, CommandError>
        ensures answer { Gives answer_seen result (check Omitted self.old.text records.now) }
        ensures kept { self.new ≡ self.old }
    {
        check_on_last(alloc, &mut self.outline, &self.layout, records)
    }

    /// The layout once more.
    pub(crate) fn copied(&self, alloc: Global) -> Result<Layout, CommandError>
        ensures { Gives (λ l. l) result (layout_in self.now.text) }
    {
        Ok(self.layout.copy(alloc)?)
    }
}
