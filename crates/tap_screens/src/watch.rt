//! A session's text, byte by byte: each screen is judged where the terminal answers it.

ghost use Rattle.std.specs.Prelude.{◌≡◌, ◌++◌, map, OnOk};
ghost use Rattle.tap_screens.specs.FolderView.{folder_seen, leaf_seen};
ghost use Rattle.tap_screens.specs.LineView.{line_seen};
ghost use Rattle.tap_screens.specs.Made.{made_after};
ghost use Rattle.tap_screens.specs.Watching.{leaves_due, text_due};

use crate::folder::Folder;
use crate::judged::push_judged;
use crate::leaf::{LeftScreen, push_leaves};
use crate::line::{TapLine, line_told};
use crate::made::Making;
use std::alloc::{AllocError, Global};
use std::marker::Model;

/// What is known of a session's text, and what is asked of its screens.
#[derive(Drop)]
pub struct Watch<'a> {
    layouts: Option<&'a Folder>,
    leaves: bool,
    made: Making,
    line: Vec<u8>,
}

impl<'a> Model for Watch<'a> {
    ghost use Rattle.tap_screens.specs.FolderView.{folder_seen};
    ghost use Rattle.tap_screens.specs.Watching.{Watching};

    ghost Value = { Watching };

    ghost view = { λ w. record {
      layouts = folder_seen w.layouts;
      leaves = w.leaves;
      made = w.made;
      line = w.line.items;
    } };
}

/// Adds what is said of the screen that a record of the terminal's answers.
fn push_due(
    alloc: Global,
    layouts: Option<&Folder>,
    made: &Making,
    told: &TapLine,
    out: &mut Vec<u8>,
) -> Result<(), AllocError>
    ensures { OnOk result (out.new.items ≡ out.old.items
        ++ text_due (folder_seen layouts.entry) made.now (line_seen told.now)) }
{
    match told {
        TapLine::Answers(bytes) if made.ends_turn(bytes) => {
            push_judged(alloc, out, layouts, made.geometry(), made.turns(), bytes)
        }
        _ => Ok(()),
    }
}

/// Adds the screen that a record of the terminal's answers, where screens are left.
fn push_left(
    alloc: Global,
    leaves: bool,
    made: &Making,
    told: &TapLine,
    left: &mut Vec<LeftScreen>,
) -> Result<(), AllocError>
    ensures { OnOk result (map leaf_seen left.new.items
        ≡ map leaf_seen left.old.items ++ leaves_due leaves made.now (line_seen told.now)) }
{
    match told {
        TapLine::Answers(bytes) if leaves && made.ends_turn(bytes) => {
            push_leaves(alloc, left, made.geometry(), made.turns())
        }
        _ => Ok(()),
    }
}

/// Takes what a line said.
fn take_told(alloc: Global, made: &mut Making, told: &TapLine) -> Result<(), AllocError>
    ensures { OnOk result (made.new ≡ made_after made.old (line_seen told.now)) }
{
    match told {
        TapLine::Shows(bytes) => made.take_record(alloc, bytes),
        TapLine::Answers(bytes) => made.take_answer(alloc, bytes),
        TapLine::Sizes(geometry) => {
            made.take_sizes(*geometry);
            Ok(())
        }
        TapLine::Nothing => Ok(()),
    }
}

impl<'a> Watch<'a> {
    ghost use Rattle.std.specs.Prelude.{◌≡◌, ◌++◌, map, OnOk};
    ghost use Rattle.tap_screens.specs.FolderView.{folder_seen, leaf_seen};
    ghost use Rattle.tap_screens.specs.Watching.{byte_after, byte_leaves, byte_text, watched_leaves, watched_text, watching_after, watching_first};

    /// Before a session's first byte: the layouts, if screens are judged, and whether they are left.
    pub fn new(alloc: Global, layouts: Option<&'a Folder>, leaves: bool) -> Watch<'a>
        ensures { result ≡ watching_first (folder_seen layouts.entry) leaves }
    {
        Watch {
            layouts,
            leaves,
            made: Making::new(alloc),
            line: Vec::new(alloc),
        }
    }

    /// Ends the line that is open.
    fn end_line(
        &mut self,
        alloc: Global,
        out: &mut Vec<u8>,
        left: &mut Vec<LeftScreen>,
    ) -> Result<(), AllocError>
        ensures text { OnOk result (out.new.items ≡ out.old.items ++ byte_text self.old 0x0A) }
        ensures left { OnOk result (map leaf_seen left.new.items
            ≡ map leaf_seen left.old.items ++ byte_leaves self.old 0x0A) }
        ensures after { OnOk result (self.new ≡ byte_after self.old 0x0A) }
    {
        out.extend_from_slice(&self.line)?;
        out.push(b'\n')?;
        let told = line_told(alloc, &self.line)?;
        push_due(alloc, self.layouts, &self.made, &told, out)?;
        push_left(alloc, self.leaves, &self.made, &told, left)?;
        take_told(alloc, &mut self.made, &told)?;
        self.line.clear();
        Ok(())
    }

    fn take_byte(
        &mut self,
        alloc: Global,
        byte: u8,
        out: &mut Vec<u8>,
        left: &mut Vec<LeftScreen>,
    ) -> Result<(), AllocError>
        ensures text { OnOk result (out.new.items ≡ out.old.items ++ byte_text self.old byte) }
        ensures left { OnOk result (map leaf_seen left.new.items
            ≡ map leaf_seen left.old.items ++ byte_leaves self.old byte) }
        ensures after { OnOk result (self.new ≡ byte_after self.old byte) }
    {
        if byte == b'\n' {
            self.end_line(alloc, out, left)
        } else {
            self.line.push(byte)?;
            Ok(())
        }
    }

    /// Takes more of a session's text, and adds it, each line once it is whole, and after each record by which the terminal answers a
    /// screen what is said of that screen. The screens that are to be left are added to `left`.
    ///
    /// # Errors
    ///
    /// Where a request for memory was refused. Then nothing is said of what was added and of what comes later.
    pub fn take(
        &mut self,
        alloc: Global,
        text: &[u8],
        out: &mut Vec<u8>,
        left: &mut Vec<LeftScreen>,
    ) -> Result<(), AllocError>
        ensures text { OnOk result
            (out.new.items ≡ out.old.items ++ watched_text self.old text.now) }
        ensures left { OnOk result (map leaf_seen left.new.items
            ≡ map leaf_seen left.old.items ++ watched_leaves self.old text.now) }
        ensures after { OnOk result (self.new ≡ watching_after self.old text.now) }
    {
        for byte in text {
            self.take_byte(alloc, *byte, out, left)?;
        }
        Ok(())
    }
}
