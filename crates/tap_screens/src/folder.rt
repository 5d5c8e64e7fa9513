//! The layouts of a folder, for terminals of any sizes.

ghost use Rattle.std.specs.Prelude.{◌≡◌, map, IfOk};
ghost use Rattle.script_checks.specs.Lines.{clean, clean_byte};

use cli_commands::{CommandError, Fault, layout_in};
use script_checks::Named;
use std::alloc::{AllocError, Global};
use std::marker::Model;

/// Layouts, each with its name.
#[derive(Debug, Drop)]
pub struct Folder {
    all: Vec<Named>,
}

impl Model for Folder {
    ghost use Rattle.std.specs.Prelude.{List, map};
    ghost use Rattle.script_checks.specs.Named.{Named};
    ghost use Rattle.script_checks.specs.NamedView.{named_view};

    ghost Value = { List Named };

    ghost view = { λ f. map named_view f.all.items };
}

fn clean_byte(byte: u8) -> u8
    ensures { result ≡ clean_byte byte }
{
    if byte < 0x20 { b'?' } else { byte }
}

/// A name with `?` for each control, so that it ends no line.
fn clean(alloc: Global, name: &[u8]) -> Result<Vec<u8>, AllocError>
    ensures { IfOk result (λ cleaned. cleaned.items ≡ clean name.now) }
{
    let mut cleaned = Vec::new(alloc);
    for byte in name {
        cleaned.push(clean_byte(*byte))?;
    }
    Ok(cleaned)
}

impl Folder {
    ghost use Rattle.std.specs.Prelude.{◌≡◌, [], map, IfOk, OnErr};
    ghost use Rattle.cli_commands.specs.LayoutText.{layout_in};
    ghost use Rattle.script_checks.specs.NamedView.{named_view};
    ghost use Rattle.tap_screens.specs.Folder.{added, with_layout};

    /// None yet.
    pub fn new(alloc: Global) -> Folder
        ensures { result ≡ [] }
    {
        Folder {
            all: Vec::new(alloc),
        }
    }

    /// Adds the layout that a file's text says, under this name, in which `?` stands for each control; or answers why it is none. Then none
    /// is added.
    ///
    /// # Errors
    ///
    /// Where a request for memory was refused; then none is added.
    pub fn add(
        &mut self,
        alloc: Global,
        name: &[u8],
        text: &[u8],
    ) -> Result<Result<(), Fault>, AllocError>
        ensures added { IfOk result (λ answer. answer ≡ added (layout_in text.now)) }
        ensures with { IfOk result (λ answer. self.new
            ≡ with_layout self.old name.now (layout_in text.now)) }
        ensures err { OnErr result (self.new ≡ self.old) }
    {
        match layout_in(alloc, text) {
            Ok(layout) => {
                let name = clean(alloc, name)?;
                self.all.push(Named { name, layout })?;
                Ok(Ok(()))
            }
            Err(CommandError::Fault(fault)) => Ok(Err(fault)),
            Err(CommandError::ReadFailed | CommandError::OutOfMemory) => Err(AllocError),
        }
    }

    /// The layouts, in the order in which they were added.
    pub(crate) fn all(&self) -> &[Named]
        ensures { map named_view result.now ≡ self.now }
    {
        &self.all
    }
}
