//! The layouts of a folder.

ghost use Rattle.std.specs.Prelude.{◌≡◌, IfOk, map};

use crate::read::{LayoutRefusal, LayoutText, layout_for};
use ds_codec::Geometry;
use scr_layout::Layout;
use std::alloc::{AllocError, Global};
use std::marker::Model;

/// A layout, and the name of its file.
#[derive(Debug, Drop)]
pub struct Named {
    pub name: Vec<u8>,
    pub layout: Layout,
}

/// Layouts for a device, each with the name of its file.
#[derive(Debug, Drop)]
pub struct Layouts {
    geometry: Geometry,
    all: Vec<Named>,
}

impl Model for Layouts {
    ghost use Rattle.std.specs.Prelude.{map};
    ghost use Rattle.script_checks.specs.Named.{Listed};
    ghost use Rattle.script_checks.specs.NamedView.{named_view};

    ghost Value = { Listed };

    ghost view = { λ l. record { geometry = l.geometry; all = map named_view l.all.items } };
}

impl Layouts {
    ghost use Rattle.std.specs.Prelude.{◌≡◌, [], IfOk, OnErr, OnOk, Ok, map};
    ghost use Rattle.script_checks.specs.Named.{Listed, listed_with, added};
    ghost use Rattle.script_checks.specs.NamedView.{named_view};
    ghost use Rattle.script_checks.specs.Read.{layout_for};

    /// None yet, for a device of these sizes.
    pub fn new(alloc: Global, geometry: Geometry) -> Layouts
        ensures { result ≡ record { geometry = geometry; all = [] } }
    {
        Layouts {
            geometry,
            all: Vec::new(alloc),
        }
    }

    /// Adds the layout that a file's text says, under the file's name, or answers why it isn't one of the device's; then
    /// none is added.
    ///
    /// # Errors
    ///
    /// Where a request for memory was refused; then none is added.
    pub fn add(
        &mut self,
        alloc: Global,
        name: &[u8],
        text: &[u8],
    ) -> Result<Result<(), LayoutRefusal>, AllocError>
        ensures added { IfOk result
            (λ answer. answer ≡ added (layout_for self.old.geometry text.now)) }
        ensures listed { IfOk result (λ answer. self.new
            ≡ listed_with self.old name.now (layout_for self.old.geometry text.now)) }
        ensures err { OnErr result (self.new ≡ self.old) }
    {
        match layout_for(alloc, self.geometry, text)? {
            Ok(layout) => {
                self.push(alloc, name, layout)?;
                Ok(Ok(()))
            }
            Err(refusal) => Ok(Err(refusal)),
        }
    }

    /// Adds a layout.
    fn push(&mut self, alloc: Global, name: &[u8], layout: Layout) -> Result<(), AllocError>
        ensures listed { OnOk result (self.new ≡ listed_with self.old name.now (Ok layout)) }
        ensures err { OnErr result (self.new ≡ self.old) }
    {
        let name = name.to_vec(alloc)?;
        self.all.push(Named { name, layout })?;
        Ok(())
    }

    /// The layouts, in the order in which they were added.
    pub(crate) fn all(&self) -> &[Named]
        ensures { map named_view result.now ≡ self.now.all }
    {
        &self.all
    }
}
