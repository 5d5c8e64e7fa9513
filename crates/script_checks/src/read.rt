//! The layouts that a script names.

ghost use Rattle.std.specs.Prelude.{◌≡◌, IfOk, Some};
ghost use Rattle.ds_codec.specs.Same.{same_sizes};
ghost use Rattle.script_checks.specs.Read.{fitting, layout_for, refusal_text};

use cli_commands::{CommandError, Fault, layout_in};
use ds_codec::Geometry;
use scr_layout::Layout;
use std::alloc::{AllocError, Global};
use std::fmt;

/// The text of a layout's file, or why it can't be read, in words such as `No such file or directory`.
#[derive(Clone, Copy, Debug)]
pub enum LayoutText<'a> {
    Text(&'a [u8]),
    Unreadable(&'a [u8]),
}

/// Why a text is no layout of a device.
#[derive(Clone, Copy, Debug, PartialEq, Eq)]
pub enum LayoutRefusal {
    /// It is too long, or no layout.
    Refused(Fault),
    /// Its sizes aren't the device's.
    OtherSizes,
}

impl fmt::Display for LayoutRefusal {
    ghost output = { λ refusal. Some (refusal_text refusal) };

    fn fmt<W: fmt::Write>(&self, f: &mut fmt::Formatter<W>) -> fmt::Result {
        match self {
            LayoutRefusal::Refused(fault) => write!(f, "{fault}"),
            LayoutRefusal::OtherSizes => f.write_str("no device of these sizes"),
        }
    }
}

/// Whether the sizes and the addresses of two terminals are the same.
#[tactic(auto, using(ds_codec::proofs::Same::modes_compared))]
fn is_geometry(a: Geometry, b: Geometry) -> bool
    ensures { result ≡ same_sizes a b }
{
    a == b
}

/// A layout that a device of these sizes fits.
fn fitting(geometry: Geometry, layout: Layout) -> Result<Layout, LayoutRefusal>
    ensures { result ≡ fitting geometry layout }
{
    if is_geometry(layout.geometry(), geometry) {
        Ok(layout)
    } else {
        Err(LayoutRefusal::OtherSizes)
    }
}

/// The layout that a text says, for a device of these sizes.
pub(crate) fn layout_for(
    alloc: Global,
    geometry: Geometry,
    text: &[u8],
) -> Result<Result<Layout, LayoutRefusal>, AllocError>
    ensures { IfOk result (λ read. read ≡ layout_for geometry text.now) }
{
    match layout_in(alloc, text) {
        Ok(layout) => Ok(fitting(geometry, layout)),
        Err(CommandError::Fault(fault)) => Ok(Err(LayoutRefusal::Refused(fault))),
        Err(CommandError::ReadFailed | CommandError::OutOfMemory) => Err(AllocError),
    }
}
