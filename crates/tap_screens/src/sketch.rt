//! The draft of a screen, and what is left of it in a folder.

ghost use Rattle.std.specs.Prelude.{◌≡◌, ◌++◌, [], map, IfOk, OnOk, string_bytes};
ghost use Rattle.cli_commands.specs.declared.fault.Fault.TheVariants.{LayoutRefused};
ghost use Rattle.cli_commands.specs.Fault.{fault_text};
ghost use Rattle.cli_commands.specs.Held.{records_held};
ghost use Rattle.scr_check.specs.FindingText.{finding_text};
ghost use Rattle.scr_draft.specs.Draft.{drafted};
ghost use Rattle.tn_session.specs.KeptView.{kept_view};
ghost use Rattle.tap_screens.specs.FolderView.{sketch_seen};
ghost use Rattle.tap_screens.specs.Sketch.{bytes_kept, sketch_drafted, sketch_line, sketch_of};

use crate::text::first_line;
use cli_commands::Fault;
use ds_codec::Geometry;
use ds_screen::{PlaneCells, Screen};
use scr_check::Finding;
use scr_draft::{Opened, draft, open};
use scr_layout::{LayoutError, LayoutFault};
use std::alloc::{AllocError, Global};
use tn_session::KeptRecord;

/// What `draft` prints of a screen.
#[derive(Debug, Drop)]
pub(crate) enum Sketch {
    /// A layout.
    Layout(String),
    /// A line that says what is in the way.
    Flaw(String),
}

fn finding_line(alloc: Global, finding: Finding) -> Result<String, AllocError>
    ensures { IfOk result (λ line. string_bytes line ≡ finding_text [] finding) }
{
    let mut line = String::new(alloc);
    finding.push_text(&mut line, &[])?;
    Ok(line)
}

fn refusal_line(alloc: Global, fault: LayoutFault) -> Result<String, AllocError>
    ensures { IfOk result (λ line. string_bytes line ≡ fault_text (LayoutRefused fault)) }
{
    let fault = Fault::LayoutRefused(fault);
    format!(in alloc; "{fault}")
}

fn sketch_drafted(alloc: Global, screen: &Screen<PlaneCells>) -> Result<Sketch, AllocError>
    ensures { IfOk result (λ sketch. sketch_seen sketch ≡ sketch_drafted (drafted screen.now)) }
{
    match draft(alloc, screen) {
        Ok(text) => Ok(Sketch::Layout(text)),
        Err(LayoutError::Refused(fault)) => Ok(Sketch::Flaw(refusal_line(alloc, fault)?)),
        Err(LayoutError::OutOfMemory) => Err(AllocError),
    }
}

/// The draft of the screen that records open.
pub(crate) fn sketch_of(
    alloc: Global,
    geometry: Geometry,
    records: &[Vec<u8>],
) -> Result<Sketch, AllocError>
    ensures { IfOk result (λ sketch. sketch_seen sketch
        ≡ sketch_of geometry (records_held records.now)) }
{
    match open(alloc, geometry, records)? {
        Opened::Leads(screen) => sketch_drafted(alloc, &screen),
        Opened::Stands(finding) => Ok(Sketch::Flaw(finding_line(alloc, finding)?)),
    }
}

impl Sketch {
    /// The first line of a draft, or that in its place.
    pub(crate) fn line(&self) -> &[u8]
        ensures { result.now ≡ sketch_line (sketch_seen self.now) }
    {
        match self {
            Sketch::Layout(text) => first_line(text.as_bytes()),
            Sketch::Flaw(line) => line.as_bytes(),
        }
    }
}

/// The bytes of kept records.
pub(crate) fn bytes_kept(alloc: Global, kept: &[KeptRecord]) -> Result<Vec<Vec<u8>>, AllocError>
    ensures { IfOk result (λ records. records_held records.items
        ≡ bytes_kept (map kept_view kept.now)) }
{
    let mut records = Vec::new(alloc);
    for one in kept {
        records.push(one.bytes.as_slice().to_vec(alloc)?)?;
    }
    Ok(records)
}
