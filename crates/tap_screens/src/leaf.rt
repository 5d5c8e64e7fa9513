//! A screen that is left in a folder.

ghost use Rattle.std.specs.Prelude.{◌≡◌, ◌++◌, [], map, IfOk, OnOk, string_bytes};
ghost use Rattle.hex.specs.Hex.{encode_upper};
ghost use Rattle.cli_commands.specs.Held.{records_held};
ghost use Rattle.tn_session.specs.KeptView.{kept_view};
ghost use Rattle.script_checks.specs.KnownView.{turns_seen};
ghost use Rattle.tap_screens.specs.FolderView.{leaf_seen, sketch_seen};
ghost use Rattle.tap_screens.specs.Sketch.{leaf_of, leaves_of, records_text};
ghost use Rattle.tap_screens.specs.Text.{line_after};

use crate::sketch::{Sketch, bytes_kept, sketch_of};
use ds_codec::Geometry;
use order_lines::push_bytes;
use std::alloc::{AllocError, Global};
use tn_session::KeptRecord;

/// A screen that is left in a folder: a suite takes both texts, and answers yes where any layout would get one.
#[derive(Debug, Drop)]
pub struct LeftScreen {
    /// Its records since the last erase, in hexadecimal, one a line.
    pub records: String,
    /// The layout that `draft` prints of them.
    pub layout: String,
}

fn push_record(out: &mut String, bytes: &[u8]) -> Result<(), AllocError>
    ensures { OnOk result (string_bytes out.new
        ≡ string_bytes out.old ++ line_after [] (encode_upper bytes.now)) }
{
    push_bytes(out, bytes)?;
    out.push_str("\n")
}

fn records_text(alloc: Global, records: &[Vec<u8>]) -> Result<String, AllocError>
    ensures { IfOk result (λ text. string_bytes text ≡ records_text (records_held records.now)) }
{
    let mut text = String::new(alloc);
    for bytes in records {
        push_record(&mut text, bytes.as_slice())?;
    }
    Ok(text)
}

fn push_leaf(
    alloc: Global,
    leaves: &mut Vec<LeftScreen>,
    records: &[Vec<u8>],
    sketch: Sketch,
) -> Result<(), AllocError>
    ensures { OnOk result (map leaf_seen leaves.new.items
        ≡ map leaf_seen leaves.old.items ++ leaf_of (records_held records.now) (sketch_seen sketch)) }
{
    match sketch {
        Sketch::Layout(layout) => {
            let records = records_text(alloc, records)?;
            leaves.push(LeftScreen { records, layout })?;
            Ok(())
        }
        Sketch::Flaw(_line) => Ok(()),
    }
}

/// Adds the screen that records made, where it has a draft.
pub(crate) fn push_leaves(
    alloc: Global,
    leaves: &mut Vec<LeftScreen>,
    geometry: Geometry,
    turns: Option<&[KeptRecord]>,
) -> Result<(), AllocError>
    ensures { OnOk result (map leaf_seen leaves.new.items
        ≡ map leaf_seen leaves.old.items ++ leaves_of geometry (turns_seen turns.entry)) }
{
    let Some(kept) = turns else {
        return Ok(());
    };
    let records = bytes_kept(alloc, kept)?;
    let sketch = sketch_of(alloc, geometry, records.as_slice())?;
    push_leaf(alloc, leaves, records.as_slice(), sketch)
}
