//! What is printed of a screen where the terminal answers it.

ghost use Rattle.std.specs.Prelude.{◌≡◌, ◌++◌, codes, map, IfOk, OnOk, None, Some, string_bytes};
ghost use Rattle.cli_commands.specs.Shown.{shown_on};
ghost use Rattle.script_checks.specs.KnownView.{turns_seen};
ghost use Rattle.script_checks.specs.Named.{chosen};
ghost use Rattle.script_checks.specs.NamedView.{named_view, one_seen};
ghost use Rattle.script_checks.specs.Told.{kept_told};
ghost use Rattle.script_checks.specs.ToldView.{told_seen};
ghost use Rattle.tn_session.specs.KeptView.{kept_view};
ghost use Rattle.tap_screens.specs.Bound.{bound_text};
ghost use Rattle.tap_screens.specs.FolderView.{folder_seen};
ghost use Rattle.tap_screens.specs.Judged.{by_layout, by_screen, by_turns, judged_text, unknown_text, verdict_text};
ghost use Rattle.tap_screens.specs.Sketch.{bytes_kept, sketch_line, sketch_of};

use crate::bound::{push_bound, screen_front};
use crate::folder::Folder;
use crate::sketch::{bytes_kept, sketch_of};
use crate::text::{push_line, push_texts};
use cli_commands::{CommandError, shown_on};
use ds_codec::Geometry;
use ds_screen::PlaneCells;
use ds_terminal::Terminal;
use script_checks::{Named, Told, Verdict, choose, kept_told};
use std::alloc::{AllocError, Global};
use tn_session::KeptRecord;

/// Adds `yes` of a screen, or its findings.
fn push_verdict(alloc: Global, out: &mut Vec<u8>, told: &Told) -> Result<(), AllocError>
    ensures { OnOk result
        (out.new.items ≡ out.old.items ++ verdict_text (told_seen told.now)) }
{
    let front = screen_front(alloc, &told.name)?;
    match told.verdict {
        Verdict::NoLayout | Verdict::NotKept => Ok(()),
        Verdict::Yes => push_line(out, &front, b"yes"),
        Verdict::No => push_texts(out, &front, &told.lines),
    }
}

/// Adds that no layout fits a screen, and a line that says more.
fn push_unknown(out: &mut Vec<u8>, line: &[u8]) -> Result<(), AllocError>
    ensures { OnOk result (out.new.items ≡ out.old.items ++ unknown_text line.now) }
{
    out.extend_from_slice(b"# screen unknown\n")?;
    push_line(out, b"# ", line)
}

/// Adds what is said of a screen that these records made and no layout fits.
fn push_drafted(
    alloc: Global,
    out: &mut Vec<u8>,
    geometry: Geometry,
    kept: &[KeptRecord],
) -> Result<(), AllocError>
    ensures { OnOk result (out.new.items ≡ out.old.items
        ++ unknown_text (sketch_line (sketch_of geometry (bytes_kept (map kept_view kept.now))))) }
{
    let records = bytes_kept(alloc, kept)?;
    let sketch = sketch_of(alloc, geometry, records.as_slice())?;
    push_unknown(out, sketch.line())
}

/// Adds what is said of a screen by its layout, and then the answer as the layout reads it.
fn push_by_layout(
    alloc: Global,
    out: &mut Vec<u8>,
    one: &Named,
    kept: &[KeptRecord],
    answer: &[u8],
) -> Result<(), AllocError>
    ensures { OnOk result (out.new.items ≡ out.old.items
        ++ (verdict_text (kept_told (named_view one.now) (Some (map kept_view kept.now)))
        ++ bound_text (named_view one.now) answer.now)) }
{
    let told = kept_told(alloc, one, Some(kept))?;
    push_verdict(alloc, out, &told)?;
    push_bound(alloc, out, one, answer)
}

/// Adds what is said of the screen that a terminal shows.
fn push_by_screen(
    alloc: Global,
    out: &mut Vec<u8>,
    folder: &Folder,
    terminal: &Terminal<PlaneCells>,
    geometry: Geometry,
    kept: &[KeptRecord],
    answer: &[u8],
) -> Result<(), AllocError>
    ensures { OnOk result (out.new.items ≡ out.old.items
        ++ by_layout geometry (map kept_view kept.now) answer.now (chosen terminal.now folder.now)) }
{
    match choose(terminal.screen(), folder.all()) {
        Some(one) => push_by_layout(alloc, out, one, kept, answer),
        None => push_drafted(alloc, out, geometry, kept),
    }
}

/// Adds what is said of the screen that these records made.
fn push_by_records(
    alloc: Global,
    out: &mut Vec<u8>,
    folder: &Folder,
    geometry: Geometry,
    kept: &[KeptRecord],
    answer: &[u8],
) -> Result<(), AllocError>
    ensures { OnOk result (out.new.items ≡ out.old.items
        ++ by_screen folder.now geometry (map kept_view kept.now) answer.now
        (shown_on geometry (bytes_kept (map kept_view kept.now)))) }
{
    let records = bytes_kept(alloc, kept)?;
    match shown_on(alloc, geometry, records.as_slice()) {
        Ok(terminal) => push_by_screen(alloc, out, folder, &terminal, geometry, kept, answer),
        Err(CommandError::Fault(_refused)) => push_drafted(alloc, out, geometry, kept),
        Err(CommandError::ReadFailed | CommandError::OutOfMemory) => Err(AllocError),
    }
}

fn push_by_turns(
    alloc: Global,
    out: &mut Vec<u8>,
    folder: &Folder,
    geometry: Geometry,
    turns: Option<&[KeptRecord]>,
    answer: &[u8],
) -> Result<(), AllocError>
    ensures { OnOk result (out.new.items ≡ out.old.items
        ++ by_turns folder.now geometry (turns_seen turns.entry) answer.now) }
{
    match turns {
        Some(kept) => push_by_records(alloc, out, folder, geometry, kept, answer),
        None => push_unknown(out, b"input too long"),
    }
}

/// Adds what is said of a screen that the terminal answers, by the records that made it.
pub(crate) fn push_judged(
    alloc: Global,
    out: &mut Vec<u8>,
    layouts: Option<&Folder>,
    geometry: Geometry,
    turns: Option<&[KeptRecord]>,
    answer: &[u8],
) -> Result<(), AllocError>
    ensures { OnOk result (out.new.items ≡ out.old.items
        ++ judged_text (folder_seen layouts.entry) geometry (turns_seen turns.entry) answer.now) }
{
    match layouts {
        Some(folder) => push_by_turns(alloc, out, folder, geometry, turns, answer),
        None => Ok(()),
    }
}
