//! Which order wrote what stands on a screen.

ghost use Rattle.std.specs.Prelude.{◌≡◌, ◌++◌, Option, IfOk, OnOk};
ghost use Rattle.std.specs.List.{flat_map, range_with_len};
ghost use Rattle.std.specs.String.{string_bytes};
ghost use Rattle.scr_check.specs.Origins.{kept_at};
ghost use Rattle.cli_commands.specs.Fault.{Gives};
ghost use Rattle.cli_commands.specs.Held.{answer_seen, records_held};
ghost use Rattle.cli_commands.specs.Printed.{printed};
ghost use Rattle.cli_commands.specs.declared.status.Status.TheVariants.{Done};
ghost use Rattle.cli_findings.specs.Origins.{origin_line, positions, origin_lines, origins_of, origins};

use cli_commands::{Answer, CommandError, SizeLine, Status, layout_in, lent, records_in};
use itoa::Buffer;
use scr_check::{Origin, Origins, find_origins};
use scr_layout::Layout;
use std::alloc::{AllocError, Global};

/// The line of a position.
fn push_origin(out: &mut String, origin: Option<Origin>) -> Result<(), AllocError>
    ensures { OnOk result (string_bytes out.new ≡ string_bytes out.old ++ origin_line origin) }
{
    let Some(Origin { index, at }) = origin else {
        return out.push_str("-\n");
    };
    let mut digits = Buffer::new();
    out.push_str(digits.format(index))?;
    out.push_str(" ")?;
    out.push_str(digits.format(at))?;
    out.push_str("\n")
}

/// The lines of the first positions.
fn push_origins(out: &mut String, origins: &Origins, positions: u32) -> Result<(), AllocError>
    ensures { OnOk result (string_bytes out.new ≡ string_bytes out.old
        ++ flat_map (λ p. origin_line (kept_at origins.now p)) (range_with_len 0 positions)) }
{
    for p in 0..positions {
        push_origin(out, origins.at(p))?;
    }
    Ok(())
}

/// How many positions the larger size has.
fn positions(layout: &Layout) -> u32
    ensures { result ≡ positions layout.now }
{
    let geometry = layout.geometry();
    geometry
        .default_size()
        .cells()
        .max(geometry.alternate_size().cells())
}

/// The lines of all positions.
fn origins_answer(alloc: Global, layout: &Layout, records: &[Vec<u8>]) -> Result<Answer, AllocError>
    ensures { IfOk result (λ answer. answer_seen answer
        ≡ printed (origin_lines layout.now (records_held records.now)) Done) }
{
    let slices = lent(alloc, records)?;
    let origins = find_origins(alloc, slices.as_slice(), layout)?;
    let mut text = String::new(alloc);
    push_origins(&mut text, &origins, positions(layout))?;
    Ok(Answer {
        text,
        status: Status::Done,
    })
}

fn origins_of(alloc: Global, layout: &Layout, records: &[u8]) -> Result<Answer, CommandError>
    ensures { Gives answer_seen result (origins_of layout.now records.now) }
{
    let told = records_in(alloc, records, SizeLine::Refused)?;
    Ok(origins_answer(alloc, layout, told.records.as_slice())?)
}

/// Which order of the text of records wrote last at each position of a terminal of the layout's sizes: a line for each position
/// of the larger size, the record and the byte of it at which the order begins, both counted from 0, or `-` where no order
/// wrote. Records are taken as `check` takes them, up to the first against which something stands. The sizes are the layout's,
/// so a line of sizes is bad.
///
/// # Errors
///
/// What is wrong with the layout, then the first fault of the records' lines; out of memory.
pub fn origins_text(alloc: Global, layout: &[u8], records: &[u8]) -> Result<Answer, CommandError>
    ensures { Gives answer_seen result (origins layout.now records.now) }
{
    let layout = layout_in(alloc, layout)?;
    origins_of(alloc, &layout, records)
}
