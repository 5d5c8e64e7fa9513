//! What a host serves: a checked screen.

ghost use Rattle.std.specs.Prelude.{◌≡◌, ◌+◌, IfErr, IfOk, IfSome};
ghost use Rattle.cli_commands.specs.Causes.{ToldBy};
ghost use Rattle.cli_commands.specs.Fault.{GivesOrFails};
ghost use Rattle.cli_commands.specs.Held.{records_held};
ghost use Rattle.cli_commands.specs.LayoutText.{layout_in};
ghost use Rattle.cli_sessions.specs.Prepare.{has_model, no_model, prepared, prepare};
ghost use Rattle.cli_sessions.specs.Held.{prepared_seen};

use cli_commands::{
    Answer, CommandError, Demos, GivesBytes, SizeLine, Status, check_answer, read_layout,
    read_records,
};
use scr_layout::Layout;
use std::alloc::{AllocError, Global};
use tn_session::HostCore;

/// A screen that `check` says yes to, by its layout and its records, of the sizes of some model.
#[derive(Drop)]
pub struct Screen {
    /// The layout, which has the terminal's sizes.
    pub layout: Layout,
    /// The records, in order.
    pub records: Vec<Vec<u8>>,
}

/// What inputs of `serve` lead to.
#[derive(Drop)]
pub enum Prepared {
    /// The screen can be served.
    Ready(Screen),
    /// It can't: what is printed, and the status.
    Stops(Answer),
}

/// Whether some model of the 3278 has the layout's two sizes.
fn has_model(layout: &Layout) -> bool
    ensures { result ≡ has_model layout.now.geometry }
{
    HostCore::new(layout, true, true).is_ok()
}

fn without_model(alloc: Global) -> Result<Prepared, AllocError>
    ensures { IfOk result (λ p. prepared_seen p ≡ no_model) }
{
    Ok(Prepared::Stops(Answer {
        text: String::from_str(alloc, "no model has these sizes\n")?,
        status: Status::BadInput,
    }))
}

/// What is to be done with a layout and records.
fn judge(alloc: Global, layout: Layout, records: Vec<Vec<u8>>) -> Result<Prepared, AllocError>
    ensures { IfOk result (λ p. prepared_seen p ≡ prepared layout (records_held records.items)) }
{
    let answer = check_answer(alloc, &layout, records.as_slice(), Demos::Omitted)?;
    if answer.status != Status::Done {
        return Ok(Prepared::Stops(answer));
    }
    if !has_model(&layout) {
        return without_model(alloc);
    }
    Ok(Prepared::Ready(Screen { layout, records }))
}

/// Reads a layout and then records in hexadecimal, one a line, as `check` does, and checks them: the screen is ready to be
/// served where there is no finding, and some model has the layout's sizes. Else there is an answer to print: the findings
/// and the status `Findings`, or `no model has these sizes` and the status `BadInput`. Records aren't read where the layout
/// has a fault.
///
/// # Errors
///
/// The first fault of the layout, then of the records' lines; a read that failed; out of memory.
pub fn prepare_serve<L: GivesBytes, R: GivesBytes>(
    alloc: Global,
    layout: &mut L,
    reader: &mut R,
) -> Result<Prepared, CommandError>
    ensures prepared { IfSome (L.remaining layout.old) (λ text. IfSome (R.remaining
        reader.old) (λ input. GivesOrFails prepared_seen result (prepare text input))) }
    ensures cause { ToldBy (L.failures layout.old + R.failures reader.old)
        (L.failures layout.new + R.failures reader.new) result }
    ensures unread { IfSome (L.remaining layout.old) (λ text. IfErr (layout_in text) (λ fault.
        reader.new ≡ reader.old)) }
{
    let layout = read_layout(alloc, layout)?;
    let told = read_records(alloc, reader, SizeLine::Refused)?;
    Ok(judge(alloc, layout, told.records)?)
}
