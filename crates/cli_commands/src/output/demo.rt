//! The keys of a finding, pressed on the screen that the records leave.

ghost use Rattle.std.specs.Prelude.{◌≡◌, ◌++◌, map, option_map, replicate, IfOk, OnOk};
ghost use Rattle.std.specs.String.{string_bytes};
ghost use Rattle.ds_keys.specs.declared.key.Key.{Key};
ghost use Rattle.ds_keys.specs.KeyRuns.{after};
ghost use Rattle.scr_check.specs.Demos.{demo_keys};
ghost use Rattle.scr_check.specs.FindingText.{demo_of};
ghost use Rattle.cli_commands.specs.DemoLines.{bytes_replayed, sends_on, asked, shown_on};

use crate::output::bytes::push_sent;
use crate::shown::show_all;
use ds_codec::Aid;
use ds_inbound::write_inbound;
use ds_keys::Key;
use ds_screen::PlaneCells;
use ds_terminal::Terminal;
use scr_check::{Demo, Finding};
use scr_layout::Layout;
use std::alloc::{AllocError, Global};

/// Whether the keys of findings are pressed, and what they send is printed.
#[derive(Clone, Copy, Debug, PartialEq, Eq)]
pub enum Demos {
    Omitted,
    Printed,
}

/// Presses a key so many times.
fn press_times(
    alloc: Global,
    terminal: &mut Terminal<PlaneCells>,
    key: &Key,
    times: u32,
) -> Result<(), AllocError>
    ensures { OnOk result (terminal.new ≡ after terminal.old (replicate times key.now)) }
{
    for _ in 0..times {
        terminal.press(alloc, *key)?;
    }
    Ok(())
}

/// Presses Right so many times, as Down for each whole row and then Right for the rest: the cursor comes to the same place.
fn press_rights(
    alloc: Global,
    terminal: &mut Terminal<PlaneCells>,
    rights: u32,
) -> Result<(), AllocError>
    ensures { OnOk result (terminal.new ≡ after terminal.old (replicate rights Key.Right)) }
{
    let columns = u32::from(terminal.screen().size().cols);
    press_times(alloc, terminal, &Key::Down, rights / columns)?;
    press_times(alloc, terminal, &Key::Right, rights % columns)?;
    Ok(())
}

/// The key Enter.
fn enter() -> Key
    ensures { result ≡ Key.Attention 0x7D }
{
    Key::Attention(Aid::enter())
}

/// Presses the keys of a demo.
fn press_demo(
    alloc: Global,
    terminal: &mut Terminal<PlaneCells>,
    demo: Demo,
) -> Result<(), AllocError>
    ensures { OnOk result (terminal.new ≡ after terminal.old (demo_keys demo)) }
{
    let Demo { rights, types } = demo;
    press_rights(alloc, terminal, rights)?;
    press_times(alloc, terminal, &Key::Typed(0xC1), types)?;
    press_times(alloc, terminal, &enter(), 1)?;
    Ok(())
}

/// What a copy of the terminal sends once the keys of a demo are pressed on it.
///
/// # Errors
///
/// Where a request for memory was refused.
pub fn demo_sends(
    alloc: Global,
    terminal: &Terminal<PlaneCells>,
    demo: Demo,
) -> Result<Vec<u8>, AllocError>
    ensures { IfOk result (λ bytes. bytes.items ≡ bytes_replayed terminal.now demo) }
{
    let mut terminal = terminal.copied(alloc)?;
    press_demo(alloc, &mut terminal, demo)?;
    write_inbound(alloc, terminal.screen(), false)
}

/// The terminal that demos go from, where they are printed: a new one that showed the records, unless one of
/// them is refused.
///
/// # Errors
///
/// Where a request for memory was refused.
pub fn demo_terminal(
    alloc: Global,
    layout: &Layout,
    records: &[Vec<u8>],
    demos: Demos,
) -> Result<Option<Terminal<PlaneCells>>, AllocError>
    ensures { IfOk result (λ terminal. terminal ≡ asked demos (shown_on layout.now (map (λ bytes.
        bytes.items) records.now))) }
{
    if demos == Demos::Omitted {
        return Ok(None);
    }
    let mut terminal = Terminal::<PlaneCells>::new(alloc, layout.geometry())?;
    match show_all(&mut terminal, records) {
        Ok(()) => Ok(Some(terminal)),
        Err(_) => Ok(None),
    }
}

/// The line of what a finding's keys send from a copy of the terminal; none where the finding has no demo.
pub fn push_sends(
    alloc: Global,
    out: &mut String,
    terminal: Option<&Terminal<PlaneCells>>,
    finding: Finding,
) -> Result<(), AllocError>
    ensures { OnOk result (string_bytes out.new ≡ string_bytes out.old
        ++ sends_on (option_map (λ t. t.now) terminal.entry) (demo_of finding)) }
{
    match (terminal, finding.demo()) {
        (Some(terminal), Some(demo)) => {
            let bytes = demo_sends(alloc, terminal, demo)?;
            push_sent(out, "sends ", bytes.as_slice())
        }
        (None, _) | (_, None) => Ok(()),
    }
}
