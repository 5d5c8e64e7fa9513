//! The keys of an action at a screen.

ghost use Rattle.std.specs.Prelude.{◌≡◌, ◌<◌, ◌++◌, length, IfOk};
ghost use Rattle.script_keys.specs.Steps.{is_error, freed, rights_to, erase_runs, field_end_runs, delete_field_runs, runs_of, margin_run};

use crate::ends::field_end;
use crate::keys::Keys;
use crate::places::is_field;
use crate::run::{Run, once, repeated};
use crate::target::place_of;
use ds_keys::Key;
use ds_screen::ring::{backward, distance, forward};
use ds_screen::{Cells, Lock, Screen};
use std::alloc::{AllocError, Global};

fn is_error(lock: Lock) -> bool
    ensures { result ≡ is_error lock }
{
    match lock {
        Lock::Error => true,
        Lock::Free | Lock::Waiting => false,
    }
}

/// Adds Reset after an operator's error.
fn push_freed<C: Cells>(runs: &mut Vec<Run>, screen: &Screen<C>) -> Result<(), AllocError>
    ensures { IfOk result (λ done. runs.new.items ≡ runs.old.items ++ freed screen.now) }
{
    if is_error(screen.lock()) {
        runs.push(once(Key::Reset))?;
    }
    Ok(())
}

/// Right, as often as it takes from the cursor to a position.
fn rights_to<C: Cells>(screen: &Screen<C>, place: u32) -> Run
    ensures { result ≡ rights_to screen.now place }
{
    let n = screen.position_count();
    repeated(Key::Right, distance(n, screen.cursor(), place))
}

/// Adds what Erase presses.
fn push_erase<C: Cells>(runs: &mut Vec<Run>, screen: &Screen<C>) -> Result<(), AllocError>
    ensures { IfOk result (λ done. runs.new.items ≡ runs.old.items ++ erase_runs screen.now) }
{
    let n = screen.position_count();
    if !is_field(screen.cell(backward(n, screen.cursor(), 1))) {
        runs.push(once(Key::Left))?;
        runs.push(once(Key::Delete))?;
    }
    Ok(())
}

/// Adds what leads behind the last character of the cursor's field.
fn push_field_end<C: Cells>(runs: &mut Vec<Run>, screen: &Screen<C>) -> Result<(), AllocError>
    ensures { IfOk result (λ done. runs.new.items ≡ runs.old.items ++ field_end_runs screen.now) }
{
    let n = screen.position_count();
    let cursor = screen.cursor();
    if !screen.is_open(cursor) {
        return Ok(());
    }
    if let Some(attribute) = screen.attr_before(cursor) {
        let end = field_end(screen, forward(n, attribute, 1));
        runs.push(rights_to(screen, end))?;
    }
    Ok(())
}

/// Adds what erases the cursor's field.
fn push_delete_field<C: Cells>(runs: &mut Vec<Run>, screen: &Screen<C>) -> Result<(), AllocError>
    ensures { IfOk result (λ done. runs.new.items
        ≡ runs.old.items ++ delete_field_runs screen.now) }
{
    let n = screen.position_count();
    let cursor = screen.cursor();
    let Some(attribute) = screen.attr_before(cursor) else {
        return Ok(());
    };
    if screen.is_open(cursor) {
        runs.push(rights_to(screen, forward(n, attribute, 1)))?;
    }
    runs.push(once(Key::EraseEof))?;
    Ok(())
}

/// The keys that an action presses at a screen, in turn. The cursor is moved by Right, round the buffer. Takes memory for at most
/// three runs.
pub fn runs_of<C: Cells>(
    alloc: Global,
    screen: &Screen<C>,
    keys: Keys,
) -> Result<Vec<Run>, AllocError>
    ensures { IfOk result (λ runs. runs.items ≡ runs_of screen.now keys) }
{
    let mut runs = Vec::new(alloc);
    match keys {
        Keys::Plain(key) => runs.push(once(key))?,
        Keys::Freeing(key) => {
            push_freed(&mut runs, screen)?;
            runs.push(once(key))?;
        }
        Keys::Erase => push_erase(&mut runs, screen)?,
        Keys::FieldEnd => {
            push_freed(&mut runs, screen)?;
            push_field_end(&mut runs, screen)?;
        }
        Keys::DeleteField => {
            push_freed(&mut runs, screen)?;
            push_delete_field(&mut runs, screen)?;
        }
        Keys::MoveTo(target) => {
            let place = place_of(screen, target);
            runs.push(rights_to(screen, place))?;
        }
    }
    Ok(runs)
}

/// The keys that lead to a column of the cursor's row, where the cursor stands before it.
pub fn margin_run<C: Cells>(screen: &Screen<C>, column: u32) -> Option<Run>
    ensures { result ≡ margin_run screen.now column }
{
    let _count = screen.position_count();
    let at = screen.cursor() % u32::from(screen.size().cols);
    if at < column {
        Some(repeated(Key::Right, column - at))
    } else {
        None
    }
}
