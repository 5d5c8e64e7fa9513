//! What an event does to a terminal's run.

ghost use Rattle.std.specs.Prelude.{◌≡◌, [], map, OnOk};
ghost use Rattle.tn_wire.specs.Calls.{told_of};
ghost use Rattle.tn_wire.specs.Header.{header_of};
ghost use Rattle.tn_session.specs.Ran.{Does};
ghost use Rattle.tn_session.specs.EndCores.{core_agreed};
ghost use Rattle.tn_session.specs.TerminalLog.{taken_data, taken_headed, strictly_taken, taken_record, terminal_act};
ghost use Rattle.ds_structured.specs.Fields.{fields_in, field_seen};
ghost use Rattle.tn_session.specs.TerminalLog.{doing, then_typed, standing, obeyed, tolerated_fields};
ghost use Rattle.tn_session.specs.TerminalLog.{dropped, tolerated_data, tolerated_headed, tolerated};

use crate::fault::RunFault;
use crate::keystroke::Keystroke;
use crate::responses::push_positive;
use crate::terminal_state::TerminalState;
use crate::terminal_turns::one_more;
use crate::turn::Turn;
use ds_structured::{StructuredField, read_fields};
use std::alloc::Global;
use tn_cores::{Agreed, Out};
use tn_wire::{DataType, Event, Header};

/// What stands for the header of a record of a classic session.
const CLASSIC: Header = Header {
    data_type: DataType::Data3270,
    request: 0,
    response: 0,
    seq: 0,
};

/// Presses keys after a record.
fn press_on<K: Keystroke>(
    alloc: Global,
    due: &mut Vec<u8>,
    state: &mut TerminalState,
    keys: &mut &[K],
    agreed: Agreed,
) -> Result<Turn, RunFault>
    ensures { Does (standing (then_typed agreed (map K.strike keys.old.now)
        (doing due.old.items state.old))) result
        (record { state = state.new; keys = map K.strike keys.new.now }) due.new.items }
{
    state.press_all(alloc, due, agreed, keys)?;
    if state.was_free && keys.is_empty() {
        Ok(Turn::Finishes)
    } else {
        Ok(Turn::Goes)
    }
}

/// Takes a record of 3270 data, and presses keys.
fn take_data<K: Keystroke>(
    alloc: Global,
    due: &mut Vec<u8>,
    state: &mut TerminalState,
    keys: &mut &[K],
    agreed: Agreed,
    header: Header,
    bytes: &[u8],
) -> Result<Turn, RunFault>
    requires empty { due.old.items ≡ [] }
    ensures { Does (taken_data agreed header
        (record { state = state.old; keys = map K.strike keys.old.now }) bytes.now) result
        (record { state = state.new; keys = map K.strike keys.new.now }) due.new.items }
{
    state.receive(alloc, due, agreed, header, bytes)?;
    press_on(alloc, due, state, keys, agreed)
}

/// Obeys the structured fields of a record, and presses keys.
fn obey_fields<K: Keystroke>(
    alloc: Global,
    due: &mut Vec<u8>,
    state: &mut TerminalState,
    keys: &mut &[K],
    agreed: Agreed,
    header: Header,
    fields: &[StructuredField<'_>],
) -> Result<Turn, RunFault>
    requires empty { due.old.items ≡ [] }
    ensures { Does (standing (then_typed agreed (map K.strike keys.old.now)
        (obeyed agreed header state.old (map field_seen fields.now)))) result
        (record { state = state.new; keys = map K.strike keys.new.now }) due.new.items }
{
    state.obey(alloc, due, agreed, header, fields)?;
    press_on(alloc, due, state, keys, agreed)
}

/// Takes a record of a TN3270E session: its header says what becomes of it.
fn take_headed<K: Keystroke>(
    alloc: Global,
    due: &mut Vec<u8>,
    state: &mut TerminalState,
    keys: &mut &[K],
    agreed: Agreed,
    bytes: &[u8],
) -> Result<Turn, RunFault>
    requires empty { due.old.items ≡ [] }
    ensures { Does (taken_headed agreed
        (record { state = state.old; keys = map K.strike keys.old.now }) (header_of bytes.now)) result
        (record { state = state.new; keys = map K.strike keys.new.now }) due.new.items }
{
    let (header, data) = match Header::read(bytes) {
        Ok(read) => read,
        Err(fault) => return Err(RunFault::Header(fault)),
    };
    match header.data_type {
        DataType::Data3270 => take_data(alloc, due, state, keys, agreed, header, data),
        _ => {
            state.passed = one_more(state.passed);
            Ok(Turn::Goes)
        }
    }
}

/// Takes a record with data at a tolerant terminal: structured fields that can be obeyed are.
fn tolerate_fields<K: Keystroke>(
    alloc: Global,
    due: &mut Vec<u8>,
    state: &mut TerminalState,
    keys: &mut &[K],
    agreed: Agreed,
    header: Header,
    bytes: &[u8],
) -> Result<Turn, RunFault>
    requires empty { due.old.items ≡ [] }
    ensures { Does (tolerated_fields agreed header
        (record { state = state.old; keys = map K.strike keys.old.now }) bytes.now
        (fields_in bytes.now)) result
        (record { state = state.new; keys = map K.strike keys.new.now }) due.new.items }
{
    match read_fields(alloc, bytes)? {
        Some(fields) => obey_fields(alloc, due, state, keys, agreed, header, &fields),
        None => take_data(alloc, due, state, keys, agreed, header, bytes),
    }
}

/// Takes a record of 3270 data at a tolerant terminal.
fn tolerate_data<K: Keystroke>(
    alloc: Global,
    due: &mut Vec<u8>,
    state: &mut TerminalState,
    keys: &mut &[K],
    agreed: Agreed,
    header: Header,
    bytes: &[u8],
) -> Result<Turn, RunFault>
    requires empty { due.old.items ≡ [] }
    ensures { Does (tolerated_data agreed header
        (record { state = state.old; keys = map K.strike keys.old.now }) bytes.now) result
        (record { state = state.new; keys = map K.strike keys.new.now }) due.new.items }
{
    if !bytes.is_empty() {
        return tolerate_fields(alloc, due, state, keys, agreed, header, bytes);
    }
    push_positive(due, agreed, header)?;
    state.passed = one_more(state.passed);
    Ok(Turn::Goes)
}

/// Takes a record of a TN3270E session at a tolerant terminal.
fn tolerate_headed<K: Keystroke>(
    alloc: Global,
    due: &mut Vec<u8>,
    state: &mut TerminalState,
    keys: &mut &[K],
    agreed: Agreed,
    bytes: &[u8],
) -> Result<Turn, RunFault>
    requires empty { due.old.items ≡ [] }
    ensures { Does (tolerated_headed agreed
        (record { state = state.old; keys = map K.strike keys.old.now }) (header_of bytes.now)) result
        (record { state = state.new; keys = map K.strike keys.new.now }) due.new.items }
{
    let Ok((header, data)) = Header::read(bytes) else {
        state.passed = one_more(state.passed);
        return Ok(Turn::Goes);
    };
    match header.data_type {
        DataType::Data3270 => tolerate_data(alloc, due, state, keys, agreed, header, data),
        DataType::NvtData => {
            state.noted.note(data)?;
            state.passed = one_more(state.passed);
            Ok(Turn::Goes)
        }
        _ => {
            state.passed = one_more(state.passed);
            Ok(Turn::Goes)
        }
    }
}

/// Drops what was open of a record when records began to pass.
fn drop_record(state: &mut TerminalState, bytes: &[u8])
    ensures { state.new ≡ dropped state.old bytes.now }
{
    state.drops = false;
    if !bytes.is_empty() {
        state.ignored = one_more(state.ignored);
    }
}

/// Takes a record at a tolerant terminal.
fn tolerate<K: Keystroke>(
    alloc: Global,
    due: &mut Vec<u8>,
    state: &mut TerminalState,
    keys: &mut &[K],
    agreed: Agreed,
    bytes: &[u8],
) -> Result<Turn, RunFault>
    requires empty { due.old.items ≡ [] }
    ensures { Does (tolerated agreed
        (record { state = state.old; keys = map K.strike keys.old.now }) bytes.now) result
        (record { state = state.new; keys = map K.strike keys.new.now }) due.new.items }
{
    if state.drops {
        drop_record(state, bytes);
        return Ok(Turn::Goes);
    }
    if agreed.enhanced {
        return tolerate_headed(alloc, due, state, keys, agreed, bytes);
    }
    tolerate_data(alloc, due, state, keys, agreed, CLASSIC, bytes)
}

/// Takes a record to the letter of the profile.
fn take_strictly<K: Keystroke>(
    alloc: Global,
    due: &mut Vec<u8>,
    state: &mut TerminalState,
    keys: &mut &[K],
    agreed: Agreed,
    bytes: &[u8],
) -> Result<Turn, RunFault>
    requires empty { due.old.items ≡ [] }
    ensures { Does (strictly_taken agreed
        (record { state = state.old; keys = map K.strike keys.old.now }) bytes.now) result
        (record { state = state.new; keys = map K.strike keys.new.now }) due.new.items }
{
    if agreed.enhanced {
        return take_headed(alloc, due, state, keys, agreed, bytes);
    }
    take_data(alloc, due, state, keys, agreed, CLASSIC, bytes)
}

/// Takes a record, once the session is ready.
fn take_record<K: Keystroke>(
    alloc: Global,
    due: &mut Vec<u8>,
    state: &mut TerminalState,
    keys: &mut &[K],
    bytes: &[u8],
) -> Result<Turn, RunFault>
    requires empty { due.old.items ≡ [] }
    ensures { Does (taken_record (record { state = state.old; keys = map K.strike keys.old.now })
        (core_agreed state.old.core) bytes.now) result
        (record { state = state.new; keys = map K.strike keys.new.now }) due.new.items }
{
    let Some(agreed) = state.core.agreed() else {
        state.ignored = one_more(state.ignored);
        return Ok(Turn::Goes);
    };
    if state.core.is_tolerant() {
        tolerate(alloc, due, state, keys, agreed, bytes)
    } else {
        take_strictly(alloc, due, state, keys, agreed, bytes)
    }
}

/// Takes an event.
pub(crate) fn take_event_of<K: Keystroke>(
    alloc: Global,
    due: &mut Vec<u8>,
    state: &mut TerminalState,
    keys: &mut &[K],
    event: &Event<'_>,
) -> Result<Turn, RunFault>
    requires empty { due.old.items ≡ [] }
    ensures { Does (terminal_act (record { state = state.old; keys = map K.strike keys.old.now })
        (told_of event.now)) result
        (record { state = state.new; keys = map K.strike keys.new.now }) due.new.items }
{
    let granted = state.core.granted_lu_name(event);
    let mut reply = Out::new();
    let told = match state.core.step(event, &mut reply) {
        Ok(told) => told,
        Err(why) => return Err(RunFault::Session(why)),
    };
    match event {
        Event::Record(bytes) => take_record(alloc, due, state, keys, bytes),
        Event::Verb(..) | Event::Sub(..) | Event::Passed(..) => {
            state.lu_name.note(granted);
            state.heed(alloc, told)?;
            due.extend_from_slice(&reply)?;
            Ok(Turn::Goes)
        }
    }
}
