//! A record of a side, and what else an event tells.

ghost use Rattle.std.specs.Prelude.{◌≡◌, ◌++◌, ◌<◌, ◌&&◌, if◌then◌else◌, drop, length, Ok, OnOk, []};
ghost use Rattle.std.specs.String.{string_bytes};
ghost use Rattle.std.specs.Option.{option_map};
ghost use Rattle.tn_session.specs.Runs.{going};
ghost use Rattle.tn_traces.specs.Held.{kept_seen};
ghost use Rattle.tn_traces.specs.Negotiated.{negotiated_after};
ghost use Rattle.tn_traces.specs.Record.{kept_of};
ghost use Rattle.tn_wire.specs.Calls.{told_of};
ghost use Rattle.cli_traces.specs.Device.{device_named};
ghost use Rattle.cli_traces.specs.Fields.{fields_in, drawn_of};
ghost use Rattle.cli_traces.specs.Reading.{sender_of, same_side, is_printed, is_model, size_line, sizes_text, first_sized, sized_after, is_other, has_other_size, counted, line_text, line_after, in_turn, body_text, body_after, some_text, some_after, bodies_text, bodies_after, drawn_by, head_text, head_after, ends_size, shaped_log, kept_log, named_after, named_text, tells_device, negotiated_log, before_text, record_log, with_record};
ghost use Rattle.cli_traces.specs.Start.{start_with};
ghost use Rattle.cli_traces.specs.Text.{record_text, is_line};
ghost use Rattle.cli_traces.specs.Turns.{begins, turn_after, turn_text};
ghost use Rattle.cli_traces.specs.declared.start.Start.TheVariants.{Agreeing};
ghost use Rattle.cli_traces.specs.declared.text.Shape.TheVariants.{Comment, Line, Fields};
ghost use Rattle.cli_traces.specs.Taking.{TakesEvent};

use crate::device::{device_named, model_of, push_device, size_words};
use crate::fields::{after_first, drawn, first_field};
use crate::reading::{Reading, Task};
use crate::start::Start;
use crate::text::{Shape, push_fields, push_plain, push_record, shape_of};
use crate::turn::{begins, stage_after, turn_after};
use std::alloc::AllocError;
use tn_cores::{ScreenModel, SessionFault};
use tn_session::RunFault;
use tn_traces::{Kept, Side, negotiated_after, read_record};
use tn_wire::{Event, Header};

/// Whether the records of a side are asked for.
fn is_same(side: Side, other: Side) -> bool
    ensures { result ≡ same_side side other }
{
    side == other
}

/// Whether a record is printed in a turn.
#[tactic(auto, unfolding(crate::specs::Reading::is_printed))]
fn is_printed(task: Task, turn: u64) -> bool
    ensures { result ≡ is_printed task.asked task.side turn }
{
    is_same(task.side, task.asked.side) && task.asked.turns.is_within(task.side, turn)
}

fn is_model(model: ScreenModel, other: ScreenModel) -> bool
    ensures { result ≡ is_model model other }
{
    model == other
}

/// Whether the device has other sizes than those that were printed, or none were before the first
/// record.
#[tactic(auto, unfolding(crate::specs::Reading::has_other_size))]
fn has_other_size(size: bool, reading: Reading) -> bool
    ensures { result ≡ has_other_size size reading }
{
    size && match (reading.named, reading.sized) {
        (Some(model), Some(sized)) => !is_model(model, sized),
        (Some(_), None) => reading.count != 0,
        (None, _) => false,
    }
}

/// The line of sizes, where it is due.
#[tactic(auto, unfolding(crate::specs::Reading::sizes_text))]
fn push_sizes(out: &mut String, size: bool, reading: Reading) -> Result<(), AllocError>
    ensures { OnOk result
        (string_bytes out.new ≡ string_bytes out.old ++ sizes_text size reading) }
{
    match (size, reading.named, reading.sized) {
        (true, Some(model), None) => {
            out.push_str("size ")?;
            out.push_str(size_words(model))?;
            out.push_str("\n")
        }
        _ => Ok(()),
    }
}

#[tactic(auto, unfolding(crate::specs::Reading::sized_after))]
fn sized_after(size: bool, reading: Reading) -> Option<ScreenModel>
    ensures { result ≡ sized_after size reading }
{
    match (size, reading.sized) {
        (true, None) => reading.named,
        (_, sized) => sized,
    }
}

/// The line that begins a turn, where turns are marked.
fn push_turn(out: &mut String, task: Task, reading: Reading) -> Result<(), AllocError>
    ensures { OnOk result (string_bytes out.new ≡ string_bytes out.old
        ++ turn_text task.asked.turns (begins task.side reading.stage)) }
{
    if task.asked.turns.is_marked() && begins(task.side, reading.stage) {
        out.push_str("turn\n")
    } else {
        Ok(())
    }
}

/// A record in the turn at hand.
#[tactic(auto, unfolding(crate::specs::Reading::line_text, crate::specs::Reading::line_after))]
fn take_line(
    task: Task,
    reading: &mut Reading,
    out: &mut String,
    header: Option<Header>,
    body: &[u8],
) -> Result<(), AllocError>
    ensures text { OnOk result (string_bytes out.new ≡ string_bytes out.old
        ++ line_text task.asked task.side task.line header reading.old body.now) }
    ensures known { OnOk result (reading.new ≡ line_after task.asked task.side reading.old) }
{
    if !is_printed(task, reading.turn) {
        return Ok(());
    }
    push_sizes(out, task.asked.size, *reading)?;
    push_record(out, reading.count, task.line, &Kept { header, body })?;
    reading.sized = sized_after(task.asked.size, *reading);
    reading.count = reading.count.saturating_add(1);
    Ok(())
}

/// A record that may begin a turn.
#[tactic(auto, unfolding(crate::specs::Reading::body_text, crate::specs::Reading::body_after))]
fn take_body(
    task: Task,
    reading: &mut Reading,
    out: &mut String,
    header: Option<Header>,
    body: &[u8],
) -> Result<(), AllocError>
    ensures text { OnOk result (string_bytes out.new ≡ string_bytes out.old
        ++ body_text task.asked task.side task.line header reading.old body.now) }
    ensures known { OnOk result
        (reading.new ≡ body_after task.asked task.side reading.old body.now) }
{
    push_turn(out, task, *reading)?;
    reading.turn = turn_after(task.side, reading.stage, reading.turn);
    reading.stage = stage_after(task.side, reading.stage, body);
    take_line(task, reading, out, header, body)
}

/// A record, where there is a byte of it.
#[tactic(auto, unfolding(crate::specs::Reading::some_text, crate::specs::Reading::some_after))]
fn take_some(
    task: Task,
    reading: &mut Reading,
    out: &mut String,
    header: Option<Header>,
    body: &[u8],
) -> Result<(), AllocError>
    ensures text { OnOk result (string_bytes out.new ≡ string_bytes out.old
        ++ some_text task.asked task.side task.line header reading.old body.now) }
    ensures known { OnOk result
        (reading.new ≡ some_after task.asked task.side reading.old body.now) }
{
    if body.is_empty() {
        Ok(())
    } else {
        take_body(task, reading, out, header, body)
    }
}

/// The records that fields draw.
fn take_drawn(
    task: Task,
    reading: &mut Reading,
    out: &mut String,
    header: Option<Header>,
    fields: &[u8],
) -> Result<(), AllocError>
    ensures text { OnOk result (string_bytes out.new ≡ string_bytes out.old
        ++ bodies_text task.asked task.side task.line header reading.old
        (drawn_of (fields_in fields.now))) }
    ensures known { OnOk result (reading.new
        ≡ bodies_after task.asked task.side reading.old (drawn_of (fields_in fields.now))) }
{
    let mut rest = fields;
    while let Some((field, others)) = first_field(rest) {
        take_some(task, reading, out, header, drawn(field))?;
        rest = others;
    }
    Ok(())
}

/// The comment of a record of structured fields.
#[tactic(auto, unfolding(crate::specs::Reading::head_text, crate::specs::Reading::head_after))]
fn take_head(
    task: Task,
    reading: &mut Reading,
    out: &mut String,
    kept: &Kept<'_>,
) -> Result<(), AllocError>
    ensures text { OnOk result (string_bytes out.new ≡ string_bytes out.old
        ++ head_text task.asked task.side task.line reading.old (kept_seen kept.now)) }
    ensures known { OnOk result (reading.new ≡ head_after task.asked task.side reading.old) }
{
    if !is_printed(task, reading.turn) {
        return Ok(());
    }
    push_fields(out, reading.fields, task.line, kept)?;
    reading.fields = reading.fields.saturating_add(1);
    Ok(())
}

/// A record of structured fields.
fn take_fields(
    task: Task,
    reading: &mut Reading,
    out: &mut String,
    kept: &Kept<'_>,
) -> Result<(), AllocError>
    ensures text { OnOk result (string_bytes out.new ≡ string_bytes out.old
        ++ (head_text task.asked task.side task.line reading.old (kept_seen kept.now)
        ++ bodies_text task.asked task.side task.line kept.now.header
        (head_after task.asked task.side reading.old)
        (drawn_by task.side kept.now.body.now))) }
    ensures known { OnOk result (reading.new ≡ bodies_after task.asked task.side
        (head_after task.asked task.side reading.old) (drawn_by task.side kept.now.body.now)) }
{
    take_head(task, reading, out, kept)?;
    match task.side {
        Side::Host => take_drawn(task, reading, out, kept.header, after_first(kept.body)),
        Side::Terminal => Ok(()),
    }
}

/// The comment of a record that is no line.
fn take_comment(
    task: Task,
    reading: Reading,
    out: &mut String,
    kept: &Kept<'_>,
) -> Result<(), AllocError>
    ensures { OnOk result (string_bytes out.new ≡ string_bytes out.old
        ++ (if is_printed task.asked task.side reading.turn
        then record_text reading.count task.line (kept_seen kept.now) else [])) }
{
    if is_printed(task, reading.turn) {
        push_record(out, reading.count, task.line, kept)
    } else {
        Ok(())
    }
}

/// Whether the line of sizes can't be true of a record of the side.
#[tactic(auto, unfolding(crate::specs::Reading::ends_size))]
fn ends_size(task: Task, reading: Reading) -> bool
    ensures { result ≡ ends_size task.asked task.side reading }
{
    is_printed(task, turn_after(task.side, reading.stage, reading.turn))
        && has_other_size(task.asked.size, reading)
}

/// Takes a record whose header was read.
fn take_kept(
    task: Task,
    reading: &mut Reading,
    out: &mut String,
    kept: &Kept<'_>,
) -> Result<(), RunFault>
    ensures { TakesEvent
        (kept_log task.asked task.side task.line reading.old (Ok (kept_seen kept.now)))
        (string_bytes out.old) result reading.new (string_bytes out.new) }
{
    let shape = shape_of(task.asked.all, task.side, kept);
    if shape == Shape::Comment {
        return Ok(take_comment(task, *reading, out, kept)?);
    }
    if ends_size(task, *reading) {
        return Err(RunFault::Session(SessionFault::NoDevice));
    }
    if shape == Shape::Fields {
        Ok(take_fields(task, reading, out, kept)?)
    } else {
        Ok(take_body(task, reading, out, kept.header, kept.body)?)
    }
}

/// Takes a record.
fn take_record(
    task: Task,
    reading: &mut Reading,
    out: &mut String,
    bytes: &[u8],
) -> Result<(), RunFault>
    ensures { TakesEvent
        (kept_log task.asked task.side task.line reading.old (kept_of reading.old.now bytes.now))
        (string_bytes out.old) result reading.new (string_bytes out.new) }
{
    match read_record(reading.now, bytes) {
        Ok(kept) => take_kept(task, reading, out, &kept),
        Err(fault) if is_same(task.side, task.asked.side) => Err(RunFault::Header(fault)),
        Err(_fault) => Ok(()),
    }
}

/// Takes text before the session, which our own end of a record ended.
#[tactic(auto, unfolding(crate::specs::Reading::before_text))]
fn take_text(
    task: Task,
    reading: &mut Reading,
    out: &mut String,
    bytes: &[u8],
) -> Result<(), AllocError>
    ensures text { OnOk result (string_bytes out.new ≡ string_bytes out.old
        ++ before_text task.asked task.side task.line reading.old bytes.now) }
    ensures known { OnOk result
        (reading.new ≡ record reading.old { start = Agreeing }) }
{
    if !bytes.is_empty() && is_printed(task, reading.turn) {
        push_plain(out, task.line, bytes)?;
    }
    reading.start = Start::Agreeing;
    Ok(())
}

/// Takes the bytes that a record's end ended: text before the session, or a record.
pub(crate) fn take_told(
    task: Task,
    reading: &mut Reading,
    out: &mut String,
    bytes: &[u8],
) -> Result<(), RunFault>
    ensures { TakesEvent (record_log task.asked task.side task.line reading.old bytes.now)
        (string_bytes out.old) result reading.new (string_bytes out.new) }
{
    if reading.ends_text(task.side) {
        return Ok(take_text(task, reading, out, bytes)?);
    }
    reading.start = reading.start.with_record(task.side);
    take_record(task, reading, out, bytes)
}

/// Whether a device is told: beside turns and sizes.
fn tells_device(task: Task) -> bool
    ensures { result ≡ tells_device task.asked }
{
    task.asked.size || task.asked.turns.is_marked()
}

fn push_named(out: &mut String, task: Task, named: Option<&[u8]>) -> Result<(), AllocError>
    ensures { OnOk result (string_bytes out.new ≡ string_bytes out.old
        ++ named_text task.asked (option_map (λ name. name.now) named.entry)) }
{
    match named {
        Some(name) if tells_device(task) => push_device(out, name),
        _ => Ok(()),
    }
}

fn named_after(old: Option<ScreenModel>, named: Option<&[u8]>) -> Option<ScreenModel>
    ensures { result ≡ named_after old (option_map (λ name. name.now) named.entry) }
{
    match named {
        None => old,
        Some(name) => model_of(name),
    }
}

/// Takes an event that is no record.
pub(crate) fn take_negotiated(
    task: Task,
    reading: &mut Reading,
    out: &mut String,
    event: &Event<'_>,
) -> Result<(), AllocError>
    ensures text { OnOk result (string_bytes out.new ≡ string_bytes out.old
        ++ named_text task.asked
        (device_named (sender_of task.asked.source task.side) (told_of event.now))) }
    ensures known { OnOk result (negotiated_log task.asked task.side
        (sender_of task.asked.source task.side) reading.old (told_of event.now) ≡ going (named_text task.asked
        (device_named (sender_of task.asked.source task.side) (told_of event.now))) reading.new) }
{
    let sender = task.asked.sender(task.side);
    let named = device_named(sender, event);
    push_named(out, task, named)?;
    reading.start = reading.start.after(task.side, event);
    reading.now = negotiated_after(sender, reading.now, event);
    reading.named = named_after(reading.named, named);
    Ok(())
}
