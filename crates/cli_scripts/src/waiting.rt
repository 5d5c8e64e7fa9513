//! Wait.

ghost use Rattle.std.specs.Prelude.{◌≡◌, is_some, true, IfOk};
ghost use Rattle.cli_scripts.specs.Waits.{HoldsSo, OnLine, Begins, BeginsTold, HearsAt, HearsTold, IsReadOn, Tells, wanted, on_line, unread, off_line, is_seconds, is_zero, lacks_time, closed, late, failure_words};
ghost use Rattle.cli_scripts.specs.Workers.{ArrivesOn};

use crate::answer::Saying;
use crate::came::Need;
use crate::desk::Desk;
use crate::doing::{Doing, Step};
use script_requests::{Awaited, Wait, WaitFault};
use script_screens::Outcome;
use std::alloc::{AllocError, Global};

/// Why a wait fails.
#[derive(Clone, Copy, Debug, PartialEq, Eq)]
pub(crate) enum Failure {
    /// There is no host.
    NotConnected,
    /// The line to the host ended.
    Disconnected,
    /// The time is over.
    TimedOut,
    /// Seconds are waited for without a number of them.
    NoTime,
}

/// What becomes of a wait.
#[derive(Clone, Copy, Debug, PartialEq, Eq)]
pub(crate) enum Becomes {
    /// It is over.
    Over,
    /// It fails.
    Fails(Failure),
    /// It goes on once this came.
    Awaits(Need),
}

/// What is said of a wait that fails.
fn failure_words(why: Failure) -> &'static str
    ensures { result.now ≡ failure_words why }
{
    match why {
        Failure::NotConnected => "Wait(): Not connected",
        Failure::Disconnected => "Host disconnected",
        Failure::TimedOut => "Wait(): Timed out",
        Failure::NoTime => WaitFault::Parameter.text(),
    }
}

/// Whether what is waited for is so, at a terminal that is connected.
fn holds(desk: &Desk, what: Awaited) -> bool
    ensures { HoldsSo what desk.now result }
{
    match what {
        Awaited::InputField => desk.takes_input(),
        Awaited::Mode3270 => desk.is_ready(),
        Awaited::Output => !desk.was_read(),
        Awaited::Unlock => !desk.waits(),
        Awaited::NvtMode | Awaited::Disconnect | Awaited::Seconds => false,
    }
}

/// What is wanted for a wait.
fn wanted(limit: Option<u32>, begins: bool) -> Need
    ensures { result ≡ wanted limit begins }
{
    match limit {
        None | Some(0) => Need::Bytes,
        Some(limit) => Need::BytesWithin { limit, begins },
    }
}

/// What becomes of a wait at a terminal that is connected, where what is waited for is so or isn't.
fn on_line(held: bool, wait: Wait, begins: bool) -> Becomes
    ensures { result ≡ on_line held wait begins }
{
    if held {
        Becomes::Over
    } else {
        Becomes::Awaits(wanted(wait.limit, begins))
    }
}

/// What becomes of a wait at a terminal that is connected.
fn at_host(desk: &Desk, wait: Wait, begins: bool) -> Becomes
    ensures { OnLine desk.now wait begins result }
{
    let held = holds(desk, wait.what);
    on_line(held, wait, begins)
}

/// What becomes of a wait for output, by whether the screen was read since a record came.
fn unread(was_read: bool) -> Becomes
    ensures { result ≡ unread was_read }
{
    if was_read {
        Becomes::Fails(Failure::NotConnected)
    } else {
        Becomes::Over
    }
}

/// What becomes of a wait at a terminal that isn't connected.
fn off_line(wait: Wait, was_read: bool) -> Becomes
    ensures { result ≡ off_line wait.what wait.limit was_read }
{
    match wait.what {
        Awaited::InputField | Awaited::NvtMode | Awaited::Mode3270 => {
            Becomes::Fails(Failure::NotConnected)
        }
        Awaited::Output => unread(was_read),
        Awaited::Unlock | Awaited::Disconnect => Becomes::Over,
        Awaited::Seconds => Becomes::Awaits(Need::Pause(wait.limit.unwrap_or(0))),
    }
}

fn is_seconds(what: Awaited) -> bool
    ensures { result ≡ is_seconds what }
{
    matches!(what, Awaited::Seconds)
}

fn is_zero(limit: Option<u32>) -> bool
    ensures { result ≡ is_zero limit }
{
    match limit {
        Some(limit) => limit == 0,
        None => false,
    }
}

/// Whether seconds are waited for without a number of them.
fn lacks_time(wait: Wait) -> bool
    ensures { result ≡ lacks_time wait }
{
    is_seconds(wait.what) && is_zero(wait.limit)
}

/// What becomes of a wait as it begins.
fn begun(desk: &Desk, wait: Wait) -> Becomes
    ensures { Begins desk.now wait result }
{
    if lacks_time(wait) {
        return Becomes::Fails(Failure::NoTime);
    }
    if desk.is_connected() {
        at_host(desk, wait, true)
    } else {
        off_line(wait, desk.was_read())
    }
}

/// What becomes of a wait as the line to the host ends.
fn closed(what: Awaited) -> Becomes
    ensures { result ≡ closed what }
{
    match what {
        Awaited::InputField | Awaited::NvtMode | Awaited::Mode3270 | Awaited::Output => {
            Becomes::Fails(Failure::Disconnected)
        }
        Awaited::Unlock | Awaited::Disconnect | Awaited::Seconds => Becomes::Over,
    }
}

/// What becomes of a wait after bytes of the host.
fn heard(desk: &Desk, wait: Wait) -> Becomes
    ensures { HearsAt (is_some desk.now.host) desk.now wait result }
{
    if desk.is_connected() {
        at_host(desk, wait, false)
    } else {
        closed(wait.what)
    }
}

/// What becomes of a wait whose time is over.
fn late(what: Awaited) -> Becomes
    ensures { result ≡ late what }
{
    match what {
        Awaited::Seconds => Becomes::Over,
        _ => Becomes::Fails(Failure::TimedOut),
    }
}

/// Tells what became of a wait.
fn tell(alloc: Global, wait: Wait, became: Becomes, saying: &mut Saying) -> Result<Step, AllocError>
    ensures { IfOk result (λ step. Tells wait became step saying.old saying.new) }
{
    match became {
        Becomes::Over => Ok(Step::Ended(Outcome::Done)),
        Becomes::Fails(why) => {
            let outcome = saying.fail(alloc, failure_words(why).as_bytes())?;
            Ok(Step::Ended(outcome))
        }
        Becomes::Awaits(need) => Ok(Step::Waits(Doing::Waiting(wait), need)),
    }
}

/// What comes after bytes that had arrived of the host: more of them, until nothing more has, or its line ends.
pub(crate) fn arrived(desk: &Desk) -> Step
    ensures reads { is_some desk.now.host ≡ true → IsReadOn result }
    ensures arrives { ArrivesOn (is_some desk.now.host) result }
{
    if desk.is_connected() {
        Step::Waits(Doing::Arriving, Need::Arrived)
    } else {
        Step::Ended(Outcome::Done)
    }
}

/// Begins a wait.
pub(crate) fn wait(
    alloc: Global,
    desk: &Desk,
    wait: Wait,
    saying: &mut Saying,
) -> Result<Step, AllocError>
    ensures { IfOk result (λ step. BeginsTold desk.now wait step saying.old saying.new) }
{
    tell(alloc, wait, begun(desk, wait), saying)
}

/// Ends a wait as the line to the host ends.
pub(crate) fn wait_closed(
    alloc: Global,
    wait: Wait,
    saying: &mut Saying,
) -> Result<Step, AllocError>
    ensures { IfOk result (λ step. Tells wait (closed wait.what) step saying.old saying.new) }
{
    tell(alloc, wait, closed(wait.what), saying)
}

/// Goes on with a wait after bytes of the host.
pub(crate) fn wait_heard(
    alloc: Global,
    desk: &Desk,
    wait: Wait,
    saying: &mut Saying,
) -> Result<Step, AllocError>
    ensures { IfOk result (λ step. HearsTold desk.now wait step saying.old saying.new) }
{
    tell(alloc, wait, heard(desk, wait), saying)
}

/// Ends a wait whose time is over.
pub(crate) fn wait_late(alloc: Global, wait: Wait, saying: &mut Saying) -> Result<Step, AllocError>
    ensures { IfOk result (λ step. Tells wait (late wait.what) step saying.old saying.new) }
{
    tell(alloc, wait, late(wait.what), saying)
}
