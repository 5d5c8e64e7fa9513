//! The command `script`, over what it is worked over.

ghost use Rattle.std.specs.Prelude.{◌≡◌, ◌++◌, ℕ, List, [], true, false, Err, IfOk, OnOk, OnErr};
ghost use Rattle.std.specs.Bool.{OnTrue};
ghost use Rattle.std.specs.Io.KnownBytes.{Appends, prepend_known};
ghost use Rattle.cli_commands.specs.Causes.{SendsBy};
ghost use Rattle.cli_commands.specs.Streams.{AppendsFront};
ghost use Rattle.cli_scripts.specs.Desks.{Keeps, DidAll, handed_screens};
ghost use Rattle.cli_scripts.specs.Ends.{ConcludesBy, EndsSo, ReadsBy, ReportsBy, StaysTold, WorksUpTo, failures_of};
ghost use Rattle.cli_scripts.specs.Judged.{Concludes, HasFindings, IsOver, Judges, JudgesAll, judged_all, reports_of, end_of_report, judged_status};
ghost use Rattle.cli_scripts.specs.Answers.{AreAnswers, handed_lines};
ghost use Rattle.cli_scripts.specs.Machines.{AnswersSo};
ghost use Rattle.cli_scripts.specs.declared.came.Need.TheVariants.{Connection, Layout, Page};
ghost use Rattle.cli_scripts.specs.Runs.{GivesLine, GivesNeed, HasEnded, IsEndAt, Ran, Turned, handed_due_of, need_of};
ghost use Rattle.cli_scripts.specs.Worlds.{Exchanged, Took, Tells, TellsAll, is_need};
ghost use Rattle.cli_scripts.specs.declared.run.Ended.TheVariants.{Over};
ghost use Rattle.cli_commands.specs.declared.status.Status.TheVariants.{Done, Findings, NoMemory};

use crate::came::{Came, Need, Wants};
use crate::machine::Machine;
use crate::script::{Asked, Script};
use crate::sent_screen::SentScreen;
use crate::tool::write_lines;
use crate::world::{Heard, Patience, World};
use cli_commands::{CommandError, GivesBytes, Status, TakesBytes};
use script_checks::{Judge, LayoutText};
use std::alloc::{AllocError, Global};
use tn_session::History;

/// How many bytes a read of the host gives at most.
const PIECE: usize = 4_096;

/// Why a script is over.
#[derive(Clone, Copy, PartialEq, Eq)]
enum Ended {
    /// It ended, or was told to.
    Over,
    /// A read of it, or a write of an answer, failed.
    Failed,
    /// A request for memory was refused.
    NoMemory,
}

/// How a script ended.
#[derive(Clone, Copy, PartialEq, Eq)]
struct Finish {
    ended: Ended,
    /// No write of the report failed.
    is_told: bool,
}

fn finished(ended: Ended, is_told: bool) -> Finish
    ensures { result ≡ record { ended = ended; is_told = is_told } }
{
    Finish { ended, is_told }
}

impl From<AllocError> for Ended {
    ghost use Rattle.std.specs.Prelude.{◌≡◌};
    ghost use Rattle.cli_scripts.specs.declared.run.Ended.TheVariants.{NoMemory as no_memory};

    ghost from_gives = { λ _ ended. ended ≡ no_memory };

    fn from(_e: AllocError) -> Ended {
        Ended::NoMemory
    }
}

impl From<CommandError> for Ended {
    ghost use Rattle.std.specs.Prelude.{◌≡◌};
    ghost use Rattle.cli_scripts.specs.Judged.{ended_by};

    ghost from_gives = { λ error ended. ended ≡ ended_by error };

    fn from(error: CommandError) -> Ended {
        match error {
            CommandError::OutOfMemory => Ended::NoMemory,
            CommandError::ReadFailed | CommandError::Fault(_) => Ended::Failed,
        }
    }
}

/// Reads the next line of the script.
fn take_line<R: GivesBytes>(
    alloc: Global,
    machine: &mut Machine,
    script: &mut R,
    lines: &mut Script,
) -> Result<Wants, Ended>
    requires { machine.old.is_busy ≡ false }
    ensures desk { Keeps machine.old.desk machine.new.desk }
    ensures gone { machine.new.telling.gone ≡ machine.old.telling.gone }
    ensures answered { IfOk result (λ wants. AnswersSo true machine.old wants machine.new) }
    ensures gives { IfOk result (λ wants. GivesLine machine.old wants machine.new
        (prepend_known lines.old.ahead (R.remaining script.old))
        (prepend_known lines.new.ahead (R.remaining script.new))) }
    ensures same { result ≡ Err Over → machine.new ≡ machine.old }
    ensures ended { result ≡ Err Over
        → HasEnded (prepend_known lines.old.ahead (R.remaining script.old)) }
    ensures cause { ReadsBy (R.failures script.old) (R.failures script.new) result }
{
    match lines.advance(script)? {
        Asked::Line => Ok(machine.take(alloc, Came::Line(lines.line()))?),
        Asked::LongLine => Ok(machine.take(alloc, Came::LongLine)?),
        Asked::End => Err(Ended::Over),
    }
}

/// Reads the host.
fn take_read<W: World>(
    alloc: Global,
    machine: &mut Machine,
    world: &mut W,
    patience: Patience,
) -> Result<Wants, AllocError>
    requires { machine.old.is_busy ≡ true }
    ensures took { Took machine.old.desk machine.new.desk (W.sent world.old) (W.sent world.new)
        (W.received world.old) (W.received world.new) }
    ensures gone { machine.new.telling.gone ≡ machine.old.telling.gone }
    ensures answered { IfOk result (λ wants. AnswersSo true machine.old wants machine.new) }
    ensures gives { IfOk result (λ wants. GivesNeed (need_of patience) machine.old wants machine.new
        (W.received world.old) (W.received world.new)) }
{
    let mut piece = [0; PIECE];
    match world.read(&mut piece, patience) {
        Heard::Bytes(count) => {
            let bytes = &piece[..count.min(PIECE)];
            machine.take(alloc, Came::Bytes(bytes))
        }
        Heard::Nothing if matches!(patience, Patience::None) => machine.take(alloc, Came::Nothing),
        Heard::Nothing => machine.take(alloc, Came::Late),
        Heard::Closed => machine.take(alloc, Came::Closed),
    }
}

/// Connects to the host that is wanted.
fn take_connection<W: World>(
    alloc: Global,
    machine: &mut Machine,
    world: &mut W,
) -> Result<Wants, AllocError>
    requires { machine.old.is_busy ≡ true }
    ensures took { Took machine.old.desk machine.new.desk (W.sent world.old) (W.sent world.new)
        (W.received world.old) (W.received world.new) }
    ensures gone { machine.new.telling.gone ≡ machine.old.telling.gone }
    ensures answered { IfOk result (λ wants. AnswersSo true machine.old wants machine.new) }
    ensures gives { IfOk result (λ wants. GivesNeed Connection machine.old wants machine.new
        (W.received world.old) (W.received world.new)) }
{
    let mut cause = Vec::new(alloc);
    let connected = match machine.wanted_host() {
        Some((host, port)) => world.connect(host, port, &mut cause),
        None => false,
    };
    if connected {
        machine.take(alloc, Came::Connected)
    } else {
        machine.take(alloc, Came::Unconnected(&cause))
    }
}

/// Writes the screen to the file that is wanted.
fn take_page<W: World>(
    alloc: Global,
    machine: &mut Machine,
    world: &mut W,
) -> Result<Wants, AllocError>
    requires { machine.old.is_busy ≡ true }
    ensures took { Took machine.old.desk machine.new.desk (W.sent world.old) (W.sent world.new)
        (W.received world.old) (W.received world.new) }
    ensures gone { machine.new.telling.gone ≡ machine.old.telling.gone }
    ensures answered { IfOk result (λ wants. AnswersSo true machine.old wants machine.new) }
    ensures gives { IfOk result (λ wants. GivesNeed Page machine.old wants machine.new
        (W.received world.old) (W.received world.new)) }
{
    let mut cause = Vec::new(alloc);
    let written = match machine.wanted_file() {
        Some(path) => world.write_page(path, machine.screen(), &mut cause),
        None => false,
    };
    if written {
        machine.take(alloc, Came::Written)
    } else {
        machine.take(alloc, Came::Unwritten(&cause))
    }
}

/// Reads the layout's file that is wanted.
fn take_layout<W: World>(
    alloc: Global,
    machine: &mut Machine,
    world: &mut W,
) -> Result<Wants, AllocError>
    requires { machine.old.is_busy ≡ true }
    ensures took { Took machine.old.desk machine.new.desk (W.sent world.old) (W.sent world.new)
        (W.received world.old) (W.received world.new) }
    ensures gone { machine.new.telling.gone ≡ machine.old.telling.gone }
    ensures answered { IfOk result (λ wants. AnswersSo true machine.old wants machine.new) }
    ensures gives { IfOk result (λ wants. GivesNeed Layout machine.old wants machine.new
        (W.received world.old) (W.received world.new)) }
{
    let mut text = Vec::new(alloc);
    let read = match machine.wanted_file() {
        Some(path) => world.read_file(path, &mut text),
        None => false,
    };
    if read {
        machine.take(alloc, Came::Layout(LayoutText::Text(&text)))
    } else {
        machine.take(alloc, Came::Layout(LayoutText::Unreadable(&text)))
    }
}

/// Gives what is needed, and tells what is wanted next.
fn give<W: World>(
    alloc: Global,
    machine: &mut Machine,
    world: &mut W,
    need: Need,
) -> Result<Wants, AllocError>
    requires { machine.old.is_busy ≡ true }
    ensures took { Took machine.old.desk machine.new.desk (W.sent world.old) (W.sent world.new)
        (W.received world.old) (W.received world.new) }
    ensures gone { machine.new.telling.gone ≡ machine.old.telling.gone }
    ensures answered { IfOk result (λ wants. AnswersSo true machine.old wants machine.new) }
    ensures gives { IfOk result (λ wants. GivesNeed need machine.old wants machine.new
        (W.received world.old) (W.received world.new)) }
{
    match need {
        Need::Arrived => take_read(alloc, machine, world, Patience::None),
        Need::Bytes => take_read(alloc, machine, world, Patience::Endless),
        Need::BytesWithin { limit, begins } => {
            let patience = Patience::Within { limit, begins };
            take_read(alloc, machine, world, patience)
        }
        Need::Pause(time) => {
            world.pause(time);
            machine.take(alloc, Came::Late)
        }
        Need::Connection => take_connection(alloc, machine, world),
        Need::Page => take_page(alloc, machine, world),
        Need::Layout => take_layout(alloc, machine, world),
    }
}

/// Gives what is wanted, a line of the script or something of the world, and tells what is wanted next. Every answer that was written
/// was passed on before.
fn turn<R: GivesBytes, W: World>(
    alloc: Global,
    machine: &mut Machine,
    script: &mut R,
    lines: &mut Script,
    world: &mut W,
    wants: Wants,
    held_back: &History<u8>,
) -> Result<Wants, Ended>
    requires busy { machine.old.is_busy ≡ is_need wants }
    requires passed { held_back.now.items ≡ [] }
    ensures took { Took machine.old.desk machine.new.desk (W.sent world.old) (W.sent world.new)
        (W.received world.old) (W.received world.new) }
    ensures gone { machine.new.telling.gone ≡ machine.old.telling.gone }
    ensures answered { IfOk result (λ wants. AnswersSo true machine.old wants machine.new) }
    ensures turned { IfOk result (λ next. Turned wants machine.old next machine.new
        (prepend_known lines.old.ahead (R.remaining script.old))
        (prepend_known lines.new.ahead (R.remaining script.new)) (W.received world.old)
        (W.received world.new)) }
    ensures same { result ≡ Err Over → machine.new ≡ machine.old }
    ensures ended { result ≡ Err Over
        → IsEndAt wants (prepend_known lines.old.ahead (R.remaining script.old)) }
    ensures silent { result ≡ Err Over → W.received world.new ≡ W.received world.old }
    ensures cause { ReadsBy (R.failures script.old) (R.failures script.new) result }
{
    match wants {
        Wants::Line => take_line(alloc, machine, script, lines),
        Wants::Nothing => Err(Ended::Over),
        Wants::Need(need) => Ok(give(alloc, machine, world, need)?),
    }
}

/// Sends what is due to the host, and ends the line to it where the session is over.
fn send<W: World>(machine: &mut Machine, world: &mut W)
    ensures sends { (given : List ℕ) × (machine.new.desk.gone ≡ machine.old.desk.gone ++ given)
        × (W.sent world.new ≡ W.sent world.old ++ given)
        × (machine.new.desk.heard ≡ machine.old.desk.heard)
        × (W.received world.new ≡ W.received world.old)
        × (machine.new.telling ≡ machine.old.telling)
        × (machine.new.is_busy ≡ machine.old.is_busy)
        × (machine.new.desk.judged ≡ machine.old.desk.judged)
        × (machine.new.desk.unjudged ≡ machine.old.desk.unjudged)
        × (machine.new.desk.collects ≡ machine.old.desk.collects) }
    ensures handed { machine.new ≡ handed_due_of machine.old }
{
    if !machine.due().is_empty() {
        world.write(machine.due());
        machine.hand_out_due();
    }
    if !machine.is_connected() {
        world.hang_up();
    }
    if let Some(why) = machine.take_fault() {
        world.tell_fault(why);
    }
}

/// Gives the answers that are whole to the tool, and passes them on: whether it took them.
fn answer<O: TakesBytes>(machine: &mut Machine, output: &mut O, held_back: &mut History<u8>) -> bool
    ensures passed { OnTrue result (held_back.new.items ≡ []) }
    ensures told { Tells machine.old machine.new (O.contents output.old) (O.contents output.new) }
    ensures whole { OnTrue result (TellsAll machine.old machine.new (O.contents output.old)
        (O.contents output.new)) }
    ensures desk { machine.new.desk ≡ machine.old.desk }
    ensures busy { machine.new.is_busy ≡ machine.old.is_busy }
    ensures handed { machine.new
        ≡ record machine.old { telling = handed_lines machine.old.telling } }
    ensures cause { SendsBy (O.failures output.old) (O.failures output.new) result }
{
    let taken = write_lines(output, held_back, machine.lines());
    machine.hand_out_lines();
    taken
}

/// Writes a part of the report, where it isn't empty: whether it was taken.
fn is_written<P: TakesBytes>(report: &mut P, text: &[u8]) -> bool
    ensures all { OnTrue result (Appends (P.contents report.old) (P.contents report.new) text.now) }
    ensures cause { SendsBy (P.failures report.old) (P.failures report.new) result }
{
    let mut held_back = History::new();
    text.is_empty() || write_lines(report, &mut held_back, text)
}

/// Judges screens, and adds what is reported of them.
fn judge_screens(
    alloc: Global,
    judge: &mut Judge,
    screens: &[SentScreen],
    text: &mut Vec<u8>,
) -> Result<(), AllocError>
    ensures after { OnOk result (judge.new ≡ judged_all judge.old screens.now) }
    ensures report { OnOk result (text.new.items
        ≡ text.old.items ++ reports_of judge.old screens.now) }
{
    let mut rest = screens;
    'screens: while let Some((screen, others)) = rest.split_first() {
        judge.judge(alloc, screen.screen(), screen.turns(), text)?;
        rest = others;
    }
    Ok(())
}

/// Judges the screens on which keys sent, and reports them, unless a write of the report failed before: whether none has.
fn inspect<P: TakesBytes>(
    alloc: Global,
    machine: &mut Machine,
    judge: &mut Judge,
    report: &mut P,
    is_told: bool,
) -> Result<bool, AllocError>
    ensures machine { OnOk result
        (machine.new ≡ record machine.old { desk = handed_screens machine.old.desk }) }
    ensures same { OnErr result (machine.new ≡ machine.old) }
    ensures after { OnOk result (judge.new ≡ judged_all judge.old machine.old.desk.unjudged) }
    ensures before { IfOk result (λ told. told ≡ true → is_told ≡ true) }
    ensures reported { IfOk result (λ told. OnTrue told (Appends (P.contents report.old)
        (P.contents report.new) (reports_of judge.old machine.old.desk.unjudged))) }
    ensures cause { IfOk result
        (λ told. StaysTold (P.failures report.old) (P.failures report.new) is_told told) }
{
    let mut text = Vec::new(alloc);
    judge_screens(alloc, judge, machine.sent_screens(), &mut text)?;
    machine.hand_out_screens();
    Ok(is_told && is_written(report, &text))
}

/// Ends the report, unless a write of it failed before: whether none has.
fn end_report<P: TakesBytes>(
    alloc: Global,
    judge: &Judge,
    report: &mut P,
    is_told: bool,
) -> Result<bool, AllocError>
    ensures before { IfOk result (λ told. told ≡ true → is_told ≡ true) }
    ensures reported { IfOk result (λ told. OnTrue told (Appends (P.contents report.old)
        (P.contents report.new) (end_of_report judge.now))) }
    ensures cause { IfOk result
        (λ told. StaysTold (P.failures report.old) (P.failures report.new) is_told told) }
{
    let mut text = Vec::new(alloc);
    judge.finish(&mut text)?;
    Ok(is_told && is_written(report, &text))
}

/// Works the terminal by the lines of the script, up to its end: why it is over, and whether no write of the report failed.
fn work<R: GivesBytes, O: TakesBytes, P: TakesBytes, W: World>(
    alloc: Global,
    machine: &mut Machine,
    script: &mut R,
    lines: &mut Script,
    output: &mut O,
    world: &mut W,
    judge: &mut Judge,
    report: &mut P,
) -> Finish
    requires { machine.old.is_busy ≡ false }
    ensures exchanged { Exchanged machine.old.desk machine.new.desk (W.sent world.old)
        (W.sent world.new) (W.received world.old) (W.received world.new) }
    ensures told { Tells machine.old machine.new (O.contents output.old) (O.contents output.new) }
    ensures whole { result.ended ≡ Over → TellsAll machine.old machine.new
        (O.contents output.old) (O.contents output.new) }
    ensures judged { result.ended ≡ Over → Judges machine.old.desk machine.new.desk judge.old
        judge.new result.is_told (P.contents report.old) (P.contents report.new) }
    ensures all { result.ended ≡ Over → machine.new.desk.unjudged ≡ [] }
    ensures ran { result.ended ≡ Over → Ran machine.old machine.new
        (prepend_known lines.old.ahead (R.remaining script.old)) (W.received world.old)
        (W.received world.new) }
    ensures cause { WorksUpTo (failures_of (R.failures script.old) (O.failures output.old)
        (P.failures report.old)) (failures_of (R.failures script.new) (O.failures output.new)
        (P.failures report.new)) machine.old machine.new result.ended }
    ensures written { ReportsBy (P.failures report.old) (P.failures report.new) result.is_told
        result.ended }
{
    let mut wants = Wants::Line;
    let mut held_back = History::new();
    let mut is_told = true;
    'turns: for _turn in 0..u64::MAX {
        let given = turn(alloc, machine, script, lines, world, wants, &held_back);
        match inspect(alloc, machine, judge, report, is_told) {
            Ok(told) => is_told = told,
            Err(AllocError) => return finished(Ended::NoMemory, false),
        }
        send(machine, world);
        match given {
            Ok(next) => wants = next,
            Err(why) => return finished(why, is_told),
        }
        if !answer(machine, output, &mut held_back) {
            return finished(Ended::Failed, is_told);
        }
    }
    finished(Ended::Failed, is_told)
}

/// The status of a script that is over.
fn judged_status(ended: Ended, is_told: bool, has_findings: bool) -> Status
    ensures { result ≡ judged_status ended is_told has_findings }
{
    match ended {
        Ended::Over if !is_told => Status::Failed,
        Ended::Over if has_findings => Status::Findings,
        Ended::Over => Status::Done,
        Ended::Failed => Status::Failed,
        Ended::NoMemory => Status::NoMemory,
    }
}

/// Ends the report of a script that is over, but where memory was refused to it: its status.
fn conclude<P: TakesBytes>(alloc: Global, judge: &Judge, report: &mut P, finish: Finish) -> Status
    ensures over { IsOver result → Concludes judge.now result finish (P.contents report.old)
        (P.contents report.new) }
    ensures cause { ConcludesBy (P.failures report.old) (P.failures report.new) finish result }
{
    if matches!(finish.ended, Ended::NoMemory) {
        return Status::NoMemory;
    }
    match end_report(alloc, judge, report, finish.is_told) {
        Ok(told) => judged_status(finish.ended, told, judge.has_findings()),
        Err(AllocError) => Status::NoMemory,
    }
}

/// What a machine says of itself.
fn attest(machine: &Machine)
    ensures did { DidAll machine.now.desk }
    ensures answers { AreAnswers machine.now.telling.outcomes
        (machine.now.telling.gone ++ machine.now.telling.lines) }
{
    let _due = machine.due();
    let _lines = machine.lines();
}

/// Works a terminal by the lines of a script: each is answered by its data lines, a status line, and `ok` or `error`. Where the terminal's
/// screens are to be judged, each on which a key sends is, before what the key sends goes to the host; the judge's report is written as it
/// comes, and ended with the script. The status is `Done` where the script ended or was told to, or `Findings` where a screen had some;
/// `Failed` where a read of the script, or a write of an answer or of the report failed; or `NoMemory`.
pub fn run_script<R: GivesBytes, O: TakesBytes, P: TakesBytes, W: World>(
    alloc: Global,
    machine: &mut Machine,
    script: &mut R,
    output: &mut O,
    world: &mut W,
    judge: &mut Judge,
    report: &mut P,
) -> Status
    requires { machine.old.is_busy ≡ false }
    // What the hosts gave was heard, and what was due went to them, in order and once;
    ensures exchanged { Exchanged machine.old.desk machine.new.desk (W.sent world.old)
        (W.sent world.new) (W.received world.old) (W.received world.new) }
    // that is what the sessions gave for what was heard and the keys that were pressed.
    ensures did { DidAll machine.new.desk }
    // Answers alone were written, each of data lines, one status line, and how the line ended.
    ensures told { Tells machine.old machine.new (O.contents output.old) (O.contents output.new) }
    ensures whole { IsOver result → TellsAll machine.old machine.new (O.contents output.old)
        (O.contents output.new) }
    ensures answers { AreAnswers machine.new.telling.outcomes
        (machine.new.telling.gone ++ machine.new.telling.lines) }
    // Each screen on which a key sent was judged, and what the judge says of them was written.
    ensures judged { IsOver result → JudgesAll machine.old.desk machine.new.desk judge.old
        judge.new (P.contents report.old) (P.contents report.new) }
    ensures findings { IsOver result → HasFindings result judge.new.has_findings }
    // The script's lines, what came of hosts, and the rest that came led, in turn, from one terminal to the other.
    ensures ran { IsOver result → Ran machine.old machine.new (R.remaining script.old)
        (W.received world.old) (W.received world.new) }
    // It is `Failed` where a call of the script, the output or the report failed, or no more turns can be counted; want of memory aside
    // nothing else gives it up.
    ensures cause { EndsSo (failures_of (R.failures script.old) (O.failures output.old)
        (P.failures report.old)) (failures_of (R.failures script.new) (O.failures output.new)
        (P.failures report.new)) machine.old machine.new result }
{
    let Ok(mut lines) = Script::new(alloc) else {
        attest(machine);
        return Status::NoMemory;
    };
    let finish = work(
        alloc, machine, script, &mut lines, output, world, judge, report,
    );
    attest(machine);
    conclude(alloc, judge, report, finish)
}
