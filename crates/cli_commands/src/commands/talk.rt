//! The command `talk`: what stands against the turns of a dialogue.

ghost use Rattle.std.specs.Prelude.{◌≡◌, ◌+◌, ◌++◌, codes, length, map, None, Some, IfErr, IfOk, IfSome, OnOk, slice_get};
ghost use Rattle.std.specs.Fmt.{decimal};
ghost use Rattle.std.specs.String.{string_bytes};
ghost use Rattle.scr_check.specs.TalkSeen.{rounds_of, stop_in};
ghost use Rattle.scr_check.specs.Walk.{walk_of};
ghost use Rattle.cli_commands.specs.Causes.{EndsBy, ToldBy, all_failures};
ghost use Rattle.cli_commands.specs.Fault.{Gives, GivesOrFails};
ghost use Rattle.cli_commands.specs.Held.{answer_seen};
ghost use Rattle.cli_commands.specs.Printed.{printed};
ghost use Rattle.cli_commands.specs.Streams.{Prints};
ghost use Rattle.ds_codec.specs.Same.{same_sizes};
ghost use Rattle.cli_commands.specs.Talk.{other_from, first_other, unless_other, layouts_from, rounds, turn_lines, stop_text, printed_stop, talk_told, talk_turns, talk, printed_talk};
ghost use Rattle.cli_commands.specs.TurnsHeld.{turns_held, lent_held, all_remaining};
ghost use Rattle.std.specs.Prelude.{[]};

use crate::commands::check::lent;
use crate::fault::{CommandError, Fault};
use crate::input::layouts::read_layouts;
use crate::input::source::{Source, Text, sources_of};
use crate::input::turns::read_turns;
use crate::output::answer::{Answer, finish};
use crate::output::findings::push_findings;
use crate::status::Status;
use crate::streams::{GivesBytes, TakesBytes};
use ds_codec::Geometry;
use scr_check::{Finding, TalkVerdict, Turn, check_talk};
use scr_layout::Layout;
use std::alloc::{AllocError, Global};

/// Whether a layout is for a terminal of this geometry.
#[tactic(auto, using(ds_codec::proofs::Same::modes_compared))]
fn is_geometry(layout: &Layout, geometry: &Geometry) -> bool
    ensures { result ≡ same_sizes layout.now.geometry geometry.now }
{
    layout.geometry() == *geometry
}

/// The first of the layouts that is not for a terminal of this geometry; they count from 1.
fn other_after(geometry: &Geometry, layouts: &[Layout]) -> Option<usize>
    ensures { result ≡ other_from geometry.now 1 layouts.now }
{
    for (index, layout) in layouts.iter().enumerate() {
        if !is_geometry(layout, geometry) {
            return Some(index + 1);
        }
    }
    None
}

/// The first layout that is for a terminal of another geometry than the first's.
fn first_other(layouts: &[Layout]) -> Option<usize>
    ensures { result ≡ first_other layouts.now }
{
    let Some((first, others)) = layouts.split_first() else {
        return None;
    };
    let geometry = first.geometry();
    other_after(&geometry, others)
}

/// Refuses layouts for terminals of other geometries than the first's.
pub(crate) fn one_geometry(layouts: &[Layout]) -> Result<(), Fault>
    ensures exact { result ≡ unless_other (first_other layouts.now) }
    ensures same { IfOk result (λ done. first_other layouts.now ≡ None) }
{
    match first_other(layouts) {
        Some(turn) => Err(Fault::OtherGeometry(turn)),
        None => Ok(()),
    }
}

/// The records of the turns as slices.
fn lent_turns<'a>(
    alloc: Global,
    turns: &'a [Vec<Vec<u8>>],
) -> Result<Vec<Vec<&'a [u8]>>, AllocError>
    ensures { IfOk result (λ v. lent_held v.items ≡ turns_held turns.now) }
{
    let mut all = Vec::new(alloc);
    for records in turns {
        all.push(lent(alloc, records.as_slice())?)?;
    }
    Ok(all)
}

/// Each turn's records with its layout.
fn with_layouts<'a, 'r>(
    alloc: Global,
    records: &'a [Vec<&'r [u8]>],
    layouts: &'a [Layout],
) -> Result<Vec<Turn<'a, 'r>>, AllocError>
    requires { length records.now ≡ length layouts.now }
    ensures { IfOk result (λ v. rounds_of v.items ≡ rounds (lent_held records.now) layouts.now) }
{
    let mut turns = Vec::new(alloc);
    for index in 0..records.len() {
        turns.push(Turn {
            records: records[index].as_slice(),
            layout: &layouts[index],
        })?;
    }
    Ok(turns)
}

fn turn_line(alloc: Global, turn: usize) -> Result<String, AllocError>
    ensures { IfOk result (λ line. string_bytes line
        ≡ codes "turn " ++ (decimal turn ++ codes "\n")) }
{
    format!(in alloc; "turn {turn}\n")
}

/// The lines of the findings of a turn.
fn push_turn_lines(
    alloc: Global,
    out: &mut String,
    layouts: &[Layout],
    turn: usize,
    findings: &[Finding],
) -> Result<(), AllocError>
    ensures { OnOk result (string_bytes out.new ≡ string_bytes out.old
        ++ turn_lines (slice_get layouts.now turn) findings.now) }
{
    match layouts.get(turn) {
        Some(layout) => push_findings(alloc, out, layout, None, findings),
        None => Ok(()),
    }
}

/// The number of a turn and the lines of its findings.
fn stop_text(
    alloc: Global,
    layouts: &[Layout],
    turn: usize,
    findings: &[Finding],
) -> Result<String, AllocError>
    ensures { IfOk result (λ text. string_bytes text
        ≡ stop_text layouts.now (record { turn = turn; findings = findings.now })) }
{
    let mut text = turn_line(alloc, turn)?;
    push_turn_lines(alloc, &mut text, layouts, turn, findings)?;
    Ok(text)
}

/// `yes`, or the first turn with findings, and these.
fn verdict_text(
    alloc: Global,
    layouts: &[Layout],
    verdict: &TalkVerdict,
) -> Result<Answer, AllocError>
    ensures { IfOk result (λ answer. answer_seen answer
        ≡ printed_stop layouts.now (stop_in verdict.now)) }
{
    match verdict {
        TalkVerdict::Yes => Ok(Answer {
            text: String::from_str(alloc, "yes\n")?,
            status: Status::Done,
        }),
        TalkVerdict::No { turn, findings } => Ok(Answer {
            text: stop_text(alloc, layouts, *turn, findings.as_slice())?,
            status: Status::Findings,
        }),
    }
}

/// The verdict on layouts of one geometry, and on as many turns.
pub(crate) fn turns_verdict(
    alloc: Global,
    layouts: &[Layout],
    turns: &[Vec<Vec<u8>>],
) -> Result<TalkVerdict, AllocError>
    requires same { first_other layouts.now ≡ None }
    requires as_many { length turns.now ≡ length layouts.now }
    ensures { IfOk result (λ verdict. stop_in verdict
        ≡ walk_of (rounds (turns_held turns.now) layouts.now)) }
{
    let records = lent_turns(alloc, turns)?;
    let rounds = with_layouts(alloc, records.as_slice(), layouts)?;
    check_talk(alloc, rounds.as_slice())
}

/// What `talk` answers to layouts of one geometry, and to as many turns.
fn turns_answer(
    alloc: Global,
    layouts: &[Layout],
    turns: &[Vec<Vec<u8>>],
) -> Result<Answer, AllocError>
    requires same { first_other layouts.now ≡ None }
    requires as_many { length turns.now ≡ length layouts.now }
    ensures { IfOk result (λ answer. answer_seen answer
        ≡ printed_stop layouts.now (walk_of (rounds (turns_held turns.now) layouts.now))) }
{
    let verdict = turns_verdict(alloc, layouts, turns)?;
    verdict_text(alloc, layouts, &verdict)
}

/// What `talk` answers to layouts of one geometry and to turns, unless their numbers differ.
fn talk_told(
    alloc: Global,
    layouts: &[Layout],
    turns: &[Vec<Vec<u8>>],
) -> Result<Answer, CommandError>
    requires { first_other layouts.now ≡ None }
    ensures { Gives answer_seen result (talk_told layouts.now (turns_held turns.now)) }
{
    if turns.len() != layouts.len() {
        return Err(CommandError::Fault(Fault::OtherCount(turns.len(), layouts.len())));
    }
    Ok(turns_answer(alloc, layouts, turns)?)
}

/// What `talk` answers to layouts of one geometry and the turns of a source.
fn talk_turns<S: Source>(
    alloc: Global,
    layouts: &[Layout],
    source: &mut S,
) -> Result<Answer, CommandError>
    requires { first_other layouts.now ≡ None }
    ensures answer { IfSome (S.remaining source.old)
        (λ input. GivesOrFails answer_seen result (talk_turns layouts.now input)) }
    ensures cause { ToldBy (S.failures source.old) (S.failures source.new) result }
{
    let turns = read_turns(alloc, source)?;
    talk_told(alloc, layouts, turns.as_slice())
}

/// What `talk` answers to the sources of layouts and of turns.
fn talk_read<L: Source, R: Source>(
    alloc: Global,
    layouts: &mut [L],
    records: &mut R,
) -> Result<Answer, CommandError>
    ensures answer { IfSome (all_remaining L.remaining layouts.old)
        (λ texts. IfSome (R.remaining records.old)
        (λ input. GivesOrFails answer_seen result (talk texts input))) }
    ensures cause { ToldBy (all_failures L.failures layouts.old + R.failures records.old)
        (all_failures L.failures layouts.new + R.failures records.new) result }
    ensures unread { IfSome (all_remaining L.remaining layouts.old)
        (λ texts. IfErr (layouts_from 0 [] texts) (λ fault. records.new ≡ records.old)) }
{
    let layouts = read_layouts(alloc, layouts)?;
    one_geometry(layouts.as_slice())?;
    talk_turns(alloc, layouts.as_slice(), records)
}

/// What `talk` answers to the texts of layouts and of turns.
///
/// # Errors
///
/// The first fault: of the layouts in order, then that they are not of one geometry, then of the lines, then that there are
/// not as many turns as layouts; out of memory.
pub fn talk_texts(alloc: Global, layouts: &[&[u8]], records: &[u8]) -> Result<Answer, CommandError>
    ensures { Gives answer_seen result (talk (map (λ text. text.now) layouts.now) records.now) }
{
    let mut sources = sources_of(alloc, layouts)?;
    talk_read(alloc, sources.as_mut_slice(), &mut Text(records))
}

/// Reads the layouts of the turns of a dialogue, and then records in hexadecimal, one a line, with a line
/// `turn` between two turns. It prints `yes`, or the first turn against which something stands and its
/// findings; or the first fault: of the layouts in order, then that they are not of one geometry, then of
/// the lines, then that there are not as many turns as layouts. A layout is read only where those before it
/// have no fault, and records where no layout has one. The sizes are the layouts', so a line of sizes is
/// bad. The limits are those of `run_check`, for the records of all turns together. After a read or a write
/// that failed the status is `Failed`, where memory was refused `NoMemory`, and a front of the text was
/// written.
pub fn run_talk<L: GivesBytes, R: GivesBytes, W: TakesBytes>(
    alloc: Global,
    layouts: &mut [L],
    reader: &mut R,
    writer: &mut W,
) -> Status
    ensures prints { IfSome (all_remaining L.remaining layouts.old)
        (λ texts. IfSome (R.remaining reader.old) (λ input.
        Prints (W.contents writer.old) (W.contents writer.new) result (printed_talk texts input))) }
    ensures cause { IfSome (all_remaining L.remaining layouts.old)
        (λ texts. IfSome (R.remaining reader.old) (λ input.
        EndsBy (all_failures L.failures layouts.old + R.failures reader.old + W.failures writer.old)
        (all_failures L.failures layouts.new + R.failures reader.new + W.failures writer.new)
        (printed_talk texts input).status result)) }
    ensures unread { IfSome (all_remaining L.remaining layouts.old)
        (λ texts. IfErr (layouts_from 0 [] texts) (λ fault. reader.new ≡ reader.old)) }
{
    let answer = talk_read(alloc, layouts, reader);
    finish(alloc, writer, answer)
}
