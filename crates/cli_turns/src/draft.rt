//! A layout for the screen of each turn of a dialogue.

ghost use Rattle.std.specs.Prelude.{◌≡◌, ◌+◌, ◌++◌, ◌<◌, ◌^◌, codes, map, IfOk, IfSome, OnOk};
ghost use Rattle.std.specs.Fmt.{decimal};
ghost use Rattle.std.specs.String.{string_bytes};
ghost use Rattle.cli_commands.specs.Causes.{EndsBy, ToldBy};
ghost use Rattle.cli_commands.specs.Fault.{Gives, GivesOrFails};
ghost use Rattle.cli_commands.specs.Held.{answer_seen};
ghost use Rattle.cli_commands.specs.Streams.{Prints};
ghost use Rattle.cli_drafts.specs.Draft.{draft};
ghost use Rattle.cli_turns.specs.Drafts.{worse, turn_head, drafts_from, draft_of, draft_turns, each_draft, each_from, printed_draft_turns};
ghost use Rattle.cli_turns.specs.Part.{records_up_to};

use crate::part::{count_of, records_up_to};
use cli_commands::{
    Answer, CommandError, Fault, GivesBytes, Status, TakesBytes, finish, read_text, within_limit,
};
use cli_drafts::draft_text;
use std::alloc::{AllocError, Global};

/// The most turns.
const MOST_TURNS: usize = 1_000;

/// The status of two texts: that of the second, where the first is done.
pub(crate) fn worse(first: Status, second: Status) -> Status
    ensures { result ≡ worse first second }
{
    match first {
        Status::Done => second,
        other => other,
    }
}

fn push_head(out: &mut String, turn: usize) -> Result<(), AllocError>
    ensures { OnOk result (string_bytes out.new ≡ string_bytes out.old ++ turn_head turn) }
{
    write!(out, "# turn {turn}\n")
}

/// The draft of a turn's screen, which the records of all turns up to it make.
#[tactic(auto, unfolding(crate::specs::Drafts::draft_of))]
fn draft_of(alloc: Global, turn: usize, text: &[u8]) -> Result<Answer, CommandError>
    requires { turn < 2 ^ 32 }
    ensures { Gives answer_seen result (draft_of turn text.now) }
{
    let records = records_up_to(alloc, turn + 1, text)?;
    draft_text(alloc, &records)
}

/// Adds a turn's text to those before it.
fn add(told: &mut Answer, turn: usize, one: &Answer) -> Result<(), AllocError>
    ensures { OnOk result (answer_seen told.new
        ≡ record {
          text = string_bytes told.old.text ++ (turn_head turn ++ string_bytes one.now.text);
          status = worse told.old.status one.now.status;
        }) }
{
    push_head(&mut told.text, turn)?;
    told.text.push_str(one.text.as_str())?;
    told.status = worse(told.status, one.status);
    Ok(())
}

/// The drafts of so many turns.
fn drafts_of(alloc: Global, count: usize, text: &[u8]) -> Result<Answer, CommandError>
    requires { count < 2 ^ 32 }
    ensures { Gives answer_seen result (drafts_from text.now 0 count) }
{
    let mut told = Answer {
        text: String::new(alloc),
        status: Status::Done,
    };
    for turn in 0..count {
        let one = draft_of(alloc, turn, text)?;
        add(&mut told, turn, &one)?;
    }
    Ok(told)
}

/// What `draft --turns` answers to a text of records, with a line `turn` between two turns: for each, a line `# turn K`, and what
/// `draft` answers to the records up to it. The status is `Findings` where it is that of a turn.
///
/// # Errors
///
/// The first fault of the lines, or of a draft as a layout; more than 1,000 turns, or 16,777,216 bytes; out of memory.
pub fn draft_turns_text(alloc: Global, text: &[u8]) -> Result<Answer, CommandError>
    ensures { Gives answer_seen result (draft_turns text.now) }
{
    let lines = within_limit(text)?;
    let turns = count_of(MOST_TURNS, lines);
    if turns == MOST_TURNS {
        return Err(CommandError::Fault(Fault::TooLong));
    }
    drafts_of(alloc, turns + 1, lines)
}

/// The draft of each of so many turns.
fn each_of(alloc: Global, count: usize, text: &[u8]) -> Result<Vec<Answer>, CommandError>
    requires { count < 2 ^ 32 }
    ensures { Gives (λ all. map answer_seen all.items) result (each_from text.now 0 count) }
{
    let mut all = Vec::new(alloc);
    for turn in 0..count {
        match draft_of(alloc, turn, text) {
            Ok(one) => all.push(one)?,
            Err(error) => return Err(error),
        }
    }
    Ok(all)
}

/// What `draft` answers to the records up to each turn of a text of records, with a line `turn` between two turns: the texts that
/// `draft_turns_text` puts together, one by one. A text of status `Findings` is no layout.
///
/// # Errors
///
/// Those of `draft_turns_text`.
pub fn each_draft(alloc: Global, text: &[u8]) -> Result<Vec<Answer>, CommandError>
    ensures { Gives (λ all. map answer_seen all.items) result (each_draft text.now) }
{
    let lines = within_limit(text)?;
    let turns = count_of(MOST_TURNS, lines);
    if turns == MOST_TURNS {
        return Err(CommandError::Fault(Fault::TooLong));
    }
    each_of(alloc, turns + 1, lines)
}

fn draft_read<R: GivesBytes>(alloc: Global, reader: &mut R) -> Result<Answer, CommandError>
    ensures answer { IfSome (R.remaining reader.old)
        (λ input. GivesOrFails answer_seen result (draft_turns input)) }
    ensures cause { ToldBy (R.failures reader.old) (R.failures reader.new) result }
{
    let text = read_text(alloc, reader)?;
    draft_turns_text(alloc, &text)
}

/// Reads records in hexadecimal, one a line, with a line `turn` between two turns, and prints for each turn a line `# turn K`,
/// counted from 0, and the layout that `run_draft` prints for the screen which the records up to it make; or the first fault alone.
/// The status is `Findings` where a turn's screen can't be drafted. At most 1,000 turns, and the limits of `run_draft`. After a read
/// or a write that failed the status is `Failed`, where memory was refused `NoMemory`, and a front of the text was written.
pub fn run_draft_turns<R: GivesBytes, W: TakesBytes>(
    alloc: Global,
    reader: &mut R,
    writer: &mut W,
) -> Status
    ensures prints { IfSome (R.remaining reader.old) (λ input.
        Prints (W.contents writer.old) (W.contents writer.new) result (printed_draft_turns input)) }
    ensures cause { IfSome (R.remaining reader.old) (λ input.
        EndsBy (R.failures reader.old + W.failures writer.old)
        (R.failures reader.new + W.failures writer.new) (printed_draft_turns input).status result) }
{
    let answer = draft_read(alloc, reader);
    finish(alloc, writer, answer)
}
