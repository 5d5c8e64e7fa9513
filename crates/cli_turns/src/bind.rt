//! The answers of each turn of a dialogue, by its layout.

ghost use Rattle.std.specs.Prelude.{◌≡◌, ◌+◌, ◌++◌, ◌<◌, ◌≤◌, ◌^◌, [], length, IfErr, IfOk, IfSome, OnOk};
ghost use Rattle.std.specs.String.{string_bytes};
ghost use Rattle.cli_commands.specs.Causes.{EndsBy, ToldBy, all_failures};
ghost use Rattle.cli_commands.specs.Fault.{Gives, GivesOrFails};
ghost use Rattle.cli_commands.specs.Held.{answer_seen};
ghost use Rattle.cli_commands.specs.Streams.{Prints};
ghost use Rattle.cli_commands.specs.Talk.{layouts_from};
ghost use Rattle.cli_commands.specs.TurnsHeld.{all_remaining};
ghost use Rattle.cli_turns.specs.Binds.{turn_line, bound_of, bound_from, bound_turns, bind_turns, printed_bind_turns};
ghost use Rattle.cli_turns.specs.Drafts.{worse};

use crate::draft::worse;
use crate::part::{count_of, records_of};
use cli_binds::{Form, bind_answers};
use cli_commands::{
    Answer, CommandError, Fault, GivesBytes, Status, TakesBytes, finish, read_layouts, read_text,
    within_limit,
};
use scr_layout::Layout;
use std::alloc::{AllocError, Global};

/// More turns than a text can have.
const MOST_TURNS: usize = 16_777_216;

fn push_turn(out: &mut String, turn: usize) -> Result<(), AllocError>
    ensures { OnOk result (string_bytes out.new ≡ string_bytes out.old ++ turn_line turn) }
{
    write!(out, "turn {turn}\n")
}

/// What `bind` answers to the answers of a turn.
#[tactic(auto, unfolding(crate::specs::Binds::bound_of))]
fn bound_of(
    alloc: Global,
    form: Form,
    layout: &Layout,
    turn: usize,
    text: &[u8],
) -> Result<Answer, CommandError>
    ensures { Gives answer_seen result (bound_of form layout.now turn text.now) }
{
    let answers = records_of(alloc, turn, text)?;
    bind_answers(alloc, layout, &answers, form)
}

/// Adds a turn's text to those before it.
fn add(told: &mut Answer, turn: usize, one: &Answer) -> Result<(), AllocError>
    ensures { OnOk result (answer_seen told.new
        ≡ record {
          text = string_bytes told.old.text ++ (turn_line turn ++ string_bytes one.now.text);
          status = worse told.old.status one.now.status;
        }) }
{
    push_turn(&mut told.text, turn)?;
    told.text.push_str(one.text.as_str())?;
    told.status = worse(told.status, one.status);
    Ok(())
}

/// What `bind` answers to the answers of each turn.
fn bound_turns(
    alloc: Global,
    form: Form,
    layouts: &[Layout],
    text: &[u8],
) -> Result<Answer, CommandError>
    ensures { Gives answer_seen result (bound_from form text.now 0 layouts.now) }
{
    let mut told = Answer {
        text: String::new(alloc),
        status: Status::Done,
    };
    for (turn, layout) in layouts.iter().enumerate() {
        let one = bound_of(alloc, form, layout, turn, text)?;
        add(&mut told, turn, &one)?;
    }
    Ok(told)
}

/// What `bind --turns` answers to the layouts of the turns and a text of answers.
fn bind_told(
    alloc: Global,
    form: Form,
    layouts: &[Layout],
    answers: &[u8],
) -> Result<Answer, CommandError>
    ensures { Gives answer_seen result (bound_turns form layouts.now answers.now) }
{
    let text = within_limit(answers)?;
    let turns = count_of(MOST_TURNS, text) + 1;
    if turns != layouts.len() {
        return Err(CommandError::Fault(Fault::OtherCount(turns, layouts.len())));
    }
    bound_turns(alloc, form, layouts, text)
}

fn bind_read_answers<R: GivesBytes>(
    alloc: Global,
    form: Form,
    layouts: &[Layout],
    reader: &mut R,
) -> Result<Answer, CommandError>
    ensures answer { IfSome (R.remaining reader.old)
        (λ input. GivesOrFails answer_seen result (bound_turns form layouts.now input)) }
    ensures cause { ToldBy (R.failures reader.old) (R.failures reader.new) result }
{
    let text = read_text(alloc, reader)?;
    bind_told(alloc, form, layouts, &text)
}

fn bind_read<L: GivesBytes, R: GivesBytes>(
    alloc: Global,
    form: Form,
    layouts: &mut [L],
    reader: &mut R,
) -> Result<Answer, CommandError>
    ensures answer { IfSome (all_remaining L.remaining layouts.old)
        (λ texts. IfSome (R.remaining reader.old)
        (λ input. GivesOrFails answer_seen result (bind_turns form texts input))) }
    ensures cause { ToldBy (all_failures L.failures layouts.old + R.failures reader.old)
        (all_failures L.failures layouts.new + R.failures reader.new) result }
    ensures unread { IfSome (all_remaining L.remaining layouts.old)
        (λ texts. IfErr (layouts_from 0 [] texts) (λ fault. reader.new ≡ reader.old)) }
{
    let layouts = read_layouts(alloc, layouts)?;
    bind_read_answers(alloc, form, layouts.as_slice(), reader)
}

/// Reads the layouts of the turns of a dialogue, and then answers in hexadecimal, one a line, with a line `turn` between two turns.
/// It prints for each turn a line `turn K`, counted from 0, and what `run_bind` prints for its layout and its answers; or the first
/// fault alone: of the layouts in order, then that there are not as many turns as layouts, then of the lines. The status is
/// `BadInput` where an answer is refused or not bound. Answers aren't read where a layout has a fault. The limits are those of
/// `run_bind`, for each turn. After a read or a write that failed the status is `Failed`, where memory was refused `NoMemory`, and
/// a front of the text was written.
pub fn run_bind_turns<L: GivesBytes, R: GivesBytes, W: TakesBytes>(
    alloc: Global,
    layouts: &mut [L],
    reader: &mut R,
    writer: &mut W,
    form: Form,
) -> Status
    ensures prints { IfSome (all_remaining L.remaining layouts.old)
        (λ texts. IfSome (R.remaining reader.old) (λ input.
        Prints (W.contents writer.old) (W.contents writer.new) result (printed_bind_turns form texts input))) }
    ensures cause { IfSome (all_remaining L.remaining layouts.old)
        (λ texts. IfSome (R.remaining reader.old) (λ input.
        EndsBy (all_failures L.failures layouts.old + R.failures reader.old + W.failures writer.old)
        (all_failures L.failures layouts.new + R.failures reader.new + W.failures writer.new)
        (printed_bind_turns form texts input).status result)) }
    ensures unread { IfSome (all_remaining L.remaining layouts.old)
        (λ texts. IfErr (layouts_from 0 [] texts) (λ fault. reader.new ≡ reader.old)) }
{
    let answer = bind_read(alloc, form, layouts, reader);
    finish(alloc, writer, answer)
}
