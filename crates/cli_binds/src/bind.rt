//! The command `bind`: answers read back into the fields of a layout.

ghost use Rattle.std.specs.Prelude.{◌≡◌, ◌+◌, ◌++◌, IfErr, IfOk, IfSome, OnOk};
ghost use Rattle.std.specs.String.{string_bytes};
ghost use Rattle.cli_commands.specs.Causes.{EndsBy, ToldBy};
ghost use Rattle.cli_commands.specs.Fault.{Gives, GivesOrFails};
ghost use Rattle.cli_commands.specs.Held.{answer_seen, records_held};
ghost use Rattle.cli_commands.specs.LayoutText.{layout_in};
ghost use Rattle.cli_commands.specs.Streams.{Prints};
ghost use Rattle.cli_binds.specs.Bind.{lines_from, are_bound, status_of, printed_answers, bind_answers, bind, printed_bind};

use crate::fields::Form;
use crate::lines::push_answer;
use cli_commands::{
    Answer, CommandError, GivesBytes, SizeLine, Source, Status, TakesBytes, Text, finish,
    read_layout, read_records,
};
use scr_layout::Layout;
use std::alloc::{AllocError, Global};

/// The lines of answers in turn; whether all of them are bound.
fn push_answers(
    alloc: Global,
    out: &mut String,
    form: Form,
    layout: &Layout,
    answers: &[Vec<u8>],
) -> Result<bool, AllocError>
    ensures lines { OnOk result (string_bytes out.new
        ≡ string_bytes out.old ++ lines_from form layout.now 0 (records_held answers.now)) }
    ensures bound { IfOk result (λ all. all ≡ are_bound layout.now (records_held answers.now)) }
{
    let mut all = true;
    for (index, bytes) in answers.iter().enumerate() {
        let bound = push_answer(alloc, out, form, layout, index, bytes.as_slice())?;
        all = all && bound;
    }
    Ok(all)
}

fn status_of(all: bool) -> Status
    ensures { result ≡ status_of all }
{
    if all { Status::Done } else { Status::BadInput }
}

/// What `bind` answers to a layout and answers.
fn answers_text(
    alloc: Global,
    form: Form,
    layout: &Layout,
    answers: &[Vec<u8>],
) -> Result<Answer, AllocError>
    ensures { IfOk result (λ answer. answer_seen answer
        ≡ printed_answers form layout.now (records_held answers.now)) }
{
    let mut text = String::new(alloc);
    let all = push_answers(alloc, &mut text, form, layout, answers)?;
    Ok(Answer {
        text,
        status: status_of(all),
    })
}

/// What `bind` answers to a layout and the answers of a source.
fn bind_read_answers<S: Source>(
    alloc: Global,
    layout: &Layout,
    source: &mut S,
    form: Form,
) -> Result<Answer, CommandError>
    ensures answer { IfSome (S.remaining source.old)
        (λ input. GivesOrFails answer_seen result (bind_answers form layout.now input)) }
    ensures cause { ToldBy (S.failures source.old) (S.failures source.new) result }
{
    let told = read_records(alloc, source, SizeLine::Refused)?;
    Ok(answers_text(alloc, form, layout, told.records.as_slice())?)
}

/// What `bind` answers to a layout and a text of answers.
///
/// # Errors
///
/// The first fault of the lines; out of memory.
pub fn bind_answers(
    alloc: Global,
    layout: &Layout,
    answers: &[u8],
    form: Form,
) -> Result<Answer, CommandError>
    ensures { Gives answer_seen result (bind_answers form layout.now answers.now) }
{
    bind_read_answers(alloc, layout, &mut Text(answers), form)
}

/// What `bind` answers to the sources of a layout and of answers.
fn bind_read<L: Source, R: Source>(
    alloc: Global,
    layout: &mut L,
    answers: &mut R,
    form: Form,
) -> Result<Answer, CommandError>
    ensures answer { IfSome (L.remaining layout.old) (λ text. IfSome (R.remaining
        answers.old) (λ input. GivesOrFails answer_seen result (bind form text input))) }
    ensures cause { ToldBy (L.failures layout.old + R.failures answers.old)
        (L.failures layout.new + R.failures answers.new) result }
    ensures unread { IfSome (L.remaining layout.old) (λ text. IfErr (layout_in text) (λ fault.
        answers.new ≡ answers.old)) }
{
    let layout = read_layout(alloc, layout)?;
    bind_read_answers(alloc, &layout, answers, form)
}

/// What `bind` answers to the texts of a layout and of answers.
///
/// # Errors
///
/// The first fault of the layout, then of the lines; out of memory.
pub fn bind_texts(
    alloc: Global,
    layout: &[u8],
    answers: &[u8],
    form: Form,
) -> Result<Answer, CommandError>
    ensures { Gives answer_seen result (bind form layout.now answers.now) }
{
    bind_read(alloc, &mut Text(layout), &mut Text(answers), form)
}

/// Reads a layout and then answers in hexadecimal, one a line, and prints for each, counted from 0, its attention
/// identifier and its cursor, and a line for each of its fields, in its order, by the name of the layout's entry; or why it
/// is refused, or not bound. The buffer is of the size that the layout names. The status is `BadInput` where an answer
/// is refused or not bound; the others are printed all the same. Where the layout has a fault, or else a line, the
/// first alone is printed. Answers aren't read where the layout has a fault. The sizes are the layout's, so a line of
/// sizes is bad. At most 16,777,216 bytes of either, 1,000 answers of 32,768 bytes. After a read or a write that
/// failed the status is `Failed`, where memory was refused `NoMemory`, and a front of the text was written.
pub fn run_bind<L: GivesBytes, R: GivesBytes, W: TakesBytes>(
    alloc: Global,
    layout: &mut L,
    reader: &mut R,
    writer: &mut W,
    form: Form,
) -> Status
    ensures prints { IfSome (L.remaining layout.old) (λ text. IfSome (R.remaining
        reader.old) (λ input.
        Prints (W.contents writer.old) (W.contents writer.new) result (printed_bind form text input))) }
    ensures cause { IfSome (L.remaining layout.old) (λ text. IfSome (R.remaining
        reader.old) (λ input.
        EndsBy (L.failures layout.old + R.failures reader.old + W.failures writer.old)
        (L.failures layout.new + R.failures reader.new + W.failures writer.new)
        (printed_bind form text input).status result)) }
    ensures unread { IfSome (L.remaining layout.old) (λ text. IfErr (layout_in text) (λ fault.
        reader.new ≡ reader.old)) }
{
    let answer = bind_read(alloc, layout, reader, form);
    finish(alloc, writer, answer)
}
