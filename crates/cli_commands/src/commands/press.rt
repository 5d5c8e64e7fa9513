//! The command `press`: the operator's keys on a screen, with the bytes that go out.

ghost use Rattle.std.specs.Prelude.{◌≡◌, ◌+◌, ◌++◌, IfErr, IfSome, OnOk, codes};
ghost use Rattle.std.specs.Fmt.{decimal};
ghost use Rattle.std.specs.String.{string_bytes};
ghost use Rattle.ds_terminal.specs.Seen.{key_reply_seen};
ghost use Rattle.ds_terminal.specs.Terminal.{pressed};
ghost use Rattle.cli_commands.specs.declared.input.sizes.SizeLine.TheVariants.{Allowed};
ghost use Rattle.cli_commands.specs.Causes.{EndsBy, ToldBy};
ghost use Rattle.cli_commands.specs.Fault.{Finds, Gives, GivesOrFails};
ghost use Rattle.cli_commands.specs.Held.{answer_seen, records_held, records_seen, keys_seen};
ghost use Rattle.cli_commands.specs.Press.{reply_line, turn_line, pressed_text, press_from, press_told, press_keys, press, printed_press};
ghost use Rattle.cli_commands.specs.Records.{records_in};
ghost use Rattle.cli_commands.specs.Streams.{Prints};

use crate::fault::CommandError;
use crate::input::keys::{Keys, read_keys};
use crate::input::records::{Records, read_records};
use crate::input::sizes::SizeLine;
use crate::input::source::{Source, Text};
use crate::output::answer::{Answer, finish};
use crate::output::bytes::push_sent;
use crate::shown::show_all;
use crate::status::Status;
use crate::streams::{GivesBytes, TakesBytes};
use ds_keys::Key;
use ds_screen::PlaneCells;
use ds_terminal::{KeyReply, Terminal};
use itoa::Buffer;
use std::alloc::{AllocError, Global};

/// A line of a word and the cursor.
fn push_cursor(out: &mut String, word: &str, cursor: u32) -> Result<(), AllocError>
    ensures { OnOk result (string_bytes out.new ≡ string_bytes out.old
        ++ (word.now ++ (decimal cursor ++ codes "\n"))) }
{
    let mut digits = Buffer::new();
    out.push_str(word)?;
    out.push_str(digits.format(cursor))?;
    out.push_str("\n")
}

/// The line of a reply; the key leaves the cursor there.
pub fn push_reply(out: &mut String, cursor: u32, reply: &KeyReply) -> Result<(), AllocError>
    ensures { OnOk result
        (string_bytes out.new ≡ string_bytes out.old ++ reply_line cursor (key_reply_seen reply.now)) }
{
    match reply {
        KeyReply::Done => push_cursor(out, "done ", cursor),
        KeyReply::Inhibited => push_cursor(out, "inhibited ", cursor),
        KeyReply::Ignored => push_cursor(out, "ignored ", cursor),
        KeyReply::Sent(bytes) => push_sent(out, "sent ", bytes.as_slice()),
    }
}

/// The line of a key that is pressed.
fn push_key(
    alloc: Global,
    out: &mut String,
    terminal: &mut Terminal<PlaneCells>,
    key: Key,
) -> Result<(), AllocError>
    ensures line { OnOk result (string_bytes out.new ≡ string_bytes out.old
        ++ turn_line (pressed terminal.old key)) }
    ensures pressed { OnOk result (terminal.new ≡ (pressed terminal.old key).after) }
{
    let reply = terminal.press(alloc, key)?;
    push_reply(out, terminal.screen().cursor(), &reply)
}

/// The lines of keys that are pressed in turn.
fn push_keys(
    alloc: Global,
    out: &mut String,
    terminal: &mut Terminal<PlaneCells>,
    keys: &[Key],
) -> Result<(), AllocError>
    ensures { OnOk result
        (string_bytes out.new ≡ string_bytes out.old ++ pressed_text terminal.old keys.now) }
{
    for key in keys {
        push_key(alloc, out, terminal, *key)?;
    }
    Ok(())
}

/// What `press` answers to records that are shown on a terminal, and to keys.
fn press_from(
    alloc: Global,
    terminal: &mut Terminal<PlaneCells>,
    records: &[Vec<u8>],
    named: &Keys,
) -> Result<Answer, CommandError>
    ensures { Finds answer_seen result
        (press_from terminal.old (records_held records.now) (keys_seen named.now)) }
{
    show_all(terminal, records)?;
    let mut text = String::new(alloc);
    push_keys(alloc, &mut text, terminal, named.keys.as_slice())?;
    Ok(Answer {
        text,
        status: Status::Done,
    })
}

/// What `press` answers to records and keys.
fn press_told(alloc: Global, told: &Records, named: &Keys) -> Result<Answer, CommandError>
    ensures { Gives answer_seen result (press_told (records_seen told.now) (keys_seen named.now)) }
{
    let mut terminal = Terminal::new(alloc, told.geometry)?;
    press_from(alloc, &mut terminal, told.records.as_slice(), named)
}

/// What `press` answers to records and the keys of a source.
fn press_keys<K: Source>(
    alloc: Global,
    told: &Records,
    keys: &mut K,
) -> Result<Answer, CommandError>
    ensures answer { IfSome (K.remaining keys.old)
        (λ lines. GivesOrFails answer_seen result (press_keys (records_seen told.now) lines)) }
    ensures cause { ToldBy (K.failures keys.old) (K.failures keys.new) result }
{
    let named = read_keys(alloc, keys)?;
    press_told(alloc, told, &named)
}

/// What `press` answers to the sources of records and of keys.
fn press_read<R: Source, K: Source>(
    alloc: Global,
    records: &mut R,
    keys: &mut K,
) -> Result<Answer, CommandError>
    ensures answer { IfSome (R.remaining records.old) (λ input. IfSome (K.remaining
        keys.old) (λ lines. GivesOrFails answer_seen result (press input lines))) }
    ensures cause { ToldBy (R.failures records.old + K.failures keys.old)
        (R.failures records.new + K.failures keys.new) result }
    ensures unread { IfSome (R.remaining records.old) (λ input.
        IfErr (records_in Allowed input) (λ fault. keys.new ≡ keys.old)) }
{
    let told = read_records(alloc, records, SizeLine::Allowed)?;
    press_keys(alloc, &told, keys)
}

/// What `press` answers to the texts of records and of keys.
///
/// # Errors
///
/// The first fault of the records' lines, then of the keys' lines, then the first record that is refused; out of memory.
pub fn press_texts(alloc: Global, records: &[u8], keys: &[u8]) -> Result<Answer, CommandError>
    ensures { Gives answer_seen result (press records.now keys.now) }
{
    press_read(alloc, &mut Text(records), &mut Text(keys))
}

/// Reads records in hexadecimal, one a line, and keys, one a line; applies the records to a new screen,
/// presses the keys, and prints for each key what was answered and the cursor, or the bytes that were
/// sent; or the first fault: of the records' lines, then of the keys' lines, then the first record that
/// is refused. Keys aren't read where the records' lines have a fault. At most 16,777,216 bytes of
/// either, 1,000 records of 32,768 bytes, 100,000 keys. After a read or a write that failed the status
/// is `Failed`, where memory was refused `NoMemory`, and a front of the text was written.
pub fn run_press<R: GivesBytes, K: GivesBytes, W: TakesBytes>(
    alloc: Global,
    reader: &mut R,
    keys: &mut K,
    writer: &mut W,
) -> Status
    ensures prints { IfSome (R.remaining reader.old) (λ input. IfSome (K.remaining
        keys.old) (λ lines.
        Prints (W.contents writer.old) (W.contents writer.new) result (printed_press input lines))) }
    ensures cause { IfSome (R.remaining reader.old) (λ input. IfSome (K.remaining
        keys.old) (λ lines.
        EndsBy (R.failures reader.old + K.failures keys.old + W.failures writer.old)
        (R.failures reader.new + K.failures keys.new + W.failures writer.new)
        (printed_press input lines).status result)) }
    ensures unread { IfSome (R.remaining reader.old) (λ input.
        IfErr (records_in Allowed input) (λ fault. keys.new ≡ keys.old)) }
{
    let answer = press_read(alloc, reader, keys);
    finish(alloc, writer, answer)
}
