//! Texts that are typed.

ghost use Rattle.std.specs.Prelude.{◌≡◌, ◌++◌, map, IfOk, OnOk};
ghost use Rattle.cli_scripts.specs.declared.deed.Deed.TheVariants.{Pressed as PressedKey};
ghost use Rattle.cli_scripts.specs.Keying.{OnWaiting, code_keys};
ghost use Rattle.cli_scripts.specs.Pressing.{after_keys, any_inhibited};
ghost use Rattle.cli_scripts.specs.TypedTexts.{inhibited_or_done, key_list, key_answer, piece_keys, piece_answer, piece_said, Stops, column_of, ReturnsTo, TypesFree, Cancels, is_text, TypesText};
ghost use Rattle.cli_scripts.specs.Acts.{PressesOnly, pressed_key, function_key, access_key};
ghost use Rattle.cli_scripts.specs.Desks.{Keeps};
ghost use Rattle.tn_session.specs.TerminalTalk.{OfStanding};
ghost use Rattle.script_screens.specs.declared.lines.Outcome.TheVariants.{Done};
ghost use Rattle.cli_scripts.specs.declared.doing.Step.TheVariants.{Ended};
ghost use Rattle.cli_scripts.specs.Steps.{IsTypedLater};

use crate::answer::Saying;
use crate::came::Need;
use crate::desk::Desk;
use crate::doing::{Doing, Step, Typing};
use ds_codec::Aid;
use ds_keys::Key;
use script_keys::{margin_run, typed_runs};
use script_screens::{CodePage, Outcome, Piece, StringKey, next_piece};
use std::alloc::{AllocError, Global};
use tn_session::Pressed;

/// Where the typing of a text stops.
enum Stop<'a> {
    /// At its end.
    End,
    /// After a key that sent, before this rest.
    Sent(&'a [u8]),
    /// At a key that was inhibited.
    Inhibited,
}

/// The PF key of a number, 1 to 24.
fn pf_key(number: u8) -> Option<Key>
    ensures { result ≡ function_key number }
{
    if 1 <= number && number <= 24 {
        Some(Key::Attention(Aid::pf(number)))
    } else {
        None
    }
}

/// The PA key of a number, 1 to 3.
fn pa_key(number: u8) -> Option<Key>
    ensures { result ≡ access_key number }
{
    if 1 <= number && number <= 3 {
        Some(Key::Attention(Aid::pa(number)))
    } else {
        None
    }
}

fn pressed_key(key: StringKey) -> Option<Key>
    ensures { result ≡ pressed_key key }
{
    match key {
        StringKey::Tab => Some(Key::Tab),
        StringKey::BackTab => Some(Key::BackTab),
        StringKey::Left => Some(Key::Left),
        StringKey::Newline => Some(Key::NewLine),
        StringKey::Enter => Some(Key::Attention(Aid::enter())),
        StringKey::Clear => Some(Key::Attention(Aid::clear())),
        StringKey::Pf(number) => pf_key(number),
        StringKey::Pa(number) => pa_key(number),
    }
}

/// Presses a key of a text.
fn press_string_key(alloc: Global, desk: &mut Desk, key: StringKey) -> Result<Pressed, AllocError>
    ensures keeps { Keeps desk.old desk.new }
    ensures deeds { OnOk result (PressesOnly desk.old desk.new) }
    ensures typed { OnOk result (desk.new.deeds
        ≡ desk.old.deeds ++ map PressedKey (key_list (pressed_key key))) }
    ensures talk { OnOk result (desk.new.talk
        ≡ after_keys desk.old.talk (key_list (pressed_key key))) }
    ensures answer { IfOk result (λ answer. answer
        ≡ key_answer desk.old.talk (pressed_key key)) }
    ensures host { desk.new.host ≡ desk.old.host }
{
    match pressed_key(key) {
        Some(key) => desk.press(alloc, &key),
        None => Ok(Pressed::Ignored),
    }
}

/// Types a character.
fn type_character(
    alloc: Global,
    desk: &mut Desk,
    fills: bool,
    code: u8,
) -> Result<Pressed, AllocError>
    ensures keeps { Keeps desk.old desk.new }
    ensures deeds { OnOk result (PressesOnly desk.old desk.new) }
    ensures typed { OnOk result (OnWaiting desk.old.talk (λ state. desk.new.deeds
        ≡ desk.old.deeds ++ map PressedKey (code_keys fills code state))) }
    ensures talk { OnOk result (OnWaiting desk.old.talk (λ state. desk.new.talk
        ≡ after_keys desk.old.talk (code_keys fills code state))) }
    ensures answer { IfOk result (λ answer. OnWaiting desk.old.talk (λ state. answer
        ≡ inhibited_or_done (any_inhibited desk.old.talk (code_keys fills code state)))) }
    ensures host { desk.new.host ≡ desk.old.host }
{
    let runs = typed_runs(alloc, desk.screen(), fills, code)?;
    if desk.press_runs(alloc, &runs)? {
        Ok(Pressed::Inhibited)
    } else {
        Ok(Pressed::Done)
    }
}

/// Types a piece of a text, or says what is wrong in it.
fn type_piece(
    alloc: Global,
    desk: &mut Desk,
    fills: bool,
    piece: Piece,
    saying: &mut Saying,
) -> Result<Pressed, AllocError>
    ensures keeps { Keeps desk.old desk.new }
    ensures deeds { OnOk result (PressesOnly desk.old desk.new) }
    ensures typed { OnOk result (OnWaiting desk.old.talk (λ state. desk.new.deeds
        ≡ desk.old.deeds ++ map PressedKey (piece_keys fills state piece))) }
    ensures talk { OnOk result (OnWaiting desk.old.talk (λ state. desk.new.talk
        ≡ after_keys desk.old.talk (piece_keys fills state piece))) }
    ensures answer { IfOk result (λ answer. OnWaiting desk.old.talk (λ state. answer
        ≡ piece_answer fills desk.old.talk state piece)) }
    ensures said { OnOk result (saying.new ≡ saying.old ++ piece_said piece) }
    ensures host { desk.new.host ≡ desk.old.host }
{
    match piece {
        Piece::Character(code) => type_character(alloc, desk, fills, code),
        Piece::Ignored => Ok(Pressed::Done),
        Piece::Key(key) => press_string_key(alloc, desk, key),
        Piece::Fault(fault) => {
            saying.fault_in_string(alloc, fault)?;
            Ok(Pressed::Done)
        }
    }
}

/// Types a text up to its end, or to where it stops.
fn type_pieces<'a>(
    alloc: Global,
    desk: &mut Desk,
    code_page: CodePage,
    fills: bool,
    text: &'a [u8],
    saying: &mut Saying,
) -> Result<Stop<'a>, AllocError>
    ensures keeps { Keeps desk.old desk.new }
    ensures deeds { OnOk result (PressesOnly desk.old desk.new) }
    ensures typed { IfOk result (λ stop. Stops stop code_page fills desk.old.talk text.now desk.old
        desk.new saying.old saying.new) }
    ensures host { OnOk result (desk.new.host ≡ desk.old.host) }
{
    let mut rest = text;
    'pieces: while let Some((piece, after)) = next_piece(code_page, rest) {
        rest = after;
        match type_piece(alloc, desk, fills, piece, saying)? {
            Pressed::Inhibited => return Ok(Stop::Inhibited),
            Pressed::Sent => return Ok(Stop::Sent(rest)),
            Pressed::Done | Pressed::Ignored => {}
        }
    }
    Ok(Stop::End)
}

/// The cursor's column.
fn column_of(desk: &Desk) -> u32
    ensures { OfStanding (λ state. column_of state.terminal) desk.now.talk result }
{
    let screen = desk.screen();
    let columns = u32::from(screen.size().cols);
    if columns == 0 {
        0
    } else {
        screen.cursor() % columns
    }
}

/// Leads the cursor to the column at which it began, where it stands before that.
fn return_to(alloc: Global, desk: &mut Desk, column: u32) -> Result<Step, AllocError>
    ensures keeps { Keeps desk.old desk.new }
    ensures deeds { OnOk result (PressesOnly desk.old desk.new) }
    ensures returns { OnOk result (ReturnsTo column desk.old desk.new) }
    ensures over { IfOk result (λ step. step ≡ Ended Done) }
    ensures host { desk.new.host ≡ desk.old.host }
{
    if let Some(run) = margin_run(desk.screen(), column) {
        desk.press_runs(alloc, &[run])?;
    }
    Ok(Step::Ended(Outcome::Done))
}

/// A text that goes on after a key that sent.
fn typed_later(alloc: Global, rest: &[u8]) -> Result<Step, AllocError>
    ensures { IfOk result (λ step. IsTypedLater rest.now step) }
{
    let typing = Typing {
        text: rest.to_vec(alloc)?,
        after_send: true,
    };
    Ok(Step::Waits(Doing::Typing(typing), Need::Bytes))
}

/// Types a text at a keyboard that is free.
fn type_free(
    alloc: Global,
    desk: &mut Desk,
    code_page: CodePage,
    fills: bool,
    text: &[u8],
    saying: &mut Saying,
) -> Result<Step, AllocError>
    ensures keeps { Keeps desk.old desk.new }
    ensures deeds { OnOk result (PressesOnly desk.old desk.new) }
    ensures typed { IfOk result (λ step. TypesFree code_page fills step text.now desk.old desk.new
        saying.old saying.new) }
{
    let column = column_of(desk);
    match type_pieces(alloc, desk, code_page, fills, text, saying)? {
        Stop::End => return_to(alloc, desk, column),
        Stop::Sent(rest) => typed_later(alloc, rest),
        Stop::Inhibited => {
            saying.say(alloc, b"Keyboard locked")?;
            Ok(Step::Ended(saying.fail(alloc, b"Operator error")?))
        }
    }
}

fn is_text(text: &[u8]) -> bool
    ensures { result ≡ is_text text.now }
{
    !text.is_empty()
}

/// Types a text at a terminal that isn't connected.
fn type_unconnected(alloc: Global, typing: &Typing, saying: &mut Saying) -> Result<Step, AllocError>
    ensures { IfOk result (λ step. Cancels (is_text typing.now.text.items) step saying.old
        saying.new) }
{
    if typing.text.is_empty() {
        return Ok(Step::Ended(Outcome::Done));
    }
    Ok(Step::Ended(saying.fail(alloc, b"Canceled")?))
}

/// Types a text once the keyboard doesn't wait. After each key that sends it waits until it doesn't, and goes on.
pub(crate) fn type_text(
    alloc: Global,
    desk: &mut Desk,
    code_page: CodePage,
    fills: bool,
    typing: Typing,
    saying: &mut Saying,
) -> Result<Step, AllocError>
    ensures keeps { Keeps desk.old desk.new }
    ensures deeds { OnOk result (PressesOnly desk.old desk.new) }
    ensures typed { IfOk result (λ step. TypesText code_page fills typing step desk.old desk.new
        saying.old saying.new) }
{
    if !desk.is_connected() {
        return type_unconnected(alloc, &typing, saying);
    }
    if desk.waits() {
        return Ok(Step::Waits(Doing::Typing(typing), Need::Bytes));
    }
    if desk.is_in_error() && is_text(&typing.text) {
        return Ok(Step::Ended(saying.fail(alloc, b"Operator error")?));
    }
    type_free(alloc, desk, code_page, fills, &typing.text, saying)
}
