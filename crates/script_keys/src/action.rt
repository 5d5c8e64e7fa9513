//! Actions by their names and arguments.

ghost use Rattle.std.specs.Prelude.{◌≡◌, ◌<◌, ◌≤◌, map, length, Option};
ghost use Rattle.script_keys.specs.Actions.{pf_key, pa_key, keys_named, first_of, sending, target_from_0, target_from_1, simply_named, counted_action, named_action, read_action};
ghost use Rattle.script_keys.specs.ActionSeen.{action_seen, read_seen};

use crate::arity::arity_of;
use crate::fault::Fault;
use crate::keys::Keys;
use crate::name::{Name, name_of};
use crate::number::{Number, number_of};
use crate::target::{Target, counted, natural};
use ds_codec::Aid;
use ds_keys::Key;

/// What an action of a script asks for.
#[derive(Clone, Copy, Debug)]
pub enum Action<'a> {
    /// Keys.
    Keys(Keys),
    /// A host to connect to.
    Connect(&'a [u8]),
    /// To end the session.
    Disconnect,
    /// To end the script.
    Quit,
    /// What else it is called, and its arguments, so many as it may have.
    Other(Name, &'a [Vec<u8>]),
}

/// The PF key of a number, 1 to 24.
fn pf_key(number: Number) -> Option<Key>
    ensures { result ≡ pf_key number }
{
    let number = natural(number);
    if 1 <= number && number <= 24 {
        Some(Key::Attention(Aid::pf(number as u8)))
    } else {
        None
    }
}

/// The PA key of a number, 1 to 3.
fn pa_key(number: Number) -> Option<Key>
    ensures { result ≡ pa_key number }
{
    let number = natural(number);
    if 1 <= number && number <= 3 {
        Some(Key::Attention(Aid::pa(number as u8)))
    } else {
        None
    }
}

/// The keys of a name that has no arguments, where it presses any.
fn keys_named(name: Name) -> Option<Keys>
    ensures { result ≡ keys_named name }
{
    match name {
        Name::Enter => Some(Keys::Plain(Key::Attention(Aid::enter()))),
        Name::Clear => Some(Keys::Plain(Key::Attention(Aid::clear()))),
        Name::Tab => Some(Keys::Freeing(Key::Tab)),
        Name::BackTab => Some(Keys::Freeing(Key::BackTab)),
        Name::Home => Some(Keys::Freeing(Key::Home)),
        Name::Newline => Some(Keys::Plain(Key::NewLine)),
        Name::Up => Some(Keys::Freeing(Key::Up)),
        Name::Down => Some(Keys::Freeing(Key::Down)),
        Name::Left => Some(Keys::Freeing(Key::Left)),
        Name::Right => Some(Keys::Freeing(Key::Right)),
        Name::BackSpace => Some(Keys::Plain(Key::Left)),
        Name::Erase => Some(Keys::Erase),
        Name::Delete => Some(Keys::Plain(Key::Delete)),
        Name::DeleteField => Some(Keys::DeleteField),
        Name::EraseEof => Some(Keys::Freeing(Key::EraseEof)),
        Name::EraseInput => Some(Keys::Freeing(Key::EraseInput)),
        Name::FieldEnd => Some(Keys::FieldEnd),
        Name::Reset => Some(Keys::Plain(Key::Reset)),
        _ => None,
    }
}

/// The first of some arguments; nothing where there is none.
fn first_of(arguments: &[Vec<u8>]) -> &[u8]
    ensures { result.now ≡ first_of (map (λ argument. argument.items) arguments.now) }
{
    match arguments {
        [] => &[],
        [first, ..] => first.as_slice(),
    }
}

/// A key that sends, of a number that names one.
fn sending<'a>(name: Name, argument: &'a [u8], key: Option<Key>) -> Result<Action<'a>, Fault<'a>>
    ensures { read_seen result ≡ sending name argument.now key }
{
    match key {
        Some(key) => Ok(Action::Keys(Keys::Plain(key))),
        None => Err(Fault::Invalid(name, argument)),
    }
}

/// Where a row and a column, or a position, is, all from 0.
fn target_from_0(arguments: &[Vec<u8>]) -> Target
    ensures { result ≡ target_from_0 (map (λ argument. argument.items) arguments.now) }
{
    match arguments {
        [row, column] => Target::Cell(natural(number_of(row)), natural(number_of(column))),
        _ => Target::Position(natural(number_of(first_of(arguments)))),
    }
}

/// Where a row and a column, both from 1, are, or a position from 0.
fn target_from_1(arguments: &[Vec<u8>]) -> Target
    ensures { result ≡ target_from_1 (map (λ argument. argument.items) arguments.now) }
{
    match arguments {
        [row, column] => Target::Cell(counted(number_of(row)), counted(number_of(column))),
        _ => Target::Position(natural(number_of(first_of(arguments)))),
    }
}

/// An action whose arguments name no key and no place.
fn simply_named(name: Name, arguments: &[Vec<u8>]) -> Action<'_>
    ensures { action_seen result ≡ simply_named name
        (map (λ argument. argument.items) arguments.now) }
{
    match name {
        Name::Connect | Name::Open => Action::Connect(first_of(arguments)),
        Name::Disconnect | Name::Close => Action::Disconnect,
        Name::Quit | Name::Exit => Action::Quit,
        _ => match keys_named(name) {
            Some(keys) => Action::Keys(keys),
            None => Action::Other(name, arguments),
        },
    }
}

/// The action of a name and as many arguments as it may have.
fn counted_action(name: Name, arguments: &[Vec<u8>]) -> Result<Action<'_>, Fault<'_>>
    ensures { read_seen result ≡ counted_action name
        (map (λ argument. argument.items) arguments.now) }
{
    match name {
        Name::Pf => {
            let number = first_of(arguments);
            sending(name, number, pf_key(number_of(number)))
        }
        Name::Pa => {
            let number = first_of(arguments);
            sending(name, number, pa_key(number_of(number)))
        }
        Name::MoveCursor => Ok(Action::Keys(Keys::MoveTo(target_from_0(arguments)))),
        Name::MoveCursor1 => Ok(Action::Keys(Keys::MoveTo(target_from_1(arguments)))),
        _ => Ok(simply_named(name, arguments)),
    }
}

/// The action of a name and its arguments, without quotes. A name is taken whole, in either case; a number is read as
/// [`number_of`] does. What is asked of actions that read the screen, wait or set something, their arguments say.
///
/// # Errors
///
/// No action is called so; it has another number of arguments; or a PF or PA key has no such number.
pub fn read_action<'a>(name: &'a [u8], arguments: &'a [Vec<u8>]) -> Result<Action<'a>, Fault<'a>>
    ensures { read_seen result ≡ read_action name.now
        (map (λ argument. argument.items) arguments.now) }
{
    match name_of(name) {
        None => Err(Fault::Unknown(name)),
        Some(named) => {
            if arity_of(named).takes(arguments.len()) {
                counted_action(named, arguments)
            } else {
                Err(Fault::Arguments(named))
            }
        }
    }
}
