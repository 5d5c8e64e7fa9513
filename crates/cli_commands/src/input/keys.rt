//! Lines of keys.

ghost use Rattle.std.specs.Prelude.{◌≡◌, IfSome};
ghost use Rattle.ds_keys.specs.Lines.{key_of};
ghost use Rattle.cli_commands.specs.Causes.{ToldBy};
ghost use Rattle.cli_commands.specs.Fault.{Finds, Gives, GivesOrFails};
ghost use Rattle.cli_commands.specs.Keys.{key_or_bad, key_told, one_more, after_key_line, take_key, keys_in};
ghost use Rattle.cli_commands.specs.Taking.{taken_in};
ghost use Rattle.cli_commands.specs.Held.{key_line_seen, keys_seen};

use crate::fault::{CommandError, Fault};
use crate::input::lines::{TakesLines, is_ignored, text_of};
use crate::input::source::{Source, Text};
use ds_keys::{Key, key_of_line};
use std::alloc::Global;

/// The most keys of an input.
const MOST_KEYS: usize = 100_000;

/// What one line tells.
#[derive(Clone, Copy)]
pub enum KeyLine {
    Ignored,
    Named(Key),
    Bad,
}

/// The keys that lines name.
#[derive(Debug, Drop)]
pub struct Keys {
    pub keys: Vec<Key>,
}

/// The key that a text names.
fn named(text: &str) -> KeyLine
    ensures { key_line_seen result ≡ key_or_bad (key_of text.now) }
{
    match key_of_line(text) {
        Some(key) => KeyLine::Named(key),
        None => KeyLine::Bad,
    }
}

/// What a line tells; its spaces count.
fn line_told(line: &[u8]) -> KeyLine
    ensures { key_line_seen result ≡ key_told line.now }
{
    match text_of(line) {
        Some(_) if is_ignored(line) => KeyLine::Ignored,
        Some(text) => named(text),
        None => KeyLine::Bad,
    }
}

/// One more key.
fn add(told: &mut Keys, key: Key) -> Result<(), CommandError>
    ensures { Finds (λ done. keys_seen told.new) result (one_more (keys_seen told.old) key) }
{
    if told.keys.len() >= MOST_KEYS {
        return Err(CommandError::Fault(Fault::TooLong));
    }
    Ok(told.keys.push(key)?)
}

/// What the line of a number adds.
fn add_line(told: &mut Keys, number: usize, line: KeyLine) -> Result<(), CommandError>
    ensures { Finds (λ done. keys_seen told.new) result
        (after_key_line number (keys_seen told.old) (key_line_seen line)) }
{
    match line {
        KeyLine::Ignored => Ok(()),
        KeyLine::Named(key) => add(told, key),
        KeyLine::Bad => Err(CommandError::Fault(Fault::BadKeyLine(number))),
    }
}

impl TakesLines for Keys {
    ghost takes = { λ number told line result. Gives keys_seen result (take_key number (keys_seen told) line) };

    fn take(&mut self, _alloc: Global, number: usize, line: &[u8]) -> Result<(), CommandError> {
        add_line(self, number, line_told(line))
    }
}

/// The keys that the lines of a source add, or their first fault.
fn take_keys<S: Source>(alloc: Global, source: &mut S, none: Keys) -> Result<Keys, CommandError>
    ensures added { IfSome (S.remaining source.old) (λ input. GivesOrFails keys_seen result
        (taken_in take_key (keys_seen none) input)) }
    ensures cause { ToldBy (S.failures source.old) (S.failures source.new) result }
{
    source.take_lines(alloc, none)
}

/// The keys of an input, or the first fault of its lines.
pub fn read_keys<S: Source>(alloc: Global, source: &mut S) -> Result<Keys, CommandError>
    ensures keys { IfSome (S.remaining source.old)
        (λ input. GivesOrFails keys_seen result (keys_in input)) }
    ensures cause { ToldBy (S.failures source.old) (S.failures source.new) result }
{
    let none = Keys {
        keys: Vec::new(alloc),
    };
    take_keys(alloc, source, none)
}

/// The keys of a text, or the first fault of its lines.
pub fn keys_in(alloc: Global, text: &[u8]) -> Result<Keys, CommandError>
    ensures { Gives keys_seen result (keys_in text.now) }
{
    read_keys(alloc, &mut Text(text))
}
