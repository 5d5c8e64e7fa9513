//! Set and Toggle.

ghost use Rattle.std.specs.Prelude.{◌≡◌, ◌++◌, [], ◌∷◌, map, IfOk, OnOk};
ghost use Rattle.std.specs.Str.{str_eq_ignore_ascii_case};
ghost use Rattle.script_screens.specs.Lines.{data_lines, Says};
ghost use Rattle.cli_scripts.specs.Settings.{all_said, asked_or_unknown, assigned_or_unknown, changed, is_false, is_true, quoting, toggle_name, toggle_named, told_value, unknown, value_named, value_word, verb_name};

use crate::answer::Saying;
use script_screens::Outcome;
use std::alloc::{AllocError, Global};

/// What a script can set.
#[derive(Clone, Copy, Debug, PartialEq, Eq)]
pub(crate) struct Settings {
    /// Nulls before a character that is typed become spaces.
    pub(crate) blank_fill: bool,
    /// Kept, and of no effect.
    mono_case: bool,
}

/// The names of what can be set.
#[derive(Clone, Copy, Debug, PartialEq, Eq)]
enum Toggle {
    /// A key that sends waits for the host: always on.
    AidWait,
    BlankFill,
    MonoCase,
}

/// By which name a setting is changed.
#[derive(Clone, Copy, Debug, PartialEq, Eq)]
pub(crate) enum Verb {
    Set,
    Toggle,
}

/// As s3270 begins.
pub(crate) const FIRST: Settings = Settings {
    blank_fill: true,
    mono_case: false,
};

fn is_word(text: &[u8], word: &str) -> bool
    ensures { result ≡ str_eq_ignore_ascii_case text.now word.now }
{
    text.eq_ignore_ascii_case(word.as_bytes())
}

fn toggle_named(text: &[u8]) -> Option<Toggle>
    ensures { result ≡ toggle_named text.now }
{
    if is_word(text, "aidWait") {
        return Some(Toggle::AidWait);
    }
    if is_word(text, "blankFill") {
        return Some(Toggle::BlankFill);
    }
    if is_word(text, "monoCase") {
        return Some(Toggle::MonoCase);
    }
    None
}

fn toggle_name(toggle: Toggle) -> &'static str
    ensures { result.now ≡ toggle_name toggle }
{
    match toggle {
        Toggle::AidWait => "aidWait",
        Toggle::BlankFill => "blankFill",
        Toggle::MonoCase => "monoCase",
    }
}

fn verb_name(verb: Verb) -> &'static str
    ensures { result.now ≡ verb_name verb }
{
    match verb {
        Verb::Set => "Set",
        Verb::Toggle => "Toggle",
    }
}

fn is_true(text: &[u8]) -> bool
    ensures { result ≡ is_true text.now }
{
    is_word(text, "true") || (is_word(text, "on") || is_word(text, "set"))
}

fn is_false(text: &[u8]) -> bool
    ensures { result ≡ is_false text.now }
{
    is_word(text, "false") || (is_word(text, "off") || is_word(text, "clear"))
}

/// The value that a word says.
fn value_named(text: &[u8]) -> Option<bool>
    ensures { result ≡ value_named text.now }
{
    if is_true(text) {
        return Some(true);
    }
    if is_false(text) {
        return Some(false);
    }
    None
}

fn value_word(value: bool) -> &'static str
    ensures { result.now ≡ value_word value }
{
    if value { "true" } else { "false" }
}

impl Settings {
    ghost use Rattle.std.specs.Prelude.{◌≡◌};
    ghost use Rattle.cli_scripts.specs.Settings.{value_of, with_value};

    fn value(self, toggle: Toggle) -> bool
        ensures { result ≡ value_of self toggle }
    {
        match toggle {
            Toggle::AidWait => true,
            Toggle::BlankFill => self.blank_fill,
            Toggle::MonoCase => self.mono_case,
        }
    }

    fn with(self, toggle: Toggle, value: bool) -> Settings
        ensures { result ≡ with_value self toggle value }
    {
        let mut settings = self;
        match toggle {
            Toggle::AidWait => {}
            Toggle::BlankFill => settings.blank_fill = value,
            Toggle::MonoCase => settings.mono_case = value,
        }
        settings
    }
}

/// Adds the data line of a name that nothing has.
fn fail_unknown(
    alloc: Global,
    saying: &mut Saying,
    verb: Verb,
    name: &[u8],
) -> Result<Outcome, AllocError>
    ensures { IfOk result (λ outcome.
        Says saying.old saying.new outcome (unknown verb name.now)) }
{
    fail_quoting(alloc, saying, verb, "Unknown toggle name '", name, "'")
}

/// Adds the data line of a fault with a word of the script in it.
fn fail_quoting(
    alloc: Global,
    saying: &mut Saying,
    verb: Verb,
    before: &str,
    word: &[u8],
    after: &str,
) -> Result<Outcome, AllocError>
    ensures { IfOk result (λ outcome.
        Says saying.old saying.new outcome (quoting verb before.now word.now after.now)) }
{
    let mut text = Vec::new(alloc);
    text.extend_from_slice(verb_name(verb).as_bytes())?;
    text.extend_from_slice(b"(): ")?;
    text.extend_from_slice(before.as_bytes())?;
    text.extend_from_slice(word)?;
    text.extend_from_slice(after.as_bytes())?;
    saying.fail(alloc, &text)
}

/// Says what is set, or turns it over.
fn ask_or_turn(
    alloc: Global,
    settings: &mut Settings,
    verb: Verb,
    name: &[u8],
    saying: &mut Saying,
) -> Result<Outcome, AllocError>
    ensures settings { OnOk result (settings.new
        ≡ (asked_or_unknown settings.old verb name.now (toggle_named name.now)).settings) }
    ensures said { IfOk result (λ outcome. Says saying.old saying.new outcome
        (asked_or_unknown settings.old verb name.now (toggle_named name.now)).said) }
{
    let Some(toggle) = toggle_named(name) else {
        return fail_unknown(alloc, saying, verb, name);
    };
    let value = settings.value(toggle);
    match verb {
        Verb::Set => saying.say(alloc, value_word(value).as_bytes())?,
        Verb::Toggle => *settings = settings.with(toggle, !value),
    }
    Ok(Outcome::Done)
}

/// Sets what is named to a value.
fn assign(
    alloc: Global,
    settings: &mut Settings,
    verb: Verb,
    name: &[u8],
    word: &[u8],
    saying: &mut Saying,
) -> Result<Outcome, AllocError>
    ensures settings { OnOk result (settings.new
        ≡ (assigned_or_unknown settings.old verb name.now word.now (toggle_named name.now)).settings) }
    ensures said { IfOk result (λ outcome. Says saying.old saying.new outcome
        (assigned_or_unknown settings.old verb name.now word.now (toggle_named name.now)).said) }
{
    let Some(toggle) = toggle_named(name) else {
        return fail_unknown(alloc, saying, verb, name);
    };
    let Some(value) = value_named(word) else {
        let name = toggle_name(toggle).as_bytes();
        return fail_quoting(
            alloc,
            saying,
            verb,
            "",
            name,
            " value must be true or false",
        );
    };
    *settings = settings.with(toggle, value);
    Ok(Outcome::Done)
}

/// Says what is set of a name.
fn say_value(
    alloc: Global,
    settings: Settings,
    toggle: Toggle,
    saying: &mut Saying,
) -> Result<(), AllocError>
    ensures { OnOk result
        (saying.new ≡ saying.old ++ data_lines (told_value settings toggle ∷ [])) }
{
    let mut text = Vec::new(alloc);
    text.extend_from_slice(toggle_name(toggle).as_bytes())?;
    text.extend_from_slice(b": ")?;
    text.extend_from_slice(value_word(settings.value(toggle)).as_bytes())?;
    saying.say(alloc, &text)
}

/// Says all that can be set.
fn say_all(alloc: Global, settings: Settings, saying: &mut Saying) -> Result<Outcome, AllocError>
    ensures { IfOk result (λ outcome. Says saying.old saying.new outcome (all_said settings)) }
{
    say_value(alloc, settings, Toggle::AidWait, saying)?;
    say_value(alloc, settings, Toggle::BlankFill, saying)?;
    say_value(alloc, settings, Toggle::MonoCase, saying)?;
    Ok(Outcome::Done)
}

/// Does what Set and Toggle are asked for: nothing tells all, a name asks for it or turns it over, a name and a value set it.
pub(crate) fn change(
    alloc: Global,
    settings: &mut Settings,
    verb: Verb,
    arguments: &[Vec<u8>],
    saying: &mut Saying,
) -> Result<Outcome, AllocError>
    ensures settings { OnOk result (settings.new
        ≡ (changed settings.old verb (map (λ argument. argument.items) arguments.now)).settings) }
    ensures said { IfOk result (λ outcome. Says saying.old saying.new outcome
        (changed settings.old verb (map (λ argument. argument.items) arguments.now)).said) }
{
    match arguments {
        [] => say_all(alloc, *settings, saying),
        [name] => ask_or_turn(alloc, settings, verb, name, saying),
        [name, value] => assign(alloc, settings, verb, name, value, saying),
        [_, _, _, ..] => {
            fail_quoting(alloc, saying, verb, "", b"more than a name and a value", "")
        }
    }
}
