//! What the words of `serve` ask for many terminals.

ghost use Rattle.std.specs.Prelude.{◌≡◌};
ghost use Rattle.clap.specs.Words.{found_of, rows_of};
ghost use Rattle.cli_words.specs.Many.{AreMany, HasManyWords};

use crate::asked::{is_named, number_in};
use clap::ArgMatches;

/// How `serve` serves many terminals.
#[derive(Clone, Copy)]
pub struct Many {
    /// How many are served; 0 is any number.
    pub count: u16,
    /// How many at once; 0 is one.
    pub at_once: u16,
    /// After how many answers it ends; 0 is any number.
    pub answers: u16,
    /// For how many seconds nothing need come of a terminal; 0 is any time.
    pub idle: u16,
    /// How many of one address are accepted in a second; 0 is any number.
    pub per_second: u16,
}

/// How many terminals are served, and how many at once.
pub(crate) fn many_of(words: &ArgMatches<'_>) -> Many
    ensures { AreMany (rows_of (found_of words.now)) result }
{
    Many {
        count: number_in(words, "count"),
        at_once: number_in(words, "at-once"),
        answers: number_in(words, "answers"),
        idle: number_in(words, "idle"),
        per_second: number_in(words, "per-second"),
    }
}

/// Whether an option is there without which terminals come one after the other.
pub(crate) fn has_many_words(words: &ArgMatches<'_>) -> bool
    ensures { HasManyWords (rows_of (found_of words.now)) result }
{
    is_named(words, "at-once")
        || is_named(words, "answers")
        || is_named(words, "idle")
        || is_named(words, "per-second")
}
