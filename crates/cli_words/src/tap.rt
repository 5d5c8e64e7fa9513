//! What the words of `tap` ask for.

ghost use Rattle.std.specs.Prelude.{◌≡◌};
ghost use Rattle.clap.specs.Words.{found_of, rows_of};
ghost use Rattle.cli_words.specs.Tap.{IsTap};

use crate::asked::{number_in, path_in, text_in};
use clap::ArgMatches;

/// What is asked of `tap`.
#[derive(Clone, Copy)]
pub struct TapAsked<'a> {
    /// The host that is called for each terminal.
    pub host: &'a str,
    pub port: u16,
    /// Where terminals are listened for.
    pub listen: &'a str,
    pub listen_port: u16,
    /// How many terminals are tapped; 0 is any number.
    pub count: u16,
    /// The folder of the layouts by which screens are judged.
    pub layouts: Option<&'a str>,
    /// The folder where new screens are left.
    pub out: Option<&'a str>,
}

/// What the words of `tap` ask for.
pub(crate) fn tap_of<'a>(words: &ArgMatches<'a>) -> TapAsked<'a>
    ensures { IsTap (rows_of (found_of words.now)) result }
{
    TapAsked {
        host: text_in(words, "HOST"),
        port: number_in(words, "port"),
        listen: text_in(words, "listen"),
        listen_port: number_in(words, "listen-port"),
        count: number_in(words, "count"),
        layouts: path_in(words, "layouts"),
        out: path_in(words, "out"),
    }
}
