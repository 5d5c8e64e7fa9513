//! The example of `cli_words`.

use clap::ArgMatches;
use cli_words::Asked;

/// Whether parsed words ask for `convert`.
fn converts(matches: &ArgMatches<'_>) -> bool {
    matches!(Asked::from_matches(matches), Asked::Convert)
}
