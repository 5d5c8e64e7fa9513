//! Refusals that name a keyword.

ghost use Rattle.std.specs.Prelude.{◌≡◌, IfOk};
ghost use Rattle.bms_source.specs.Told.{told_with};
ghost use Rattle.bms_map.specs.Operands.{place_of, told_of};

use bms_source::{Letter, Place, SourceError, Why, upper_word};
use std::alloc::{AllocError, Global};

/// Where a word begins.
pub(crate) fn place_of(word: &[Letter]) -> Place
    ensures { result ≡ place_of word.now }
{
    match word {
        [first, ..] => first.place,
        [] => Place { line: 1, column: 1 },
    }
}

/// The refusal of an operand, at its keyword.
pub(crate) fn refused(
    alloc: Global,
    why: Why,
    keyword: &[Letter],
) -> Result<SourceError, AllocError>
    ensures { IfOk result (λ error. error ≡ SourceError.Refused (told_of why keyword.now)) }
{
    let word = upper_word(alloc, keyword)?;
    Ok(SourceError::with_word(why, word, place_of(keyword)))
}

/// The refusal of a name, at this place.
pub(crate) fn refused_name(
    alloc: Global,
    why: Why,
    name: &[u8],
    place: Place,
) -> Result<SourceError, AllocError>
    ensures { IfOk result (λ error. error ≡ SourceError.Refused (told_with why name.now place)) }
{
    let word = Vec::from_slice(alloc, name)?;
    Ok(SourceError::with_word(why, word, place))
}
