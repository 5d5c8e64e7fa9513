//! Actions that press no key of their names, by what they do.

ghost use Rattle.std.specs.Prelude.{◌≡◌};
ghost use Rattle.cli_scripts.specs.Kinds.{kind_of};

use crate::settings::Verb;
use script_keys::Name;
use script_screens::{Query, Reading};

/// What an action does that presses no key of its name.
#[derive(Clone, Copy, Debug, PartialEq, Eq)]
pub(crate) enum Kind {
    /// It types a text.
    Types,
    /// It types a character that is named.
    TypesKey,
    Waits,
    /// It prints the screen.
    Prints,
    /// It judges the screen by a layout.
    Checks,
    Reads(Reading),
    /// It keeps the screen, or reads what was kept.
    Snaps,
    Tells(Query),
    Sets(Verb),
    /// It expects text of a session that has none.
    Expects,
    Rings,
    /// It does nothing, and says nothing.
    Rests,
}

/// What an action of a name does.
pub(crate) fn kind_of(name: Name) -> Kind
    ensures { result ≡ kind_of name }
{
    match name {
        Name::String => Kind::Types,
        Name::Key => Kind::TypesKey,
        Name::Wait => Kind::Waits,
        Name::PrintText => Kind::Prints,
        Name::Check => Kind::Checks,
        Name::Ascii => Kind::Reads(Reading::Ascii),
        Name::Ascii1 => Kind::Reads(Reading::Ascii1),
        Name::AsciiField => Kind::Reads(Reading::AsciiField),
        Name::Ebcdic => Kind::Reads(Reading::Ebcdic),
        Name::Ebcdic1 => Kind::Reads(Reading::Ebcdic1),
        Name::EbcdicField => Kind::Reads(Reading::EbcdicField),
        Name::ReadBuffer => Kind::Reads(Reading::ReadBuffer),
        Name::Snap => Kind::Snaps,
        Name::Query => Kind::Tells(Query::Query),
        Name::Show => Kind::Tells(Query::Show),
        Name::Set => Kind::Sets(Verb::Set),
        Name::Toggle => Kind::Sets(Verb::Toggle),
        Name::Expect => Kind::Expects,
        Name::Bell => Kind::Rings,
        _ => Kind::Rests,
    }
}
