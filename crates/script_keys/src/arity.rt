//! How many arguments an action has.

ghost use Rattle.std.specs.Prelude.{◌≡◌};
ghost use Rattle.script_keys.specs.Arities.{arity_of, takes, arity_words};

use crate::name::Name;

/// How many arguments an action has.
#[derive(Clone, Copy, Debug, PartialEq, Eq)]
pub enum Arity {
    None,
    One,
    NoneOrOne,
    OneOrTwo,
    Any,
}

impl Arity {
    /// Whether an action may have so many.
    pub(crate) fn takes(self, count: usize) -> bool
        ensures { result ≡ takes self count }
    {
        match self {
            Arity::None => count == 0,
            Arity::One => count == 1,
            Arity::NoneOrOne => count <= 1,
            Arity::OneOrTwo => 1 <= count && count <= 2,
            Arity::Any => true,
        }
    }

    /// In words.
    pub(crate) fn words(self) -> &'static str
        ensures { result.now ≡ arity_words self }
    {
        match self {
            Arity::None => "0 arguments",
            Arity::One => "1 argument",
            Arity::NoneOrOne => "0 or 1 arguments",
            Arity::OneOrTwo => "1 or 2 arguments",
            Arity::Any => "any arguments",
        }
    }
}

/// How many arguments an action of this name has. Those that read a screen, wait, or set something tell theirs themselves.
pub(crate) fn arity_of(name: Name) -> Arity
    ensures { result ≡ arity_of name }
{
    match name {
        Name::Connect | Name::Open | Name::Pf | Name::Pa | Name::Info | Name::Check => Arity::One,
        Name::MoveCursor | Name::MoveCursor1 | Name::Expect => Arity::OneOrTwo,
        Name::Query | Name::Show => Arity::NoneOrOne,
        Name::Quit
        | Name::Exit
        | Name::Key
        | Name::String
        | Name::Ascii
        | Name::Ascii1
        | Name::Ebcdic
        | Name::Ebcdic1
        | Name::ReadBuffer
        | Name::Snap
        | Name::PrintText
        | Name::Wait
        | Name::Set
        | Name::Toggle
        | Name::Ignore => Arity::Any,
        _ => Arity::None,
    }
}
