//! The rules by which tools know what is told: a rule for each finding, and one for an input that is refused.

ghost use Rattle.std.specs.Prelude.{◌≡◌, option_map};
ghost use Rattle.cli_findings.specs.Rule.{all_rules, rule_of, rule_index, rule_id, rule_name, brief_of, meaning_of, mend_of, change_of, form_of};
ghost use Rattle.cli_findings.specs.RuleRow.{IsRow, row_of};

use crate::rule_row::{self, RuleRow};
use scr_check::Finding;

/// A kind of result.
#[derive(Clone, Copy)]
pub(crate) enum Rule {
    RecordRefused,
    NoRecord,
    FirstNotErase,
    NotAWrite,
    KeyboardLocked,
    OtherSize,
    Unformatted,
    Undeclared,
    UndeclaredFixed,
    Missing,
    TooLong,
    OtherKind,
    EmptyModified,
    CursorDependent,
    InputRefused,
    Selectable,
}

/// The rules in the order of their numbers, the one for inputs last. That of the pen comes after them where it is asked for.
pub(crate) fn all_rules() -> [Rule; 15]
    ensures { result ≡ all_rules }
{
    [
        Rule::RecordRefused,
        Rule::NoRecord,
        Rule::FirstNotErase,
        Rule::NotAWrite,
        Rule::KeyboardLocked,
        Rule::OtherSize,
        Rule::Unformatted,
        Rule::Undeclared,
        Rule::UndeclaredFixed,
        Rule::Missing,
        Rule::TooLong,
        Rule::OtherKind,
        Rule::EmptyModified,
        Rule::CursorDependent,
        Rule::InputRefused,
    ]
}

/// The rule of a finding.
pub(crate) fn rule_of(finding: &Finding) -> Rule
    ensures { result ≡ rule_of finding.now }
{
    match finding {
        Finding::RecordRefused(_, _) => Rule::RecordRefused,
        Finding::NoRecord => Rule::NoRecord,
        Finding::FirstNotErase => Rule::FirstNotErase,
        Finding::NotAWrite(_) => Rule::NotAWrite,
        Finding::KeyboardLocked => Rule::KeyboardLocked,
        Finding::OtherSize(_, _) => Rule::OtherSize,
        Finding::Unformatted => Rule::Unformatted,
        Finding::Undeclared(_, _) => Rule::Undeclared,
        Finding::UndeclaredFixed(_, _) => Rule::UndeclaredFixed,
        Finding::Missing(_) => Rule::Missing,
        Finding::TooLong(_) => Rule::TooLong,
        Finding::OtherKind(_) => Rule::OtherKind,
        Finding::EmptyModified(_) => Rule::EmptyModified,
        Finding::CursorDependent(_) => Rule::CursorDependent,
        Finding::Selectable(_) => Rule::Selectable,
    }
}

impl Rule {
    /// What is told of it.
    fn row(self) -> RuleRow
        ensures { IsRow result (row_of self) }
    {
        match self {
            Rule::RecordRefused => rule_row::RECORD_REFUSED,
            Rule::NoRecord => rule_row::NO_RECORD,
            Rule::FirstNotErase => rule_row::FIRST_NOT_ERASE,
            Rule::NotAWrite => rule_row::NOT_A_WRITE,
            Rule::KeyboardLocked => rule_row::KEYBOARD_LOCKED,
            Rule::OtherSize => rule_row::OTHER_SIZE,
            Rule::Unformatted => rule_row::UNFORMATTED,
            Rule::Undeclared => rule_row::UNDECLARED,
            Rule::UndeclaredFixed => rule_row::UNDECLARED_FIXED,
            Rule::Missing => rule_row::MISSING,
            Rule::TooLong => rule_row::TOO_LONG,
            Rule::OtherKind => rule_row::OTHER_KIND,
            Rule::EmptyModified => rule_row::EMPTY_MODIFIED,
            Rule::CursorDependent => rule_row::CURSOR_DEPENDENT,
            Rule::InputRefused => rule_row::INPUT_REFUSED,
            Rule::Selectable => rule_row::SELECTABLE,
        }
    }

    /// Where it stands among all rules, counted from 0.
    pub(crate) fn index(self) -> usize
        ensures { result ≡ rule_index self }
    {
        self.row().index
    }

    /// The number of its findings, behind an F.
    pub(crate) fn id(self) -> &'static str
        ensures { result.now ≡ rule_id self }
    {
        self.row().id
    }

    /// Its name, in kebab case.
    pub(crate) fn name(self) -> &'static str
        ensures { result.now ≡ rule_name self }
    {
        self.row().name
    }

    /// What it is about, in a few words.
    pub(crate) fn brief(self) -> &'static str
        ensures { result.now ≡ brief_of self }
    {
        self.row().brief
    }

    /// What it means.
    pub(crate) fn meaning(self) -> &'static str
        ensures { result.now ≡ meaning_of self }
    {
        self.row().meaning
    }

    /// How it is mended.
    pub(crate) fn mend(self) -> &'static str
        ensures { result.now ≡ mend_of self }
    {
        self.row().mend
    }

    /// The change that ends each of its findings, where that names nothing of the finding.
    pub(crate) fn change(self) -> Option<&'static str>
        ensures { option_map (λ words. words.now) result ≡ change_of self }
    {
        self.row().change
    }

    /// What is printed after the number, with words in capitals for what differs.
    pub(crate) fn form(self) -> &'static str
        ensures { result.now ≡ form_of self }
    {
        self.row().form
    }
}
