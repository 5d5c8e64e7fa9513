//! Entries with a mark, and a change of them.

ghost use Rattle.std.specs.Prelude.{◌+◌, ◌%◌, ◌^◌};

use ds_places::{Change, Placed};
use test_words::Row;

/// A place with a mark.
#[derive(Clone, Copy, PartialEq, Eq)]
pub(crate) struct Marked {
    pub(crate) at: u32,
    pub(crate) mark: u32,
}

impl Placed for Marked {
    ghost place_of = { λ m. m.at };

    fn place(&self) -> u32 {
        self.at
    }
}

/// Adds a number to a mark.
#[derive(Drop)]
pub(crate) struct Add(pub(crate) u32);

impl Change<Marked> for Add {
    ghost changed = { λ add m. record { at = m.at; mark = (m.mark + add.0) % 2 ^ 32 } };

    fn change(&self, entry: Marked) -> Marked {
        Marked {
            at: entry.at,
            mark: entry.mark.wrapping_add(self.0),
        }
    }
}

/// An entry of two words.
pub(crate) fn entry_of(row: &mut Row, words: &str) -> Marked {
    let (at, mark) = row.read_numbers(words);
    Marked { at, mark }
}

/// A space after what stands.
pub(crate) fn push_space(row: &mut Row) {
    let is_first = row.says("");
    row.word_if(!is_first, " ");
}

/// An entry, or that there is none.
pub(crate) fn push_entry(row: &mut Row, entry: Option<Marked>) {
    push_space(row);
    let Some(entry) = entry else {
        return row.word("none");
    };
    row.number(entry.at);
    row.word_number(":", entry.mark);
}
