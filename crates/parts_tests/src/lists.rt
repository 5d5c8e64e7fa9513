//! A plain list in the order of places.

ghost use Rattle.ds_places.specs.Places.{IsRising};

use crate::marked::{Marked, entry_of, push_entry};
use ds_places::{add, held, held_near};
use test_words::Row;

fn push_entries(row: &mut Row, entries: &[Marked]) {
    for entry in entries {
        push_entry(row, Some(*entry));
    }
}

/// Adds the entry at a place, which is the same whatever index is guessed for it.
fn push_held(row: &mut Row, entries: &[Marked], place: u32, guess: &mut usize)
    requires { IsRising (λ m. m.at) entries.now }
{
    let found = held(entries, place);
    if held_near(entries, place, guess) != found {
        return row.spoil();
    }
    push_entry(row, found);
}

/// The list that three entries make, and what it holds at the place of each.
fn push_list_of(row: &mut Row, first: Marked, second: Marked, third: Marked) {
    let mut entries = Vec::new(row.alloc());
    row.note(add(&mut entries, first));
    row.note(add(&mut entries, second));
    row.note(add(&mut entries, third));
    push_entries(row, &entries);
    let mut guess = 0;
    push_held(row, &entries, first.at, &mut guess);
    push_held(row, &entries, second.at, &mut guess);
    push_held(row, &entries, third.at, &mut guess);
}

/// Adds three entries, and prints the list that they make, and what it holds at the place of each.
pub(crate) fn push_added(row: &mut Row, words: &str) {
    let (first, others) = row.cut(words, "; ");
    let (second, third) = row.cut(others, "; ");
    let first = entry_of(row, first);
    let second = entry_of(row, second);
    let third = entry_of(row, third);
    push_list_of(row, first, second, third);
}
