//! Edits that keep the order. `add` alone takes memory, and each moves the entries after it once.

ghost use Rattle.std.specs.Prelude.{◌≡◌, ◌≤◌, ◌<◌, ℕ, ◌==◌, ◌&&◌, nat_le, nat_lt, if◌then◌else◌, Some, None, unwrap_or, vec_capacity, length, OnOk, OnErr};
ghost use Rattle.std.specs.List.{insert};
ghost use Rattle.ds_places.specs.Places.{IsRising, at_place};

use crate::placed::Placed;
use crate::search::{rank, rank_from, slot};
use std::alloc::AllocError;

/// Inserts an entry at an index, where there is room for one more. At the end none is moved, and nothing is called.
#[inline(always)]
fn insert_at<T: Placed>(entries: &mut Vec<T>, index: usize, entry: T)
    requires within { index ≤ length entries.old.items }
    requires room { length entries.old.items < vec_capacity entries.old }
    ensures inserted { entries.new.items ≡ insert entries.old.items index entry }
    ensures room { vec_capacity entries.new ≡ vec_capacity entries.old }
{
    if index == entries.len() {
        entries.push_reserved(entry);
    } else {
        entries.insert(index, entry).unwrap();
    }
}

/// Stores an entry at its place, over the one that it held, where there is room for one more if it held none.
#[inline(always)]
pub(crate) fn store<T: Placed>(entries: &mut Vec<T>, entry: T)
    requires rising { IsRising T.place_of entries.old.items }
    requires room { at_place T.place_of entries.old.items (T.place_of entry) ≡ None
        → length entries.old.items < vec_capacity entries.old }
    ensures stored { (q : ℕ) → at_place T.place_of entries.new.items q
        ≡ (if T.place_of entry == q then Some entry else at_place T.place_of entries.old.items q) }
    ensures rising { IsRising T.place_of entries.new.items }
    ensures room { vec_capacity entries.new ≡ vec_capacity entries.old }
{
    match slot(entries, entry.place()) {
        Ok(index) => entries[index] = entry,
        Err(index) => insert_at(entries, index, entry),
    }
}

/// Adds an entry, unless one stands at its place already. Takes memory where there is no room for it.
///
/// # Errors
///
/// Where a request for memory was refused.
pub fn add<T: Placed>(entries: &mut Vec<T>, entry: T) -> Result<(), AllocError>
    requires { IsRising T.place_of entries.old.items }
    ensures added { OnOk result ((q : ℕ) → at_place T.place_of entries.new.items q
        ≡ (if T.place_of entry == q then Some (unwrap_or (at_place T.place_of entries.old.items q) entry)
        else at_place T.place_of entries.old.items q)) }
    ensures rising { IsRising T.place_of entries.new.items }
    ensures unchanged { OnErr result (entries.new.items ≡ entries.old.items) }
{
    match slot(entries, entry.place()) {
        Ok(_) => Ok(()),
        Err(index) => Ok(entries.insert(index, entry)?),
    }
}

/// Takes out the entries from a place on, up to another, which is none of them.
#[inline(always)]
pub(crate) fn cut<T: Placed>(entries: &mut Vec<T>, from: u32, to: u32)
    requires rising { IsRising T.place_of entries.old.items }
    requires order { from ≤ to }
    ensures cut { (q : ℕ) → at_place T.place_of entries.new.items q
        ≡ (if nat_le from q && nat_lt q to then None else at_place T.place_of entries.old.items q) }
    ensures rising { IsRising T.place_of entries.new.items }
    ensures room { vec_capacity entries.new ≡ vec_capacity entries.old }
{
    let start = rank(entries, from);
    let end = rank_from(entries, start, to);
    if start < end {
        let left = entries.len() - (end - start);
        entries.copy_within(end.., start);
        entries.truncate(left);
    }
}
