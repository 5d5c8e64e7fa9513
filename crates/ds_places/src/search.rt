//! Searches: at the last entry first, and then by halving. The one for the last entry before a place counts its looks: no
//! more than the number of entries has binary digits, and one more for the entry that it gives.

ghost use Rattle.std.specs.Prelude.{◌≡◌, ◌≤◌, ◌<◌, ◌-◌, ℕ, true, None, length, slice_index_or};
ghost use Rattle.std.specs.List.Sorted.{IsPartitionPoint};
ghost use Rattle.ds_places.specs.Places.{IsRising, at_place};
ghost use Rattle.ds_places.specs.Nearest.{IsSlot, IsLastBelow, IsFirstFrom, AreFew};

use crate::counted::Counted;
use crate::placed::Placed;

/// How many entries have a place below this one: the index of the first that has not.
#[inline(always)]
pub(crate) fn rank<T: Placed>(entries: &[T], place: u32) -> usize
    requires { IsRising T.place_of entries.now }
    ensures parts { IsPartitionPoint (λ entry. T.place_of entry < place)
        (λ entry. place ≤ T.place_of entry) entries.now result }
    ensures within { result ≤ length entries.now }
{
    let count = entries.len();
    if count == 0 {
        return 0;
    }
    if entries[count - 1].place() < place {
        return count;
    }
    entries.partition_point(|entry| entry.place() < place)
}

/// Whether each entry has a place below this one.
#[inline(always)]
pub(crate) fn ends_before<T: Placed>(entries: &[T], place: u32) -> bool
    requires { IsRising T.place_of entries.now }
    ensures { result ≡ true → (q : ℕ) → place ≤ q → at_place T.place_of entries.now q ≡ None }
{
    let count = entries.len();
    if count == 0 {
        return true;
    }
    entries[count - 1].place() < place
}

/// The same, where it is known that the entries before this index have one: it looks first at the entry there.
pub(crate) fn rank_from<T: Placed>(entries: &[T], start: usize, place: u32) -> usize
    requires rising { IsRising T.place_of entries.now }
    requires within { start ≤ length entries.now }
    requires before { (k : ℕ) (other : T) → k < start
        → T.place_of (slice_index_or entries.now k other) < place }
    ensures parts { IsPartitionPoint (λ entry. T.place_of entry < place)
        (λ entry. place ≤ T.place_of entry) entries.now result }
    ensures within { result ≤ length entries.now }
{
    if start == entries.len() {
        return start;
    }
    if place <= entries[start].place() {
        return start;
    }
    rank(entries, place)
}

/// The same, where an index near it is guessed: no search where it is that one, or the next.
#[inline(always)]
pub(crate) fn rank_near<T: Placed>(entries: &[T], guess: usize, place: u32) -> usize
    requires { IsRising T.place_of entries.now }
    ensures parts { IsPartitionPoint (λ entry. T.place_of entry < place)
        (λ entry. place ≤ T.place_of entry) entries.now result }
    ensures within { result ≤ length entries.now }
{
    if guess >= entries.len() {
        return rank(entries, place);
    }
    if entries[guess].place() < place {
        return rank_from(entries, guess + 1, place);
    }
    if guess > 0 && entries[guess - 1].place() >= place {
        return rank(entries, place);
    }
    guess
}

/// Where the entry of a place stands, or where one is to be inserted.
#[inline(always)]
pub(crate) fn slot<T: Placed>(entries: &[T], place: u32) -> Result<usize, usize>
    requires { IsRising T.place_of entries.now }
    ensures { IsSlot T.place_of entries.now place result }
{
    let index = rank(entries, place);
    if index == entries.len() {
        return Err(index);
    }
    let entry = entries[index];
    if entry.place() == place {
        Ok(index)
    } else {
        Err(index)
    }
}

/// The entry at a place.
pub fn held<T: Placed>(entries: &[T], place: u32) -> Option<T>
    requires { IsRising T.place_of entries.now }
    ensures { result ≡ at_place T.place_of entries.now place }
{
    match slot(entries, place) {
        Ok(index) => Some(entries[index]),
        Err(_) => None,
    }
}

/// The same, for one that asks for places in turn: `guess` is what the search before left there, and any number at first.
/// It spares the search where the entry is near, and changes nothing of what is found.
pub fn held_near<T: Placed>(entries: &[T], place: u32, guess: &mut usize) -> Option<T>
    requires { IsRising T.place_of entries.now }
    ensures { result ≡ at_place T.place_of entries.now place }
{
    let entry = first_near(entries, place, guess)?;
    if entry.place() == place {
        Some(entry)
    } else {
        None
    }
}

/// How many entries have a place below this one. The only way to an entry is a look that counts.
#[inline(always)]
fn count_below<T: Placed>(seen: &mut Counted<'_, T>, place: u64) -> usize
    requires rising { IsRising T.place_of seen.old.entries.now }
    requires fresh { seen.old.looks ≡ 0 }
    ensures parts { IsPartitionPoint (λ entry. T.place_of entry < place)
        (λ entry. place ≤ T.place_of entry) seen.old.entries.now result }
    ensures within { result ≤ length seen.old.entries.now }
    ensures kept { seen.new.entries.now ≡ seen.old.entries.now }
    ensures looks { AreFew seen.old.entries.now 0 seen.new.looks }
    ensures few { seen.new.looks ≤ 64 }
{
    let mut low = 0;
    let mut high = seen.len();
    'halves: while low < high {
        let middle = low + (high - low) / 2;
        if u64::from(seen.item(middle).place()) < place {
            low = middle + 1;
        } else {
            high = middle;
        }
    }
    low
}

/// What a search for the last entry before a place found, and how often it looked at an entry.
#[derive(Drop)]
pub(crate) struct Sought<T> {
    pub(crate) entry: Option<T>,
    pub(crate) looks: u64,
}

/// The entry at the greatest place below this one.
#[inline(always)]
pub(crate) fn last_below<T: Placed>(entries: &[T], place: u64) -> Sought<T>
    requires { IsRising T.place_of entries.now }
    ensures nearest { IsLastBelow T.place_of entries.now place result.entry }
    ensures looks { AreFew entries.now 1 result.looks }
    ensures missed { result.entry ≡ None → AreFew entries.now 0 result.looks }
    ensures few { result.looks ≤ 65 }
{
    let mut seen = Counted::new(entries);
    let before = count_below(&mut seen, place);
    if before == 0 {
        return Sought {
            entry: None,
            looks: seen.looks(),
        };
    }
    let entry = seen.item(before - 1);
    Sought {
        entry: Some(entry),
        looks: seen.looks(),
    }
}

/// The entry at the least place from this one on.
#[inline(always)]
pub(crate) fn first_from<T: Placed>(entries: &[T], place: u32) -> Option<T>
    requires { IsRising T.place_of entries.now }
    ensures { IsFirstFrom T.place_of entries.now place result }
{
    let mut guess = usize::MAX;
    first_near(entries, place, &mut guess)
}

/// The same, where an index near its own is guessed, and that is the next guess. What is found is the same whatever is
/// guessed.
#[inline(always)]
pub(crate) fn first_near<T: Placed>(entries: &[T], place: u32, guess: &mut usize) -> Option<T>
    requires { IsRising T.place_of entries.now }
    ensures { IsFirstFrom T.place_of entries.now place result }
{
    let index = rank_near(entries, *guess, place);
    *guess = index;
    if index < entries.len() {
        Some(entries[index])
    } else {
        None
    }
}

/// The last of some entries.
#[inline(always)]
pub(crate) fn last_in<T: Placed>(entries: &[T]) -> T
    requires { 0 < length entries.now }
    ensures { result ≡ slice_index_or entries.now (length entries.now - 1) result }
{
    entries[entries.len() - 1]
}
