//! Blocks of entries, one for each 512 places: an entry stands in the block of its place.

ghost use Rattle.std.specs.Prelude.{◌≡◌, ◌≤◌, ◌<◌, ◌+◌, ◌/◌, ◌==◌, ◌&&◌, ℕ, true, false, [], length, map, nat_le, nat_lt, if◌then◌else◌, Some, None, IfOk, slice_index, vec_capacity};
ghost use Rattle.ds_places.specs.Places.{IsRising, at_place};
ghost use Rattle.ds_places.specs.Pages.{itself, lists_of, rooms_of, list_at, listed_if, IsBlock, Alters};

use crate::change::Change;
use crate::edits::{cut, store};
use crate::placed::Placed;
use crate::search::{ends_before, rank, rank_from};
use std::alloc::{AllocError, Global};

/// The entries of a block, none where there is no such block.
#[inline(always)]
pub(crate) fn block<T: Placed>(blocks: &[Vec<T>], number: u32) -> &[T]
    ensures { result.now ≡ list_at (lists_of blocks.now) number }
{
    let index = number as usize;
    if index < blocks.len() {
        &blocks[index]
    } else {
        &[]
    }
}

/// So many empty blocks, each with room for 512 entries.
pub(crate) fn reserved<T: Placed>(alloc: Global, count: u32) -> Result<Vec<Vec<T>>, AllocError>
    ensures count { IfOk result (λ blocks. length (lists_of blocks.items) ≡ count) }
    ensures empty { IfOk result (λ blocks. (k : ℕ) → list_at (lists_of blocks.items) k ≡ []) }
    ensures roomy { IfOk result (λ blocks. (k : ℕ) → k < count → 512
        ≤ slice_index (rooms_of blocks.items) k) }
{
    let mut blocks = Vec::with_capacity(alloc, count as usize)?;
    'blocks: for _made in 0..count {
        blocks.push(Vec::with_capacity(alloc, 512)?)?;
    }
    Ok(blocks)
}

/// Lists the number of a block that gets an entry.
#[inline(always)]
pub(crate) fn note<T: Placed>(used: &mut Vec<u32>, number: u32, entries: &[T])
    requires rising { IsRising itself used.old.items }
    requires listed { at_place itself used.old.items number ≡ listed_if number entries.now }
    requires room { at_place itself used.old.items number ≡ None
        → length used.old.items < vec_capacity used.old }
    ensures noted { (k : ℕ) → at_place itself used.new.items k
        ≡ (if number == k then Some number else at_place itself used.old.items k) }
    ensures rising { IsRising itself used.new.items }
    ensures room { vec_capacity used.new ≡ vec_capacity used.old }
{
    if entries.is_empty() {
        store(used, number);
    }
}

/// Stores an entry in the block of its place, over the one that its place held.
#[inline(always)]
pub(crate) fn store_in<T: Placed>(blocks: &mut Vec<Vec<T>>, entry: T)
    requires own { IsBlock T.place_of (T.place_of entry / 512)
        (list_at (lists_of blocks.old.items) (T.place_of entry / 512)) }
    requires below { T.place_of entry / 512 < length (lists_of blocks.old.items) }
    requires roomy { 512 ≤ slice_index (rooms_of blocks.old.items) (T.place_of entry / 512) }
    ensures stored { (q : ℕ) → at_place T.place_of
        (list_at (lists_of blocks.new.items) (T.place_of entry / 512)) q
        ≡ (if T.place_of entry == q then Some entry
        else at_place T.place_of (list_at (lists_of blocks.old.items) (T.place_of entry / 512)) q) }
    ensures rising { IsRising T.place_of
        (list_at (lists_of blocks.new.items) (T.place_of entry / 512)) }
    ensures others { Alters blocks.old.items blocks.new.items (T.place_of entry / 512) }
{
    let number = (entry.place() / 512) as usize;
    store(&mut blocks[number], entry);
}

/// Whether an entry can stand from a place on, up to another: not where these places are none, or in one block and past
/// its last entry.
#[inline(always)]
pub(crate) fn can_hold<T: Placed>(blocks: &[Vec<T>], from: u32, to: u32) -> bool
    requires { (k : ℕ) → IsBlock T.place_of k (list_at (lists_of blocks.now) k) }
    ensures order { result ≡ true → from < to }
    ensures none { result ≡ false → (q : ℕ) → from ≤ q → q < to
        → at_place T.place_of (list_at (lists_of blocks.now) (q / 512)) q ≡ None }
{
    if to <= from {
        return false;
    }
    let number = from / 512;
    if number != (to - 1) / 512 {
        return true;
    }
    !ends_before(block(blocks, number), from)
}

/// Takes the entries from a place on, up to another, out of the blocks that are listed.
fn cut_blocks<T: Placed>(blocks: &mut Vec<Vec<T>>, used: &[u32], from: u32, to: u32)
    requires each { (k : ℕ) → IsBlock T.place_of k (list_at (lists_of blocks.old.items) k) }
    requires rising { IsRising itself used.now }
    requires listed { (k : ℕ) → at_place itself used.now k
        ≡ listed_if k (list_at (lists_of blocks.old.items) k) }
    requires order { from < to }
    ensures cut { (k : ℕ) (q : ℕ) → at_place T.place_of (list_at (lists_of blocks.new.items) k) q
        ≡ (if nat_le from q && nat_lt q to then None
        else at_place T.place_of (list_at (lists_of blocks.old.items) k) q) }
    ensures rising { (k : ℕ) → IsRising T.place_of (list_at (lists_of blocks.new.items) k) }
    ensures room { rooms_of blocks.new.items ≡ rooms_of blocks.old.items }
{
    let start = rank(used, from / 512);
    let end = rank_from(used, start, (to - 1) / 512 + 1);
    'blocks: for i in start..end {
        cut(&mut blocks[used[i] as usize], from, to);
    }
}

/// The same, without a look at what is listed where all these places are of one block.
#[inline(always)]
pub(crate) fn cut_places<T: Placed>(blocks: &mut Vec<Vec<T>>, used: &[u32], from: u32, to: u32)
    requires each { (k : ℕ) → IsBlock T.place_of k (list_at (lists_of blocks.old.items) k) }
    requires rising { IsRising itself used.now }
    requires listed { (k : ℕ) → at_place itself used.now k
        ≡ listed_if k (list_at (lists_of blocks.old.items) k) }
    requires order { from < to }
    ensures cut { (k : ℕ) (q : ℕ) → at_place T.place_of (list_at (lists_of blocks.new.items) k) q
        ≡ (if nat_le from q && nat_lt q to then None
        else at_place T.place_of (list_at (lists_of blocks.old.items) k) q) }
    ensures rising { (k : ℕ) → IsRising T.place_of (list_at (lists_of blocks.new.items) k) }
    ensures room { rooms_of blocks.new.items ≡ rooms_of blocks.old.items }
{
    let number = (from / 512) as usize;
    if number == ((to - 1) / 512) as usize && number < blocks.len() {
        cut(&mut blocks[number], from, to);
    } else {
        cut_blocks(blocks, used, from, to);
    }
}

/// Empties the blocks that are listed.
pub(crate) fn clear_blocks<T: Placed>(blocks: &mut Vec<Vec<T>>, used: &[u32])
    requires rising { IsRising itself used.now }
    requires listed { (k : ℕ) → at_place itself used.now k
        ≡ listed_if k (list_at (lists_of blocks.old.items) k) }
    ensures empty { (k : ℕ) → list_at (lists_of blocks.new.items) k ≡ [] }
    ensures room { rooms_of blocks.new.items ≡ rooms_of blocks.old.items }
{
    'blocks: for i in 0..used.len() {
        blocks[used[i] as usize].clear();
    }
}

/// Makes empty blocks copies of others, of which those that hold entries are listed.
pub(crate) fn copy_blocks<T: Placed>(blocks: &mut Vec<Vec<T>>, others: &[Vec<T>], used: &[u32])
    requires empty { (k : ℕ) → list_at (lists_of blocks.old.items) k ≡ [] }
    requires rising { IsRising itself used.now }
    requires listed { (k : ℕ) → at_place itself used.now k
        ≡ listed_if k (list_at (lists_of others.now) k) }
    requires each { (k : ℕ) → IsBlock T.place_of k (list_at (lists_of others.now) k) }
    requires below { (i : ℕ) → i < length used.now → slice_index used.now i
        < length (lists_of blocks.old.items) }
    requires roomy { (k : ℕ) → k < length (lists_of blocks.old.items) → 512
        ≤ slice_index (rooms_of blocks.old.items) k }
    ensures copied { (k : ℕ) → list_at (lists_of blocks.new.items) k
        ≡ list_at (lists_of others.now) k }
    ensures count { length (lists_of blocks.new.items) ≡ length (lists_of blocks.old.items) }
    ensures roomy { (k : ℕ) → k < length (lists_of blocks.old.items) → 512
        ≤ slice_index (rooms_of blocks.new.items) k }
{
    'blocks: for i in 0..used.len() {
        let entries = block(others, used[i]);
        blocks[used[i] as usize].extend_from_slice(entries).unwrap();
    }
}

/// Changes each entry of a block.
fn change_block<T: Placed, C: Change<T>>(entries: &mut Vec<T>, change: &C)
    ensures changed { entries.new.items ≡ map (C.changed change.now) entries.old.items }
    ensures room { vec_capacity entries.new ≡ vec_capacity entries.old }
{
    'entries: for i in 0..entries.len() {
        let entry = entries[i];
        entries[i] = change.change(entry);
    }
}

/// Changes each entry of the blocks that are listed.
pub(crate) fn change_blocks<T: Placed, C: Change<T>>(
    blocks: &mut Vec<Vec<T>>,
    used: &[u32],
    change: &C,
)
    requires rising { IsRising itself used.now }
    requires listed { (k : ℕ) → at_place itself used.now k
        ≡ listed_if k (list_at (lists_of blocks.old.items) k) }
    ensures changed { (k : ℕ) → list_at (lists_of blocks.new.items) k
        ≡ map (C.changed change.now) (list_at (lists_of blocks.old.items) k) }
    ensures room { rooms_of blocks.new.items ≡ rooms_of blocks.old.items }
{
    'blocks: for i in 0..used.len() {
        change_block(&mut blocks[used[i] as usize], change);
    }
}
