//! The nearest of some words.

ghost use Rattle.std.specs.Prelude.{◌≡◌, ◌≤◌, ◌<◌, ◌^◌, length, map, reverse, IfOk};
ghost use Rattle.std.specs.Option.{option_map};
ghost use Rattle.cli_reasons.specs.Nearest.{is_near, nearer, nearest, nearest_from, shared, shared_front};

use std::alloc::{AllocError, Global};

/// How many characters two words begin with alike, in either case.
fn shared_front(a: &[u8], b: &[u8]) -> usize
    ensures value { result ≡ shared_front a.now b.now }
    ensures inside { result ≤ length a.now }
{
    let mut count = 0;
    let mut left = a;
    let mut right = b;
    while let [first, others @ ..] = left {
        let [second, rest @ ..] = right else {
            return count;
        };
        if !first.eq_ignore_ascii_case(second) {
            return count;
        }
        count += 1;
        left = others;
        right = rest;
    }
    count
}

fn reversed(alloc: Global, word: &[u8]) -> Result<Vec<u8>, AllocError>
    ensures { IfOk result (λ back. back.items ≡ reverse word.now) }
{
    let mut back = Vec::from_slice(alloc, word)?;
    back.as_mut_slice().reverse();
    Ok(back)
}

/// How many characters two words share, at their beginnings and at their ends.
fn shared(alloc: Global, a: &[u8], b: &[u8]) -> Result<usize, AllocError>
    requires { length a.now < 2 ^ 32 }
    ensures { IfOk result (λ count. count ≡ shared a.now b.now) }
{
    let front = shared_front(a, b);
    let left = reversed(alloc, a)?;
    let right = reversed(alloc, b)?;
    let back = shared_front(left.as_slice(), right.as_slice());
    Ok((front + back).min(a.len()).min(b.len()))
}

/// The nearer of two words, the first where they are equally near.
fn nearer(
    alloc: Global,
    word: &[u8],
    best: &'static str,
    other: &'static str,
) -> Result<&'static str, AllocError>
    requires { length word.now < 2 ^ 32 }
    ensures { IfOk result (λ near. near.now ≡ nearer word.now best.now other.now) }
{
    if shared(alloc, word, best.as_bytes())? < shared(alloc, word, other.as_bytes())? {
        Ok(other)
    } else {
        Ok(best)
    }
}

/// The nearest of a word and others, the first of those that are equally near.
fn nearest_from(
    alloc: Global,
    word: &[u8],
    first: &'static str,
    others: &[&'static str],
) -> Result<&'static str, AllocError>
    requires { length word.now < 2 ^ 32 }
    ensures { IfOk result (λ near. near.now
        ≡ nearest_from word.now first.now (map (λ w. w.now) others.now)) }
{
    let mut best = first;
    let mut rest = others;
    while let [other, left @ ..] = rest {
        best = nearer(alloc, word, best, other)?;
        rest = left;
    }
    Ok(best)
}

/// Whether two words share half of the first.
fn is_near(alloc: Global, word: &[u8], other: &str) -> Result<bool, AllocError>
    requires { length word.now < 2 ^ 32 }
    ensures { IfOk result (λ near. near ≡ is_near word.now other.now) }
{
    let shared = shared(alloc, word, other.as_bytes())?;
    Ok(0 < shared && word.len() <= 2 * shared)
}

/// The nearest of some words, if it shares half of this one. A word isn't its own neighbor where it is empty.
pub fn nearest(
    alloc: Global,
    word: &[u8],
    words: &[&'static str],
) -> Result<Option<&'static str>, AllocError>
    requires { length word.now < 2 ^ 32 }
    ensures { IfOk result (λ near. option_map (λ w. w.now) near
        ≡ nearest word.now (map (λ w. w.now) words.now)) }
{
    let [first, others @ ..] = words else {
        return Ok(None);
    };
    let best = nearest_from(alloc, word, first, others)?;
    if is_near(alloc, word, best)? {
        Ok(Some(best))
    } else {
        Ok(None)
    }
}
