//! The names of drafted fields.

ghost use Rattle.std.specs.Prelude.{◌≡◌, ◌++◌, ◌<◌, ◌+◌, ◌^◌, ℕ, List, true, not, take, IfOk, OnOk};
ghost use Rattle.std.specs.String.{string_bytes};
ghost use Rattle.std.specs.List.{list_all};
ghost use Rattle.scr_layout.specs.Entry.{is_name_byte};
ghost use Rattle.scr_draft.specs.Label.{is_word};
ghost use Rattle.scr_draft.specs.Name.{lower, dashed_byte, dashed_from, dashed, undashed, place_name, suffix, stem, form, is_taken, free_name};
ghost use Rattle.scr_draft.specs.Drafted.{names_in};

use crate::drafted::Drafted;
use crate::mark::is_word;
use std::alloc::{AllocError, Global};

/// The most characters of a name.
const MOST_NAME: usize = 32;

/// A letter in lower case.
fn lower(byte: u8) -> u8
    ensures { result ≡ lower byte }
{
    match byte {
        b'A'..=b'Z' => byte + 32,
        _ => byte,
    }
}

/// A letter or a digit of a name, or `-` for what stands between two words; whether none is to stand next.
fn push_byte(words: &mut Vec<u8>, byte: u8, none: bool) -> Result<bool, AllocError>
    ensures text { OnOk result (words.new.items ≡ words.old.items ++ dashed_byte none byte) }
    ensures between { IfOk result (λ next. next ≡ not (is_word byte)) }
{
    if is_word(byte) {
        words.push(lower(byte))?;
        return Ok(false);
    }
    if !none {
        words.push(b'-')?;
    }
    Ok(true)
}

/// The words of a label, in lower case, with `-` between two words.
fn words_of(alloc: Global, label: &[u8]) -> Result<Vec<u8>, AllocError>
    ensures { IfOk result (λ words. words.items ≡ dashed label.now) }
{
    let mut words = Vec::new(alloc);
    let mut none = true;
    for byte in label {
        none = push_byte(&mut words, *byte, none)?;
    }
    Ok(words)
}

/// The bytes without a `-` at their end.
fn undashed(text: &[u8]) -> &[u8]
    ensures { result.now ≡ undashed text.now }
{
    let count = text.len();
    if count > 0 && text[count - 1] == b'-' {
        &text[..count - 1]
    } else {
        text
    }
}

/// Adds bytes of a name.
fn push_bytes(out: &mut String, bytes: &[u8]) -> Result<(), AllocError>
    requires { list_all is_name_byte bytes.now ≡ true }
    ensures { OnOk result (string_bytes out.new ≡ string_bytes out.old ++ bytes.now) }
{
    for byte in bytes {
        out.push(char::from(*byte))?;
    }
    Ok(())
}

/// The row and the column of a place, both counted from 1.
fn push_place(out: &mut String, cols: u32, place: u32) -> Result<(), AllocError>
    requires { 0 < cols }
    ensures { OnOk result
        (string_bytes out.new ≡ string_bytes out.old ++ place_name cols place) }
{
    let row = u64::from(place / cols) + 1;
    let col = u64::from(place % cols) + 1;
    write!(out, "row-{row}-col-{col}")
}

/// What is put behind a name that comes again.
fn suffix_of(alloc: Global, tries: usize) -> Result<String, AllocError>
    requires { tries + 1 < 2 ^ 64 }
    ensures { IfOk result (λ text. string_bytes text ≡ suffix tries) }
{
    if tries == 0 {
        return Ok(String::new(alloc));
    }
    let number = tries + 1;
    format!(in alloc; "-{number}")
}

/// So many bytes of the words of a label.
fn front(words: &[u8], most: usize) -> &[u8]
    ensures { result.now ≡ take most words.now }
{
    if most < words.len() {
        &words[..most]
    } else {
        words
    }
}

/// The words of a label, of which so many bytes are kept, or else the place.
fn push_stem(
    out: &mut String,
    cols: u32,
    place: u32,
    words: &[u8],
    most: usize,
) -> Result<(), AllocError>
    requires some { 0 < cols }
    requires bytes { list_all is_name_byte words.now ≡ true }
    ensures { OnOk result (string_bytes out.new
        ≡ string_bytes out.old ++ stem (place_name cols place) words.now most) }
{
    if words.is_empty() {
        return push_place(out, cols, place);
    }
    push_bytes(out, undashed(front(words, most)))
}

/// The form of a field's name once so many forms are taken.
fn form(
    alloc: Global,
    cols: u32,
    place: u32,
    words: &[u8],
    tries: usize,
) -> Result<String, AllocError>
    requires some { 0 < cols }
    requires few { tries + 1 < 2 ^ 64 }
    requires bytes { list_all is_name_byte words.now ≡ true }
    ensures { (label : List ℕ) → words.now ≡ dashed label
        → IfOk result (λ name. string_bytes name ≡ form cols place label tries) }
{
    let suffix = suffix_of(alloc, tries)?;
    let mut name = String::new(alloc);
    let room = MOST_NAME.saturating_sub(suffix.len());
    push_stem(&mut name, cols, place, words, room)?;
    name.push_str(suffix.as_str())?;
    Ok(name)
}

/// Whether a field has the name.
fn is_taken(drafts: &[Drafted], name: &str) -> bool
    ensures { result ≡ is_taken (names_in drafts.now) name.now }
{
    for draft in drafts {
        if name == draft.name.as_str() {
            return true;
        }
    }
    false
}

/// The first form of a field's name that no field before it has.
pub(crate) fn free_name(
    alloc: Global,
    drafts: &[Drafted],
    cols: u32,
    place: u32,
    label: &[u8],
) -> Result<String, AllocError>
    requires { 0 < cols }
    ensures { IfOk result (λ name. string_bytes name
        ≡ free_name (names_in drafts.now) (form cols place label.now)) }
{
    let words = words_of(alloc, label)?;
    for tries in 0..drafts.len() + 1 {
        let name = form(alloc, cols, place, words.as_slice(), tries)?;
        if !is_taken(drafts, name.as_str()) {
            return Ok(name);
        }
    }
    form(alloc, cols, place, words.as_slice(), drafts.len() + 1)
}
