//! Strings and parentheses among the letters of operands.

ghost use Rattle.std.specs.Prelude.{◌≡◌, ◌≤◌, ◌<◌, ◌^◌, ◌+◌, length};
ghost use Rattle.bms_source.specs.Scan.{quote_at, quote_past, quote_after, open_string, outside, depth_after, is_bare, opens, open_parenthesis, comma_in, are_paired, quoted_after, ends, taken_count, taken_quoted};

use crate::letter::{Letter, Place};

/// Where a walk over letters stands.
#[derive(Clone, Copy)]
pub(crate) enum Quote {
    Outside,
    /// In the string that begins at this place.
    Inside(Place),
    /// Behind what ends the string that begins at this place, unless another apostrophe comes at once.
    Behind(Place),
}

fn quote_at(quote: Quote, place: Place) -> Quote
    ensures { result ≡ quote_at quote place }
{
    match quote {
        Quote::Outside => Quote::Inside(place),
        Quote::Inside(begin) => Quote::Behind(begin),
        Quote::Behind(begin) => Quote::Inside(begin),
    }
}

fn quote_past(quote: Quote) -> Quote
    ensures { result ≡ quote_past quote }
{
    match quote {
        Quote::Outside | Quote::Behind(_) => Quote::Outside,
        Quote::Inside(begin) => Quote::Inside(begin),
    }
}

fn quote_after(quote: Quote, letter: Letter) -> Quote
    ensures { result ≡ quote_after quote letter }
{
    if letter.code == b'\'' {
        quote_at(quote, letter.place)
    } else {
        quote_past(quote)
    }
}

/// Where the string begins that is open at the end.
pub(crate) fn open_string(letters: &[Letter]) -> Option<Place>
    ensures { result ≡ open_string letters.now }
{
    let mut quote = Quote::Outside;
    let mut rest = letters;
    while let [letter, others @ ..] = rest {
        quote = quote_after(quote, *letter);
        rest = others;
    }
    match quote {
        Quote::Inside(place) => Some(place),
        Quote::Outside | Quote::Behind(_) => None,
    }
}

/// How deep a walk stands in parentheses outside strings.
#[derive(Clone, Copy)]
pub(crate) struct Depth {
    pub(crate) quoted: bool,
    pub(crate) depth: usize,
}

/// Outside all.
fn outside() -> Depth
    ensures { result ≡ outside }
{
    Depth {
        quoted: false,
        depth: 0,
    }
}

/// After a further letter. A parenthesis that ends nothing changes nothing.
#[tactic(auto, unfolding(crate::specs::Scan::depth_after))]
fn depth_after(depth: Depth, code: u8) -> Depth
    requires { depth.depth + 1 < 2 ^ 64 }
    ensures after { result ≡ depth_after depth code }
    ensures more { result.depth ≤ depth.depth + 1 }
{
    let Depth {
        quoted,
        depth: deep,
    } = depth;
    if code == b'\'' {
        Depth {
            quoted: !quoted,
            depth: deep,
        }
    } else if quoted {
        depth
    } else if code == b'(' {
        Depth {
            quoted,
            depth: deep + 1,
        }
    } else if code == b')' {
        Depth {
            quoted,
            depth: deep.saturating_sub(1),
        }
    } else {
        depth
    }
}

/// Whether a character is this one, outside strings and parentheses.
fn is_bare(code: u8, depth: Depth, here: u8) -> bool
    ensures { result ≡ is_bare code depth here }
{
    here == code && !depth.quoted && depth.depth == 0
}

fn opens(depth: Depth, next: Depth) -> bool
    ensures { result ≡ opens depth next }
{
    depth.depth == 0 && next.depth == 1
}

/// Where the first parenthesis begins that is open at the end.
pub(crate) fn open_parenthesis(letters: &[Letter]) -> Option<Place>
    ensures { result ≡ open_parenthesis letters.now }
{
    let mut depth = outside();
    let mut place = None;
    let mut rest = letters;
    while let [letter, others @ ..] = rest {
        let next = depth_after(depth, letter.code);
        if opens(depth, next) {
            place = Some(letter.place);
        }
        depth = next;
        rest = others;
    }
    if depth.depth == 0 { None } else { place }
}

/// How many letters stand before the first comma outside strings and parentheses.
pub(crate) fn comma_in(letters: &[Letter]) -> usize
    ensures count { result ≡ comma_in letters.now }
    ensures inside { result ≤ length letters.now }
{
    let mut depth = outside();
    let mut count = 0usize;
    let mut rest = letters;
    while let [letter, others @ ..] = rest {
        if is_bare(b',', depth, letter.code) {
            return count;
        }
        depth = depth_after(depth, letter.code);
        count += 1;
        rest = others;
    }
    count
}

/// Whether parentheses outside strings stand in pairs.
pub(crate) fn are_paired(letters: &[Letter]) -> bool
    ensures { result ≡ are_paired letters.now }
{
    let mut depth = outside();
    let mut rest = letters;
    while let [letter, others @ ..] = rest {
        if is_bare(b')', depth, letter.code) {
            return false;
        }
        depth = depth_after(depth, letter.code);
        rest = others;
    }
    depth.depth == 0
}

fn quoted_after(quoted: bool, code: u8) -> bool
    ensures { result ≡ quoted_after quoted code }
{
    if code == b'\'' { !quoted } else { quoted }
}

fn ends(quoted: bool, code: u8) -> bool
    ensures { result ≡ ends quoted code }
{
    code == b' ' && !quoted
}

/// How many letters belong to operands, up to a blank outside strings; and whether they end in a string.
pub(crate) fn taken(letters: &[Letter], quoted: bool) -> (usize, bool)
    ensures count { result.0 ≡ taken_count quoted letters.now }
    ensures quoted { result.1 ≡ taken_quoted quoted letters.now }
    ensures inside { result.0 ≤ length letters.now }
{
    let mut quoted = quoted;
    let mut count = 0usize;
    let mut rest = letters;
    while let [letter, others @ ..] = rest {
        if ends(quoted, letter.code) {
            return (count, false);
        }
        quoted = quoted_after(quoted, letter.code);
        count += 1;
        rest = others;
    }
    (count, quoted)
}
