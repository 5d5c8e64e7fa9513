//! A text in the usual form of layouts, read in one walk: pairs of a key and a string or a scalar, and behind them the tables under
//! `[[field]]`, each of such pairs. A text of another form is left to TOML's own reader, which keeps a tree for all that may still come.

ghost use Rattle.std.specs.Prelude.{◌≡◌, Ok, IfOk, IfSome};
ghost use Rattle.plain_tables.specs.Plain.{GoesOn};
ghost use Rattle.scr_layout.specs.Rows.{IsSmall};
ghost use Rattle.scr_layout.specs.Layout.{layout_of};
ghost use Rattle.scr_layout.specs.Section.{members_of, HasFields, declared};

use crate::fault::LayoutKey;
use crate::listed::Listed;
use crate::section::{Section, with_section};
use crate::top::{Head, Version, head_of};
use ds_codec::Size;
use plain_tables::{header, pair, pairs};
use std::alloc::{AllocError, Global};
use toml::map::Map;
use toml_parser::text::{first, skip_blank};

/// Reads pairs into a field for as long as they come, and gives what follows them: none where one isn't of the usual form.
fn field_pairs<'a>(
    alloc: Global,
    s: &'a str,
    section: &mut Section,
) -> Result<Option<&'a str>, AllocError>
    ensures { IfOk result (λ found. IfSome found (λ rest.
        GoesOn (members_of section.old) s.now (members_of section.new) rest.now)) }
{
    let mut rest = s;
    'pairs: loop {
        let Some((found, after)) = pair(alloc, skip_blank(rest, true))? else {
            return Ok(Some(rest));
        };
        let (key, value) = found;
        if !section.put(key, value) {
            return Ok(None);
        }
        rest = after;
    }
}

/// The entries of the fields behind the first header `[[field]]`, up to the end of the text: none where one isn't of the usual form.
fn entries(
    alloc: Global,
    version: Version,
    size: Size,
    s: &str,
) -> Result<Option<Listed>, AllocError>
    requires { IsSmall size }
    ensures { IfOk result (λ found. IfSome found (HasFields version size s.now)) }
{
    let mut listed = Listed::new(alloc);
    let mut rest = s;
    'fields: for count in 0..1000u32 {
        let mut section = Section::new();
        let Some(after) = field_pairs(alloc, rest, &mut section)? else {
            return Ok(None);
        };
        let Some(more) = with_section(alloc, version, size, listed, &section)? else {
            return Ok(None);
        };
        let start = skip_blank(after, true);
        if start.is_empty() {
            return Ok(Some(more));
        }
        let Some(behind) = header(LayoutKey::Field.word(), start) else {
            return Ok(None);
        };
        listed = more;
        rest = behind;
    }
    Ok(None)
}

/// What the text says, where it has the usual form and nothing of it is to be refused.
///
/// # Errors
///
/// Where a request for memory was refused.
pub(crate) fn plain_parts(alloc: Global, text: &str) -> Result<Option<(Head, Listed)>, AllocError>
    ensures { IfOk result (λ found. IfSome found (λ parts.
        layout_of text.now ≡ Ok (declared parts.0 parts.1))) }
{
    if first(text) == 0xEF {
        return Ok(None);
    }
    let mut top = Map::new(alloc);
    let Some(rest) = pairs(alloc, text, &mut top)? else {
        return Ok(None);
    };
    let Some(head) = head_of(&top) else {
        return Ok(None);
    };
    let Some(behind) = header(LayoutKey::Field.word(), skip_blank(rest, true)) else {
        return Ok(None);
    };
    match entries(alloc, head.version, head.size, behind)? {
        Some(listed) => Ok(Some((head, listed))),
        None => Ok(None),
    }
}
