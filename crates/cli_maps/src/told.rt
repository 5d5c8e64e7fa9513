//! The maps that are asked for.

ghost use Rattle.std.specs.Prelude.{◌≡◌, ◌<◌, ◌^◌, length, IfOk};
ghost use Rattle.std.specs.List.{filter};
ghost use Rattle.bms_source.specs.Results.{Gives};
ghost use Rattle.cli_maps.specs.Asked.{is_asked, is_name, maps_asked, name_in, named, without};

use bms_map::{Map, read_maps};
use bms_source::{Refusal, SourceError, Why, upper};
use std::alloc::{AllocError, Global};

/// Whether a name in upper case is this one, in either case.
fn is_name(own: &[u8], name: &[u8]) -> bool
    ensures { result ≡ is_name own.now name.now }
{
    match own {
        [] => name.is_empty(),
        [code, codes @ ..] => match name {
            [] => false,
            [other, others @ ..] => *code == upper(*other) && is_name(codes, others),
        },
    }
}

fn is_asked(map: &Map, name: Option<&[u8]>) -> bool
    ensures { result ≡ is_asked (name_in name.entry) map.now }
{
    match name {
        Some(name) => is_name(map.name.as_slice(), name),
        None => true,
    }
}

/// A refusal of a source that is good, which has no place.
pub(crate) fn without_place(alloc: Global, why: Why) -> Refusal
    ensures { result ≡ without why }
{
    Refusal {
        why,
        word: Vec::new(alloc),
        place: None,
    }
}

/// Those of a name.
fn those_asked(alloc: Global, maps: Vec<Map>, name: Option<&[u8]>) -> Result<Vec<Map>, AllocError>
    ensures { IfOk result (λ asked. asked.items
        ≡ filter (is_asked (name_in name.entry)) maps.items) }
{
    let mut asked = Vec::new(alloc);
    for map in maps {
        if is_asked(&map, name) {
            asked.push(map)?;
        }
    }
    Ok(asked)
}

/// The maps that are asked for: those of this name, or all where none is named.
pub(crate) fn named(
    alloc: Global,
    maps: Vec<Map>,
    name: Option<&[u8]>,
) -> Result<Vec<Map>, SourceError>
    ensures { Gives (λ maps. maps.items) result (named (name_in name.entry) maps.items) }
{
    let asked = those_asked(alloc, maps, name)?;
    if asked.is_empty() {
        return Err(SourceError::Refused(without_place(alloc, Why::NoSuchMap)));
    }
    Ok(asked)
}

/// The maps of a source that are asked for.
pub(crate) fn maps_asked(
    alloc: Global,
    source: &[u8],
    name: Option<&[u8]>,
) -> Result<Vec<Map>, SourceError>
    requires { length source.now < 2 ^ 62 }
    ensures { Gives (λ maps. maps.items) result (maps_asked (name_in name.entry) source.now) }
{
    match read_maps(alloc, source) {
        Ok(maps) => named(alloc, maps, name),
        Err(error) => Err(error),
    }
}
