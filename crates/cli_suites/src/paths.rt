//! Paths of files, and whether a path is among them.

ghost use Rattle.std.specs.Prelude.{◌≡◌, IfOk, OnOk, map, string_bytes};
ghost use Rattle.cli_suites.specs.Paths.{AreThese, has_path};

use std::alloc::{AllocError, Global};
use std::collections::BTreeSet;
use std::marker::Model;

/// Paths in their order, with a set of them.
#[derive(Drop)]
pub(crate) struct Paths<'a> {
    list: &'a [String],
    names: BTreeSet<String>,
}

impl<'a> Model for Paths<'a> {
    ghost use Rattle.std.specs.Prelude.{List, ℕ, map, string_bytes};
    ghost use Rattle.cli_suites.specs.Paths.{AreThese};

    ghost Value = { List (List ℕ) };

    ghost view = { λ p. map string_bytes p.list.now };

    ghost invariant = { λ p. AreThese (map string_bytes p.list.now) p.names };
}

/// The set of paths.
fn names_of(alloc: Global, list: &[String]) -> Result<BTreeSet<String>, AllocError>
    ensures { IfOk result (λ names. AreThese (map string_bytes list.now) names) }
{
    let mut names = BTreeSet::new(alloc);
    for path in list {
        names.insert(String::from_str(alloc, path.as_str())?)?;
    }
    Ok(names)
}

impl<'a> Paths<'a> {
    pub(crate) fn new(alloc: Global, list: &'a [String]) -> Result<Paths<'a>, AllocError>
        ensures { IfOk result (λ paths. paths ≡ map string_bytes list.now) }
    {
        let names = names_of(alloc, list)?;
        Ok(Paths { list, names })
    }

    pub(crate) fn has(&self, path: &str) -> bool
        ensures { result ≡ has_path self.now path.now }
    {
        self.names.contains(path)
    }
}
