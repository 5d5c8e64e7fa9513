//! Which screens are left in a folder.

ghost use Rattle.std.specs.Prelude.{◌≡◌, map};
ghost use Rattle.std.specs.List.{list_any};
ghost use Rattle.std.specs.Str.{bytes_eq};
ghost use Rattle.cli_commands.specs.Held.{records_held};

use std::alloc::{AllocError, Global};
use std::marker::Model;

/// The most screens that are left.
const MOST_SCREENS: usize = 1_000;

/// The drafts of the screens that were left.
#[derive(Debug, Drop)]
pub struct Album {
    drafts: Vec<Vec<u8>>,
}

impl Model for Album {
    ghost use Rattle.std.specs.Prelude.{ℕ, List};
    ghost use Rattle.cli_commands.specs.Held.{records_held};

    ghost Value = { List (List ℕ) };

    ghost view = { λ a. records_held a.drafts.items };
}

/// Whether a draft is one of these.
fn is_one(drafts: &[Vec<u8>], draft: &[u8]) -> bool
    ensures { result ≡ list_any (λ other. bytes_eq draft.now other.items) drafts.now }
{
    drafts.iter().any(|other| *draft == **other)
}

/// Whether a draft is among these.
#[tactic(auto, using(crate::proofs::Lists::any_mapped))]
fn is_among(drafts: &[Vec<u8>], draft: &[u8]) -> bool
    ensures { result ≡ list_any (λ other. bytes_eq draft.now other) (records_held drafts.now) }
{
    is_one(drafts, draft)
}

impl Album {
    ghost use Rattle.std.specs.Prelude.{◌≡◌, [], IfOk, OnErr};
    ghost use Rattle.tap_screens.specs.Album.{drafts_after, is_new};

    /// None yet.
    pub fn new(alloc: Global) -> Album
        ensures { result ≡ [] }
    {
        Album {
            drafts: Vec::new(alloc),
        }
    }

    fn is_new(&self, draft: &[u8]) -> bool
        ensures { result ≡ is_new self.now draft.now }
    {
        if self.drafts.len() >= MOST_SCREENS {
            return false;
        }
        !is_among(&self.drafts, draft)
    }

    /// Whether a screen of this draft is new: none that was left has the same draft, and fewer than 1,000 were left. If it is, it
    /// counts as left from now on.
    ///
    /// # Errors
    ///
    /// Where a request for memory was refused; then it doesn't count as left.
    pub fn take(&mut self, alloc: Global, draft: &[u8]) -> Result<bool, AllocError>
        ensures new { IfOk result (λ new. new ≡ is_new self.old draft.now) }
        ensures after { IfOk result (λ new. self.new ≡ drafts_after self.old draft.now) }
        ensures err { OnErr result (self.new ≡ self.old) }
    {
        if !self.is_new(draft) {
            return Ok(false);
        }
        let copy = draft.to_vec(alloc)?;
        self.drafts.push(copy)?;
        Ok(true)
    }
}
