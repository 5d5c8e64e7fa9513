//! A tap whose screens are judged.

ghost use Rattle.std.specs.Prelude.{◌≡◌, ◌++◌, ◌<◌, ℕ, List, [], true, false, length, IfOk};
ghost use Rattle.tn_relay.specs.Relayed.{AreFaithful, nothing_passed};
ghost use Rattle.cli_taps.specs.Listening.{listening_first};
ghost use Rattle.cli_taps.specs.Rounds.{EndsRound};
ghost use Rattle.cli_taps.specs.Taps.{TellsAll};
ghost use Rattle.tap_screens.specs.TapView.{asked_seen};
ghost use Rattle.tap_screens.specs.Taps.{IsAt, PrintsAll, Takes, asked_of};

use crate::folder::Folder;
use crate::leaf::LeftScreen;
use crate::watch::Watch;
use cli_taps::{Tap, Turn};
use std::alloc::{AllocError, Global};
use std::marker::Model;
use tn_relay::Line;
use tn_session::History;

/// What is asked of a session's screens.
#[derive(Clone, Copy)]
pub struct Asked<'a> {
    /// The layouts by which they are judged, if they are.
    pub layouts: Option<&'a Folder>,
    /// Whether they are left.
    pub leaves: bool,
}

/// A tap, and what is asked of the screens that pass. Contracts see what passed, what the tap told, and all that was printed.
#[derive(Drop)]
pub struct JudgedTap<'a, T: Line, H: Line> {
    tap: Tap<T, H>,
    watch: Option<Watch<'a>>,
    printed: History<u8>,
    /// Whether memory was refused: nothing more is printed then, and all is handed on.
    is_silent: bool,
}

impl<'a, T: Line, H: Line> Model for JudgedTap<'a, T, H> {
    ghost use Rattle.std.specs.Prelude.{◌≡◌, false};
    ghost use Rattle.tap_screens.specs.Taps.{IsAt, Judged, asked_of};

    ghost Value = { Judged };

    ghost view = { λ j. record {
      tapped = j.tap;
      asked = asked_of j.watch;
      printed = j.printed.items;
      is_silent = j.is_silent;
    } };

    ghost invariant = { λ j. j.is_silent ≡ false → IsAt j.watch j.tap.told j.printed.items };
}

/// Adds bytes to a history.
fn add_bytes(history: &mut History<u8>, bytes: &[u8])
    ensures { history.new.items ≡ history.old.items ++ bytes.now }
{
    'bytes: for byte in bytes {
        *history = history.and(byte);
    }
}

/// What watches a session of which this is asked.
fn watch_for<'a>(alloc: Global, asked: Option<Asked<'a>>) -> Option<Watch<'a>>
    ensures at { IsAt result [] [] }
    ensures asked { asked_of result ≡ asked_seen asked.entry }
{
    match asked {
        Some(Asked { layouts, leaves }) => Some(Watch::new(alloc, layouts, leaves)),
        None => None,
    }
}

/// What is printed where this is told.
fn printed_with(
    alloc: Global,
    watch: &mut Option<Watch<'_>>,
    told: &[u8],
    left: &mut Vec<LeftScreen>,
) -> Result<Vec<u8>, AllocError>
    ensures { IfOk result (λ text. Takes watch.old told.now text.items watch.new) }
{
    match watch {
        None => told.to_vec(alloc),
        Some(watch) => {
            let mut text = Vec::new(alloc);
            watch.take(alloc, told, &mut text, left)?;
            Ok(text)
        }
    }
}

/// Prints what is due where this is told, unless memory was refused before.
fn print(
    alloc: Global,
    watch: &mut Option<Watch<'_>>,
    is_silent: &mut bool,
    told: &[u8],
    out: &mut Vec<u8>,
    left: &mut Vec<LeftScreen>,
) -> Vec<u8>
    ensures prints { out.new.items ≡ out.old.items ++ result.items }
    ensures takes { is_silent.new ≡ false → (is_silent.old ≡ false)
        × Takes watch.old told.now result.items watch.new }
{
    if *is_silent {
        return Vec::new(alloc);
    }
    let Ok(text) = printed_with(alloc, watch, told, left) else {
        *is_silent = true;
        return Vec::new(alloc);
    };
    if out.extend_from_slice(&text).is_err() {
        *is_silent = true;
        return Vec::new(alloc);
    }
    text
}

impl<'a, T: Line, H: Line> JudgedTap<'a, T, H> {
    /// A tap between two lines over which nothing passed; its session's number stands in what is told.
    ///
    /// # Errors
    ///
    /// Where room for the bytes of both ways, or for two records of each side, was refused.
    pub fn new(
        alloc: Global,
        number: u64,
        terminal: T,
        host: H,
        asked: Option<Asked<'a>>,
    ) -> Result<JudgedTap<'a, T, H>, AllocError>
        requires terminal { (T.received terminal ≡ []) × (T.sent terminal ≡ [])
            × (T.told_end terminal ≡ false)
            × (T.read_answers terminal ≡ []) × (T.write_answers terminal ≡ []) }
        requires host { (H.received host ≡ []) × (H.sent host ≡ [])
            × (H.told_end host ≡ false)
            × (H.read_answers host ≡ []) × (H.write_answers host ≡ []) }
        ensures { IfOk result (λ judged. judged ≡ record {
          tapped = record {
            number = number;
            relayed = nothing_passed;
            listening = listening_first number;
            told = [];
            is_deaf = false;
          };
          asked = asked_seen asked.entry;
          printed = [];
          is_silent = false;
        }) }
    {
        Ok(JudgedTap {
            tap: Tap::new(alloc, number, terminal, host)?,
            watch: watch_for(alloc, asked),
            printed: History::new(),
            is_silent: false,
        })
    }

    /// What goes to a side is a front of what the other sent, and all of it once the side is told the end. What is told is what the pieces
    /// of the two streams tell, in the order in which they were read; and what is printed is a function of that, and of the layouts.
    pub fn keeps_promise(&self)
        ensures faithful { AreFaithful self.now.tapped.relayed }
        ensures told { TellsAll self.now.tapped }
        ensures prints { PrintsAll self.now }
    {
        self.tap.keeps_promise();
        let _ = &self.printed;
    }

    /// The terminal's line.
    pub fn terminal(&self) -> &T
        ensures received { T.received result.now ≡ self.now.tapped.relayed.to_host.read }
        ensures sent { T.sent result.now ≡ self.now.tapped.relayed.to_terminal.written }
    {
        self.tap.terminal()
    }

    /// The host's line.
    pub fn host(&self) -> &H
        ensures received { H.received result.now ≡ self.now.tapped.relayed.to_terminal.read }
        ensures sent { H.sent result.now ≡ self.now.tapped.relayed.to_host.written }
    {
        self.tap.host()
    }

    /// Passes bytes both ways until neither goes on, or others should have their turn; and adds what is printed of them, and the screens
    /// that are left. It waits only where both lines were just asked and had nothing, and ends only where both ways are over.
    pub fn go_on(
        &mut self,
        alloc: Global,
        scratch: &mut [u8],
        out: &mut Vec<u8>,
        left: &mut Vec<LeftScreen>,
    ) -> Turn
        ensures ends { 0 < length scratch.old → EndsRound result self.new.tapped.relayed }
        ensures prints { (text : List ℕ) × (out.new.items ≡ out.old.items ++ text)
            × (self.new.printed ≡ self.old.printed ++ text) }
        ensures asked { self.new.is_silent ≡ false → self.new.asked ≡ self.old.asked }
    {
        let mut told = Vec::new(alloc);
        let turn = self.tap.go_on(alloc, scratch, &mut told);
        let text = print(
            alloc,
            &mut self.watch,
            &mut self.is_silent,
            &told,
            out,
            left,
        );
        add_bytes(&mut self.printed, &text);
        turn
    }
}
