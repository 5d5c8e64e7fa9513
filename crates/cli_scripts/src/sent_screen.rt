//! Screens on which keys send.

ghost use Rattle.std.specs.Prelude.{◌≡◌, ◌++◌, OnOk, OnErr};
ghost use Rattle.tn_session.specs.TerminalTalk.{OfStanding};
ghost use Rattle.cli_scripts.specs.SentOn.{is_free, is_sending, sends_at, sent_on, collected};

use ds_codec::Aid;
use ds_keys::Key;
use ds_screen::{Lock, PlaneCells, Screen};
use script_checks::records_copied;
use std::alloc::{AllocError, Global};
use std::marker::Model;
use tn_session::{KeptRecord, TerminalSession};

/// A screen on which a key sends, and the records that made it.
#[derive(Drop)]
pub struct SentScreen {
    screen: Screen<PlaneCells>,
    turns: Option<Vec<KeptRecord>>,
}

impl Model for SentScreen {
    ghost use Rattle.std.specs.Prelude.{option_map};
    ghost use Rattle.script_checks.specs.KnownView.{known_view};
    ghost use Rattle.cli_scripts.specs.SentOn.{SentOn};

    ghost Value = { SentOn };

    ghost view = { λ s. record { picture = s.screen; turns = option_map known_view s.turns } };
}

impl SentScreen {
    ghost use Rattle.std.specs.Prelude.{◌≡◌, IfOk};
    ghost use Rattle.script_checks.specs.KnownView.{turns_seen};

    /// A copy of a screen, and of the records that made it.
    fn copied(
        alloc: Global,
        screen: &Screen<PlaneCells>,
        turns: Option<&[KeptRecord]>,
    ) -> Result<SentScreen, AllocError>
        ensures { IfOk result (λ copy.
            copy ≡ record { picture = screen.now; turns = turns_seen turns.entry }) }
    {
        let screen = screen.copied(alloc)?;
        match turns {
            Some(kept) => {
                let turns = Some(records_copied(alloc, kept)?);
                Ok(SentScreen { screen, turns })
            }
            None => Ok(SentScreen {
                screen,
                turns: None,
            }),
        }
    }

    /// The screen, as it was before the key.
    pub fn screen(&self) -> &Screen<PlaneCells>
        ensures { result.now ≡ self.now.picture }
    {
        &self.screen
    }

    /// The records that made it, where they are kept.
    pub fn turns(&self) -> Option<&[KeptRecord]>
        ensures { turns_seen result ≡ self.now.turns }
    {
        match &self.turns {
            Some(kept) => Some(kept.as_slice()),
            None => None,
        }
    }
}

fn is_free(session: &TerminalSession) -> bool
    ensures { OfStanding (λ state. is_free state.terminal.lock) session.now.talk result }
{
    matches!(session.screen().lock(), Lock::Free)
}

/// Whether a key is Enter, a PF or a PA key.
fn is_sending(key: &Key) -> bool
    ensures { result ≡ is_sending key.now }
{
    match key {
        Key::Attention(aid) => *aid != Aid::clear(),
        _ => false,
    }
}

/// Whether such a key sends.
fn sends_at(session: &TerminalSession, key: &Key) -> bool
    ensures { result ≡ sends_at key.now session.now.talk }
{
    session.is_ready() && is_free(session) && is_sending(key)
}

/// Keeps a copy of the screen on which a key sends.
fn collect_sent(
    alloc: Global,
    session: &TerminalSession,
    key: &Key,
    screens: &mut Vec<SentScreen>,
) -> Result<(), AllocError>
    ensures grown { OnOk result (screens.new.items
        ≡ screens.old.items ++ sent_on key.now session.now.talk) }
    ensures same { OnErr result (screens.new.items ≡ screens.old.items) }
{
    if !sends_at(session, key) {
        return Ok(());
    }
    let screen = SentScreen::copied(alloc, session.screen(), session.turns())?;
    screens.push(screen)?;
    Ok(())
}

/// Keeps a copy of the screen on which a key sends, where such screens are collected.
pub(crate) fn collect(
    alloc: Global,
    collects: bool,
    session: &TerminalSession,
    key: &Key,
    screens: &mut Vec<SentScreen>,
) -> Result<(), AllocError>
    ensures grown { OnOk result (screens.new.items
        ≡ screens.old.items ++ collected collects (sent_on key.now session.now.talk)) }
    ensures same { OnErr result (screens.new.items ≡ screens.old.items) }
{
    if collects {
        collect_sent(alloc, session, key, screens)
    } else {
        Ok(())
    }
}
