//! The terminal.

use crate::keys::press_key;
use crate::refused::Refused;
use crate::reply::{KeyReply, RecordReply};
use crate::strokes::strike_stroke;
use crate::target::{apply_record, read_record, take_record};
use ds_codec::{Command, Geometry};
use ds_inbound::{write_buffer, write_inbound};
use ds_keys::Key;
use ds_screen::{Cells, Effect, Screen};
use ds_strokes::Stroke;
use std::alloc::{AllocError, Global};
use std::marker::Model;

/// A terminal: a screen that takes records and keys, and sends (GA23-0059, "3270 data stream").
#[derive(Drop)]
pub struct Terminal<C: Cells> {
    screen: Screen<C>,
}

impl<C: Cells> Model for Terminal<C> {
    ghost use Rattle.ds_screen.specs.Picture.{Picture};

    ghost Value = { Picture };

    ghost view = { λ t. t.screen };
}

impl<C: Cells> Terminal<C> {
    ghost use Rattle.std.specs.Prelude.{◌≡◌, IfOk, OnErr};
    ghost use Rattle.ds_codec.specs.Reading.{read_of};
    ghost use Rattle.ds_screen.specs.Records.{new_picture, RecordShows, IsRefusedBy};
    ghost use Rattle.ds_terminal.specs.Taking.{Takes};
    ghost use Rattle.ds_terminal.specs.Terminal.{turn, received, IsAnswered, key_turn, pressed, IsSent};
    ghost use Rattle.ds_terminal.specs.Seen.{reply_seen, key_reply_seen};
    ghost use Rattle.ds_terminal.specs.Strokes.{stroke_turn};
    ghost use Rattle.ds_strokes.specs.StrokeStep.{operating, after_stroke};

    /// A new terminal of this geometry: nulls of the default size, the cursor at 0, the keyboard waiting
    /// for a record, no attention key. Reserves two buffers of the larger size.
    pub fn new(alloc: Global, geometry: Geometry) -> Result<Terminal<C>, AllocError>
        ensures { IfOk result (λ terminal. terminal ≡ new_picture geometry) }
    {
        let screen = Screen::new(alloc, geometry)?;
        Ok(Terminal { screen })
    }

    /// Another terminal that shows and keeps the same. Reserves two buffers of the larger size.
    pub fn copied(&self, alloc: Global) -> Result<Terminal<C>, AllocError>
        ensures { IfOk result (λ terminal. terminal ≡ self.now) }
    {
        let screen = self.screen.copied(alloc)?;
        Ok(Terminal { screen })
    }

    /// What the terminal shows and keeps.
    pub fn screen(&self) -> &Screen<C>
        ensures { result.now ≡ self.now }
    {
        &self.screen
    }

    /// Shows a record, or refuses it and changes nothing; a read and No-operation are refused as A3.
    /// Takes no memory.
    pub fn show(&mut self, bytes: &[u8]) -> Result<Effect, Refused>
        ensures { Takes RecordShows IsRefusedBy
            (read_of self.old.geometry.mode bytes.now) self.old result self.new }
    {
        take_record(&mut self.screen, bytes)
    }

    /// Takes a record: shows it, answers it where it is a read, and does nothing for No-operation; or
    /// refuses it and changes nothing. Only an answer takes memory; where it was refused, nothing is changed.
    pub fn receive(&mut self, alloc: Global, bytes: &[u8]) -> Result<RecordReply, AllocError>
        ensures turned { IfOk result
            (λ reply. turn self.new (reply_seen reply) ≡ received self.old bytes.now) }
        ensures unchanged { OnErr result (self.new ≡ self.old) }
        ensures asks { OnErr result (IsAnswered (received self.old bytes.now).reply) }
    {
        receive_record(alloc, &mut self.screen, bytes)
    }

    /// Presses a key, and gives the bytes that it sends. Only these take memory, so a key that sends nothing is never refused;
    /// where memory was refused, the key isn't pressed and nothing is changed.
    pub fn press(&mut self, alloc: Global, key: Key) -> Result<KeyReply, AllocError>
        ensures turned { IfOk result
            (λ reply. key_turn self.new (key_reply_seen reply) ≡ pressed self.old key) }
        ensures unchanged { OnErr result (self.new ≡ self.old) }
        ensures asks { OnErr result (IsSent (pressed self.old key).reply) }
    {
        press_key(alloc, &mut self.screen, key)
    }

    /// Strikes, with insert mode on or off, and gives the bytes that this sends: as [`ds_strokes::strike`], and where it is an
    /// attention key as `press`. Only a stroke that sends takes memory; where this was refused, nothing is struck and nothing
    /// is changed.
    pub fn strike(
        &mut self,
        alloc: Global,
        inserts: &mut bool,
        stroke: Stroke,
    ) -> Result<KeyReply, AllocError>
        ensures turned { IfOk result (λ reply. key_turn self.new (key_reply_seen reply)
            ≡ stroke_turn (operating self.old inserts.old) stroke) }
        ensures inserts { IfOk result (λ reply. inserts.new
            ≡ (after_stroke (operating self.old inserts.old) stroke).inserts) }
        ensures unchanged { OnErr result
            (operating self.new inserts.new ≡ operating self.old inserts.old) }
        ensures asks { OnErr result
            (IsSent (stroke_turn (operating self.old inserts.old) stroke).reply) }
    {
        strike_stroke(alloc, &mut self.screen, inserts, stroke)
    }
}

ghost use Rattle.std.specs.Prelude.{◌≡◌, IfOk, OnErr};
ghost use Rattle.ds_terminal.specs.Terminal.{turn, received, IsAnswered};
ghost use Rattle.ds_terminal.specs.Seen.{reply_seen};

/// Takes a record, on the terminal's screen.
fn receive_record<C: Cells>(
    alloc: Global,
    screen: &mut Screen<C>,
    bytes: &[u8],
) -> Result<RecordReply, AllocError>
    ensures turned { IfOk result
        (λ reply. turn screen.new (reply_seen reply) ≡ received screen.old bytes.now) }
    ensures unchanged { OnErr result (screen.new ≡ screen.old) }
    ensures asks { OnErr result (IsAnswered (received screen.old bytes.now).reply) }
{
    let record = match read_record(screen, bytes) {
        Ok(record) => record,
        Err(refused) => return Ok(RecordReply::Refused(refused)),
    };
    match record.command() {
        Command::ReadBuffer => Ok(RecordReply::Sent(write_buffer(alloc, screen)?)),
        Command::ReadModified => Ok(RecordReply::Sent(write_inbound(alloc, screen, false)?)),
        Command::ReadModifiedAll => Ok(RecordReply::Sent(write_inbound(alloc, screen, true)?)),
        Command::NoOperation => Ok(RecordReply::Nothing),
        Command::Write(_)
        | Command::EraseWrite(_)
        | Command::EraseWriteAlternate(_)
        | Command::EraseAllUnprotected => match apply_record(screen, &record) {
            Ok(effect) => Ok(RecordReply::Shown(effect)),
            Err(refused) => Ok(RecordReply::Refused(refused)),
        },
    }
}
