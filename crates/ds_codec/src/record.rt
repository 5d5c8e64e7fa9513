//! Outbound records (GA23-0059, "Commands" and "Orders").

use crate::command::{Command, CommandCode};
use crate::front::front_order;
use crate::order::Placed;
use crate::refused::{Refused, Why};
use crate::size::Mode;
use crate::write_control::WriteControlCharacter;
use std::marker::Model;

/// A record that was read: a command, and orders that are lent from its bytes. They were all looked
/// at by `read`, so walking them cannot fail.
#[derive(Debug, Drop)]
pub struct Record<'a> {
    mode: Mode,
    command: Command,
    orders: &'a [u8],
    need: u64,
}

impl<'a> Model for Record<'a> {
    ghost use Rattle.std.specs.Prelude.{IsOk};
    ghost use Rattle.ds_codec.specs.Record.{Message};
    ghost use Rattle.ds_codec.specs.Reading.{orders_from, sites_in};
    ghost use Rattle.ds_codec.specs.Surely.{IsNeedOfAll};

    ghost Value = { Message };

    ghost view = { λ r. record { command = r.command; orders = sites_in (orders_from r.mode 0 2 r.orders.now) } };

    ghost invariant = { λ r. IsOk (orders_from r.mode 0 2 r.orders.now)
        × IsNeedOfAll r.need (sites_in (orders_from r.mode 0 2 r.orders.now)) };
}

impl<'a> Record<'a> {
    ghost use Rattle.std.specs.Prelude.{◌≡◌, ℕ, IfOk, IfErr, Ok, Err};
    ghost use Rattle.ds_codec.specs.declared.refused.Why.{Why};
    ghost use Rattle.ds_codec.specs.Record.{Message, SpellsRecord, IsRefusedAt, HaveSpelling, AreLaidOut};
    ghost use Rattle.ds_codec.specs.Reading.{read_of};
    ghost use Rattle.ds_codec.specs.Surely.{are_surely_done};

    /// Reads a record: the one command and orders that its bytes spell, each text and each list of pairs
    /// where it stands among them, or the leftmost fault. Within an order a missing byte comes before a
    /// bad one.
    pub fn read(mode: Mode, bytes: &'a [u8]) -> Result<Record<'a>, Refused>
        ensures spelled { IfOk result (λ message. SpellsRecord mode message bytes.now) }
        ensures only { (message : Message) → SpellsRecord mode message bytes.now
            → result ≡ Ok message }
        ensures refused { IfErr result (λ e. IsRefusedAt mode bytes.now e.at e.why) }
        ensures refused_only { (at : ℕ) (why : Why) → IsRefusedAt mode bytes.now at why
            → result ≡ Err (record { at = at; why = why }) }
        ensures exact { result ≡ read_of mode bytes.now }
        ensures laid { IfOk result (λ message. AreLaidOut bytes.now message.orders) }
    {
        read_all(mode, bytes)
    }

    /// What the record tells the terminal to do.
    pub fn command(&self) -> Command
        ensures { result ≡ self.now.command }
    {
        self.command
    }

    /// Whether each order is done whatever a buffer of so many positions holds: its addresses are all below the number, and
    /// no order is a Modify Field. So a write that erases a buffer of that size can't be refused. Looks at no order again.
    pub fn is_surely_done(&self, cells: u32) -> bool
        ensures { result ≡ are_surely_done cells self.now.orders }
    {
        self.need <= u64::from(cells)
    }

    /// The orders with their places, from first to last. Takes no memory.
    pub fn orders(&self) -> Orders<'a>
        ensures all { result ≡ self.now.orders }
        ensures spelled { HaveSpelling self.now.orders }
    {
        Orders {
            mode: self.mode,
            at: 2,
            rest: self.orders,
        }
    }
}

/// The orders of a record that are still to come.
#[derive(Debug, Drop)]
pub struct Orders<'a> {
    mode: Mode,
    at: usize,
    rest: &'a [u8],
}

impl<'a> Model for Orders<'a> {
    ghost use Rattle.std.specs.Prelude.{◌+◌, ◌<◌, ◌^◌, List, IsOk, length};
    ghost use Rattle.ds_codec.specs.Order.{Site};
    ghost use Rattle.ds_codec.specs.Reading.{orders_from, sites_in};

    ghost Value = { List Site };

    ghost view = { λ o. sites_in (orders_from o.mode 0 o.at o.rest.now) };

    ghost invariant = { λ o. IsOk (orders_from o.mode 0 o.at o.rest.now) × (o.at + length o.rest.now < 2 ^ 64) };
}

impl<'a> Iterator for Orders<'a> {
    type Item = Placed<'a>;

    ghost use Rattle.std.specs.Iterator.{YieldsFirstBy, item_count};
    ghost use Rattle.ds_codec.specs.Order.{site_of};

    ghost next_gives = { YieldsFirstBy site_of (λ rest. rest) };

    ghost remaining = { item_count (λ rest. rest) };

    #[inline(always)]
    fn next(&mut self) -> Option<Placed<'a>> {
        let rest = self.rest;
        if rest.is_empty() {
            return None;
        }
        match front_order(self.mode, rest) {
            Ok((order, length)) => {
                let at = self.at;
                self.at += length;
                self.rest = &rest[length..];
                Some(Placed { at, order })
            }
            Err(_) => unreachable!(),
        }
    }
}

ghost use Rattle.std.specs.Prelude.{◌≡◌, ℕ, IfOk, IsOk, Some};
ghost use Rattle.ds_codec.specs.declared.command.Command.{Command};
ghost use Rattle.ds_codec.specs.Record.{HasOneReading};
ghost use Rattle.ds_codec.specs.Reading.{Gives, message_of, read_of, orders_from, sites_in, refusal_in, write_body, alone_body, body_of};
ghost use Rattle.ds_codec.specs.Surely.{IsNeedOfAll};

/// No bytes spell two records.
pub fn one_reading()
    ensures { HasOneReading }
{}

/// Looks at every order, and gives how many positions a buffer must have for all of them to be done whatever it holds.
#[inline(always)]
fn check_orders(mode: Mode, bytes: &[u8]) -> Result<u64, Refused>
    ensures refused { refusal_in result ≡ refusal_in (orders_from mode 0 2 bytes.now) }
    ensures need { IfOk result
        (λ need. IsNeedOfAll need (sites_in (orders_from mode 0 2 bytes.now))) }
{
    let mut at = 2;
    let mut rest = bytes;
    let mut need = 0;
    while !rest.is_empty() {
        match front_order(mode, rest) {
            Ok((order, length)) => {
                at += length;
                rest = &rest[length..];
                need = need.max(order.need());
            }
            Err(why) => return Err(Refused { at, why }),
        }
    }
    Ok(need)
}

/// What follows the code of a write: the byte of the write control character, and orders that were looked at.
#[derive(Drop)]
struct WriteBody<'a> {
    wcc: u8,
    orders: &'a [u8],
    need: u64,
}

/// The write control character and the orders of a write.
fn write_parts(mode: Mode, rest: &[u8]) -> Result<WriteBody<'_>, Refused>
    ensures parts { (make : ℕ → Command) → Gives
        (λ body. message_of mode (make body.wcc) body.orders.now) result
        (write_body mode make rest.now) }
    ensures good { IfOk result (λ body. IsOk (orders_from mode 0 2 body.orders.now)) }
    ensures need { IfOk result
        (λ body. IsNeedOfAll body.need (sites_in (orders_from mode 0 2 body.orders.now))) }
{
    let [wcc, orders @ ..] = rest else {
        return Err(Refused {
            at: 1,
            why: Why::NoWcc,
        });
    };
    let need = check_orders(mode, orders)?;
    Ok(WriteBody {
        wcc: *wcc,
        orders,
        need,
    })
}

/// A command that nothing follows.
fn alone<'a>(mode: Mode, command: Command, rest: &'a [u8]) -> Result<Record<'a>, Refused>
    ensures { result ≡ alone_body command rest.now }
{
    if rest.is_empty() {
        Ok(Record {
            mode,
            command,
            orders: rest,
            need: 0,
        })
    } else {
        Err(Refused {
            at: 1,
            why: Why::Trailing,
        })
    }
}

/// What follows the code of a command.
fn read_body<'a>(mode: Mode, code: CommandCode, rest: &'a [u8]) -> Result<Record<'a>, Refused>
    ensures { result ≡ body_of mode (Some code) rest.now }
{
    match code {
        CommandCode::Write => {
            let body = write_parts(mode, rest)?;
            let command = Command::Write(WriteControlCharacter::from_byte(body.wcc));
            Ok(Record {
                mode,
                command,
                orders: body.orders,
                need: body.need,
            })
        }
        CommandCode::EraseWrite => {
            let body = write_parts(mode, rest)?;
            let command = Command::EraseWrite(WriteControlCharacter::from_byte(body.wcc));
            Ok(Record {
                mode,
                command,
                orders: body.orders,
                need: body.need,
            })
        }
        CommandCode::EraseWriteAlternate => {
            let body = write_parts(mode, rest)?;
            let command = Command::EraseWriteAlternate(WriteControlCharacter::from_byte(body.wcc));
            Ok(Record {
                mode,
                command,
                orders: body.orders,
                need: body.need,
            })
        }
        CommandCode::EraseAllUnprotected => alone(mode, Command::EraseAllUnprotected, rest),
        CommandCode::ReadBuffer => alone(mode, Command::ReadBuffer, rest),
        CommandCode::ReadModified => alone(mode, Command::ReadModified, rest),
        CommandCode::ReadModifiedAll => alone(mode, Command::ReadModifiedAll, rest),
        CommandCode::NoOperation => alone(mode, Command::NoOperation, rest),
        CommandCode::WriteStructuredField => Err(Refused {
            at: 0,
            why: Why::StructuredField,
        }),
    }
}

#[tactic(auto, unfolding(crate::specs::Reading::read_of))]
fn read_all<'a>(mode: Mode, bytes: &'a [u8]) -> Result<Record<'a>, Refused>
    ensures { result ≡ read_of mode bytes.now }
{
    let [first, rest @ ..] = bytes else {
        return Err(Refused {
            at: 0,
            why: Why::Empty,
        });
    };
    match CommandCode::from_byte(*first) {
        Some(code) => read_body(mode, code, rest),
        None => Err(Refused {
            at: 0,
            why: Why::UnknownCommand,
        }),
    }
}
