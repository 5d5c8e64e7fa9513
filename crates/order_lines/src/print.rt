//! A record as lines of words.

ghost use Rattle.std.specs.Prelude.{◌≡◌, ◌++◌, ◌≤◌, ◌<◌, ◌*◌, ◌/◌, ◌%◌, ℕ, true, length, slice_index, OnOk, codes};
ghost use Rattle.std.specs.String.{string_bytes};
ghost use Rattle.std.specs.Str.{IsAscii};
ghost use Rattle.std.specs.List.{flat_map};
ghost use Rattle.std.specs.Fmt.{decimal, digit_glyph};
ghost use Rattle.hex.specs.Hex.{encode_upper, upper_digits};
ghost use Rattle.ds_codec.specs.Order.{item_of, site_of, start_field, text};
ghost use Rattle.order_lines.specs.Print.{hex_byte, pair_word, pair_words, character_word, order_words, command_words, order_line, record_lines, AreJoined};

use ds_codec::{Char, Command, Order, Placed, Record};
use std::alloc::AllocError;

/// So many bytes are spelled at once.
const PART: usize = 64;

/// The line of a text of at most so many bytes is put together in one piece.
const SHORT: usize = 32;

/// The digit of a value, in upper case. It is worked out, so that many digits can be worked out together.
fn digit(value: u8) -> u8
    requires { value < 16 }
    ensures { result ≡ digit_glyph true value }
{
    let to_letter = if value < 10 { 0 } else { 7 };
    value + b'0' + to_letter
}

/// The digits of a byte, the high one first.
fn digits_of(byte: u8) -> (u8, u8)
    ensures high { result.0 ≡ digit_glyph true (byte / 16) }
    ensures low { result.1 ≡ digit_glyph true (byte % 16) }
{
    (digit(byte / 16), digit(byte % 16))
}

fn push_digits(out: &mut String, digits: &[u8]) -> Result<(), AllocError>
    requires { IsAscii digits.now }
    ensures { OnOk result (string_bytes out.new ≡ string_bytes out.old ++ digits.now) }
{
    // SAFETY: digits are ASCII.
    out.push_str(unsafe { str::from_utf8_unchecked(digits) })
}

/// A byte as two upper-case hexadecimal digits.
pub fn push_hex(out: &mut String, byte: u8) -> Result<(), AllocError>
    ensures { OnOk result (string_bytes out.new ≡ string_bytes out.old ++ hex_byte byte) }
{
    let (high, low) = digits_of(byte);
    push_digits(out, &[high, low])
}

/// Stores the high digit and the low one of each byte. Inlined, so that at arrays its number of turns is known.
#[inline(always)]
fn store_halves(high: &mut [u8], low: &mut [u8], bytes: &[u8])
    requires high { length high.old ≡ length bytes.now }
    requires low { length low.old ≡ length bytes.now }
    ensures whole { (length high.new ≡ length bytes.now) × (length low.new ≡ length bytes.now) }
    ensures high { (k : ℕ) → k < length bytes.now
        → slice_index high.new k ≡ slice_index upper_digits (slice_index bytes.now k / 16) }
    ensures low { (k : ℕ) → k < length bytes.now
        → slice_index low.new k ≡ slice_index upper_digits (slice_index bytes.now k % 16) }
{
    'bytes: for i in 0..high.len() {
        high[i] = digit(bytes[i] / 16);
        low[i] = digit(bytes[i] % 16);
    }
}

/// Stores the high digits and the low ones in turn. Inlined, as that before it.
#[inline(always)]
fn store_joined(digits: &mut [u8], high: &[u8], low: &[u8])
    requires low { length low.now ≡ length high.now }
    requires two { length digits.old ≡ 2 * length high.now }
    ensures whole { length digits.new ≡ length digits.old }
    ensures joined { AreJoined high.now low.now digits.new (length high.now) }
{
    'digits: for i in 0..high.len() {
        digits[2 * i] = high[i];
        digits[2 * i + 1] = low[i];
    }
}

/// Stores the digits of bytes, two for each, by way of rooms for the high ones and the low ones.
#[inline(always)]
fn store_digits(digits: &mut [u8], high: &mut [u8], low: &mut [u8], bytes: &[u8])
    requires high { length high.old ≡ length bytes.now }
    requires low { length low.old ≡ length bytes.now }
    requires two { length digits.old ≡ 2 * length bytes.now }
    ensures { digits.new ≡ encode_upper bytes.now }
{
    store_halves(high, low, bytes);
    store_joined(digits, high, low);
}

#[inline(always)]
fn push_whole(out: &mut String, bytes: &[u8]) -> Result<(), AllocError>
    requires { length bytes.now ≡ 64 }
    ensures { OnOk result (string_bytes out.new ≡ string_bytes out.old ++ encode_upper bytes.now) }
{
    let mut room = [0u8; 2 * PART];
    store_digits(&mut room, &mut [0u8; PART], &mut [0u8; PART], bytes);
    push_digits(out, &room)
}

/// The last part is padded.
fn push_part(out: &mut String, bytes: &[u8]) -> Result<(), AllocError>
    requires { length bytes.now ≤ 64 }
    ensures { OnOk result (string_bytes out.new ≡ string_bytes out.old ++ encode_upper bytes.now) }
{
    let mut padded = [0u8; PART];
    padded[..bytes.len()].copy_from_slice(bytes);
    let mut room = [0u8; 2 * PART];
    store_digits(&mut room, &mut [0u8; PART], &mut [0u8; PART], &padded);
    push_digits(out, &room[..2 * bytes.len()])
}

/// Bytes in upper-case hexadecimal.
pub fn push_bytes(out: &mut String, bytes: &[u8]) -> Result<(), AllocError>
    ensures { OnOk result (string_bytes out.new ≡ string_bytes out.old ++ encode_upper bytes.now) }
{
    let mut rest = bytes;
    while PART <= rest.len() {
        let (part, others) = rest.split_at(PART);
        push_whole(out, part)?;
        rest = others;
    }
    push_part(out, rest)
}

fn push_pair(out: &mut String, name: &str, kind: u8, value: u8) -> Result<(), AllocError>
    ensures { OnOk result (string_bytes out.new ≡ string_bytes out.old ++ (name.now
        ++ pair_word kind value)) }
{
    push_named(out, name, kind)?;
    push_named(out, "=", value)
}

fn push_pairs(out: &mut String, pairs: &[u8]) -> Result<(), AllocError>
    ensures { OnOk result (string_bytes out.new ≡ string_bytes out.old ++ pair_words pairs.now) }
{
    let mut rest = pairs;
    while let [kind, value, others @ ..] = rest {
        push_pair(out, " ", *kind, *value)?;
        rest = others;
    }
    Ok(())
}

/// A name, and pairs.
fn push_list(out: &mut String, name: &str, pairs: &[u8]) -> Result<(), AllocError>
    ensures { OnOk result (string_bytes out.new ≡ string_bytes out.old ++ (name.now
        ++ pair_words pairs.now)) }
{
    out.push_str(name)?;
    push_pairs(out, pairs)
}

fn push_named(out: &mut String, name: &str, byte: u8) -> Result<(), AllocError>
    ensures { OnOk result (string_bytes out.new ≡ string_bytes out.old ++ (name.now
        ++ hex_byte byte)) }
{
    out.push_str(name)?;
    push_hex(out, byte)
}

fn push_character(out: &mut String, character: Char) -> Result<(), AllocError>
    ensures { OnOk result (string_bytes out.new ≡ string_bytes out.old
        ++ character_word character) }
{
    if character.alt() {
        push_named(out, "GE ", character.code())
    } else {
        push_hex(out, character.code())
    }
}

fn push_repeat(out: &mut String, address: u32, character: Char) -> Result<(), AllocError>
    ensures { OnOk result (string_bytes out.new ≡ string_bytes out.old ++ (codes "RA "
        ++ (decimal address ++ (codes " " ++ character_word character)))) }
{
    write!(out, "RA {address} ")?;
    push_character(out, character)
}

fn push_order(out: &mut String, order: &Order<'_>) -> Result<(), AllocError>
    ensures { OnOk result (string_bytes out.new ≡ string_bytes out.old
        ++ order_words (item_of order.now)) }
{
    match order {
        Order::Text(run) => {
            out.push_str("TEXT ")?;
            push_bytes(out, run)
        }
        Order::Sf(attribute) => push_named(out, "SF ", attribute.bits()),
        Order::Sfe(pairs) => push_list(out, "SFE", pairs),
        Order::Sba(address) => write!(out, "SBA {address}"),
        Order::Sa(kind, value) => push_pair(out, "SA ", *kind, *value),
        Order::Mf(pairs) => push_list(out, "MF", pairs),
        Order::Ic => out.push_str("IC"),
        Order::Pt => out.push_str("PT"),
        Order::Ra(address, character) => push_repeat(out, *address, *character),
        Order::Eua(address) => write!(out, "EUA {address}"),
        Order::Ge(code) => push_named(out, "GE ", *code),
    }
}

/// The line of a command.
fn push_command_line(out: &mut String, command: Command) -> Result<(), AllocError>
    ensures { OnOk result (string_bytes out.new ≡ string_bytes out.old
        ++ (command_words command ++ codes "\n")) }
{
    match command {
        Command::Write(wcc) => {
            let (high, low) = digits_of(wcc.byte());
            push_digits(out, &[b'W', b' ', high, low, b'\n'])
        }
        Command::EraseWrite(wcc) => {
            let (high, low) = digits_of(wcc.byte());
            push_digits(out, &[b'E', b'W', b' ', high, low, b'\n'])
        }
        Command::EraseWriteAlternate(wcc) => {
            let (high, low) = digits_of(wcc.byte());
            push_digits(out, &[b'E', b'W', b'A', b' ', high, low, b'\n'])
        }
        Command::EraseAllUnprotected => out.push_str("EAU\n"),
        Command::ReadBuffer => out.push_str("RB\n"),
        Command::ReadModified => out.push_str("RM\n"),
        Command::ReadModifiedAll => out.push_str("RMA\n"),
        Command::NoOperation => out.push_str("NOP\n"),
    }
}

/// The line of Start Field.
fn push_start_field(out: &mut String, attribute: u8) -> Result<(), AllocError>
    ensures { OnOk result (string_bytes out.new ≡ string_bytes out.old
        ++ (order_words (start_field attribute) ++ codes "\n")) }
{
    let (high, low) = digits_of(attribute);
    push_digits(out, &[b'S', b'F', b' ', high, low, b'\n'])
}

/// The line of a short text.
fn push_short_text(out: &mut String, run: &[u8]) -> Result<(), AllocError>
    requires { length run.now ≤ 32 }
    ensures { OnOk result (string_bytes out.new ≡ string_bytes out.old
        ++ (order_words (text run.now) ++ codes "\n")) }
{
    let mut padded = [0u8; SHORT];
    padded[..run.len()].copy_from_slice(run);
    let mut line = [0u8; 6 + 2 * SHORT];
    line[..5].copy_from_slice(b"TEXT ");
    store_digits(
        &mut line[5..5 + 2 * SHORT],
        &mut [0u8; SHORT],
        &mut [0u8; SHORT],
        &padded,
    );
    line[5 + 2 * run.len()] = b'\n';
    push_digits(out, &line[..6 + 2 * run.len()])
}

fn push_order_line(out: &mut String, placed: &Placed<'_>) -> Result<(), AllocError>
    ensures { OnOk result (string_bytes out.new ≡ string_bytes out.old
        ++ order_line (site_of placed.now)) }
{
    match &placed.order {
        Order::Text(run) if run.len() <= SHORT => push_short_text(out, run),
        Order::Sf(attribute) => push_start_field(out, attribute.bits()),
        order => {
            push_order(out, order)?;
            out.push_str("\n")
        }
    }
}

fn push_orders(out: &mut String, message: &Record<'_>) -> Result<(), AllocError>
    ensures { OnOk result (string_bytes out.new ≡ string_bytes out.old
        ++ flat_map order_line message.now.orders) }
{
    for placed in message.orders() {
        push_order_line(out, &placed)?;
    }
    Ok(())
}

/// The lines of a record: its command, an order a line, and an empty line.
pub fn push_record(out: &mut String, message: &Record<'_>) -> Result<(), AllocError>
    ensures { OnOk result (string_bytes out.new ≡ string_bytes out.old
        ++ record_lines message.now) }
{
    push_command_line(out, message.command())?;
    push_orders(out, message)?;
    out.push_str("\n")
}
