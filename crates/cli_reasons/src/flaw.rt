//! What is wrong with a line.

ghost use Rattle.std.specs.Prelude.{◌≡◌, ◌<◌, ◌++◌, OnOk};
ghost use Rattle.std.specs.String.{string_bytes};
ghost use Rattle.order_lines.specs.Print.{hex_byte};
ghost use Rattle.cli_reasons.specs.Flaw.{character_words, flaw_at, quoted_text, bare_text, byte_text, limit_words, odd_text, other_words, why_words, why_text};

use order_lines::push_hex;
use std::alloc::AllocError;
use std::fmt::Write;

/// Why a line is refused.
#[derive(Clone, Copy, Debug, PartialEq, Eq)]
pub enum Why {
    /// A byte that is no hexadecimal digit.
    NotDigit(u8),
    /// The line ends after so many digits, an odd number.
    OddDigits(usize),
    /// A byte that no character of UTF-8 begins with or goes on with.
    NotUtf8(u8),
    ByteOrderMark,
    Utf16,
    Tab,
    /// `0x` before digits.
    Prefix,
    /// `#` behind digits.
    Comment,
    /// A line of sizes where the layout gives them.
    SizesOfLayout,
    /// A line of sizes after another line that counts.
    SizesTooLate,
    /// A line of sizes that no terminal has.
    NoSizes,
    /// A line `turn` outside `talk`.
    Turn,
    /// `type` without a code that can be typed.
    NoCode,
    /// A stroke among keys.
    NeedsStrokes,
    /// The line names no key.
    NoKey,
    /// The line names no stroke, and no key.
    NoStroke,
    /// The line begins with no command and no order.
    NoOrder,
    /// The line begins with a command or an order that is written otherwise.
    OtherForm,
    /// An order before any command.
    NoCommand,
    /// A command in a record that has one.
    SecondCommand,
    /// A byte that is none of the 95 characters.
    NoCharacter(u8),
    /// `string` without a character.
    NoString,
    /// Characters between quotes without their option.
    NeedsCharacters,
    /// Characters whose quote isn't closed.
    OpenQuote,
    /// No characters and no digits where some are due.
    NoRun,
    /// Something else than a space after characters.
    NoSpace,
    /// One digit of a byte.
    HalfByte,
    /// More records or keys than an input has, or more bytes than a record has.
    TooLong(Limit),
}

/// A limit of an input.
#[derive(Clone, Copy, Debug, PartialEq, Eq)]
pub enum Limit {
    /// 16,777,216 bytes.
    Bytes,
    /// 1,000 records.
    Records,
    /// 32,768 bytes of a record.
    RecordBytes,
    /// 100,000 keys.
    Keys,
}

impl Limit {
    /// What there is too much of.
    fn words(self) -> &'static str
        ensures { result.now ≡ limit_words self }
    {
        match self {
            Limit::Bytes => "more than 16,777,216 bytes",
            Limit::Records => "more than 1,000 records",
            Limit::RecordBytes => "a record of more than 32,768 bytes",
            Limit::Keys => "more than 100,000 keys",
        }
    }
}

/// What is wrong with a line, and where.
#[derive(Clone, Copy, Debug, PartialEq, Eq)]
pub struct Flaw {
    /// The column of the first character at fault, counted from 1.
    pub column: usize,
    pub why: Why,
}

impl Flaw {
    pub(crate) fn at(column: usize, why: Why) -> Flaw
        ensures { result ≡ flaw_at column why }
    {
        Flaw { column, why }
    }
}

/// A character between quotes.
fn push_quoted(out: &mut String, character: u8) -> Result<(), AllocError>
    requires { character < 128 }
    ensures { OnOk result (string_bytes out.new
        ≡ string_bytes out.old ++ quoted_text character) }
{
    out.push_str("'")?;
    out.push(char::from(character))?;
    out.push_str("'")
}

/// Words, and then the two digits of a byte.
fn push_digits(out: &mut String, words: &str, byte: u8) -> Result<(), AllocError>
    ensures { OnOk result (string_bytes out.new
        ≡ string_bytes out.old ++ (words.now ++ hex_byte byte)) }
{
    out.push_str(words)?;
    push_hex(out, byte)
}

/// A byte by its two digits.
fn push_bare(out: &mut String, byte: u8) -> Result<(), AllocError>
    ensures { OnOk result (string_bytes out.new ≡ string_bytes out.old ++ bare_text byte) }
{
    push_digits(out, "the byte ", byte)
}

/// A byte as people read it: the character between quotes where ASCII prints it, else its two digits.
pub(crate) fn push_byte(out: &mut String, byte: u8) -> Result<(), AllocError>
    ensures { OnOk result (string_bytes out.new ≡ string_bytes out.old ++ byte_text byte) }
{
    if byte.is_ascii_graphic() {
        push_quoted(out, byte)
    } else {
        push_bare(out, byte)
    }
}

/// A byte, and what it isn't.
fn push_byte_words(out: &mut String, byte: u8, words: &str) -> Result<(), AllocError>
    ensures { OnOk result (string_bytes out.new
        ≡ string_bytes out.old ++ (byte_text byte ++ words.now)) }
{
    push_byte(out, byte)?;
    out.push_str(words)
}

/// That so many digits are an odd number.
fn push_odd(out: &mut String, count: usize) -> Result<(), AllocError>
    ensures { OnOk result (string_bytes out.new ≡ string_bytes out.old ++ odd_text count) }
{
    write!(out, "the line ends after {count} digits, an odd number")
}

impl Why {
    /// Its words where it is of characters.
    fn character_words(self) -> &'static str
        ensures { result.now ≡ character_words self }
    {
        match self {
            Why::NoString => "'string' takes one character or more",
            Why::NeedsCharacters => "characters between quotes; give the option --chars",
            Why::OpenQuote => "no quote ends the characters; one among them stands twice",
            Why::NoRun => "characters between quotes, or digits, are missing",
            Why::NoSpace => "a space stands after the quote that ends characters",
            Why::HalfByte => "a byte takes two hexadecimal digits",
            _ => "",
        }
    }

    /// Its words where it is of keys or of orders, or a limit.
    fn other_words(self) -> &'static str
        ensures { result.now ≡ other_words self }
    {
        match self {
            Why::NoCode => "'type' takes two hexadecimal digits, from 40 to FE",
            Why::NeedsStrokes => " is a stroke; give the option --strokes",
            Why::NoKey => " is no key",
            Why::NoStroke => " is no key and no stroke",
            Why::NoOrder => " is no command and no order",
            Why::OtherForm => " is written otherwise, as in ",
            Why::NoCommand => "an order before its command",
            Why::SecondCommand => "a second command; an empty line ends a record",
            Why::TooLong(limit) => limit.words(),
            _ => self.character_words(),
        }
    }

    /// Its words, of which no byte is a part.
    fn words(self) -> &'static str
        ensures { result.now ≡ why_words self }
    {
        match self {
            Why::NotDigit(_) => " is no hexadecimal digit",
            Why::OddDigits(_) => "",
            Why::NotUtf8(_) => " is no UTF-8",
            Why::ByteOrderMark => "a byte order mark; save the text without one",
            Why::Utf16 => "the text is UTF-16; save it as UTF-8",
            Why::Tab => "a tab; only spaces may stand between digits",
            Why::Prefix => "'0x'; digits stand without it",
            Why::Comment => "'#' begins a comment only at the beginning of a line",
            Why::NoCharacter(_) => " is none of the 95 characters from the space to the tilde",
            Why::SizesOfLayout => "the layout gives the sizes; leave this line out",
            Why::SizesTooLate => "sizes are told once, before the first record",
            Why::NoSizes => "no sizes of a terminal, as in 'size 24x80 43x80'",
            Why::Turn => "a line 'turn' is for 'talk', 'draft --turns' and 'bind --turns'",
            _ => self.other_words(),
        }
    }

    /// Pushes why, in words.
    pub fn push_text(self, out: &mut String) -> Result<(), AllocError>
        ensures { OnOk result (string_bytes out.new ≡ string_bytes out.old ++ why_text self) }
    {
        match self {
            Why::NotDigit(byte) | Why::NotUtf8(byte) | Why::NoCharacter(byte) => {
                push_byte_words(out, byte, self.words())
            }
            Why::OddDigits(count) => push_odd(out, count),
            _ => out.push_str(self.words()),
        }
    }
}
