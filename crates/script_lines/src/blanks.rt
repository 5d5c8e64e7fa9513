//! Bytes of a line.

ghost use Rattle.std.specs.Prelude.{◌≡◌, ◌≤◌, length};
ghost use Rattle.std.specs.List.{prefix_len};
ghost use Rattle.script_lines.specs.Bytes.{is_blank, after_blanks, is_letter_or_digit, is_of_name, is_of_argument, is_of_word, is_of};

pub(crate) fn is_blank(byte: u8) -> bool
    ensures { result ≡ is_blank byte }
{
    (byte == 0x20 || byte == 0x09) || (byte == 0x0D || (byte == 0x0B || byte == 0x0C))
}

pub(crate) fn is_letter_or_digit(byte: u8) -> bool
    ensures { result ≡ is_letter_or_digit byte }
{
    (0x30 <= byte && byte <= 0x39)
        || ((0x41 <= byte && byte <= 0x5A) || (0x61 <= byte && byte <= 0x7A))
}

fn is_of_name(byte: u8) -> bool
    ensures { result ≡ is_of_name byte }
{
    is_letter_or_digit(byte) || (byte == 0x5F || byte == 0x2D)
}

fn is_of_argument(byte: u8) -> bool
    ensures { result ≡ is_of_argument byte }
{
    !(is_blank(byte) || (byte == 0x2C || byte == 0x29))
}

fn is_of_word(byte: u8) -> bool
    ensures { result ≡ is_of_word byte }
{
    !is_blank(byte)
}

/// What goes on at the front of bytes.
#[derive(Clone, Copy, Debug)]
pub(crate) enum Kind {
    Blanks,
    Name,
    /// An argument between parentheses.
    Argument,
    /// An argument without parentheses.
    Word,
}

fn is_of(kind: Kind, byte: u8) -> bool
    ensures { result ≡ is_of kind byte }
{
    match kind {
        Kind::Blanks => is_blank(byte),
        Kind::Name => is_of_name(byte),
        Kind::Argument => is_of_argument(byte),
        Kind::Word => is_of_word(byte),
    }
}

/// How many bytes at the front are of a kind.
pub(crate) fn length_of(kind: Kind, bytes: &[u8]) -> usize
    ensures length { result ≡ prefix_len (is_of kind) bytes.now }
    ensures inside { result ≤ length bytes.now }
{
    for (i, byte) in bytes.iter().enumerate() {
        if !is_of(kind, *byte) {
            return i;
        }
    }
    bytes.len()
}

/// What comes after the blanks at the front.
pub(crate) fn after_blanks(bytes: &[u8]) -> &[u8]
    ensures after { result.now ≡ after_blanks bytes.now }
    ensures shorter { length result.now ≤ length bytes.now }
{
    &bytes[length_of(Kind::Blanks, bytes)..]
}
