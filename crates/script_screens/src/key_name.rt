//! The names of characters.

ghost use Rattle.std.specs.Prelude.{◌≡◌};
ghost use Rattle.std.specs.List.{find};
ghost use Rattle.script_screens.specs.KeyNames.{punctuation_name, sign_name, capital_name, small_name, character_name, is_name, other_name, character_named};

/// The characters that have a name, by their numbers.
const NAMED: [u8; 128] = [
    0x20, 0x21, 0x22, 0x23, 0x24, 0x25, 0x26, 0x27, 0x28, 0x29, 0x2A, 0x2B, 0x2C, 0x2D, 0x2E, 0x2F, //
    0x3A, 0x3B, 0x3C, 0x3D, 0x3E, 0x3F, 0x40, 0x5B, 0x5C, 0x5D, 0x5E, 0x5F, 0x60, 0x7B, 0x7C, 0x7D, //
    0x7E, 0xA0, 0xA1, 0xA2, 0xA3, 0xA4, 0xA5, 0xA6, 0xA7, 0xA8, 0xA9, 0xAA, 0xAB, 0xAC, 0xAE, 0xAF, //
    0xB0, 0xB1, 0xB2, 0xB3, 0xB4, 0xB5, 0xB6, 0xB7, 0xB8, 0xB9, 0xBA, 0xBB, 0xBC, 0xBD, 0xBE, 0xBF, //
    0xC0, 0xC1, 0xC2, 0xC3, 0xC4, 0xC5, 0xC6, 0xC7, 0xC8, 0xC9, 0xCA, 0xCB, 0xCC, 0xCD, 0xCE, 0xCF, //
    0xD0, 0xD1, 0xD2, 0xD3, 0xD4, 0xD5, 0xD6, 0xD7, 0xD8, 0xD9, 0xDA, 0xDB, 0xDC, 0xDD, 0xDE, 0xDF, //
    0xE0, 0xE1, 0xE2, 0xE3, 0xE4, 0xE5, 0xE6, 0xE7, 0xE8, 0xE9, 0xEA, 0xEB, 0xEC, 0xED, 0xEE, 0xEF, //
    0xF0, 0xF1, 0xF2, 0xF3, 0xF4, 0xF5, 0xF6, 0xF7, 0xF8, 0xF9, 0xFA, 0xFB, 0xFC, 0xFD, 0xFE, 0xFF, //
];

/// The name of a character a space or of punctuation in ASCII.
fn punctuation_name(character: u8) -> &'static [u8]
    ensures { result.now ≡ punctuation_name character }
{
    match character {
        0x20 => b"space",
        0x21 => b"exclam",
        0x22 => b"quotedbl",
        0x23 => b"numbersign",
        0x24 => b"dollar",
        0x25 => b"percent",
        0x26 => b"ampersand",
        0x27 => b"apostrophe",
        0x28 => b"parenleft",
        0x29 => b"parenright",
        0x2A => b"asterisk",
        0x2B => b"plus",
        0x2C => b"comma",
        0x2D => b"minus",
        0x2E => b"period",
        0x2F => b"slash",
        0x3A => b"colon",
        0x3B => b"semicolon",
        0x3C => b"less",
        0x3D => b"equal",
        0x3E => b"greater",
        0x3F => b"question",
        0x40 => b"at",
        0x5B => b"bracketleft",
        0x5C => b"backslash",
        0x5D => b"bracketright",
        0x5E => b"asciicircum",
        0x5F => b"underscore",
        0x60 => b"grave",
        0x7B => b"braceleft",
        0x7C => b"bar",
        0x7D => b"braceright",
        0x7E => b"asciitilde",
        _ => b"",
    }
}

/// The name of a character of Latin-1 from A0 to BF.
fn sign_name(character: u8) -> &'static [u8]
    ensures { result.now ≡ sign_name character }
{
    match character {
        0xA0 => b"nobreakspace",
        0xA1 => b"exclamdown",
        0xA2 => b"cent",
        0xA3 => b"sterling",
        0xA4 => b"currency",
        0xA5 => b"yen",
        0xA6 => b"brokenbar",
        0xA7 => b"section",
        0xA8 => b"diaeresis",
        0xA9 => b"copyright",
        0xAA => b"ordfeminine",
        0xAB => b"guillemotleft",
        0xAC => b"notsign",
        0xAE => b"registered",
        0xAF => b"macron",
        0xB0 => b"degree",
        0xB1 => b"plusminus",
        0xB2 => b"twosuperior",
        0xB3 => b"threesuperior",
        0xB4 => b"acute",
        0xB5 => b"mu",
        0xB6 => b"paragraph",
        0xB7 => b"periodcentered",
        0xB8 => b"cedilla",
        0xB9 => b"onesuperior",
        0xBA => b"masculine",
        0xBB => b"guillemotright",
        0xBC => b"onequarter",
        0xBD => b"onehalf",
        0xBE => b"threequarters",
        0xBF => b"questiondown",
        _ => b"",
    }
}

/// The name of a character of Latin-1 from C0 to DF.
fn capital_name(character: u8) -> &'static [u8]
    ensures { result.now ≡ capital_name character }
{
    match character {
        0xC0 => b"Agrave",
        0xC1 => b"Aacute",
        0xC2 => b"Acircumflex",
        0xC3 => b"Atilde",
        0xC4 => b"Adiaeresis",
        0xC5 => b"Aring",
        0xC6 => b"AE",
        0xC7 => b"Ccedilla",
        0xC8 => b"Egrave",
        0xC9 => b"Eacute",
        0xCA => b"Ecircumflex",
        0xCB => b"Ediaeresis",
        0xCC => b"Igrave",
        0xCD => b"Iacute",
        0xCE => b"Icircumflex",
        0xCF => b"Idiaeresis",
        0xD0 => b"ETH",
        0xD1 => b"Ntilde",
        0xD2 => b"Ograve",
        0xD3 => b"Oacute",
        0xD4 => b"Ocircumflex",
        0xD5 => b"Otilde",
        0xD6 => b"Odiaeresis",
        0xD7 => b"multiply",
        0xD8 => b"Oslash",
        0xD9 => b"Ugrave",
        0xDA => b"Uacute",
        0xDB => b"Ucircumflex",
        0xDC => b"Udiaeresis",
        0xDD => b"Yacute",
        0xDE => b"THORN",
        0xDF => b"ssharp",
        _ => b"",
    }
}

/// The name of a character of Latin-1 from E0 to FF.
fn small_name(character: u8) -> &'static [u8]
    ensures { result.now ≡ small_name character }
{
    match character {
        0xE0 => b"agrave",
        0xE1 => b"aacute",
        0xE2 => b"acircumflex",
        0xE3 => b"atilde",
        0xE4 => b"adiaeresis",
        0xE5 => b"aring",
        0xE6 => b"ae",
        0xE7 => b"ccedilla",
        0xE8 => b"egrave",
        0xE9 => b"eacute",
        0xEA => b"ecircumflex",
        0xEB => b"ediaeresis",
        0xEC => b"igrave",
        0xED => b"iacute",
        0xEE => b"icircumflex",
        0xEF => b"idiaeresis",
        0xF0 => b"eth",
        0xF1 => b"ntilde",
        0xF2 => b"ograve",
        0xF3 => b"oacute",
        0xF4 => b"ocircumflex",
        0xF5 => b"otilde",
        0xF6 => b"odiaeresis",
        0xF7 => b"division",
        0xF8 => b"oslash",
        0xF9 => b"ugrave",
        0xFA => b"uacute",
        0xFB => b"ucircumflex",
        0xFC => b"udiaeresis",
        0xFD => b"yacute",
        0xFE => b"thorn",
        0xFF => b"ydiaeresis",
        _ => b"",
    }
}

fn character_name(character: u8) -> &'static [u8]
    ensures { result.now ≡ character_name character }
{
    if character < 0x80 {
        punctuation_name(character)
    } else if character < 0xC0 {
        sign_name(character)
    } else if character < 0xE0 {
        capital_name(character)
    } else {
        small_name(character)
    }
}

fn is_name(text: &[u8], character: u8) -> bool
    ensures { result ≡ is_name text.now character }
{
    text == character_name(character)
}

/// The first of some characters of this name.
fn named_in(text: &[u8], characters: &[u8]) -> Option<u8>
    ensures { result ≡ find (is_name text.now) characters.now }
{
    characters
        .iter()
        .copied()
        .find(|character| is_name(text, *character))
}

/// The character of a second name.
fn other_name(text: &[u8]) -> Option<u8>
    ensures { result ≡ other_name text.now }
{
    if text == b"quoteright".as_slice() {
        return Some(0x27);
    }
    if text == b"hyphen".as_slice() {
        return Some(0x2D);
    }
    if text == b"quoteleft".as_slice() {
        return Some(0x60);
    }
    if text == b"Eth".as_slice() {
        return Some(0xD0);
    }
    if text == b"Ooblique".as_slice() {
        return Some(0xD8);
    }
    if text == b"Thorn".as_slice() {
        return Some(0xDE);
    }
    None
}

/// The character of a name.
#[tactic(auto, unfolding(crate::specs::KeyNames::character_named))]
pub(crate) fn character_named(text: &[u8]) -> Option<u8>
    ensures { result ≡ character_named text.now }
{
    match named_in(text, &NAMED) {
        Some(character) => Some(character),
        None => other_name(text),
    }
}
