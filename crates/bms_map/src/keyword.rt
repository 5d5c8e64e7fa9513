//! The operands of the three macros.

ghost use Rattle.std.specs.Prelude.{◌≡◌};
ghost use Rattle.bms_map.specs.Values.{meaning_in};
ghost use Rattle.bms_map.specs.Operands.{of_mapset, of_map, of_field, keyword_of};
ghost use Rattle.bms_map.specs.Tables.{entries_of};

use bms_source::{Letter, Operation, is_named};

/// What an operand means.
#[derive(Clone, Copy, Debug, PartialEq, Eq)]
pub(crate) enum Keyword {
    Kind,
    Control,
    Color,
    Highlight,
    Validation,
    Outline,
    Size,
    Line,
    Column,
    Justify,
    Pos,
    Length,
    Attribute,
    Initial,
    HexInitial,
    Occurs,
    Group,
    PictureIn,
    PictureOut,
    /// BASE alone.
    Symbols,
    /// NO; YES is unsupported.
    NotYes,
    /// FIELD; BLOCK is unsupported.
    NotBlock,
    /// ALL, 3270 and 3270-2 alone.
    Terminal,
    /// Of any value, without effect.
    Ignored,
    Unmodelled,
}

struct Named {
    name: &'static [u8],
    keyword: Keyword,
}

const OF_MAPSET: [Named; 29] = [
    Named {
        name: b"TYPE",
        keyword: Keyword::Kind,
    },
    Named {
        name: b"CTRL",
        keyword: Keyword::Control,
    },
    Named {
        name: b"COLOR",
        keyword: Keyword::Color,
    },
    Named {
        name: b"HILIGHT",
        keyword: Keyword::Highlight,
    },
    Named {
        name: b"VALIDN",
        keyword: Keyword::Validation,
    },
    Named {
        name: b"OUTLINE",
        keyword: Keyword::Outline,
    },
    Named {
        name: b"MODE",
        keyword: Keyword::Ignored,
    },
    Named {
        name: b"LANG",
        keyword: Keyword::Ignored,
    },
    Named {
        name: b"STORAGE",
        keyword: Keyword::Ignored,
    },
    Named {
        name: b"BASE",
        keyword: Keyword::Ignored,
    },
    Named {
        name: b"TIOAPFX",
        keyword: Keyword::Ignored,
    },
    Named {
        name: b"SUFFIX",
        keyword: Keyword::Ignored,
    },
    Named {
        name: b"EXTATT",
        keyword: Keyword::Ignored,
    },
    Named {
        name: b"MAPATTS",
        keyword: Keyword::Ignored,
    },
    Named {
        name: b"DSATTS",
        keyword: Keyword::Ignored,
    },
    Named {
        name: b"TRANSP",
        keyword: Keyword::Ignored,
    },
    Named {
        name: b"CURSLOC",
        keyword: Keyword::Ignored,
    },
    Named {
        name: b"FOLD",
        keyword: Keyword::Ignored,
    },
    Named {
        name: b"DSECT",
        keyword: Keyword::Ignored,
    },
    Named {
        name: b"FLDSEP",
        keyword: Keyword::Ignored,
    },
    Named {
        name: b"HTAB",
        keyword: Keyword::Ignored,
    },
    Named {
        name: b"VTAB",
        keyword: Keyword::Ignored,
    },
    Named {
        name: b"LDC",
        keyword: Keyword::Ignored,
    },
    Named {
        name: b"PS",
        keyword: Keyword::Symbols,
    },
    Named {
        name: b"SOSI",
        keyword: Keyword::NotYes,
    },
    Named {
        name: b"DATA",
        keyword: Keyword::NotBlock,
    },
    Named {
        name: b"OBFMT",
        keyword: Keyword::NotYes,
    },
    Named {
        name: b"TERM",
        keyword: Keyword::Terminal,
    },
    Named {
        name: b"PARTN",
        keyword: Keyword::Unmodelled,
    },
];

const OF_MAP: [Named; 24] = [
    Named {
        name: b"SIZE",
        keyword: Keyword::Size,
    },
    Named {
        name: b"LINE",
        keyword: Keyword::Line,
    },
    Named {
        name: b"COLUMN",
        keyword: Keyword::Column,
    },
    Named {
        name: b"JUSTIFY",
        keyword: Keyword::Justify,
    },
    Named {
        name: b"CTRL",
        keyword: Keyword::Control,
    },
    Named {
        name: b"COLOR",
        keyword: Keyword::Color,
    },
    Named {
        name: b"HILIGHT",
        keyword: Keyword::Highlight,
    },
    Named {
        name: b"VALIDN",
        keyword: Keyword::Validation,
    },
    Named {
        name: b"OUTLINE",
        keyword: Keyword::Outline,
    },
    Named {
        name: b"HEADER",
        keyword: Keyword::Ignored,
    },
    Named {
        name: b"TRAILER",
        keyword: Keyword::Ignored,
    },
    Named {
        name: b"FIELDS",
        keyword: Keyword::Ignored,
    },
    Named {
        name: b"EXTATT",
        keyword: Keyword::Ignored,
    },
    Named {
        name: b"MAPATTS",
        keyword: Keyword::Ignored,
    },
    Named {
        name: b"DSATTS",
        keyword: Keyword::Ignored,
    },
    Named {
        name: b"TRANSP",
        keyword: Keyword::Ignored,
    },
    Named {
        name: b"TIOAPFX",
        keyword: Keyword::Ignored,
    },
    Named {
        name: b"CURSLOC",
        keyword: Keyword::Ignored,
    },
    Named {
        name: b"FLDSEP",
        keyword: Keyword::Ignored,
    },
    Named {
        name: b"PS",
        keyword: Keyword::Symbols,
    },
    Named {
        name: b"SOSI",
        keyword: Keyword::NotYes,
    },
    Named {
        name: b"DATA",
        keyword: Keyword::NotBlock,
    },
    Named {
        name: b"OBFMT",
        keyword: Keyword::NotYes,
    },
    Named {
        name: b"PARTN",
        keyword: Keyword::Unmodelled,
    },
];

const OF_FIELD: [Named; 19] = [
    Named {
        name: b"POS",
        keyword: Keyword::Pos,
    },
    Named {
        name: b"LENGTH",
        keyword: Keyword::Length,
    },
    Named {
        name: b"ATTRB",
        keyword: Keyword::Attribute,
    },
    Named {
        name: b"INITIAL",
        keyword: Keyword::Initial,
    },
    Named {
        name: b"XINIT",
        keyword: Keyword::HexInitial,
    },
    Named {
        name: b"GINIT",
        keyword: Keyword::Unmodelled,
    },
    Named {
        name: b"OCCURS",
        keyword: Keyword::Occurs,
    },
    Named {
        name: b"GRPNAME",
        keyword: Keyword::Group,
    },
    Named {
        name: b"COLOR",
        keyword: Keyword::Color,
    },
    Named {
        name: b"HILIGHT",
        keyword: Keyword::Highlight,
    },
    Named {
        name: b"VALIDN",
        keyword: Keyword::Validation,
    },
    Named {
        name: b"OUTLINE",
        keyword: Keyword::Outline,
    },
    Named {
        name: b"PS",
        keyword: Keyword::Symbols,
    },
    Named {
        name: b"SOSI",
        keyword: Keyword::NotYes,
    },
    Named {
        name: b"PICIN",
        keyword: Keyword::PictureIn,
    },
    Named {
        name: b"PICOUT",
        keyword: Keyword::PictureOut,
    },
    Named {
        name: b"JUSTIFY",
        keyword: Keyword::Ignored,
    },
    Named {
        name: b"TRANSP",
        keyword: Keyword::Ignored,
    },
    Named {
        name: b"CASE",
        keyword: Keyword::Ignored,
    },
];

/// What a word stands for in a table.
fn found(table: &[Named], word: &[Letter]) -> Option<Keyword>
    ensures { result ≡ meaning_in (entries_of table.now) word.now }
{
    let mut rest = table;
    while let [named, others @ ..] = rest {
        if is_named(word, named.name) {
            return Some(named.keyword);
        }
        rest = others;
    }
    None
}

#[tactic(auto, unfolding(crate::specs::Operands::of_mapset))]
fn of_mapset(word: &[Letter]) -> Option<Keyword>
    ensures { result ≡ meaning_in of_mapset word.now }
{
    found(&OF_MAPSET, word)
}

#[tactic(auto, unfolding(crate::specs::Operands::of_map))]
fn of_map(word: &[Letter]) -> Option<Keyword>
    ensures { result ≡ meaning_in of_map word.now }
{
    found(&OF_MAP, word)
}

#[tactic(auto, unfolding(crate::specs::Operands::of_field))]
fn of_field(word: &[Letter]) -> Option<Keyword>
    ensures { result ≡ meaning_in of_field word.now }
{
    found(&OF_FIELD, word)
}

/// The operand of a keyword, if the macro has it.
pub(crate) fn keyword_of(operation: Operation, word: &[Letter]) -> Option<Keyword>
    ensures { result ≡ keyword_of operation word.now }
{
    match operation {
        Operation::Mapset => of_mapset(word),
        Operation::Map => of_map(word),
        Operation::Field | Operation::Passed | Operation::End => of_field(word),
    }
}
