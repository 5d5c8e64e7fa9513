//! How a cell looks.

use std::alloc::AllocError;

/// The look of a cell.
#[derive(Clone, Copy)]
pub(crate) struct Look {
    /// A character of an intensified field.
    pub bold: bool,
    /// It may be typed over.
    pub underlined: bool,
    /// The cursor stands there.
    pub reversed: bool,
}

impl Look {
    ghost use Rattle.std.specs.Prelude.{◌≡◌, ◌++◌, OnOk, string_bytes};
    ghost use Rattle.cli_pictures.specs.Colored.{same_look, is_plain, bold_code, underlined_code, reversed_code, begin_look};

    /// Whether two cells look the same.
    pub(crate) fn is_same(self, other: Look) -> bool
        ensures { result ≡ same_look self other }
    {
        self.bold == other.bold
            && self.underlined == other.underlined
            && self.reversed == other.reversed
    }

    /// Whether nothing sets the cell off.
    pub(crate) fn is_plain(self) -> bool
        ensures { result ≡ is_plain self }
    {
        !(self.bold || self.underlined || self.reversed)
    }

    fn bold_code(self) -> &'static str
        ensures { result.now ≡ bold_code self }
    {
        if self.bold { ";1" } else { "" }
    }

    fn underlined_code(self) -> &'static str
        ensures { result.now ≡ underlined_code self }
    {
        if self.underlined { ";4" } else { "" }
    }

    fn reversed_code(self) -> &'static str
        ensures { result.now ≡ reversed_code self }
    {
        if self.reversed { ";7" } else { "" }
    }

    /// The sequence that begins cells of this look.
    #[tactic(auto, unfolding(crate::specs::Colored::begin_look))]
    pub(crate) fn push_begin(self, out: &mut String) -> Result<(), AllocError>
        ensures { OnOk result (string_bytes out.new ≡ string_bytes out.old ++ begin_look self) }
    {
        let bold = self.bold_code();
        let underlined = self.underlined_code();
        let reversed = self.reversed_code();
        write!(out, "\x1B[0{bold}{underlined}{reversed}m")
    }
}
