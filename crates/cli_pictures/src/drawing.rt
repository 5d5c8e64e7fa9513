//! The forms of a picture.

/// In which form a screen is drawn.
#[derive(Clone, Copy, Debug, PartialEq, Eq)]
pub enum Drawing {
    /// A drawing, SVG 1.1.
    Svg,
    /// A page with that drawing.
    Html,
    /// The text of `show` with the looks of its cells, by sequences that begin with ESC.
    Colored,
    /// One line of JSON.
    Json,
    /// The rows alone, as an operator sees them.
    Rows,
}
