//! What is asked of a source.

use bms_map::Control;

/// What `map` prints.
#[derive(Clone, Copy, Debug, PartialEq, Eq)]
pub enum Form {
    /// Two lines for each map.
    Records,
    /// The layout of one map.
    Layout,
}

/// What is made of the screen that a map's record leaves.
#[derive(Clone, Copy, Debug, PartialEq, Eq)]
pub enum Rendering {
    /// The text of `show`.
    Text,
    /// The same in JSON.
    Json,
    /// The rows alone, as an operator sees them.
    Rows,
    /// A drawing, SVG 1.1, with the names of the fields and what `check` finds.
    Svg,
    /// A page with that drawing.
    Html,
    /// The layout that `draft` proposes.
    Draft,
}

/// The form of what `check --map` prints.
#[derive(Clone, Copy, Debug, PartialEq, Eq)]
pub enum Report<'a> {
    /// Yes, or a line for each finding.
    Text,
    /// A JSON object on each line, with the file of this path.
    Json(&'a str),
    /// A log of SARIF 2.1.0 on one line, with the file of this path.
    Sarif(&'a str),
}

/// The map that is asked for, all where none is named, and what SEND MAP adds.
#[derive(Clone, Copy, Debug)]
pub struct Asked<'a> {
    /// In either case.
    pub name: Option<&'a [u8]>,
    pub control: Control,
}
