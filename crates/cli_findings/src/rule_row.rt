//! What is told of each rule: one row each, from which the reports, the logs and the table of findings take their words.

/// What is told of a rule.
#[derive(Clone, Copy)]
pub(crate) struct RuleRow {
    /// Where it stands among all rules, counted from 0.
    pub(crate) index: usize,
    /// The number of its findings, behind an F.
    pub(crate) id: &'static str,
    /// Its name, in kebab case.
    pub(crate) name: &'static str,
    /// What it is about, in a few words.
    pub(crate) brief: &'static str,
    /// What it means.
    pub(crate) meaning: &'static str,
    /// How it is mended.
    pub(crate) mend: &'static str,
    /// The change that ends each of its findings, where that names nothing of the finding.
    pub(crate) change: Option<&'static str>,
    /// What is printed after the number, with words in capitals for what differs.
    pub(crate) form: &'static str,
}

pub(crate) const RECORD_REFUSED: RuleRow = RuleRow {
    index: 0,
    id: "F1",
    name: "record-refused",
    brief: "A record is refused",
    meaning: "A record can't be read, or a terminal can't do what it says.",
    mend: "Correct the record at the byte that is told.",
    change: None,
    form: "record I refused at A: WHY",
};

pub(crate) const NO_RECORD: RuleRow = RuleRow {
    index: 1,
    id: "F2",
    name: "no-record",
    brief: "There is no record",
    meaning: "There is no record to look at.",
    mend: "Give the records that write the screen.",
    change: Some("give the records that write the screen"),
    form: "no record",
};

pub(crate) const FIRST_NOT_ERASE: RuleRow = RuleRow {
    index: 2,
    id: "F3",
    name: "first-does-not-erase",
    brief: "The first record does not erase",
    meaning: "The first record keeps what stood on the screen before, which no one knows.",
    mend: "Begin with Erase/Write or Erase/Write Alternate.",
    change: Some("begin record 0 with Erase/Write, F5, or Erase/Write Alternate, 7E"),
    form: "first record does not erase",
};

pub(crate) const NOT_A_WRITE: RuleRow = RuleRow {
    index: 3,
    id: "F4",
    name: "no-write",
    brief: "A record is no write",
    meaning: "A record is a read or No-operation.",
    mend: "Leave it out.",
    change: None,
    form: "record I is no write",
};

pub(crate) const KEYBOARD_LOCKED: RuleRow = RuleRow {
    index: 4,
    id: "F5",
    name: "keyboard-locked",
    brief: "The keyboard stays locked",
    meaning: "After the last record the operator can't type.",
    mend: "Set the bit that restores the keyboard in the last write control character.",
    change: Some("set bit 02, which restores the keyboard, of the last write control character"),
    form: "keyboard stays locked",
};

pub(crate) const OTHER_SIZE: RuleRow = RuleRow {
    index: 5,
    id: "F6",
    name: "other-size",
    brief: "The screen has another size",
    meaning: "The screen has another size than the one that the layout names.",
    mend: "Erase/Write for the default size, Erase/Write Alternate for the alternate; or change the layout's screen.",
    change: Some(
        "erase by Erase/Write, F5, for the default size and by Erase/Write Alternate, 7E, for the alternate, or change the layout's screen",
    ),
    form: "size RxC, layout RxC",
};

pub(crate) const UNFORMATTED: RuleRow = RuleRow {
    index: 6,
    id: "F7",
    name: "no-field",
    brief: "The screen has no field",
    meaning: "The screen has no field attribute.",
    mend: "Write attributes: a screen without fields has no layout.",
    change: Some("write attributes, each by Start Field, 1D"),
    form: "no field",
};

pub(crate) const UNDECLARED: RuleRow = RuleRow {
    index: 7,
    id: "F8",
    name: "undeclared-input",
    brief: "An input has no entry",
    meaning: "An input has no entry: the operator can change it, and it is sent.",
    mend: "Declare it, or protect it.",
    change: None,
    form: "undeclared input at P, keys: right N, type N",
};

pub(crate) const UNDECLARED_FIXED: RuleRow = RuleRow {
    index: 8,
    id: "F9",
    name: "undeclared-fixed",
    brief: "A modified protected field has no entry",
    meaning: "A protected field has its modified data tag set and no entry: it is sent with every answer.",
    mend: "Reset the tag, or declare it as fixed.",
    change: None,
    form: "undeclared fixed at P, keys: right 0, type 0",
};

pub(crate) const MISSING: RuleRow = RuleRow {
    index: 9,
    id: "F10",
    name: "missing",
    brief: "An entry has no field",
    meaning: "No field stands at the place of an entry.",
    mend: "Write an attribute one position before it, or correct the entry.",
    change: None,
    form: "missing NAME",
};

pub(crate) const TOO_LONG: RuleRow = RuleRow {
    index: 10,
    id: "F11",
    name: "too-long",
    brief: "A field is longer than its entry",
    meaning: "A field has more cells than its entry declares: the operator can type more than the program takes.",
    mend: "End the field by an attribute, or declare its length.",
    change: None,
    form: "NAME length L, declared D, keys: right N, type N",
};

pub(crate) const OTHER_KIND: RuleRow = RuleRow {
    index: 11,
    id: "F12",
    name: "other-kind",
    brief: "A field is of the other kind",
    meaning: "An entry is an input where the field is protected, or fixed where it isn't.",
    mend: "Change the attribute, or the entry's kind.",
    change: None,
    form: "NAME is of the other kind",
};

pub(crate) const EMPTY_MODIFIED: RuleRow = RuleRow {
    index: 12,
    id: "F13",
    name: "empty-modified",
    brief: "An empty field is sent",
    meaning: "Two attributes stand side by side, and the first has its modified data tag set: an empty field is sent.",
    mend: "Reset the tag.",
    change: None,
    form: "empty modified field at P",
};

pub(crate) const CURSOR_DEPENDENT: RuleRow = RuleRow {
    index: 13,
    id: "F14",
    name: "cursor-dependent",
    brief: "A write depends on the cursor",
    meaning: "A record of a later turn of a dialogue writes where the operator left the cursor.",
    mend: "Begin the write with Set Buffer Address.",
    change: None,
    form: "record I depends on the cursor",
};

pub(crate) const INPUT_REFUSED: RuleRow = RuleRow {
    index: 14,
    id: "refused",
    name: "input-refused",
    brief: "An input is refused",
    meaning: "The layout or a line of records can't be read.",
    mend: "Correct the line that is told.",
    change: None,
    form: "WHY",
};

pub(crate) const SELECTABLE: RuleRow = RuleRow {
    index: 15,
    id: "F15",
    name: "selectable",
    brief: "A field can be selected that is protected or has no cell",
    meaning: "Cursor Select or a light pen can select a field that is protected or has no cell: that changes it, and can send it.",
    mend: "Reset the display bits, or begin the field with another character.",
    change: None,
    form: "selectable at P",
};
