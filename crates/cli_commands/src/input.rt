//! The inputs of the commands, judged line by line: a layout once it is read, records and keys as they are read.

pub mod ahead;
pub mod bytes;
pub mod checking;
pub mod drafts;
pub mod keys;
pub mod last_layout;
pub mod layout;
pub mod layouts;
pub mod lines;
pub mod next;
pub mod reading;
pub mod records;
pub mod sizes;
pub mod source;
pub mod strokes;
pub mod turn_lines;
pub mod turns;
