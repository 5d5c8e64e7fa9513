//! BMS map source: its lines, its statements, and the operands of these.
#![tactic(auto)]

mod columns;
mod gathered;
mod letter;
mod operand;
mod refusal;
mod rows;
mod scan;
mod statement;
mod words;

pub use letter::{Letter, Place};
pub use operand::{Operand, next_operand};
pub use refusal::{Refusal, SourceError, Why, push_codes};
pub use statement::{Operation, Read, Statement, lines_of, read_statement};
pub use words::{is_digit, is_named, is_symbol, upper, upper_word};
