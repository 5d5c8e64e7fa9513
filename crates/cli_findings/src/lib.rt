//! The findings of `check` in forms that tools read.
#![tactic(auto)]

mod facts;
mod found;
mod free_name;
mod help;
mod json_lines;
mod log;
mod members;
mod names;
mod object;
mod origins;
mod paths;
mod record_line;
mod region;
mod rehearsal;
mod report;
mod results;
mod rule;
mod rule_facts;
mod rule_row;
mod sarif;
mod told_results;
mod uri;
mod written_log;

pub use facts::{byte_of, column_at, place_of, record_told, row_at};
pub use found::{Pen, find};
pub use free_name::field_name;
pub use help::{address_text, help_text};
pub use json_lines::{finding_json, push_line, refusal_answer};
pub use members::{
    finding_members, put_entry, put_keys, put_number, put_place, put_spot, put_text,
};
pub use names::name_of;
pub use object::{Members, listed, put_str, single};
pub use origins::origins_text;
pub use paths::Paths;
pub use record_line::{is_silent, line_of_record};
pub use region::{Columns, Region, layout_line, line_of_fault};
pub use rehearsal::rehearsal_after;
pub use report::{Report, report_texts, run_report};
pub use results::Results;
pub use rule_facts::{
    form_of_finding, meaning_of_finding, mend_of_finding, rule_count, rule_id_of, rule_index_of,
};
pub use sarif::{
    findings_log, fronted_log, log_text, named_rule, push_help, refusal_log, rules_value,
};
pub use told_results::{found_results, named_result, one_result, refused_results, results_line};
pub use written_log::found_log;
