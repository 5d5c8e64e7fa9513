//! The commands `map` and `check --map` of the program `term3270`: from the source of BMS maps to their records, their
//! layouts and a verdict on each.
#![tactic(auto)]

mod asked;
mod checking;
mod each;
mod json;
mod judged;
mod laws;
mod lines;
mod mapping;
mod mend;
mod refusal;
mod rendering;
mod results;
mod rules;
mod sarif;
mod source;
mod told;

pub use asked::{Asked, Form, Rendering, Report};
pub use checking::{check_map_text, run_check_map};
pub use laws::{layouts_are_read, maps_are_judged, maps_are_shown, puts_are_left, yes_is_kept};
pub use mapping::{map_text, run_map};
pub use rendering::{render_map_text, run_render_map};
pub use results::map_results;
pub use rules::all_values;
