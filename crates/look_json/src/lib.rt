//! What `flux_look` tells, as JSON: one object a line.
//!
//! It promises that each line is the compact text of the value that is defined of what it tells: of a happening, of an
//! order that never fired, of how a run ends, of a chart's title, lanes and rows, of a line of a check. It stands on `run_watch`, `run_story`
//! and `lane_chart` for what is told, and on serde_json for the texts of values.
#![tactic(auto)]

mod chart;
mod check;
mod happening;
mod line;
mod parts;
mod story;

pub use chart::write_chart_json;
pub use check::write_check_json;
pub use story::write_story_json;
