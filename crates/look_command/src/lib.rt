//! The commands of `flux_look`: `check`, `story` and `timeline`.
//!
//! Each gives the text that it writes, and how it ends; the clauses say which files it reads, and that the text is the
//! one that their bytes have. `check` reads a file and goes on also where it is refused. A story and a timeline are
//! reports of events, which are applied to a plan as it opens, and refuse what `flux replay` refuses. It stands on
//! command_course for the inputs and the answer, on replay_command for the events and their refusals, on plan_check for
//! what is said of a plan, on input_faults for what is said of a fault, and on run_watch, run_story, run_timeline and
//! lane_chart for what is told of a run.
#![tactic(auto)]

mod all;
mod check;
mod ended;
mod faults;
mod kinds;
mod report;
mod story;
mod timeline;
mod trying;

pub use check::check_report;
pub use story::story_text;
pub use timeline::{Drawing, timeline_text};
