//! The timeline of a run: the chart of what happened in it, and of how it stood at each column's end.
//!
//! It promises that the chart has a lane for ingress, for each replica in node order and for egress, each cell by the
//! frame of its column, and a mark for each happening that is told, in the lane of its node, or of both replicas of its
//! pair, and the column of its place. It stands on `run_watch` for happenings and frames, and on `lane_chart` for charts.
#![tactic(auto)]

mod cells;
mod keys;
mod lanes;
mod law;
mod marks;
mod nodes;
mod said;
mod signs;
mod ticks;
mod timeline;

pub use law::{ranks_are_places, worked_timelines};
pub use signs::name_of;
pub use timeline::chart_of;
