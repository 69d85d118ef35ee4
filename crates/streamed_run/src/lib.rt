//! A run of a plan to which inputs come while it goes on, and from which rows go, and then the drain.
//!
//! It promises of such a run what `drained_run` promises of one whose inputs are known beforehand: it has ended as a run of
//! just the inputs that came. The rows that a tap took while it went on begin the output of every list of inputs with which those
//! that came begin. It reads and writes nothing. It stands on the runner (`partition_runner`), which turns the nodes and asks the
//! source, and on `flux_core` and `core_drain`, which bring what is left to its end.
#![tactic(auto)]

mod ended;
mod run;

pub use ended::StreamEnded;
pub use partition_runner::{Came, Gate, RowTap, Source, StreamJob, Streaming, ready_streamed};
pub use run::run_stream;
