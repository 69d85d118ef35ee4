// What a run has to do.
use crate::Gate;
use failure_script::Script;
use plan_reader::Plan;
use trade_text::Trades;

/// What a run has to do to which inputs come while it goes on: to turn the nodes of a plan, under a failure script.
#[derive(Drop)]
pub struct StreamJob<'a, G: Gate> {
    pub plan: &'a Plan,
    pub script: &'a Script,
    /// How many workers turn the nodes, each in a thread.
    pub threads: u32,
    /// How many turns each worker has at most.
    pub turns: u64,
    /// What each worker calls beside its turns.
    pub gate: &'a G,
}

/// What a run has to do: to turn the nodes of a plan over its trades, under a failure script.
#[derive(Drop)]
pub struct Job<'a, G: Gate> {
    pub plan: &'a Plan,
    pub trades: &'a Trades,
    pub script: &'a Script,
    /// How many workers turn the nodes, each in a thread.
    pub threads: u32,
    /// How many turns each worker has at most.
    pub turns: u64,
    /// What each worker calls beside its turns.
    pub gate: &'a G,
}
