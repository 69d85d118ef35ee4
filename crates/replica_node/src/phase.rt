// What a replica is at a time, with what it has then.
ghost use Rattle.replica_node.specs.Phases.{inc_in, mode_in, running_in, stop_taken};
ghost use Rattle.replica_node.specs.declared.phase.Phase.TheVariants as phase;
ghost use Rattle.std.specs.Prelude.{◌≡◌, option_map};

use catch_up::Newcomer;
use flux_consumer::Consumer;
use flux_producer::Producer;
use state_mover::Mover;
use stream_ops::OpState;

/// What a replica is.
#[derive(Clone, Copy, Debug, PartialEq, Eq)]
pub enum Mode {
    /// It takes, merges, sends and reports.
    Running,
    /// It was restarted, and gathers its partner's state.
    Gathering,
    /// It failed or was stopped.
    Gone,
}

/// What a running replica has: its incarnation, both sides of its edges, its operator, the greatest
/// incarnation of its partner that it served, and at most one move to it.
#[derive(Drop)]
pub struct Running {
    pub inc: u64,
    pub consumer: Consumer,
    pub producer: Producer,
    pub state: OpState,
    pub served: u64,
    pub mover: Option<Mover>,
}

/// A mode with what a replica has in it. What is gone has its incarnation and nothing else.
#[derive(Drop)]
pub enum Phase {
    Running(Running),
    Gathering(Newcomer),
    Gone { inc: u64 },
}

impl Phase {
    // Its incarnation.
    pub(crate) fn inc(&self) -> u64
        ensures { result ≡ inc_in self.now }
    {
        match self {
            Phase::Running(running) => running.inc,
            Phase::Gathering(newcomer) => newcomer.inc(),
            Phase::Gone { inc } => *inc,
        }
    }

    // Is stopped, in the incarnation that it is in.
    pub(crate) fn take_stop(&mut self, inc: u64)
        ensures { self.new ≡ stop_taken inc self.old }
    {
        if inc == self.inc() {
            *self = Phase::Gone { inc };
        }
    }

    // Fails.
    pub(crate) fn die(&mut self)
        ensures { self.new ≡ phase.Gone (inc_in self.old) }
    {
        let inc = self.inc();
        *self = Phase::Gone { inc };
    }

    // The mode alone.
    pub(crate) fn mode(&self) -> Mode
        ensures { result ≡ mode_in self.now }
    {
        match self {
            Phase::Running(_) => Mode::Running,
            Phase::Gathering(_) => Mode::Gathering,
            Phase::Gone { .. } => Mode::Gone,
        }
    }

    // What it has where it runs.
    pub(crate) fn running(&self) -> Option<&Running>
        ensures { option_map (λ r. r.now) result ≡ running_in self.now }
    {
        match self {
            Phase::Running(running) => Some(running),
            Phase::Gathering(_) | Phase::Gone { .. } => None,
        }
    }
}
