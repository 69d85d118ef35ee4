// How a run stands after its events.
ghost use Rattle.flux_core.specs.CoreView.{flow_in};
ghost use Rattle.flux_core.specs.Stands.{StandsFor};
ghost use Rattle.pair_machine.specs.Drain.{partition};
ghost use Rattle.pair_machine.specs.Machine.{State};
ghost use Rattle.run_end.specs.Ends.{end_in, is_done, undone};
ghost use Rattle.std.specs.Option.{option_map};
ghost use Rattle.std.specs.Prelude.{◌≡◌, ℕ};

use core_drain::first_lost;
use flux_core::Core;

/// How a run stands after its events.
#[derive(Clone, Copy, Debug, PartialEq, Eq)]
pub enum RunEnd {
    /// Egress has merged all: its rows are all that the plan gives.
    Done,
    /// No replica of this pair serves, the first such one in the order of the nodes, and egress hasn't merged all.
    Lost { stage: u32, part: u32 },
    /// Egress hasn't merged all, and each pair serves.
    NotDone,
}

// How a run stands that isn't done, by its first lost pair.
fn undone(lost: Option<(u32, u32)>) -> RunEnd
    ensures { result ≡ undone (option_map (λ (p : ℕ × ℕ). partition p.0 p.1) lost) }
{
    match lost {
        Some((stage, part)) => RunEnd::Lost { stage, part },
        None => RunEnd::NotDone,
    }
}

// Whether egress has merged all.
fn is_done(core: &Core) -> bool
    ensures { (s : State) → StandsFor core.now s → result ≡ is_done (flow_in core.now) s }
{
    core.known();
    core.egress().done()
}

/// How a run stands after its events, of whatever state the core stands for.
pub fn run_end(core: &Core) -> RunEnd
    ensures { (s : State) → StandsFor core.now s → result ≡ end_in (flow_in core.now) s }
{
    if is_done(core) {
        return RunEnd::Done;
    }
    undone(first_lost(core))
}
