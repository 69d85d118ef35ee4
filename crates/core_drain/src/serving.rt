// Who drains for a pair, and the first pair for which nobody can.
ghost use Rattle.core_drain.specs.Modes.{runs};
ghost use Rattle.flux_core.specs.CoreView.{flow_in};
ghost use Rattle.flux_core.specs.Stands.{StandsFor};
ghost use Rattle.pair_machine.specs.Drain.{drainer, first_lost, is_lost, is_serving, pairs_up_to, partition, parts_below};
ghost use Rattle.pair_machine.specs.Machine.{State};
ghost use Rattle.pair_machine.specs.Pairs.{side_of};
ghost use Rattle.plan_reader.specs.Nodes.{has_pair};
ghost use Rattle.std.specs.Option.{option_map};
ghost use Rattle.std.specs.Prelude.{◌≡◌, ◌≤◌, ◌+◌, ℕ, IsTrue, length};

use flux_core::{Core, CoreRows};
use replica_node::Mode;
use tuple_edge::Which;

// Whether a replica of this mode runs.
fn runs(mode: Mode) -> bool
    ensures { result ≡ runs mode }
{
    match mode {
        Mode::Running => true,
        Mode::Gathering | Mode::Gone => false,
    }
}

// Whether a replica runs and its controller counts it.
fn serves<R: CoreRows>(core: &Core<R>, stage: u32, part: u32, which: Which) -> bool
    requires { IsTrue (has_pair core.now.plan stage part) }
    ensures { (s : State) → StandsFor core.now s → result ≡ is_serving (side_of s (partition stage part) which) }
{
    let replica = core.replica(stage, part, which);
    let counted = core.control(stage, part).counts(which, replica.inc());
    runs(replica.mode()) && counted
}

// The drainer of a pair: the first of its replicas that runs and is counted.
pub(crate) fn drainer<R: CoreRows>(core: &Core<R>, stage: u32, part: u32) -> Which
    requires { IsTrue (has_pair core.now.plan stage part) }
    ensures { (s : State) → StandsFor core.now s → result ≡ drainer s (partition stage part) }
{
    if serves(core, stage, part, Which::A) {
        Which::A
    } else {
        Which::B
    }
}

// Whether neither replica of a pair runs and is counted.
fn is_lost<R: CoreRows>(core: &Core<R>, stage: u32, part: u32) -> bool
    requires { IsTrue (has_pair core.now.plan stage part) }
    ensures { (s : State) → StandsFor core.now s → result ≡ is_lost s (partition stage part) }
{
    let first = serves(core, stage, part, Which::A);
    let second = serves(core, stage, part, Which::B);
    !first && !second
}

// The partition of the first lost pair of a stage.
fn first_lost_of<R: CoreRows>(core: &Core<R>, stage: u32) -> Option<u32>
    requires first { 1 ≤ stage }
    requires last { stage ≤ length core.now.plan.stages }
    ensures { (s : State) → StandsFor core.now s
        → option_map (λ part. partition stage part) result ≡ first_lost s (parts_below stage ((flow_in core.now).sources (stage + 1))) }
{
    let parts = core.plan().parts(stage);
    for part in 0..parts {
        if is_lost(core, stage, part) {
            return Some(part);
        }
    }
    None
}

/// The stage and the partition of the first lost pair, in the order of the nodes: no replica of it runs and is counted by its controller.
pub fn first_lost<R: CoreRows>(core: &Core<R>) -> Option<(u32, u32)>
    ensures { (s : State) → StandsFor core.now s
        → option_map (λ (p : ℕ × ℕ). partition p.0 p.1) result ≡ first_lost s (pairs_up_to (flow_in core.now) (flow_in core.now).stages) }
{
    for before in 0..core.plan().stage_count() {
        let stage = before + 1;
        if let Some(part) = first_lost_of(core, stage) {
            return Some((stage, part));
        }
    }
    None
}
