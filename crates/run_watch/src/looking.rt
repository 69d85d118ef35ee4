// A node of a core, looked at.
ghost use Rattle.flux_core.specs.CoreView.{flow_in};
ghost use Rattle.flux_core.specs.Stands.{StandsFor};
ghost use Rattle.pair_control.specs.ControllerView.{watched_of};
ghost use Rattle.pair_machine.specs.Machine.{State};
ghost use Rattle.plan_reader.specs.Nodes.{has_node, has_pair};
ghost use Rattle.replica_node.specs.Phases.{mode_in};
ghost use Rattle.replica_node.specs.declared.phase.Mode.TheVariants as mode;
ghost use Rattle.run_watch.specs.Glimpses.{glimpse_of, mode_of};
ghost use Rattle.run_watch.specs.Looks.{HasHeld, control_seen, held_below, mover_seen, phase_seen, runs_as, watched_seen};
ghost use Rattle.std.specs.Prelude.{◌≡◌, IfOk, IsTrue, length, option_map};
ghost use Rattle.tuple_edge.specs.declared.node.NodeId.TheVariants as node;

use crate::glimpse::{Glimpse, Known, Moving};
use crate::mode::Mode;
use catch_up::Newcomer;
use flux_core::Core;
use pair_control::PairControl;
use replica_node::Replica;
use state_mover::Mover;
use tuple_edge::{NodeId, OutOfMemory, Which};

// The move that a replica gives.
fn moving(mover: Option<&Mover>) -> Option<Moving>
    ensures { result ≡ mover_seen (option_map (λ m. m.now) mover.entry) }
{
    let mover = mover?;
    Some(Moving {
        target: mover.target(),
        sent: mover.sent(),
    })
}

// A replica that runs.
fn running(replica: &Replica) -> Glimpse
    requires { mode_in replica.now.phase ≡ mode.Running }
    ensures { result ≡ phase_seen replica.now.phase }
{
    let Some(producer) = replica.producer() else {
        unreachable!()
    };
    Glimpse::Running {
        inc: replica.inc(),
        leads: producer.leads(),
        term: producer.term(),
        moving: moving(replica.mover()),
    }
}

// How many items a newcomer holds. Each takes memory, so a number that no count has says that memory is wanting.
#[tactic(auto, using(crate::proofs::Glimpsed::held_next))]
fn held(newcomer: &Newcomer, edges: u32) -> Result<u64, OutOfMemory>
    requires { edges ≡ length newcomer.now.held }
    ensures { IfOk result (λ n. n ≡ held_below newcomer.now edges) }
{
    let mut held: u64 = 0;
    for edge in 0..edges {
        let more = newcomer.held_numbers(edge).len() as u64;
        let Some(sum) = held.checked_add(more) else {
            return Err(OutOfMemory);
        };
        held = sum;
    }
    Ok(held)
}

// A replica that gathers, with so many in-edges.
fn gathering(replica: &Replica, edges: u32) -> Result<Glimpse, OutOfMemory>
    requires mode { mode_in replica.now.phase ≡ mode.Gathering }
    requires edges { HasHeld edges replica.now.phase }
    ensures { IfOk result (λ g. g ≡ phase_seen replica.now.phase) }
{
    let Some(newcomer) = replica.newcomer() else {
        unreachable!()
    };
    let held = held(newcomer, edges)?;
    Ok(Glimpse::Gathering {
        inc: newcomer.inc(),
        taken: newcomer.taken(),
        held,
    })
}

// A replica of the plan.
fn replica_glimpse(core: &Core, stage: u32, part: u32, which: Which) -> Result<Glimpse, OutOfMemory>
    requires { IsTrue (has_pair core.now.plan stage part) }
    ensures { IfOk result (λ g. (s : State) → StandsFor core.now s → g ≡ glimpse_of (flow_in core.now) s (node.Replica stage part which)) }
{
    core.known();
    let replica = core.replica(stage, part, which);
    match replica.mode() {
        replica_node::Mode::Running => Ok(running(replica)),
        replica_node::Mode::Gone => Ok(Glimpse::Gone { inc: replica.inc() }),
        replica_node::Mode::Gathering => {
            let edges = core.plan().sources(stage);
            gathering(replica, edges)
        }
    }
}

// What a controller knows of a replica.
pub(crate) fn known(control: &PairControl, which: Which) -> Known
    ensures { result ≡ watched_seen (watched_of control.now which) }
{
    Known {
        status: control.status(which),
        inc: control.inc(which),
    }
}

// A controller.
fn seen(control: &PairControl) -> Glimpse
    ensures { result ≡ control_seen control.now }
{
    Glimpse::Control {
        term: control.term(),
        leader: control.leader(),
        a: known(control, Which::A),
        b: known(control, Which::B),
    }
}

// A controller of the plan.
pub(crate) fn control_glimpse(core: &Core, stage: u32, part: u32) -> Glimpse
    requires { IsTrue (has_pair core.now.plan stage part) }
    ensures { (s : State) → StandsFor core.now s → result ≡ glimpse_of (flow_in core.now) s (node.Control stage part) }
{
    core.known();
    seen(core.control(stage, part))
}

// A node of the plan.
pub(crate) fn glimpse(core: &Core, node: NodeId) -> Result<Glimpse, OutOfMemory>
    requires { IsTrue (has_node core.now.plan node) }
    ensures { IfOk result (λ g. (s : State) → StandsFor core.now s → g ≡ glimpse_of (flow_in core.now) s node) }
{
    match node {
        NodeId::Replica { stage, part, which } => replica_glimpse(core, stage, part, which),
        NodeId::Control { stage, part } => Ok(control_glimpse(core, stage, part)),
        NodeId::Ingress | NodeId::Egress => Ok(Glimpse::End),
    }
}

// The incarnation in which a replica of the plan runs, where it does.
pub(crate) fn runs(core: &Core, stage: u32, part: u32, which: Which) -> Option<u64>
    requires { IsTrue (has_pair core.now.plan stage part) }
    ensures { (s : State) → StandsFor core.now s → result ≡ runs_as (glimpse_of (flow_in core.now) s (node.Replica stage part which)) }
{
    core.known();
    let replica = core.replica(stage, part, which);
    match replica.mode() {
        replica_node::Mode::Running => Some(replica.inc()),
        replica_node::Mode::Gathering => None,
        replica_node::Mode::Gone => None,
    }
}

// The mode of a replica that runs.
fn mode_running(replica: &Replica) -> Mode
    requires { mode_in replica.now.phase ≡ mode.Running }
    ensures { result ≡ mode_of (phase_seen replica.now.phase) }
{
    let Some(producer) = replica.producer() else {
        unreachable!()
    };
    if producer.leads() {
        Mode::Leads
    } else {
        Mode::Runs
    }
}

// The mode of a replica of the plan.
pub(crate) fn mode_at(core: &Core, stage: u32, part: u32, which: Which) -> Mode
    requires { IsTrue (has_pair core.now.plan stage part) }
    ensures { (s : State) → StandsFor core.now s → result ≡ mode_of (glimpse_of (flow_in core.now) s (node.Replica stage part which)) }
{
    core.known();
    let replica = core.replica(stage, part, which);
    match replica.mode() {
        replica_node::Mode::Running => mode_running(replica),
        replica_node::Mode::Gathering => Mode::Gathers,
        replica_node::Mode::Gone => Mode::Gone,
    }
}
