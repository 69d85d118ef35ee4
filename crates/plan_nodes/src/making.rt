// Ingress makes inputs into items, one after another.
ghost use Rattle.node_tasks.specs.Coming.{HaveCome};
ghost use Rattle.plan_nodes.specs.States.{Admits, EachHoldsFew, HasMade, HoldsFew, IsOfPlan, StandsFor, StandsLike};
ghost use Rattle.plan_nodes.specs.declared.state.NodeState.TheVariants as state;
ghost use Rattle.plan_reader.specs.PlanView.{PlanView};
ghost use Rattle.pair_machine.specs.Numbers.{Node};
ghost use Rattle.std.specs.Prelude.{◌≡◌, ◌≤◌, ◌↔◌, ◌++◌, ◌∷◌, [], IfOk, IsTrue, List, OnErr, false};
ghost use Rattle.tuple_edge.specs.Input.{Input};

use flux_producer::Producer;
use ingress_egress::Ingress;
use plan_reader::Plan;
use tuple_edge::{Input, OutOfMemory, Worked};

/// Makes inputs into items, one after another and at most so many, while each edge of ingress holds fewer items than the plan
/// says, and says how many they were.
pub(crate) fn ingress_makes(
    node: &mut Ingress,
    most: usize,
    plan: &Plan,
) -> Result<usize, OutOfMemory>
    ensures made { IfOk result (HasMade plan.now (state.Ingress node.old) (state.Ingress node.new)) }
    ensures most { IfOk result (λ count. count ≤ most) }
    ensures unchanged { OnErr result (StandsLike (state.Ingress node.old) (state.Ingress node.new)) }
    ensures of_plan { (plan : PlanView) → IsOfPlan plan (state.Ingress node.old) → IsOfPlan plan (state.Ingress node.new) }
    ensures inputs { (inputs : List Input) → Admits (state.Ingress node.new) inputs ↔ Admits (state.Ingress node.old) inputs }
{
    for done in 0..most {
        if !holds_few(node, plan.hold()) {
            return Ok(done);
        }
        match node.make() {
            Ok(Worked::Did) => {}
            Ok(Worked::Idle) => return Ok(done),
            // What was made before memory lacked stays made.
            Err(lack) => return if done == 0 { Err(lack) } else { Ok(done) },
        }
    }
    Ok(most)
}

/// Takes the next input that comes.
pub(crate) fn ingress_feeds(node: &mut Ingress, input: Input) -> Result<bool, OutOfMemory>
    ensures came { IfOk result (λ taken. IsTrue taken → (before : List Input) → HaveCome Admits (state.Ingress node.old) before
        → HaveCome Admits (state.Ingress node.new) (before ++ input ∷ [])) }
    ensures left { IfOk result (λ taken. taken ≡ false → node.new ≡ node.old) }
    ensures unchanged { OnErr result (node.new ≡ node.old) }
    ensures inputs { (inputs : List Input) → Admits (state.Ingress node.new) inputs → Admits (state.Ingress node.old) inputs }
    ensures stands { (plan : PlanView) (inputs : List Input) (x : Node) → Admits (state.Ingress node.new) inputs
        → StandsFor plan inputs (state.Ingress node.old) x → StandsFor plan inputs (state.Ingress node.new) x }
    ensures of_plan { (plan : PlanView) → IsOfPlan plan (state.Ingress node.old) → IsOfPlan plan (state.Ingress node.new) }
{
    node.feed(input)
}

// Whether each edge of ingress holds fewer items than this.
fn holds_few(node: &Ingress, hold: u64) -> bool
    ensures { IsTrue result ↔ EachHoldsFew hold node.now }
{
    for source in 0..node.sources() {
        if !edges_hold_few(node.producer(source), hold) {
            return false;
        }
    }
    true
}

// Whether each edge of a producer holds fewer items than this.
fn edges_hold_few(producer: &Producer, hold: u64) -> bool
    ensures { IsTrue result ↔ HoldsFew hold producer.now }
{
    for target in 0..producer.edges() {
        let buffer = producer.buffer(target);
        if buffer.produced().saturating_sub(buffer.low()) >= hold {
            return false;
        }
    }
    true
}
