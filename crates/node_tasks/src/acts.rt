// What a node does.
ghost use mathlib.Core.List.{IsPrefix};
ghost use Rattle.node_tasks.specs.Acted.{HasActed};
ghost use Rattle.node_tasks.specs.Coming.{HaveCome};
ghost use Rattle.node_tasks.specs.Steps.{DoesMake, DoesTask, StepByStep, pieces};
ghost use Rattle.node_tasks.specs.declared.task.Task.{Task};
ghost use Rattle.node_tasks.specs.declared.task.Task.TheVariants as task;
ghost use Rattle.pair_machine.specs.Machine.{replica_in};
ghost use Rattle.pair_machine.specs.Numbers.{Node};
ghost use Rattle.pair_machine.specs.Scripts.{HasMerged};
ghost use Rattle.plan_reader.specs.Nodes.{is_replica};
ghost use Rattle.plan_reader.specs.PlanView.{PlanView};
ghost use Rattle.std.specs.Prelude.{◌≡◌, ◌≤◌, ◌+◌, ◌*◌, ◌↔◌, ◌++◌, ◌∷◌, [], Bool, List, IfOk, IfSome, MatchOption, Ok, OnErr, IsNone, IsTrue, false, length, replicate, true};
ghost use Rattle.tuple_edge.specs.Input.{Input};
ghost use Rattle.tuple_edge.specs.Limits.{most_packets};
ghost use Rattle.tuple_edge.specs.declared.event.Worked.TheVariants.{Idle};
ghost use Rattle.tuple_edge.specs.declared.node.NodeId.{NodeId};
ghost use Rattle.tuple_edge.specs.declared.row.Row.{Row};

use crate::task::Task;
use plan_reader::Plan;
use tuple_edge::{Input, NodeId, OutOfMemory, Outbox, Packet, Row, Worked};

/// Pieces of work that were done one after another, each of which sent as many packets as the others.
#[derive(Clone, Copy, Debug, PartialEq, Eq)]
pub struct Steps {
    /// How many pieces.
    pub count: usize,
    /// How many packets each of them sent.
    pub each: usize,
}

/// A node's own part: what it does, without its links and its history.
pub trait Acts: Send + Drop {
    /// Its name.
    ghost id: { Self → NodeId };

    /// It is a node of this plan.
    ghost of_plan: { PlanView → Self → Type 0 };

    /// It stands for a node's numbers, under a plan and its inputs.
    ghost stands: { PlanView → List Input → Self → Node → Type 0 };

    /// These may be the inputs: of ingress, all that came to it is a front of them, or all of them where no more come.
    ghost admits: { Self → List Input → Type 0 };

    /// It may do this.
    ghost may: { Self → Task → Type 0 };

    /// The rows that it emitted.
    ghost rows: { Self → List Row };

    /// The first of these rows: those that it handed on, and holds no longer.
    ghost gone: { Self → List Row };

    /// The run is over at it: it is egress and has merged its end, or it tells that a pair is lost without which the run is not
    /// to go on.
    ghost done: { Self → Bool };

    /// It is ingress, and each of its edges holds fewer items than this plan says.
    ghost wants: { PlanView → Self → Type 0 };

    /// Its name.
    fn id(&self) -> NodeId
        ensures { result ≡ id self.now };

    /// Whether it may do this: no number passes its limit, and a packet is one that it may be given. That the plan has a link
    /// from its sender is not asked.
    fn may(&self, task: &Task) -> bool
        ensures { IsTrue result ↔ may self.now task.now };

    /// Does it: the machine's step. Idle where there is nothing to do, and where work is nothing but to report marks of
    /// which none rose by `rise` since it was told.
    fn act(&mut self, task: &Task, rise: u64, out: &mut Outbox) -> Result<Worked, OutOfMemory>
        requires may { may self.old task.now }
        requires empty { out.old.packets ≡ [] }
        requires room { most_packets ≤ out.old.spare }
        ensures { HasActed id of_plan stands rows gone admits self.old self.new task.now result out.new.packets };

    /// Takes a packet that a node sent to it at this index, where it may be given that, as `may` and `act` would together. Idle
    /// where it may not.
    fn take(
        &mut self,
        from: NodeId,
        index: u64,
        packet: &Packet,
        out: &mut Outbox,
    ) -> Result<Worked, OutOfMemory>
        requires empty { out.old.packets ≡ [] }
        requires room { most_packets ≤ out.old.spare }
        ensures acted { HasActed id of_plan stands rows gone admits self.old self.new (task.Take from index packet.now) result out.new.packets }
        // It is left only where it may not be given.
        ensures left { result ≡ Ok Idle → may self.old (task.Take from index packet.now) → ⊥ };

    /// Does pieces of work one after another, at most so many, and says how many they were and how many packets each of them
    /// sent. It ends where nothing is to be done, before a piece that would send more or fewer packets than the one before, and
    /// before one for which there is no room, no memory or no number left. Marks are reported as by `act`.
    fn work(&mut self, most: usize, rise: u64, out: &mut Outbox) -> Result<Steps, OutOfMemory>
        requires empty { out.old.packets ≡ [] }
        requires room { most_packets ≤ out.old.spare }
        // They are steps of the machine at this node, one after another, and so are their packets.
        ensures steps { IfOk result (λ done. StepByStep (DoesTask id of_plan stands task.Work) self.old self.new (pieces done.count done.each out.new.packets)) }
        ensures packets { IfOk result (λ done. length out.new.packets ≡ done.count * done.each) }
        ensures most { IfOk result (λ done. done.count ≤ most) }
        ensures few { IfOk result (λ done. length out.new.packets ≤ most_packets) }
        // It fails only where there is no memory for the first one. Then it stands for the same numbers, and nothing is sent.
        ensures unsent { OnErr result (out.new.packets ≡ []) }
        ensures unchanged { OnErr result ((plan : PlanView) (inputs : List Input) (x : Node) → stands plan inputs self.old x → stands plan inputs self.new x) }
        ensures inputs { (inputs : List Input) → admits self.new inputs ↔ admits self.old inputs }
        // It stays the same node of the same plans, and the rows that it emitted stay.
        ensures id { id self.new ≡ id self.old }
        ensures of_plan { (plan : PlanView) → of_plan plan self.old → of_plan plan self.new }
        ensures rows { IsPrefix (rows self.old) (rows self.new) }
        ensures gone { gone self.new ≡ gone self.old };

    /// Makes inputs into items, one after another and at most so many, while each of its edges holds fewer items than the plan
    /// says, and says how many they were. It ends where all are made, and before one for which there is no memory.
    fn make(&mut self, most: usize, plan: &Plan) -> Result<usize, OutOfMemory>
        // They are steps of the machine at this node, one after another, which send nothing. Before each of them it wants rows.
        ensures steps { IfOk result (λ count. StepByStep (DoesMake id of_plan stands (wants plan.now)) self.old self.new (replicate count [])) }
        ensures most { IfOk result (λ count. count ≤ most) }
        // It fails only where there is no memory for the first one. Then it stands for the same numbers.
        ensures unchanged { OnErr result ((plan : PlanView) (inputs : List Input) (x : Node) → stands plan inputs self.old x → stands plan inputs self.new x) }
        ensures inputs { (inputs : List Input) → admits self.new inputs ↔ admits self.old inputs }
        // It stays the same node of the same plans, and the rows that it emitted stay.
        ensures id { id self.new ≡ id self.old }
        ensures of_plan { (plan : PlanView) → of_plan plan self.old → of_plan plan self.new }
        ensures rows { IsPrefix (rows self.old) (rows self.new) }
        ensures gone { gone self.new ≡ gone self.old };

    /// Takes the next input that comes, which waits until it is made. It is no event of the machine. False where it takes none.
    fn feed(&mut self, input: Input) -> Result<bool, OutOfMemory>
        // Where it takes the input, that came behind those that had come. Else it is as it was.
        ensures came { IfOk result (λ taken. IsTrue taken → (before : List Input) → HaveCome admits self.old before
            → HaveCome admits self.new (before ++ input ∷ [])) }
        ensures left { IfOk result (λ taken. taken ≡ false → self.new ≡ self.old) }
        ensures unchanged { OnErr result (self.new ≡ self.old) }
        ensures inputs { (inputs : List Input) → admits self.new inputs → admits self.old inputs }
        // It stands for the same numbers, of each list of inputs with which all that came begins.
        ensures stands { (plan : PlanView) (inputs : List Input) (x : Node) → admits self.new inputs → stands plan inputs self.old x → stands plan inputs self.new x }
        ensures id { id self.new ≡ id self.old }
        ensures of_plan { (plan : PlanView) → of_plan plan self.old → of_plan plan self.new }
        ensures rows { rows self.new ≡ rows self.old }
        ensures gone { gone self.new ≡ gone self.old };

    /// Takes inputs that come from outside, while fewer than so many wait to be made. It is no event of the machine.
    fn refill(&mut self, most: usize) -> Result<(), OutOfMemory>
        // What may be the inputs now might have been before. It stands for the same numbers, of each list of inputs with which
        // all that came begins.
        ensures inputs { (inputs : List Input) → admits self.new inputs → admits self.old inputs }
        ensures stands { (plan : PlanView) (inputs : List Input) (x : Node) → admits self.new inputs → stands plan inputs self.old x → stands plan inputs self.new x }
        ensures id { id self.new ≡ id self.old }
        ensures of_plan { (plan : PlanView) → of_plan plan self.old → of_plan plan self.new }
        ensures rows { rows self.new ≡ rows self.old }
        ensures gone { gone self.new ≡ gone self.old };

    /// How many items it has merged, where it is a replica that runs.
    fn merged(&self) -> Option<u64>
        ensures merged { IfSome result (λ k. (plan : PlanView) (inputs : List Input) (x : Node) → stands plan inputs self.now x → HasMerged k (replica_in x)) }
        // It has merged no more, and a replica that tells nothing doesn't run.
        ensures most { IfSome result (λ k. (plan : PlanView) (inputs : List Input) (x : Node) → stands plan inputs self.now x
            → HasMerged (k + 1) (replica_in x) → ⊥) }
        ensures runs { IsNone result → is_replica (id self.now) ≡ true → (plan : PlanView) (inputs : List Input) (x : Node)
            → stands plan inputs self.now x → HasMerged 0 (replica_in x) → ⊥ };

    /// Whether the run is over at it.
    fn is_done(&self) -> bool
        ensures { result ≡ done self.now };

    /// The rows that egress emitted, where it handed none of them on.
    fn emitted(&self) -> &[Row]
        requires { gone self.now ≡ [] }
        ensures { result.now ≡ rows self.now };

    /// The first row that egress emitted and did not hand on.
    fn first(&self) -> Option<Row>
        ensures { MatchOption result (gone self.now ≡ rows self.now) (λ row. IsPrefix (gone self.now ++ row ∷ []) (rows self.now)) };

    /// Hands on the first row that it holds, and holds it no longer. It is no event of the machine.
    fn let_go(&mut self) -> Option<Row>
        ensures gone { MatchOption result ((gone self.new ≡ gone self.old) × (gone self.old ≡ rows self.old)) (λ row. gone self.new ≡ gone self.old ++ row ∷ []) }
        // So the row is the first that was not handed on.
        ensures first { IsPrefix (gone self.new) (rows self.new) }
        ensures rows { rows self.new ≡ rows self.old }
        // It stands for the same numbers, and is the same node of the same plans.
        ensures stands { (plan : PlanView) (inputs : List Input) (x : Node) → stands plan inputs self.old x → stands plan inputs self.new x }
        ensures inputs { (inputs : List Input) → admits self.new inputs ↔ admits self.old inputs }
        ensures id { id self.new ≡ id self.old }
        ensures of_plan { (plan : PlanView) → of_plan plan self.old → of_plan plan self.new };
}
