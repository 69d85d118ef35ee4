// A node's own part in a run.
ghost use Rattle.plan_nodes.specs.States.{Admits, IsOfPlan, MayDo, StandsFor, WantsRows, gone_of, id_of, rows_of};
ghost use Rattle.std.specs.Prelude.{◌≡◌};

use crate::feed::Feed;
use node_tasks::{Acts, Steps, Task};
use plan_nodes::NodeState;
use plan_reader::Plan;
use std::marker::Model;
use tuple_edge::{Input, NodeId, OutOfMemory, Outbox, Packet, Row, Worked};

/// A node's own part in a run: its state as a node of the plan, and how inputs come to it.
#[derive(Drop)]
pub(crate) struct Fed<F: Feed> {
    state: NodeState,
    feed: F,
}

impl<F: Feed> Model for Fed<F> {
    ghost use Rattle.plan_nodes.specs.declared.state.NodeState.{NodeState};

    ghost Value = { NodeState };

    ghost view = { λ f. f.state };

    ghost invariant = { λ f. F.fits f.feed f.state };
}

impl<F: Feed> Fed<F> {
    /// The part of a node, and how inputs come to it.
    pub(crate) fn new(state: NodeState, feed: F) -> Fed<F>
        requires { F.fits feed state }
        ensures { result ≡ state }
    {
        Fed { state, feed }
    }

    /// The node, and how inputs came to it.
    pub(crate) fn into_parts(self) -> (NodeState, F)
        ensures state { result.0 ≡ self }
        ensures fits { F.fits result.1 result.0 }
    {
        let Fed { state, feed } = self;
        (state, feed)
    }
}

impl<F: Feed> Acts for Fed<F> {
    ghost id = { λ s. id_of s };

    ghost of_plan = { λ plan s. IsOfPlan plan s };

    ghost stands = { λ plan inputs s x. StandsFor plan inputs s x };

    ghost admits = { λ s inputs. Admits s inputs };

    ghost may = { λ s t. MayDo s t };

    ghost rows = { λ s. rows_of s };

    ghost gone = { λ s. gone_of s };

    ghost done = { λ s. F.over s };

    ghost wants = { λ plan s. WantsRows plan s };

    fn id(&self) -> NodeId {
        self.state.id()
    }

    fn may(&self, task: &Task) -> bool {
        self.state.may(task)
    }

    fn act(&mut self, task: &Task, rise: u64, out: &mut Outbox) -> Result<Worked, OutOfMemory> {
        self.state.act(task, rise, out)
    }

    fn take(
        &mut self,
        from: NodeId,
        index: u64,
        packet: &Packet,
        out: &mut Outbox,
    ) -> Result<Worked, OutOfMemory> {
        self.state.take(from, index, packet, out)
    }

    fn work(&mut self, most: usize, rise: u64, out: &mut Outbox) -> Result<Steps, OutOfMemory> {
        self.state.work(most, rise, out)
    }

    fn make(&mut self, most: usize, plan: &Plan) -> Result<usize, OutOfMemory> {
        self.state.make(most, plan)
    }

    // Inputs come as the feed has it, and not one by one from whoever turns the node.
    fn feed(&mut self, _input: Input) -> Result<bool, OutOfMemory> {
        let _state = &self.state;
        Ok(false)
    }

    fn refill(&mut self, most: usize) -> Result<(), OutOfMemory> {
        self.feed.refill(&mut self.state, most)
    }

    fn merged(&self) -> Option<u64> {
        self.state.merged()
    }

    fn is_done(&self) -> bool {
        F::is_over(&self.state)
    }

    fn emitted(&self) -> &[Row] {
        self.state.emitted()
    }

    fn first(&self) -> Option<Row> {
        self.state.first()
    }

    fn let_go(&mut self) -> Option<Row> {
        self.state.let_go()
    }
}
