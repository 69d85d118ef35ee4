// The two ends of a pull.
ghost use Rattle.flux_core.specs.Ends.{IsNextSource, IsSourceOf};
ghost use Rattle.flux_core.specs.CoreView.{flow_in};
ghost use Rattle.flux_core.specs.Acts.{IsTimelyTask};
ghost use Rattle.flux_core.specs.Refusals.{IsRefusal};
ghost use Rattle.flux_core.specs.Stands.{IsCore, StandsFor};
ghost use Rattle.flux_core.specs.Steps.{IsTaskOf};
ghost use Rattle.flux_core.specs.declared.error.ApplyError.TheVariants as error;
ghost use Rattle.pair_machine.specs.Machine.{State, act_of};
ghost use Rattle.plan_reader.specs.Nodes.{has_edge};
ghost use Rattle.std.specs.Option.{option_map};
ghost use Rattle.std.specs.Prelude.{◌≡◌, ◌≤◌, IfErr, IfOk, IsTrue, length};
ghost use Rattle.tuple_edge.specs.Node.{part_of};
ghost use Rattle.tuple_edge.specs.declared.event.Event.TheVariants as event;

use crate::asked::Asked;
use crate::error::ApplyError;
use crate::nodes::Core;
use crate::pulls::{is_ahead, pull_between};
use crate::rows::CoreRows;
use flux_consumer::Consumer;
use ingress_egress::Ingress;
use tuple_edge::NodeId;

// The source of ingress from which a consumer takes its next item.
fn source_ahead(
    ingress: &Ingress,
    target: u32,
    consumer: Option<&Consumer>,
) -> Result<u32, ApplyError>
    requires { 1 ≤ length ingress.now.producers }
    ensures source { IfOk result (IsNextSource ingress.now target (option_map (λ c. c.now) consumer.entry)) }
    ensures refused { IfErr result (λ e. e ≡ error.OutOfMemory) }
{
    let last = ingress.sources() - 1;
    let Some(consumer) = consumer else {
        return Ok(last);
    };
    if last == 1 && is_ahead(ingress.producer(0), target, consumer, 0)? {
        return Ok(0);
    }
    Ok(last)
}

// The partition of a node.
fn part_of(node: NodeId) -> u32
    ensures { result ≡ part_of node }
{
    match node {
        NodeId::Replica { part, .. } | NodeId::Control { part, .. } => part,
        NodeId::Ingress | NodeId::Egress => 0,
    }
}

impl<R: CoreRows> Core<R> {
    // The source of the edge between two nodes from which the next item is pulled.
    fn source_of(
        &self,
        from: NodeId,
        target: u32,
        consumer: Option<&Consumer>,
    ) -> Result<u32, ApplyError>
        ensures source { IfOk result (IsSourceOf self.now from target (option_map (λ c. c.now) consumer.entry)) }
        ensures refused { IfErr result (λ e. e ≡ error.OutOfMemory) }
        ensures core { IsCore self.now }
    {
        self.known();
        match from {
            NodeId::Ingress => source_ahead(self.ingress(), target, consumer),
            NodeId::Replica { .. } | NodeId::Control { .. } | NodeId::Egress => Ok(part_of(from)),
        }
    }

    // The pull of the next item of the edge between two nodes.
    pub(crate) fn pull_of(&self, from: NodeId, to: NodeId) -> Result<Asked, ApplyError>
        requires named { IsTrue (has_edge self.now.plan from to) }
        ensures asked { IfOk result (IsTaskOf self.now (event.Pull from to)) }
        ensures timely { IfOk result IsTimelyTask }
        ensures refused { IfErr result (λ e. (s : State) → StandsFor self.now s → IsRefusal (act_of (flow_in self.now) s (event.Pull from to)) e) }
    {
        let target = part_of(to);
        let consumer = self.station(to).consumer();
        let source = self.source_of(from, target, consumer)?;
        let producer = self.station(from).producer(source);
        pull_between(producer, target, consumer, source)
    }
}
