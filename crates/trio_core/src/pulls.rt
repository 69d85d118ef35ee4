// What a pull finds at its two ends.
ghost use Rattle.std.specs.Option.{option_map};
ghost use Rattle.std.specs.Prelude.{◌≡◌, IfErr, IfOk, Some};
ghost use Rattle.trio_core.specs.Pulls.{IsNoPull, IsPullOf};
ghost use Rattle.trio_machine.specs.Numbers.{part_of};

use crate::error::TrioError;
use crate::task::TrioTask;
use flux_consumer::Consumer;
use flux_producer::Producer;
use trio_nodes::TrioNode;

// The partition of a node.
pub(crate) fn part_of(node: TrioNode) -> u32
    ensures { result ≡ part_of node }
{
    match node {
        TrioNode::Replica { part, .. } | TrioNode::Control { part, .. } => part,
        TrioNode::Ingress | TrioNode::Egress => 0,
    }
}

// The pull of the item after a consumer's mark, where both ends run and the producer keeps it.
pub(crate) fn pull_between(
    producer: Option<&Producer>,
    target: u32,
    consumer: Option<&Consumer>,
    source: u32,
) -> Result<TrioTask, TrioError>
    ensures found { IfOk result (IsPullOf (option_map (λ p. p.now) producer.entry) target (option_map (λ c. c.now) consumer.entry) source) }
    ensures refused { IfErr result (IsNoPull (option_map (λ p. p.now) producer.entry) target (option_map (λ c. c.now) consumer.entry) source) }
{
    match (producer, consumer) {
        (Some(producer), Some(consumer)) => pull_along(producer, target, consumer, source),
        _ => Err(TrioError::NotRunning),
    }
}

// The same of two ends that run. Each has the edge, so that want of memory is no answer of a core's.
fn pull_along(
    producer: &Producer,
    target: u32,
    consumer: &Consumer,
    source: u32,
) -> Result<TrioTask, TrioError>
    ensures found { IfOk result (IsPullOf (Some producer.now) target (Some consumer.now) source) }
    ensures refused { IfErr result (IsNoPull (Some producer.now) target (Some consumer.now) source) }
{
    if target >= producer.edges() || source >= consumer.merge().edges() {
        return Err(TrioError::OutOfMemory);
    }
    let buffer = producer.buffer(target);
    let mark = consumer.merge().mark(source);
    let (low, produced) = (buffer.low(), buffer.produced());
    if mark < low || produced <= mark {
        return Err(TrioError::NotHeld {
            low,
            mark,
            produced,
        });
    }
    let Some(item) = buffer.get(mark + 1) else {
        unreachable!()
    };
    Ok(TrioTask::Pull { edge: source, item })
}
