// What a pull finds at its two ends.
ghost use Rattle.flux_core.specs.Pulls.{IsAhead, IsNoPull, IsPullOf};
ghost use Rattle.flux_core.specs.declared.error.ApplyError.TheVariants as error;
ghost use Rattle.std.specs.Option.{option_map};
ghost use Rattle.std.specs.Prelude.{◌≡◌, ◌<◌, ◌↔◌, IfErr, IfOk, IsTrue, Some, length};

use crate::asked::Asked;
use crate::error::ApplyError;
use flux_consumer::Consumer;
use flux_producer::Producer;

// The pull of the item after a consumer's mark, where both ends run and the producer keeps it.
pub(crate) fn pull_between(
    producer: Option<&Producer>,
    target: u32,
    consumer: Option<&Consumer>,
    source: u32,
) -> Result<Asked, ApplyError>
    ensures found { IfOk result (IsPullOf (option_map (λ p. p.now) producer.entry) target (option_map (λ c. c.now) consumer.entry) source) }
    ensures refused { IfErr result (IsNoPull (option_map (λ p. p.now) producer.entry) target (option_map (λ c. c.now) consumer.entry) source) }
{
    match (producer, consumer) {
        (Some(producer), Some(consumer)) => pull_along(producer, target, consumer, source),
        _ => Err(ApplyError::NotRunning),
    }
}

// The same of two ends that run. Each has the edge, so that want of memory is no answer of a core's.
fn pull_along(
    producer: &Producer,
    target: u32,
    consumer: &Consumer,
    source: u32,
) -> Result<Asked, ApplyError>
    ensures found { IfOk result (IsPullOf (Some producer.now) target (Some consumer.now) source) }
    ensures refused { IfErr result (IsNoPull (Some producer.now) target (Some consumer.now) source) }
{
    if target >= producer.edges() || source >= consumer.merge().edges() {
        return Err(ApplyError::OutOfMemory);
    }
    let buffer = producer.buffer(target);
    let mark = consumer.merge().mark(source);
    let (low, produced) = (buffer.low(), buffer.produced());
    if mark < low || produced <= mark {
        return Err(ApplyError::NotHeld {
            low,
            mark,
            produced,
        });
    }
    let Some(item) = buffer.get(mark + 1) else {
        unreachable!()
    };
    Ok(Asked::Pull { edge: source, item })
}

// Whether a producer has made more of an edge than a consumer has taken. Each has the edge, so that want of
// memory is no answer of a core's.
pub(crate) fn is_ahead(
    producer: &Producer,
    target: u32,
    consumer: &Consumer,
    source: u32,
) -> Result<bool, ApplyError>
    ensures ahead { IfOk result (λ ahead. (target < length producer.now.edges) × (source < length consumer.now.merge.marks)
        × (IsTrue ahead ↔ IsAhead producer.now target consumer.now source)) }
    ensures refused { IfErr result (λ e. e ≡ error.OutOfMemory) }
{
    if target >= producer.edges() || source >= consumer.merge().edges() {
        return Err(ApplyError::OutOfMemory);
    }
    Ok(consumer.merge().mark(source) < producer.buffer(target).produced())
}
