// What a replica takes: the items of its in-edges, and what its consumers and its controller tell it as
// a producer.
ghost use Rattle.replica_node.specs.Phases.{ack_taken, item_pulled, lead_taken, tuple_taken, want_taken};
ghost use Rattle.replica_node.specs.Admitted.{MayPullIn};
ghost use Rattle.replica_node.specs.Rules.{IsNewItem};
ghost use Rattle.replica_node.specs.Takers.{HasCopy, HasInEdge, HasOutEdge};
ghost use Rattle.std.specs.Prelude.{◌≡◌, ◌<◌, OnErr, OnOk};
ghost use Rattle.tuple_edge.specs.Limits.{number_limit};

use crate::phase::Phase;
use tuple_edge::{Item, OutOfMemory};

impl Phase {
    // Takes a tuple: offers it to the merge, or holds it.
    pub(crate) fn take_tuple(
        &mut self,
        edge: u32,
        number: u64,
        item: Item,
    ) -> Result<(), OutOfMemory>
        requires { HasInEdge edge self.old }
        ensures taken { OnOk result (self.new ≡ tuple_taken edge number item self.old) }
        ensures unchanged { OnErr result (self.new ≡ self.old) }
        ensures wants { OnErr result (IsNewItem edge number self.old) }
    {
        match self {
            Phase::Running(running) => {
                running.consumer.tuple(edge, number, item)?;
                Ok(())
            }
            Phase::Gathering(newcomer) => {
                newcomer.hold(edge, number, item)?;
                Ok(())
            }
            Phase::Gone { .. } => Ok(()),
        }
    }

    // Takes the next item of an edge, straight from its producer.
    pub(crate) fn pull(&mut self, edge: u32, item: Item) -> Result<(), OutOfMemory>
        requires edge { HasInEdge edge self.old }
        requires fits { MayPullIn edge self.old }
        ensures taken { OnOk result (self.new ≡ item_pulled edge item self.old) }
        ensures unchanged { OnErr result (self.new ≡ self.old) }
    {
        match self {
            Phase::Running(running) => {
                let next = running.consumer.merge().mark(edge) + 1;
                running.consumer.tuple(edge, next, item)?;
                Ok(())
            }
            Phase::Gathering(_) | Phase::Gone { .. } => Ok(()),
        }
    }

    // Forgets what is acknowledged.
    pub(crate) fn take_ack(&mut self, to: u32, upto: u64)
        requires edge { HasOutEdge to self.old }
        requires fits { upto < number_limit }
        ensures { self.new ≡ ack_taken to upto self.old }
    {
        match self {
            Phase::Running(running) => running.producer.ack(to, upto),
            Phase::Gathering(_) | Phase::Gone { .. } => {}
        }
    }

    // Goes back for a newcomer.
    pub(crate) fn take_want(&mut self, to: u32, copy: u32, from: u64)
        requires edge { HasOutEdge to self.old }
        requires copy { HasCopy copy self.old }
        ensures { self.new ≡ want_taken to copy from self.old }
    {
        match self {
            Phase::Running(running) => running.producer.want(to, copy, from),
            Phase::Gathering(_) | Phase::Gone { .. } => {}
        }
    }

    // Leads, where it is told so in its own incarnation.
    pub(crate) fn take_lead(&mut self, inc: u64, term: u64)
        ensures { self.new ≡ lead_taken inc term self.old }
    {
        match self {
            Phase::Running(running) => {
                if inc == running.inc {
                    running.producer.lead(term);
                }
            }
            Phase::Gathering(_) | Phase::Gone { .. } => {}
        }
    }
}
