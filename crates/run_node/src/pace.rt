// How much a node does in a turn, and how late it reports.
ghost use Rattle.run_node.specs.Portions.{portion_for};
ghost use Rattle.std.specs.Prelude.{◌≡◌, ◌≤◌};

use failure_script::Script;
use node_tasks::{PORTION, PORTION_UNDER_ORDERS};

/// How much a node does in a turn, and how late it reports.
#[derive(Clone, Copy, Debug, PartialEq, Eq)]
pub(crate) struct Pace {
    /// How many packets, makes and pieces of work a turn has at most, of each so many.
    pub(crate) portion: u64,
    /// Where a mark rose by so much since it was told, reports are always asked for. To ask later would save little, and
    /// ingress goes on only while its edges hold few items that are not acknowledged.
    pub(crate) most_rise: u64,
}

impl Pace {
    /// That of a run under a script. A node obeys its orders only as a turn begins, so that turns are short where there are any:
    /// of all nodes alike, as one that is much faster would end the run before another comes to the count of its order.
    pub(crate) fn of(script: &Script) -> Pace
        ensures portion { result.portion ≡ portion_for script.now }
        ensures some { 1 ≤ result.portion }
    {
        if script.orders().is_empty() {
            Pace {
                portion: PORTION,
                most_rise: 128,
            }
        } else {
            Pace {
                portion: PORTION_UNDER_ORDERS,
                most_rise: 32,
            }
        }
    }
}
