// The heads of the edges, and the least of them.
ghost use Rattle.std.specs.List.{IsFirstBest};
ghost use Rattle.std.specs.Prelude.{◌≡◌, ◌≤◌, ◌<◌, Some, length, nat_lt};
ghost use Rattle.tuple_edge.specs.Limits.{edge_limit};
ghost use Rattle.merge_order.specs.MergeView.{least};

use crate::queue::Queue;
use tuple_edge::Item;

/// The first item that waits on the edge of a source.
#[derive(Clone, Copy)]
pub struct Head {
    /// The source, from 0.
    pub source: u32,
    /// The item.
    pub item: Item,
}

/// The least of the heads by stamp, kind and source, where each queue has one.
pub(crate) fn least_head(queues: &[Queue]) -> Option<Head>
    requires { length queues.now < edge_limit }
    ensures { result ≡ least queues.now }
{
    // The heads are compared where they stand; only the least one is copied.
    let mut least = queues.first()?.first()?;
    let mut source = 0;
    for place in 1..queues.len() {
        let head = queues[place].first()?;
        if head.before(least, place as u32, source) {
            least = head;
            source = place as u32;
        }
    }
    Some(Head {
        source,
        item: *least,
    })
}

/// The place of the least stamp, and of the first one where several are least.
pub(crate) fn least_place(stamps: &[u64]) -> usize
    requires { 1 ≤ length stamps.now }
    ensures { IsFirstBest nat_lt stamps.now (length stamps.now) result }
{
    let mut least = stamps[0];
    let mut least_at = 0;
    for place in 1..stamps.len() {
        let stamp = stamps[place];
        if stamp < least {
            least = stamp;
            least_at = place;
        }
    }
    least_at
}
