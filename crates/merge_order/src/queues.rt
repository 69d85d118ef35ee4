// The queues of all edges. Beside them the stamps of their heads stand in one dense list, so that the
// search for the least head goes over a few numbers that lie together, and not over the queues.
ghost use Rattle.std.specs.Prelude.{◌≡◌, ◌≤◌, ◌<◌, ◌∷◌, ◌++◌, [], IfOk, OnErr, OnOk, drop, length, map, replicate, slice_get, slice_index_or, slice_set};
ghost use Rattle.tuple_edge.specs.Limits.{edge_limit};
ghost use Rattle.merge_order.specs.MergeView.{all_wait, least, without};

use crate::head::{Head, least_head, least_place};
use crate::queue::Queue;
use std::alloc::Global;
use std::marker::Model;
use tuple_edge::{Item, OutOfMemory};

/// The items that wait on each edge.
#[derive(Drop)]
pub(crate) struct Queues {
    queues: Vec<Queue>,
    // Of each edge the stamp of its head, or 0, at which nobody looks, where nothing waits.
    head_stamps: Vec<u64>,
    // On how many edges nothing waits.
    empty_edges: usize,
}

impl Model for Queues {
    ghost use Rattle.std.specs.Prelude.{◌≡◌, List, map};
    ghost use Rattle.tuple_edge.specs.declared.item.Item.{Item};
    ghost use Rattle.merge_order.specs.HeadStamps.{empty_count, head_stamp};

    ghost Value = { List (List Item) };

    ghost view = { λ q. q.queues.items };

    ghost invariant = { λ q. (q.head_stamps.items ≡ map head_stamp q.queues.items) × (q.empty_edges ≡ empty_count q.queues.items) };
}

impl Queues {
    /// Queues of so many edges, where nothing waits.
    pub(crate) fn new(alloc: Global, edges: usize) -> Result<Queues, OutOfMemory>
        ensures { IfOk result (λ queues. queues ≡ replicate edges []) }
    {
        let queues = empty_queues(alloc, edges)?;
        let head_stamps = zeros(alloc, edges)?;
        Ok(Queues {
            queues,
            head_stamps,
            empty_edges: edges,
        })
    }

    /// Whether each edge has an item.
    pub(crate) fn all_wait(&self) -> bool
        ensures { result ≡ all_wait self.now }
    {
        self.empty_edges == 0
    }

    /// How many items wait on an edge.
    pub(crate) fn len_of(&self, edge: usize) -> u64
        requires { edge < length self.now }
        ensures { result ≡ length (slice_index_or self.now edge []) }
    {
        self.queues[edge].len()
    }

    /// The item at a place of an edge, from 0.
    pub(crate) fn get(&self, edge: usize, nth: usize) -> Option<Item>
        requires { edge < length self.now }
        ensures { result ≡ slice_get (slice_index_or self.now edge []) nth }
    {
        self.queues[edge].get(nth)
    }

    /// The least of the heads by stamp, kind and source, where each edge has one.
    pub(crate) fn least(&self) -> Option<Head>
        requires some { 1 ≤ length self.now }
        requires few { length self.now < edge_limit }
        ensures { result ≡ least self.now }
    {
        if self.empty_edges > 0 {
            return None;
        }
        let edge = least_place(&self.head_stamps);
        let item = self.queues[edge].get(0)?;
        match item {
            Item::Row { .. } => Some(Head {
                source: edge as u32,
                item,
            }),
            // A row of this stamp may stand first on a later edge.
            Item::Mark { .. } | Item::End { .. } => least_head(&self.queues),
        }
    }

    /// Puts an item last on an edge.
    pub(crate) fn push(&mut self, edge: usize, item: Item) -> Result<(), OutOfMemory>
        requires { edge < length self.old }
        ensures pushed { OnOk result (self.new ≡ slice_set self.old edge (slice_index_or self.old edge [] ++ item ∷ [])) }
        ensures unchanged { OnErr result (self.new ≡ self.old) }
    {
        let queue = &mut self.queues[edge];
        let was_empty = queue.len() == 0;
        queue.push(item)?;
        if was_empty {
            self.head_stamps[edge] = item.stamp();
            self.empty_edges -= 1;
        }
        Ok(())
    }

    /// Takes the first item of an edge away.
    pub(crate) fn pop(&mut self, edge: usize)
        requires there { edge < length self.old }
        requires waits { 1 ≤ length (slice_index_or self.old edge []) }
        ensures { self.new ≡ slice_set self.old edge (drop 1 (slice_index_or self.old edge [])) }
    {
        let queue = &mut self.queues[edge];
        queue.pop();
        let is_empty = queue.len() == 0;
        self.head_stamps[edge] = queue.head_stamp();
        if is_empty {
            self.empty_edges += 1;
        }
    }

    /// Takes this mark or this end away from each edge that has it first.
    pub(crate) fn pop_signs(&mut self, sign: &Item)
        ensures { self.new ≡ map (without sign.now) self.old }
    {
        for edge in 0..self.queues.len() {
            if self.queues[edge].starts_with(sign) {
                self.pop(edge);
            }
        }
    }
}

// Queues where nothing waits.
fn empty_queues(alloc: Global, edges: usize) -> Result<Vec<Queue>, OutOfMemory>
    ensures { IfOk result (λ queues. queues.items ≡ replicate edges []) }
{
    let mut queues = Vec::with_capacity(alloc, edges)?;
    for _edge in 0..edges {
        queues.push(Queue::new(alloc))?;
    }
    Ok(queues)
}

/// So many zeros: marks of edges that have taken nothing, or stamps of edges where nothing waits.
pub(crate) fn zeros(alloc: Global, edges: usize) -> Result<Vec<u64>, OutOfMemory>
    ensures { IfOk result (λ numbers. numbers.items ≡ replicate edges 0) }
{
    let numbers = vec![in alloc; 0; edges]?;
    Ok(numbers)
}
