// The merge: what each edge has given, what waits, and how many items were merged.
ghost use Rattle.std.specs.Prelude.{◌≡◌, ◌<◌, ◌≤◌, ◌+◌, ◌↔◌, [], ℕ, List, None, Some, IfOk, IfSome, IsSome, IsTrue, OnErr, OnOk, OnSome, length, slice_get, slice_index_or, sum_by};
ghost use Rattle.tuple_edge.specs.Limits.{number_limit};
ghost use Rattle.tuple_edge.specs.declared.item.Item.{Item};
ghost use Rattle.merge_order.specs.Edges.{AreEdges, edge_of, item_at};
ghost use Rattle.merge_order.specs.Merged.{items, merged, used};
ghost use Rattle.merge_order.specs.MergeView.{ComesFirst, after_next, after_offer, all_wait, item_of, least, mark_of, offer_of, opening, starting, waiting_of};
ghost use Rattle.merge_order.specs.StandsFor.{AllBelow, AllTaken, StandsFor};

use crate::head::Head;
use crate::queues::{Queues, zeros};
use std::alloc::Global;
use std::marker::Model;
use tuple_edge::{Item, OutOfMemory};

/// The merge of the edges into a partition.
///
/// The items of an edge are numbered from 1, and are taken in the order of their numbers. An
/// edge's mark is the number of the last item taken. The count is that of the items merged.
#[derive(Drop)]
pub struct Merge {
    marks: Vec<u64>,
    waiting: Queues,
    count: u64,
}

impl Model for Merge {
    ghost use Rattle.std.specs.Prelude.{◌≡◌, ◌<◌, ◌≤◌, length};
    ghost use Rattle.tuple_edge.specs.Limits.{edge_limit};
    ghost use Rattle.merge_order.specs.MergeView.{MergeView};

    ghost Value = { MergeView };

    ghost view = { λ m. record { marks = m.marks.items; waiting = m.waiting; count = m.count } };

    ghost invariant = { λ m. (1 ≤ length m.waiting) × (length m.waiting < edge_limit) × (length m.marks.items ≡ length m.waiting) };
}

/// What became of an item that was offered.
#[derive(Clone, Copy, Debug, PartialEq, Eq)]
pub enum Offer {
    /// It waits last on its edge, and its number is the mark.
    Taken,
    /// An item of this number was taken before.
    Repeat {
        /// The edge's mark.
        mark: u64,
    },
    /// An item before it is missing.
    Gap {
        /// The edge's mark.
        mark: u64,
    },
}

impl Merge {
    /// A merge of so many edges that has taken nothing.
    pub fn new(alloc: Global, edges: u32) -> Result<Merge, OutOfMemory>
        requires some { 1 ≤ edges }
        ensures opening { IfOk result (λ merge. merge ≡ opening edges) }
        ensures stands { IfOk result (λ merge. (last : ℕ) (es : List (List Item)) → AreEdges last es → length es ≡ edges → StandsFor last es merge) }
    {
        let marks = zeros(alloc, edges as usize)?;
        let waiting = Queues::new(alloc, edges as usize)?;
        Ok(Merge {
            marks,
            waiting,
            count: 0,
        })
    }

    /// A merge that has these marks and this count, and nothing that waits.
    ///
    /// More than `u32::MAX` marks are answered as want of memory, since their edges have no number.
    pub fn starting(alloc: Global, marks: &[u64], count: u64) -> Result<Merge, OutOfMemory>
        requires some { 1 ≤ length marks.now }
        ensures starting { IfOk result (λ merge. merge ≡ starting marks.now count) }
        // Over edges of which the marks are the items used at this count.
        ensures stands { IfOk result (λ merge. (last : ℕ) (edges : List (List Item)) → AreEdges last edges → length marks.now ≡ length edges
            → count ≤ length (merged last edges) → ((q : ℕ) → q < length edges → slice_index_or marks.now q 0 ≡ used last edges q count)
            → StandsFor last edges merge) }
    {
        if u32::try_from(marks.len()).is_err() {
            return Err(OutOfMemory);
        }
        let kept = Vec::from_slice(alloc, marks)?;
        let waiting = Queues::new(alloc, marks.len())?;
        Ok(Merge {
            marks: kept,
            waiting,
            count,
        })
    }

    /// The number of edges.
    pub fn edges(&self) -> u32
        ensures value { result ≡ length self.now.marks }
        ensures some { 1 ≤ result }
    {
        self.marks.len() as u32
    }

    /// The number of the last item that an edge has taken.
    pub fn mark(&self, edge: u32) -> u64
        requires { edge < length self.now.marks }
        ensures { result ≡ mark_of self.now edge }
    {
        self.marks[edge as usize]
    }

    /// How many items were merged.
    pub fn count(&self) -> u64
        ensures { result ≡ self.now.count }
    {
        self.count
    }

    /// Whether each edge has an item that waits.
    pub fn ready(&self) -> bool
        ensures value { result ≡ all_wait self.now.waiting }
        // Over edges for which it stands.
        ensures below { (last : ℕ) (edges : List (List Item)) → StandsFor last edges self.now → IsTrue result ↔ AllBelow last edges self.now }
    {
        self.waiting.all_wait()
    }

    /// How many items wait on an edge.
    pub fn waiting(&self, edge: u32) -> u64
        requires { edge < length self.now.marks }
        ensures { result ≡ length (waiting_of self.now edge) }
    {
        self.waiting.len_of(edge as usize)
    }

    /// The item that waits at a place of an edge, from 0.
    pub fn head(&self, edge: u32, nth: u64) -> Option<Item>
        requires { edge < length self.now.marks }
        ensures { result ≡ slice_get (waiting_of self.now edge) nth }
    {
        self.waiting.get(edge as usize, nth as usize)
    }

    /// Takes an item of an edge where its number follows the edge's mark, and says what became of it.
    pub fn offer(&mut self, edge: u32, number: u64, item: Item) -> Result<Offer, OutOfMemory>
        requires { edge < length self.old.marks }
        ensures answers { IfOk result (λ offer. offer ≡ offer_of self.old edge number) }
        ensures taken { OnOk result (self.new ≡ after_offer self.old edge number item) }
        ensures unchanged { OnErr result (self.new ≡ self.old) }
        ensures wants { OnErr result (number ≡ mark_of self.old edge + 1) }
        // Over edges for which it stands, and which have this item where its number follows the mark.
        ensures stands { OnOk result ((last : ℕ) (edges : List (List Item)) → StandsFor last edges self.old
            → (number ≡ mark_of self.old edge + 1 → item_at (edge_of edges edge) number ≡ Some item) → StandsFor last edges self.new) }
    {
        self.take_offered(edge, number, item)
    }

    /// The least head, where each edge has one. It stays where it is until [`Merge::pass`] takes it.
    pub fn least(&self) -> Option<Head>
        ensures value { result ≡ least self.now.waiting }
        ensures known { IsSome result ↔ IsTrue (all_wait self.now.waiting) }
        ensures first { IfSome result (ComesFirst self.now.waiting) }
        // Over edges for which it stands.
        ensures whole { (last : ℕ) (edges : List (List Item)) → AreEdges last edges → StandsFor last edges self.now
            → AllTaken edges self.now → result ≡ None → self.now.count ≡ length (merged last edges) }
    {
        self.waiting.least()
    }

    /// Takes the least head, which is this one, as the next item of the merged list.
    pub fn pass(&mut self, head: &Head)
        requires next { least self.old.waiting ≡ Some head.now }
        requires room { self.old.count + 1 < number_limit }
        ensures after { self.new ≡ after_next self.old }
        ensures fewer { sum_by length self.new.waiting < sum_by length self.old.waiting }
        // Over edges for which it stands.
        ensures stands { (last : ℕ) (edges : List (List Item)) → AreEdges last edges → StandsFor last edges self.old
            → StandsFor last edges self.new }
        ensures in_order { (last : ℕ) (edges : List (List Item)) → AreEdges last edges → StandsFor last edges self.old
            → slice_get (items (merged last edges)) self.old.count ≡ Some head.now.item }
    {
        self.take_head(head)
    }

    /// The next item of the merged list: the least head, where each edge has one.
    pub fn next(&mut self) -> Option<Item>
        requires room { IsTrue (all_wait self.old.waiting) → self.old.count + 1 < number_limit }
        ensures known { IsSome result ↔ IsTrue (all_wait self.old.waiting) }
        ensures gives { result ≡ item_of (least self.old.waiting) }
        ensures first { IfSome (least self.old.waiting) (ComesFirst self.old.waiting) }
        ensures after { self.new ≡ after_next self.old }
        ensures fewer { OnSome result (sum_by length self.new.waiting < sum_by length self.old.waiting) }
        // Over edges for which it stands.
        ensures stands { (last : ℕ) (edges : List (List Item)) → AreEdges last edges → StandsFor last edges self.old
            → StandsFor last edges self.new }
        ensures in_order { (last : ℕ) (edges : List (List Item)) → AreEdges last edges → StandsFor last edges self.old
            → IfSome result (λ item. slice_get (items (merged last edges)) self.old.count ≡ Some item) }
        ensures whole { (last : ℕ) (edges : List (List Item)) → AreEdges last edges → StandsFor last edges self.old
            → AllTaken edges self.old → result ≡ None → self.old.count ≡ length (merged last edges) }
    {
        let head = self.least()?;
        self.pass(&head);
        Some(head.item)
    }

    // Takes an item of an edge where its number follows the edge's mark.
    fn take_offered(&mut self, edge: u32, number: u64, item: Item) -> Result<Offer, OutOfMemory>
        requires { edge < length self.old.marks }
        ensures answers { IfOk result (λ offer. offer ≡ offer_of self.old edge number) }
        ensures taken { OnOk result (self.new ≡ after_offer self.old edge number item) }
        ensures unchanged { OnErr result (self.new ≡ self.old) }
        ensures wants { OnErr result (number ≡ mark_of self.old edge + 1) }
    {
        let mark = self.marks[edge as usize];
        if number <= mark {
            return Ok(Offer::Repeat { mark });
        }
        if number - mark > 1 {
            return Ok(Offer::Gap { mark });
        }
        self.waiting.push(edge as usize, item)?;
        self.marks[edge as usize] = number;
        Ok(Offer::Taken)
    }

    // Takes the least head, which is this one, from its own edge or from each that has it.
    fn take_head(&mut self, head: &Head)
        requires next { least self.old.waiting ≡ Some head.now }
        requires room { self.old.count + 1 < number_limit }
        ensures { self.new ≡ after_next self.old }
    {
        match head.item {
            Item::Row { .. } => self.waiting.pop(head.source as usize),
            Item::Mark { .. } | Item::End { .. } => self.waiting.pop_signs(&head.item),
        }
        self.count += 1;
    }
}
