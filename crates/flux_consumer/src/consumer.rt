// The consumer: a merge with what was told of it.
ghost use Rattle.flux_consumer.specs.ConsumerView.{AllTold, IsFirstUntold, over, report_of, telling, told_of, with_merge};
ghost use Rattle.merge_order.specs.Edges.{AreEdges, edge_of, item_at};
ghost use Rattle.merge_order.specs.Merged.{items, merged};
ghost use Rattle.merge_order.specs.MergeView.{ComesFirst, after_next, after_offer, all_wait, item_of, least, mark_of, offer_of, opening};
ghost use Rattle.merge_order.specs.StandsFor.{AllBelow, AllTaken, StandsFor};
ghost use Rattle.std.specs.Prelude.{◌≡◌, ◌≤◌, ◌<◌, ◌+◌, ◌↔◌, ℕ, List, None, Some, IfOk, IfSome, IfNone, IsSome, IsTrue, OnErr, OnOk, OnSome, length, slice_get, sum_by};
ghost use Rattle.tuple_edge.specs.Limits.{number_limit};
ghost use Rattle.tuple_edge.specs.declared.item.Item.{Item};

use merge_order::{Head, Merge, Offer};
use std::alloc::Global;
use std::marker::Model;
use tuple_edge::{Item, OutOfMemory};

/// The merge of a node's in-edges, with the mark that was told last of each. Edges count from 0,
/// numbers of items from 1.
#[derive(Drop)]
pub struct Consumer {
    merge: Merge,
    told: Vec<u64>,
}

impl Model for Consumer {
    ghost use Rattle.flux_consumer.specs.ConsumerView.{ConsumerView};
    ghost use Rattle.std.specs.Prelude.{◌≡◌, length};

    ghost Value = { ConsumerView };

    ghost view = { λ c. record { merge = c.merge; told = c.told.items } };

    ghost invariant = { λ c. length c.told.items ≡ length c.merge.marks };
}

impl Consumer {
    /// A consumer of so many in-edges that has taken and told nothing.
    pub fn new(alloc: Global, edges: u32) -> Result<Consumer, OutOfMemory>
        requires { 1 ≤ edges }
        ensures opening { IfOk result (λ consumer. consumer ≡ over (opening edges)) }
        ensures stands { IfOk result (λ consumer. (last : ℕ) (es : List (List Item)) → AreEdges last es → length es ≡ edges → StandsFor last es consumer.merge) }
    {
        let merge = Merge::new(alloc, edges)?;
        Consumer::starting(alloc, merge)
    }

    /// A consumer of a merge, that has told nothing of it.
    pub fn starting(alloc: Global, merge: Merge) -> Result<Consumer, OutOfMemory>
        ensures { IfOk result (λ consumer. consumer ≡ over merge) }
    {
        let told = vec![in alloc; 0u64; merge.edges() as usize]?;
        Ok(Consumer { merge, told })
    }

    /// Takes an item of an edge where its number follows the edge's mark, and says what became of it.
    /// It can fail only then.
    pub fn tuple(&mut self, edge: u32, number: u64, item: Item) -> Result<Offer, OutOfMemory>
        requires { edge < length self.old.merge.marks }
        ensures answers { IfOk result (λ offer. offer ≡ offer_of self.old.merge edge number) }
        ensures taken { OnOk result (self.new ≡ with_merge self.old (after_offer self.old.merge edge number item)) }
        ensures unchanged { OnErr result (self.new ≡ self.old) }
        ensures wants { OnErr result (number ≡ mark_of self.old.merge edge + 1) }
        // Over edges for which it stands, and which have this item where its number follows the mark.
        ensures stands { OnOk result ((last : ℕ) (edges : List (List Item)) → StandsFor last edges self.old.merge
            → (number ≡ mark_of self.old.merge edge + 1 → item_at (edge_of edges edge) number ≡ Some item) → StandsFor last edges self.new.merge) }
    {
        self.merge.offer(edge, number, item)
    }

    /// Whether each edge has an item that waits.
    pub fn ready(&self) -> bool
        ensures value { result ≡ all_wait self.now.merge.waiting }
        // Over edges for which it stands.
        ensures below { (last : ℕ) (edges : List (List Item)) → StandsFor last edges self.now.merge → IsTrue result ↔ AllBelow last edges self.now.merge }
    {
        self.merge.ready()
    }

    /// The least head, which stays where it is until [`Consumer::pass`] takes it. None exactly where it
    /// isn't ready.
    pub fn least(&self) -> Option<Head>
        ensures value { result ≡ least self.now.merge.waiting }
        ensures known { IsSome result ↔ IsTrue (all_wait self.now.merge.waiting) }
        ensures first { IfSome result (ComesFirst self.now.merge.waiting) }
        // Over edges for which it stands.
        ensures whole { (last : ℕ) (edges : List (List Item)) → AreEdges last edges → StandsFor last edges self.now.merge
            → AllTaken edges self.now.merge → result ≡ None → self.now.merge.count ≡ length (merged last edges) }
    {
        self.merge.least()
    }

    /// Takes the least head, which is this one, as the next item of the merged list.
    pub fn pass(&mut self, head: &Head)
        requires next { least self.old.merge.waiting ≡ Some head.now }
        requires room { self.old.merge.count + 1 < number_limit }
        ensures after { self.new ≡ with_merge self.old (after_next self.old.merge) }
        ensures fewer { sum_by length self.new.merge.waiting < sum_by length self.old.merge.waiting }
        // Over edges for which it stands.
        ensures stands { (last : ℕ) (edges : List (List Item)) → AreEdges last edges → StandsFor last edges self.old.merge
            → StandsFor last edges self.new.merge }
        ensures in_order { (last : ℕ) (edges : List (List Item)) → AreEdges last edges → StandsFor last edges self.old.merge
            → slice_get (items (merged last edges)) self.old.merge.count ≡ Some head.now.item }
    {
        self.merge.pass(head)
    }

    /// The next item of the merged list. None exactly where it isn't ready.
    pub fn next(&mut self) -> Option<Item>
        requires room { IsTrue (all_wait self.old.merge.waiting) → self.old.merge.count + 1 < number_limit }
        ensures known { IsSome result ↔ IsTrue (all_wait self.old.merge.waiting) }
        ensures gives { result ≡ item_of (least self.old.merge.waiting) }
        ensures first { IfSome (least self.old.merge.waiting) (ComesFirst self.old.merge.waiting) }
        ensures after { self.new ≡ with_merge self.old (after_next self.old.merge) }
        ensures fewer { OnSome result (sum_by length self.new.merge.waiting < sum_by length self.old.merge.waiting) }
        // Over edges for which it stands.
        ensures stands { (last : ℕ) (edges : List (List Item)) → AreEdges last edges → StandsFor last edges self.old.merge
            → StandsFor last edges self.new.merge }
        ensures in_order { (last : ℕ) (edges : List (List Item)) → AreEdges last edges → StandsFor last edges self.old.merge
            → IfSome result (λ item. slice_get (items (merged last edges)) self.old.merge.count ≡ Some item) }
        ensures whole { (last : ℕ) (edges : List (List Item)) → AreEdges last edges → StandsFor last edges self.old.merge
            → AllTaken edges self.old.merge → result ≡ None → self.old.merge.count ≡ length (merged last edges) }
    {
        self.merge.next()
    }

    /// The merge.
    pub fn merge(&self) -> &Merge
        ensures { result.now ≡ self.now.merge }
    {
        &self.merge
    }

    /// The first edge whose mark is above what was told of it, with the mark. None exactly where
    /// there is none.
    #[tactic(auto, using(crate::proofs::Reports::found))]
    pub fn report_due(&self) -> Option<(u32, u64)>
        ensures value { result ≡ report_of self.now }
        ensures first { IfSome result (λ report. IsFirstUntold self.now report.0 report.1) }
        ensures none { IfNone result (AllTold self.now (length self.now.merge.marks)) }
    {
        for edge in 0..self.merge.edges() {
            let mark = self.merge.mark(edge);
            if mark > self.told[edge as usize] {
                return Some((edge, mark));
            }
        }
        None
    }

    /// Notes that the mark of an edge was told.
    pub fn tell(&mut self, edge: u32)
        requires { edge < length self.old.merge.marks }
        ensures { self.new ≡ telling self.old edge }
    {
        self.told[edge as usize] = self.merge.mark(edge);
    }

    /// The mark of an edge that was told last; 0 before the first.
    pub fn told(&self, edge: u32) -> u64
        requires { edge < length self.now.merge.marks }
        ensures { result ≡ told_of self.now edge }
    {
        self.told[edge as usize]
    }
}
