// The producer: its out-edges, and what is due on them.
ghost use Rattle.ack_buffer.specs.Buffer.{item_at};
ghost use Rattle.flux_producer.specs.Due.{IsLeast, NoneWaits, due_of, due_to, soonest_below};
ghost use Rattle.flux_producer.specs.Limits.{least_room, max_copies};
ghost use Rattle.flux_producer.specs.OutEdge.{over, rewound, unused, with_item};
ghost use Rattle.flux_producer.specs.ProducerView.{HasRoom, HaveMoreRoom, KeepsRoom, MayGrow, acked, buffer_at, contents_of, cursor_at, edge_at, emitted, emitted_to_all, leading, opening, over_buffers, sent_on, wanted_from};
ghost use Rattle.flux_producer.specs.StandsFor.{BuffersStandFor, StandsFor, with_next};
ghost use Rattle.std.specs.Prelude.{◌≡◌, ◌≢◌, ◌≤◌, ◌<◌, ◌+◌, ◌-◌, ◌++◌, ◌∷◌, ◌↔◌, [], ℕ, List, length, None, Some, IfOk, OnErr, OnOk, IsTrue, IfNone, IfSome, map, max, replicate, slice_get};
ghost use Rattle.tuple_edge.specs.Limits.{number_limit};
ghost use Rattle.tuple_edge.specs.declared.item.Item.{Item};

use crate::Due;
use crate::edge::OutEdge;
use ack_buffer::AckBuffer;
use std::alloc::Global;
use std::marker::Model;
use tuple_edge::{Item, NUMBER_LIMIT, OutOfMemory};

// `make_room` makes room for so many items at least.
const LEAST_ROOM: u64 = 64;

/// What a node sends on its out-edges. Targets and replicas count from 0, numbers of items from 1.
/// Numbers are below 2^62.
#[derive(Drop)]
pub struct Producer {
    stage: u32,
    from: u32,
    copies: u32,
    term: u64,
    leads: bool,
    edges: Vec<OutEdge>,
    // Each edge has room for so many further items at least, and their numbers are below 2^62.
    room: u64,
}

impl Model for Producer {
    ghost use Rattle.flux_producer.specs.ProducerView.{IsProducer, ProducerView};

    ghost Value = { ProducerView };

    ghost view = { λ p. record {
      stage = p.stage;
      from = p.from;
      copies = p.copies;
      term = p.term;
      leads = p.leads;
      edges = p.edges.items;
    } };

    ghost invariant = { λ p. IsProducer p.copies p.room p.edges.items };
}

// Edges on which nothing was produced.
fn unused_edges(alloc: Global, targets: u32) -> Result<Vec<OutEdge>, OutOfMemory>
    ensures { IfOk result (λ edges. edges.items ≡ replicate targets unused) }
{
    let mut edges = Vec::with_capacity(alloc, targets as usize)?;
    for _target in 0..targets {
        edges.push_reserved(OutEdge::over(AckBuffer::new(alloc)));
    }
    Ok(edges)
}

// Edges over these buffers.
fn edges_over(alloc: Global, buffers: Vec<AckBuffer>) -> Result<Vec<OutEdge>, OutOfMemory>
    ensures { IfOk result (λ edges. edges.items ≡ map over buffers.items) }
{
    let mut edges = Vec::with_capacity(alloc, buffers.len())?;
    for buffer in buffers {
        edges.push_reserved(OutEdge::over(buffer));
    }
    Ok(edges)
}

// Begins again on each edge with the first item that isn't acknowledged.
fn rewind_all(edges: &mut Vec<OutEdge>)
    ensures { edges.new.items ≡ map rewound edges.old.items }
{
    for edge in edges.iter_mut() {
        edge.rewind();
    }
}

// Produces an item on each edge.
fn produce_all(edges: &mut Vec<OutEdge>, item: Item)
    requires room { HasRoom edges.old.items 1 }
    requires fits { MayGrow edges.old.items 1 }
    ensures { edges.new.items ≡ map (λ e. with_item e item) edges.old.items }
{
    for edge in edges.iter_mut() {
        let _number = edge.produce(item);
    }
}

// Whether each edge has room for so many further items.
fn have_room(edges: &[OutEdge], items: usize) -> bool
    ensures { IsTrue result ↔ HasRoom edges.now items }
{
    for to in 0..edges.len() {
        if edges[to].buffer().spare() < items {
            return false;
        }
    }
    true
}

// Whether each edge may produce so many more items.
fn may_grow(edges: &[OutEdge], items: u64) -> bool
    ensures { IsTrue result ↔ MayGrow edges.now items }
{
    for to in 0..edges.len() {
        if items >= NUMBER_LIMIT - edges[to].buffer().produced() {
            return false;
        }
    }
    true
}

// The same edges with room for so many further items.
fn with_more_room(edges: &Vec<OutEdge>, items: usize) -> Result<Vec<OutEdge>, OutOfMemory>
    ensures { IfOk result (λ roomy. HaveMoreRoom edges.now.items roomy.items items) }
{
    let mut roomy = Vec::with_capacity(*edges.allocator(), edges.len())?;
    for to in 0..edges.len() {
        roomy.push_reserved(edges[to].with_room(items)?);
    }
    Ok(roomy)
}

impl Producer {
    /// A producer of a stage and partition with this many out-edges, of which nothing was produced.
    /// `copies` is how many replicas each target has. Its term is 1 where it leads, else 0.
    pub fn new(
        alloc: Global,
        stage: u32,
        from: u32,
        targets: u32,
        copies: u32,
        leads: bool,
    ) -> Result<Producer, OutOfMemory>
        requires some { 1 ≤ copies }
        requires few { copies ≤ max_copies }
        ensures opening { IfOk result (λ p. p ≡ opening stage from targets copies leads) }
        ensures stands { IfOk result (λ p. StandsFor p (λ t. [])) }
    {
        let edges = unused_edges(alloc, targets)?;
        Ok(Producer {
            stage,
            from,
            copies,
            term: if leads { 1 } else { 0 },
            leads,
            edges,
            room: 0,
        })
    }

    /// A producer over these buffers, one for each target. It has term 0, doesn't lead, and its
    /// cursors are above what is acknowledged by one.
    ///
    /// More than `u32::MAX` buffers are answered as want of memory, since their edges have no number.
    pub fn starting(
        alloc: Global,
        stage: u32,
        from: u32,
        copies: u32,
        edges: Vec<AckBuffer>,
    ) -> Result<Producer, OutOfMemory>
        requires some { 1 ≤ copies }
        requires few { copies ≤ max_copies }
        ensures over { IfOk result (λ p. p ≡ over_buffers stage from copies edges.items) }
        ensures stands { IfOk result (λ p. (all : ℕ → List Item) → BuffersStandFor edges.items all → StandsFor p all) }
    {
        if u32::try_from(edges.len()).is_err() {
            return Err(OutOfMemory);
        }
        let edges = edges_over(alloc, edges)?;
        Ok(Producer {
            stage,
            from,
            copies,
            term: 0,
            leads: false,
            edges,
            room: 0,
        })
    }

    /// Makes room for so many further items on every edge. Where there is room already it is never
    /// refused.
    pub fn reserve(&mut self, items: u64) -> Result<(), OutOfMemory>
        ensures contents { contents_of self.new ≡ contents_of self.old }
        ensures room { OnOk result (HasRoom self.new.edges items) }
        ensures kept { KeepsRoom self.old.edges self.new.edges }
        ensures unchanged { OnErr result (self.new ≡ self.old) }

        // What is there already is never refused.
        ensures refused { OnErr result (HasRoom self.old.edges items → ⊥) }
        ensures stands { (all : ℕ → List Item) → StandsFor self.old all → StandsFor self.new all }
    {
        if !have_room(&self.edges, items as usize) {
            // All room is made before any edge changes.
            self.edges = with_more_room(&self.edges, items as usize)?;
        }
        Ok(())
    }

    /// Makes room for so many further items on every edge, and for 64 at least, so that most calls find it there and look at no
    /// edge. Their numbers are then below 2^62; where those of all that room wouldn't be, it is refused as for want of memory: no
    /// memory holds that many items.
    pub fn make_room(&mut self, items: u64) -> Result<(), OutOfMemory>
        ensures contents { contents_of self.new ≡ contents_of self.old }
        ensures room { OnOk result (HasRoom self.new.edges items) }
        ensures fits { OnOk result (MayGrow self.new.edges items) }
        ensures kept { KeepsRoom self.old.edges self.new.edges }
        ensures unchanged { OnErr result (self.new ≡ self.old) }

        // Where the room that it would make is there already, it is never refused.
        ensures refused { OnErr result (HasRoom self.old.edges (max items least_room) → MayGrow self.old.edges (max items least_room) → ⊥) }
        ensures stands { (all : ℕ → List Item) → StandsFor self.old all → StandsFor self.new all }
    {
        // Room for no item says nothing of the numbers.
        if 0 < items && items <= self.room {
            return Ok(());
        }
        let more = items.max(LEAST_ROOM);
        if !may_grow(&self.edges, more) {
            return Err(OutOfMemory);
        }
        self.reserve(more)?;
        self.room = more;
        Ok(())
    }

    /// Makes room for so many further items on the edge to a target, and touches no other edge. Where
    /// there is room already it is never refused.
    pub fn reserve_on(&mut self, to: u32, items: u64) -> Result<(), OutOfMemory>
        requires edge { to < length self.old.edges }
        ensures contents { contents_of self.new ≡ contents_of self.old }
        ensures room { OnOk result (items ≤ (buffer_at self.new to).spare) }
        ensures kept { (buffer_at self.old to).spare ≤ (buffer_at self.new to).spare }
        ensures others { (t : ℕ) → t ≢ to → edge_at self.new t ≡ edge_at self.old t }
        ensures unchanged { OnErr result (self.new ≡ self.old) }

        // What is there already is never refused.
        ensures refused { OnErr result ((buffer_at self.old to).spare < items) }
    {
        self.edges[to as usize].reserve(items as usize)
    }

    /// Produces the next item of an edge, and gives its number. It can't fail.
    pub fn emit(&mut self, to: u32, item: Item) -> u64
        requires edge { to < length self.old.edges }
        requires room { 1 ≤ (buffer_at self.old to).spare }
        requires fits { (buffer_at self.old to).produced + 1 < number_limit }
        ensures number { result ≡ (buffer_at self.old to).produced + 1 }
        ensures emitted { self.new ≡ emitted self.old to item }
        ensures stands { (all : ℕ → List Item) → StandsFor self.old all → StandsFor self.new (with_next all to item) }
    {
        self.room = self.room.saturating_sub(1);
        self.edges[to as usize].produce(item)
    }

    /// Produces an item as the next one of every edge. It can't fail.
    pub fn emit_to_all(&mut self, item: Item)
        requires room { HasRoom self.old.edges 1 }
        requires fits { MayGrow self.old.edges 1 }
        ensures emitted { self.new ≡ emitted_to_all self.old item }
        ensures stands { (all : ℕ → List Item) → StandsFor self.old all → StandsFor self.new (λ t. all t ++ item ∷ []) }
    {
        self.room = self.room.saturating_sub(1);
        produce_all(&mut self.edges, item);
    }

    /// Notes that the items of an edge up to a number are acknowledged: they are let go, and cursors
    /// become at least the next number.
    pub fn ack(&mut self, to: u32, upto: u64)
        requires edge { to < length self.old.edges }
        requires fits { upto < number_limit }
        ensures acked { self.new ≡ acked self.old to upto }
        ensures stands { (all : ℕ → List Item) → StandsFor self.old all → StandsFor self.new all }
    {
        self.edges[to as usize].ack(upto);
    }

    /// Goes back to a number that a replica of a target wants, where it leads: the cursor never moves
    /// forward, and stays above what is acknowledged.
    pub fn want(&mut self, to: u32, copy: u32, from: u64)
        requires edge { to < length self.old.edges }
        requires copy { copy < self.old.copies }
        ensures wanted { self.new ≡ wanted_from self.old to copy from }
        ensures stands { (all : ℕ → List Item) → StandsFor self.old all → StandsFor self.new all }
    {
        if self.leads {
            self.edges[to as usize].want(copy, from);
        }
    }

    /// Leads under a term that is above its own, and sends again all that is not acknowledged. Under
    /// another term nothing changes.
    pub fn lead(&mut self, term: u64)
        ensures leading { self.new ≡ leading self.old term }
        ensures stands { (all : ℕ → List Item) → StandsFor self.old all → StandsFor self.new all }
    {
        if term > self.term {
            self.term = term;
            self.leads = true;
            rewind_all(&mut self.edges);
        }
    }

    // What is due, whether it leads or not. An edge's due is its least cursor, where that was produced.
    fn first_due(&self) -> Option<Due>
        ensures { result ≡ soonest_below (due_to self.now) (length self.now.edges) }
    {
        // Every number comes before this.
        let mut first = Due {
            to: 0,
            copy: 0,
            number: NUMBER_LIMIT,
        };
        for to in 0..self.edges.len() {
            let edge = &self.edges[to];
            let (copy, number) = edge.least_cursor(self.copies);
            let produced = edge.buffer().produced();
            if number < first.number && number <= produced {
                first = Due {
                    to: to as u32,
                    copy,
                    number,
                };
            }
        }
        if first.number < NUMBER_LIMIT {
            Some(first)
        } else {
            None
        }
    }

    /// What is to be sent next: the least by number, target and replica. None exactly where it
    /// doesn't lead or nothing waits.
    pub fn due(&self) -> Option<Due>
        ensures value { result ≡ due_of self.now }
        ensures leads { IfSome result (λ _. IsTrue self.now.leads) }
        ensures least { IfSome result (IsLeast self.now) }
        ensures none { IfNone result (IsTrue self.now.leads → NoneWaits self.now) }
    {
        if !self.leads {
            return None;
        }
        self.first_due()
    }

    /// Gives what is due with its item, and goes on to the next number. None as [`Producer::due`].
    pub fn send_due(&mut self) -> Option<(Due, Item)>
        ensures none { IfNone result ((due_of self.old ≡ None) × (self.new ≡ self.old)) }
        ensures due { IfSome result (λ s. due_of self.old ≡ Some s.0) }
        ensures item { IfSome result (λ s. item_at (buffer_at self.old s.0.to) s.0.number ≡ Some s.1) }
        ensures sent { IfSome result (λ s. self.new ≡ sent_on self.old s.0.to s.0.copy) }
        ensures stands { (all : ℕ → List Item) → StandsFor self.old all → StandsFor self.new all }

        // It is the item that was produced on its edge with that number.
        ensures above { IfSome result (λ s. (buffer_at self.old s.0.to).low < s.0.number) }
        ensures gives { (all : ℕ → List Item) → StandsFor self.old all → IfSome result (λ s. slice_get (all s.0.to) (s.0.number - 1) ≡ Some s.1) }
    {
        let due = self.due()?;
        let item = self.send(due);
        Some((due, item))
    }

    /// Gives the item that is due, and goes on to the next number. What is due is not looked for again.
    pub fn send(&mut self, due: Due) -> Item
        requires { due_of self.old ≡ Some due }
        ensures item { item_at (buffer_at self.old due.to) due.number ≡ Some result }
        ensures sent { self.new ≡ sent_on self.old due.to due.copy }
        ensures stands { (all : ℕ → List Item) → StandsFor self.old all → StandsFor self.new all }

        // It is the item that was produced on its edge with that number.
        ensures above { (buffer_at self.old due.to).low < due.number }
        ensures gives { (all : ℕ → List Item) → StandsFor self.old all → slice_get (all due.to) (due.number - 1) ≡ Some result }
    {
        let Some(item) = self.edges[due.to as usize].send(due.copy) else {
            unreachable!()
        };
        item
    }

    /// How many out-edges there are.
    pub fn edges(&self) -> u32
        ensures { result ≡ length self.now.edges }
    {
        self.edges.len() as u32
    }

    /// How many replicas each target has: 1 to [`MAX_COPIES`](crate::MAX_COPIES).
    pub fn copies(&self) -> u32
        ensures value { result ≡ self.now.copies }
        ensures some { 1 ≤ result }
        ensures few { result ≤ max_copies }
    {
        self.copies
    }

    /// What is not acknowledged on the edge to a target.
    pub fn buffer(&self, to: u32) -> &AckBuffer
        requires { to < length self.now.edges }
        ensures { result.now ≡ buffer_at self.now to }
    {
        self.edges[to as usize].buffer()
    }

    /// The next number to send to a replica of a target.
    pub fn cursor(&self, to: u32, copy: u32) -> u64
        requires edge { to < length self.now.edges }
        requires copy { copy < self.now.copies }
        ensures value { result ≡ cursor_at self.now to copy }
        ensures above { (buffer_at self.now to).low < result }
        ensures fits { result ≤ number_limit }
    {
        self.edges[to as usize].cursor(copy)
    }

    /// The term under which it last led; 0 where it never did.
    pub fn term(&self) -> u64
        ensures { result ≡ self.now.term }
    {
        self.term
    }

    /// Whether it leads.
    pub fn leads(&self) -> bool
        ensures { result ≡ self.now.leads }
    {
        self.leads
    }
}
