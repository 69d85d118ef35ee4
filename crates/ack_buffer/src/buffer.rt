// The buffer of one edge.
ghost use Rattle.ack_buffer.specs.Buffer.{StandsFor, item_at, produced_on, starting_at, trimmed};
ghost use Rattle.std.specs.Prelude.{◌≡◌, ◌≤◌, ◌<◌, ◌+◌, ◌∷◌, ◌++◌, [], List, OnOk, OnErr, IsSome, ◌↔◌, ◌-◌, IfOk, drop, length, slice_get};
ghost use Rattle.std.specs.VecDeque.{deque_len, deque_capacity};
ghost use Rattle.tuple_edge.specs.Limits.{number_limit};
ghost use Rattle.tuple_edge.specs.declared.item.Item.{Item};

use std::alloc::Global;
use std::collections::VecDeque;
use std::marker::Model;
use tuple_edge::{Item, OutOfMemory};

/// The items of an edge that are numbered above `low` up to `produced`, and no other. `low` may be
/// above `produced`; then it holds none. Both numbers are below 2^62.
#[derive(Drop)]
pub struct AckBuffer {
    low: u64,
    produced: u64,
    items: VecDeque<Item>,
}

impl Model for AckBuffer {
    ghost use Rattle.ack_buffer.specs.Buffer.{BufferView, IsNumbered};
    ghost use Rattle.std.specs.Prelude.{◌-◌};
    ghost use Rattle.std.specs.VecDeque.{deque_len, deque_capacity};

    ghost Value = { BufferView };

    ghost view = { λ b. record {
      low = b.low;
      produced = b.produced;
      items = b.items.items;
      spare = deque_capacity b.items - deque_len b.items;
    } };

    ghost invariant = { λ b. IsNumbered (deque_len b.items) b.low b.produced };
}

// Lets the first items go. It takes a step for each of them.
fn let_go(items: &mut VecDeque<Item>, count: usize)
    requires { count ≤ deque_len items.old }
    ensures items { items.new.items ≡ drop count items.old.items }
    ensures len { deque_len items.new + count ≡ deque_len items.old }
    ensures capacity { deque_capacity items.new ≡ deque_capacity items.old }
{
    for _gone in 0..count {
        let _item = items.pop_front();
    }
}

// A copy of these items, in a queue of this capacity.
fn copied(items: &VecDeque<Item>, capacity: usize) -> Result<VecDeque<Item>, OutOfMemory>
    requires { deque_len items.now ≤ capacity }
    ensures items { IfOk result (λ copy. copy.items ≡ items.now.items) }
    ensures len { IfOk result (λ copy. deque_len copy ≡ deque_len items.now) }
    ensures capacity { IfOk result (λ copy. deque_capacity copy ≡ capacity) }
{
    let mut copy = VecDeque::with_capacity(*items.allocator(), capacity)?;
    for place in 0..items.len() {
        copy.push_back_reserved(items[place]);
    }
    Ok(copy)
}

impl AckBuffer {
    /// The buffer of an edge on which nothing was produced.
    pub fn new(alloc: Global) -> AckBuffer
        ensures empty { result ≡ starting_at 0 0 }
        ensures stands { StandsFor result [] }
    {
        AckBuffer::starting(alloc, 0, 0)
    }

    /// A buffer with these numbers and no items: all that was produced is acknowledged.
    pub fn starting(alloc: Global, low: u64, produced: u64) -> AckBuffer
        requires acknowledged { produced ≤ low }
        requires fits { low < number_limit }
        ensures starting { result ≡ starting_at low produced }
        ensures stands { (all : List Item) → length all ≡ produced → StandsFor result all }
    {
        AckBuffer {
            low,
            produced,
            items: VecDeque::from_vec(Vec::new(alloc)),
        }
    }

    /// A buffer with the same numbers and items, and with room for so many further items.
    pub fn with_room(&self, items: usize) -> Result<AckBuffer, OutOfMemory>
        ensures contents { IfOk result (λ buffer. buffer ≡ record self.now { spare = buffer.spare }) }
        ensures spare { IfOk result (λ buffer. items ≤ buffer.spare) }
        ensures kept { IfOk result (λ buffer. self.now.spare ≤ buffer.spare) }
    {
        let needed = self.items.len().checked_add(items).ok_or(OutOfMemory)?;
        let present = self.items.capacity();

        // At least twice the capacity where it isn't enough, so that many small calls take linear time.
        let capacity = if needed <= present {
            present
        } else {
            needed.max(present.saturating_mul(2))
        };
        Ok(AckBuffer {
            low: self.low,
            produced: self.produced,
            items: copied(&self.items, capacity)?,
        })
    }

    /// How many further items there is room for.
    pub fn spare(&self) -> usize
        ensures { result ≡ self.now.spare }
    {
        self.items.capacity() - self.items.len()
    }

    /// Makes room for so many further items. Where there is room already it is never refused.
    pub fn reserve(&mut self, items: usize) -> Result<(), OutOfMemory>
        ensures contents { self.new ≡ record self.old { spare = self.new.spare } }
        ensures spare { OnOk result (items ≤ self.new.spare) }
        ensures kept { self.old.spare ≤ self.new.spare }
        ensures unchanged { OnErr result (self.new ≡ self.old) }

        // What is there already is never refused.
        ensures refused { OnErr result (self.old.spare < items) }
        ensures stands { (all : List Item) → StandsFor self.old all → StandsFor self.new all }
    {
        if items <= self.spare() {
            return Ok(());
        }
        *self = self.with_room(items)?;
        Ok(())
    }

    /// Produces the next item, and gives its number. The item is kept exactly where its number is
    /// above low; then it takes one place of the room. It can't fail.
    pub fn produce(&mut self, item: Item) -> u64
        requires room { 1 ≤ self.old.spare }
        requires fits { self.old.produced + 1 < number_limit }
        ensures number { result ≡ self.old.produced + 1 }
        ensures produced { self.new ≡ produced_on self.old item }
        ensures stands { (all : List Item) → StandsFor self.old all → StandsFor self.new (all ++ item ∷ []) }
    {
        let number = self.produced + 1;
        if number > self.low {
            self.items.push_back_reserved(item);
        }
        self.produced = number;
        number
    }

    /// Lets go the items numbered up to `upto`, which were acknowledged. Low becomes the greater of
    /// the two, which may pass produced.
    pub fn trim(&mut self, upto: u64)
        requires { upto < number_limit }
        ensures trimmed { self.new ≡ trimmed self.old upto }
        ensures stands { (all : List Item) → StandsFor self.old all → StandsFor self.new all }
    {
        if upto <= self.low {
            return;
        }
        let count = ((upto - self.low) as usize).min(self.items.len());
        let_go(&mut self.items, count);
        self.low = upto;
    }

    /// The item of a number. None exactly where the number is at most low or above produced.
    pub fn get(&self, number: u64) -> Option<Item>
        ensures value { result ≡ item_at self.now number }
        ensures held { IsSome result ↔ ((self.now.low < number) × (number ≤ self.now.produced)) }
        ensures fits { IsSome result → number < number_limit }
        ensures stands { (all : List Item) → StandsFor self.now all → IsSome result → result ≡ slice_get all (number - 1) }
    {
        if number <= self.low {
            return None;
        }
        self.items.get((number - self.low - 1) as usize).copied()
    }

    /// The number up to which all is acknowledged.
    pub fn low(&self) -> u64
        ensures value { result ≡ self.now.low }
        ensures fits { result < number_limit }
    {
        self.low
    }

    /// The number of the last item that was produced; 0 before the first.
    pub fn produced(&self) -> u64
        ensures value { result ≡ self.now.produced }
        ensures fits { result < number_limit }

        // The items are as many as the numbers say.
        ensures exact { length self.now.items ≡ self.now.produced - self.now.low }
    {
        self.produced
    }
}
