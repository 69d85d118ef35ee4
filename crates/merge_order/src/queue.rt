// The items that wait on one edge, as a queue that contracts see as a list.
ghost use Rattle.std.specs.Prelude.{◌≡◌, ◌∷◌, ◌++◌, [], OnErr, OnOk, drop, length, option_copied, slice_get};
ghost use Rattle.merge_order.specs.HeadStamps.{head_stamp, starts_with};
ghost use Rattle.merge_order.specs.MergeView.{is_alike};

use std::alloc::Global;
use std::collections::VecDeque;
use std::marker::Model;
use tuple_edge::{Item, OutOfMemory};

/// The items that wait on an edge, in order.
#[derive(Drop)]
pub(crate) struct Queue {
    items: VecDeque<Item>,
}

impl Model for Queue {
    ghost use Rattle.std.specs.Prelude.{List};
    ghost use Rattle.tuple_edge.specs.declared.item.Item.{Item};

    ghost Value = { List Item };

    ghost view = { λ queue. queue.items.items };
}

impl Queue {
    pub(crate) fn new(alloc: Global) -> Queue
        ensures { result ≡ [] }
    {
        Queue {
            items: VecDeque::new(alloc),
        }
    }

    pub(crate) fn len(&self) -> u64
        ensures { result ≡ length self.now }
    {
        self.items.len() as u64
    }

    /// The item at a place, from 0.
    pub(crate) fn get(&self, nth: usize) -> Option<Item>
        ensures { result ≡ slice_get self.now nth }
    {
        self.items.get(nth).copied()
    }

    /// The first item, where it stands.
    pub(crate) fn first(&self) -> Option<&Item>
        ensures { option_copied result ≡ slice_get self.now 0 }
    {
        self.items.front()
    }

    /// The stamp of the first item, or 0 where nothing waits.
    pub(crate) fn head_stamp(&self) -> u64
        ensures { result ≡ head_stamp self.now }
    {
        match self.first() {
            Some(head) => head.stamp(),
            None => 0,
        }
    }

    pub(crate) fn push(&mut self, item: Item) -> Result<(), OutOfMemory>
        ensures pushed { OnOk result (self.new ≡ self.old ++ item ∷ []) }
        ensures unchanged { OnErr result (self.new ≡ self.old) }
    {
        self.items.push_back(item)?;
        Ok(())
    }

    /// Takes the first item away.
    pub(crate) fn pop(&mut self)
        ensures { self.new ≡ drop 1 self.old }
    {
        let _ = self.items.pop_front();
    }

    /// Whether this mark or this end stands first.
    pub(crate) fn starts_with(&self, sign: &Item) -> bool
        ensures { result ≡ starts_with sign.now self.now }
    {
        self.first().is_some_and(|first| is_alike(sign, first))
    }
}

// Whether two items have one kind and one stamp.
fn is_alike(item: &Item, other: &Item) -> bool
    ensures { result ≡ is_alike item.now other.now }
{
    match (item, other) {
        (Item::Row { .. }, Item::Row { .. })
        | (Item::Mark { .. }, Item::Mark { .. })
        | (Item::End { .. }, Item::End { .. }) => item.stamp() == other.stamp(),
        _ => false,
    }
}
