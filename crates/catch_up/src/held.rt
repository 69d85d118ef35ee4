// The items that are held of one in-edge.
ghost use Rattle.catch_up.specs.Fold.{IsRising};
ghost use Rattle.catch_up.specs.NewcomerView.{held_at, with_held};
ghost use Rattle.std.specs.Map.{keys_of};
ghost use Rattle.std.specs.Map.Iter.{ShowsInOrder, deref, deref_pair};
ghost use Rattle.std.specs.Option.{is_some};
ghost use Rattle.tuple_edge.specs.declared.item.Item.{Item};
ghost use Rattle.std.specs.Prelude.{ℕ, ◌≡◌, [], OnErr, OnOk, slice_get};

use std::alloc::Global;
use std::collections::BTreeMap;
use std::collections::btree_map::{Iter, Keys};
use std::marker::Model;
use tuple_edge::{Item, OutOfMemory};

/// Items under their numbers.
#[derive(Drop)]
pub(crate) struct Held {
    items: BTreeMap<u64, Item>,
}

impl Model for Held {
    ghost use Rattle.catch_up.specs.Fold.{IsRising};
    ghost use Rattle.std.specs.Prelude.{ℕ, List};
    ghost use Rattle.tuple_edge.specs.declared.item.Item.{Item};

    ghost Value = { List (ℕ × Item) };

    ghost view = { λ h. h.items.entries };

    ghost invariant = { λ h. IsRising h.items.entries };
}

impl Held {
    pub(crate) fn new(alloc: Global) -> Held
        ensures { result ≡ [] }
    {
        Held {
            items: BTreeMap::new(alloc),
        }
    }

    /// Whether an item is held under this number.
    pub(crate) fn has(&self, number: u64) -> bool
        ensures { result ≡ is_some (held_at self.now number) }
    {
        self.items.contains_key(&number)
    }

    /// Holds an item under a number.
    pub(crate) fn insert(&mut self, number: u64, item: Item) -> Result<(), OutOfMemory>
        ensures held { OnOk result (self.new ≡ with_held self.old number item) }
        ensures unchanged { OnErr result (self.new ≡ self.old) }
    {
        match self.items.insert(number, item) {
            Ok(_) => Ok(()),
            Err(_) => Err(OutOfMemory),
        }
    }

    /// The items, by rising number.
    pub(crate) fn iter(&self) -> Iter<'_, u64, Item>
        ensures rest { result ≡ self.now }
        ensures rising { IsRising self.now }
        ensures runs { ShowsInOrder (deref_pair {K = ℕ} {X = Item}) }
    {
        self.items.iter()
    }

    /// The number at a place, in rising order, from 0.
    pub(crate) fn nth(&self, nth: usize) -> Option<u64>
        ensures { result ≡ slice_get (keys_of self.now) nth }
    {
        self.items.keys().nth(nth).copied()
    }

    /// The numbers, in rising order.
    pub(crate) fn numbers(&self) -> Keys<'_, u64, Item>
        ensures rest { result ≡ keys_of self.now }
        ensures rising { IsRising self.now }
        ensures runs { ShowsInOrder (deref {X = ℕ}) }
    {
        self.items.keys()
    }
}
