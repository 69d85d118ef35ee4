// A failure script: its orders, whether they are safe, and what is due.
ghost use Rattle.std.specs.Prelude.{◌≡◌, ◌++◌, ◌∷◌, [], true, false, OnErr, OnOk, option_map};
ghost use Rattle.std.specs.Bool.{Decides};
ghost use Rattle.std.specs.List.{list_any};
ghost use Rattle.pair_machine.specs.Numbers.{is_node};
ghost use Rattle.pair_machine.specs.Scripts.{IsSafe};
ghost use Rattle.failure_script.specs.Orders.{IsOrdered, IsPartnerOrderedBack, are_of_one_pair, are_safe, are_unsafe, due_for, is_back_due, is_due, is_for, is_reached, order_for, order_for_partner};

use pair_machine::Order;
use std::alloc::Global;
use std::marker::Model;
use tuple_edge::{NodeId, OutOfMemory};

/// What a failure script asks for.
///
/// Contracts see its orders.
#[derive(Debug, Drop)]
pub struct Script {
    orders: Vec<Order>,
}

impl Model for Script {
    ghost use Rattle.std.specs.Prelude.{List};
    ghost use Rattle.pair_machine.specs.declared.order.Order.{Order};

    ghost Value = { List Order };

    ghost view = { λ s. s.orders.items };
}

/// What is due at a replica now.
#[derive(Clone, Copy, Debug, PartialEq, Eq)]
pub struct DueNow {
    /// It is to ask its controller to be stopped.
    pub stop: bool,
    /// It is to fail.
    pub kill: bool,
    /// It is to ask for its partner back.
    pub back: bool,
}

// Whether two names are those of one node.
fn is_node(one: NodeId, another: NodeId) -> bool
    ensures { result ≡ is_node one another }
{
    one == another
}

/// Whether two nodes are replicas of one pair.
pub fn are_of_one_pair(one: NodeId, another: NodeId) -> bool
    ensures { result ≡ are_of_one_pair one another }
{
    match (one, another) {
        (
            NodeId::Replica { stage, part, .. },
            NodeId::Replica {
                stage: of_stage,
                part: of_part,
                ..
            },
        ) => stage == of_stage && part == of_part,
        _ => false,
    }
}

/// Whether two orders are of one pair, and one of them is a kill.
pub fn are_unsafe(one: &Order, another: &Order) -> bool
    ensures { result ≡ are_unsafe one.now another.now }
{
    are_of_one_pair(one.node, another.node) && (one.kill || another.kill)
}

// Whether this order and one of the others are of one pair, and one of the two is a kill.
fn any_unsafe(order: &Order, others: &[Order]) -> bool
    ensures { result ≡ list_any (are_unsafe order.now) others.now }
{
    others.iter().any(|other| are_unsafe(order, other))
}

// Whether no two of these orders are of one pair with a kill among them.
#[tactic(auto, unfolding(crate::specs::Orders::are_safe))]
fn are_safe(orders: &[Order]) -> bool
    ensures { result ≡ are_safe orders.now }
{
    let mut rest = orders;
    while let Some((first, others)) = rest.split_first() {
        if any_unsafe(first, others) {
            return false;
        }
        rest = others;
    }
    true
}

// Whether an order of this kind is due after so many items.
fn is_due(kill: bool, count: u64, order: Option<&Order>) -> bool
    ensures { result ≡ is_due kill count (option_map (λ o. o.now) order.entry) }
{
    match order {
        None => false,
        Some(order) => order.kill == kill && order.at <= count,
    }
}

/// Whether a number of items is reached, where there is one.
pub fn is_reached(count: u64, items: Option<u64>) -> bool
    ensures { result ≡ is_reached count items }
{
    match items {
        None => false,
        Some(items) => items <= count,
    }
}

// Whether the replica of an order is due back after so many items of its partner.
fn is_back_due(count: u64, order: Option<&Order>) -> bool
    ensures { result ≡ is_back_due count (option_map (λ o. o.now) order.entry) }
{
    match order {
        None => false,
        Some(order) => is_reached(count, order.back),
    }
}

impl Script {
    /// The script without an order.
    pub fn empty(alloc: Global) -> Script
        ensures { result ≡ [] }
    {
        Script {
            orders: Vec::new(alloc),
        }
    }

    /// The orders, in the order of their lines.
    pub fn orders(&self) -> &[Order]
        ensures { result.now ≡ self.now }
    {
        &self.orders
    }

    // Appends an order. Without memory the script stays as it was.
    pub(crate) fn push(&mut self, order: Order) -> Result<(), OutOfMemory>
        ensures pushed { OnOk result (self.new ≡ self.old ++ order ∷ []) }
        ensures unchanged { OnErr result (self.new ≡ self.old) }
    {
        self.orders.push(order)?;
        Ok(())
    }

    // Whether there is an order for this node.
    pub(crate) fn has_order_for(&self, node: NodeId) -> bool
        ensures { result ≡ list_any (is_for node) self.now }
    {
        self.orders.iter().any(|order| is_node(order.node, node))
    }

    // The order for this node.
    fn order_for(&self, node: NodeId) -> Option<&Order>
        ensures { option_map (λ order. order.now) result ≡ order_for self.now node }
    {
        self.orders.iter().find(|order| is_node(order.node, node))
    }

    // The order for the partner of this node.
    fn order_for_partner(&self, node: NodeId) -> Option<&Order>
        ensures { option_map (λ order. order.now) result ≡ order_for_partner self.now node }
    {
        match node {
            NodeId::Replica { .. } => self.order_for(node.partner()),
            _ => None,
        }
    }

    /// Whether no pair has two orders of which one is a kill. Then no pair is ever lost: of each one
    /// replica at least goes on.
    pub fn is_safe(&self) -> bool
        ensures { Decides result (IsSafe self.now) }
    {
        are_safe(&self.orders)
    }

    /// What is due at a replica that has merged so many items: by its own order that it stops or fails,
    /// and by its partner's order that it asks for the partner back.
    pub fn due_for(&self, node: NodeId, count: u64) -> DueNow
        ensures due { result ≡ due_for self.now node count }

        // What is due, an order lets happen, as the machine asks of each such event.
        ensures may_stop { result.stop ≡ true → IsOrdered self.now node false count }
        ensures may_kill { result.kill ≡ true → IsOrdered self.now node true count }
        ensures may_return { result.back ≡ true → IsPartnerOrderedBack self.now node count }
    {
        let own = self.order_for(node);
        let partners = self.order_for_partner(node);
        DueNow {
            stop: is_due(false, count, own),
            kill: is_due(true, count, own),
            back: is_back_due(count, partners),
        }
    }
}
