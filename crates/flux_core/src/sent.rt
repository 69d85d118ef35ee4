// All that a node ever sent.
ghost use Rattle.flux_core.specs.Sent.{AreListed, bodies_to, body_of, listed_for};
ghost use Rattle.flux_core.specs.Taken.{IsMissing, IsPacketOf};
ghost use Rattle.pair_machine.specs.Machine.{nth_from_one};
ghost use Rattle.pair_machine.specs.Numbers.{is_node};
ghost use Rattle.std.specs.BTreeMap.{ContainsKey};
ghost use Rattle.std.specs.Prelude.{◌≡◌, ◌<◌, ◌+◌, ◌++◌, ◌∷◌, [], if◌then◌else◌, IfErr, IfOk, OnOk, OnErr, length, slice_get};
ghost use Rattle.tuple_edge.specs.Node.{node_cmp};
ghost use Rattle.tuple_edge.specs.declared.node.NodeId.{NodeId as Node};

use crate::asked::Asked;
use crate::error::ApplyError;
use node_tasks::Task;
use std::alloc::Global;
use std::collections::BTreeMap;
use std::marker::Model;
use tuple_edge::{Body, LinkId, NodeId, OutOfMemory, Outbox, Packet};

/// The packets that a node ever sent, each with its receiver, in order. None is ever removed.
#[derive(Drop)]
pub struct Sent {
    alloc: Global,
    pub(crate) log: Outbox,
    // For each receiver the places of its packets among the first `listed`. Those after them are listed
    // when one is asked for, so that to send needs no room here.
    places: BTreeMap<NodeId, Vec<usize>>,
    listed: usize,
}

impl Model for Sent {
    ghost use Rattle.flux_core.specs.Sent.{AreListed, listed_for};
    ghost use Rattle.std.specs.Prelude.{List};
    ghost use Rattle.tuple_edge.specs.declared.node.NodeId.{NodeId};
    ghost use Rattle.tuple_edge.specs.declared.packet.Body.{Body};

    ghost Value = { List (NodeId × Body) };

    ghost view = { λ s. s.log.packets };

    ghost invariant = { λ s. AreListed s.log.packets (listed_for s.places) s.listed };
}

impl Sent {
    // Nothing was sent.
    pub(crate) fn new(alloc: Global) -> Sent
        ensures { result ≡ [] }
    {
        Sent {
            alloc,
            log: Outbox::new(alloc),
            places: BTreeMap::new(alloc),
            listed: 0,
        }
    }

    /// How many packets went to a node.
    pub fn count_to(&mut self, to: NodeId) -> Result<u64, OutOfMemory>
        ensures value { IfOk result (λ count. count ≡ length (bodies_to to self.old)) }
        ensures unchanged { self.new ≡ self.old }
    {
        list_all(self.alloc, &self.log, &mut self.places, &mut self.listed)?;
        Ok(list_of(&self.places, to).len() as u64)
    }

    /// The packet to a node at a place among those to it, from 1.
    pub fn nth_to(&mut self, to: NodeId, index: u64) -> Result<Option<Body>, OutOfMemory>
        ensures value { IfOk result (λ body. body ≡ nth_from_one (bodies_to to self.old) index) }
        ensures unchanged { self.new ≡ self.old }
    {
        list_all(self.alloc, &self.log, &mut self.places, &mut self.listed)?;
        if index == 0 {
            return Ok(None);
        }
        Ok(body_at(&self.log, &self.places, to, index as usize - 1))
    }

    // The packet at a place among those that went over a link from here, as what its receiver is asked to take.
    pub(crate) fn taken(&mut self, link: LinkId, index: u64) -> Result<Asked, ApplyError>
        ensures unchanged { self.new ≡ self.old }
        ensures found { IfOk result (IsPacketOf (bodies_to link.to self.old) link index) }
        ensures refused { IfErr result (IsMissing (bodies_to link.to self.old) link index) }
    {
        match self.nth_to(link.to, index)? {
            Some(body) => Ok(Asked::Task(Task::Take {
                from: link.from,
                index,
                // A core has no clocks.
                packet: Packet { at: 0, body },
            })),
            None => {
                let sent = self.count_to(link.to)?;
                Err(ApplyError::NotSent { link, index, sent })
            }
        }
    }
}

// The places listed for a receiver.
fn list_of(places: &BTreeMap<NodeId, Vec<usize>>, to: NodeId) -> &[usize]
    ensures { result.now ≡ listed_for places.now to }
{
    match places.get(&to) {
        None => &[],
        Some(of_node) => of_node,
    }
}

// The packet to a node at a place among those to it, from 0, where all are listed.
fn body_at(
    log: &Outbox,
    places: &BTreeMap<NodeId, Vec<usize>>,
    to: NodeId,
    nth: usize,
) -> Option<Body>
    requires { AreListed log.now.packets (listed_for places.now) (length log.now.packets) }
    ensures { result ≡ slice_get (bodies_to to log.now.packets) nth }
{
    match place_at(places, to, nth) {
        None => None,
        Some(place) => body_in(log, place),
    }
}

// The place listed for a receiver after so many others.
fn place_at(places: &BTreeMap<NodeId, Vec<usize>>, to: NodeId, nth: usize) -> Option<usize>
    ensures { result ≡ slice_get (listed_for places.now to) nth }
{
    list_of(places, to).get(nth).copied()
}

// The body of the packet at a place among all.
fn body_in(log: &Outbox, place: usize) -> Option<Body>
    ensures { result ≡ body_of log.now.packets place }
{
    match log.get(place) {
        None => None,
        Some((_to, body)) => Some(body),
    }
}

// Lists the packets that aren't listed yet.
fn list_all(
    alloc: Global,
    log: &Outbox,
    places: &mut BTreeMap<NodeId, Vec<usize>>,
    listed: &mut usize,
) -> Result<(), OutOfMemory>
    requires { AreListed log.now.packets (listed_for places.old) listed.old }
    ensures listed { AreListed log.now.packets (listed_for places.new) listed.new }
    ensures whole { OnOk result (listed.new ≡ length log.now.packets) }
{
    for nth in *listed..log.len() {
        list_next(alloc, log, places, nth)?;
        *listed = nth + 1;
    }
    Ok(())
}

// Lists the next packet.
fn list_next(
    alloc: Global,
    log: &Outbox,
    places: &mut BTreeMap<NodeId, Vec<usize>>,
    nth: usize,
) -> Result<(), OutOfMemory>
    requires listed { AreListed log.now.packets (listed_for places.old) nth }
    requires next { nth < length log.now.packets }
    ensures listed { OnOk result (AreListed log.now.packets (listed_for places.new) (nth + 1)) }
    ensures unchanged { OnErr result (AreListed log.now.packets (listed_for places.new) nth) }
{
    let Some((to, _body)) = log.get(nth) else {
        unreachable!()
    };
    list(alloc, places, to, nth)?;
    Ok(())
}

// Lists a packet for its receiver.
fn list(
    alloc: Global,
    places: &mut BTreeMap<NodeId, Vec<usize>>,
    to: NodeId,
    place: usize,
) -> Result<(), OutOfMemory>
    ensures listed { OnOk result ((q : Node) → listed_for places.new q
        ≡ listed_for places.old q ++ (if is_node to q then place ∷ [] else [])) }
    ensures unchanged { OnErr result ((q : Node) → listed_for places.new q ≡ listed_for places.old q) }
{
    make_list(alloc, places, to)?;
    push_place(places, to, place)
}

// Makes a list for a receiver that has none yet.
fn make_list(
    alloc: Global,
    places: &mut BTreeMap<NodeId, Vec<usize>>,
    to: NodeId,
) -> Result<(), OutOfMemory>
    ensures made { OnOk result (ContainsKey node_cmp places.new to) }
    ensures unchanged { (q : Node) → listed_for places.new q ≡ listed_for places.old q }
{
    if !places.contains_key(&to) {
        places.insert(to, Vec::new(alloc))?;
    }
    Ok(())
}

// Adds a place to the list of a receiver that has one.
fn push_place(
    places: &mut BTreeMap<NodeId, Vec<usize>>,
    to: NodeId,
    place: usize,
) -> Result<(), OutOfMemory>
    requires { ContainsKey node_cmp places.old to }
    ensures listed { OnOk result ((q : Node) → listed_for places.new q
        ≡ listed_for places.old q ++ (if is_node to q then place ∷ [] else [])) }
    ensures unchanged { OnErr result ((q : Node) → listed_for places.new q ≡ listed_for places.old q) }
{
    let Some(of_node) = places.get_mut(&to) else {
        unreachable!()
    };
    of_node.push(place)?;
    Ok(())
}
