// All that a node ever sent.
ghost use Rattle.std.specs.Prelude.{◌≡◌, ◌<◌, ◌+◌, ◌++◌, ◌∷◌, [], if◌then◌else◌, IfErr, IfOk, IfSome, OnErr, OnOk, Some, length, slice_get, slice_set};
ghost use Rattle.trio_nodes.specs.Contents.{appended};
ghost use Rattle.trio_core.specs.Acts.{ActsSo, IsRefusedSo, MayBeAsked};
ghost use Rattle.trio_core.specs.CoreView.{contents_of, inputs_in, name_of};
ghost use Rattle.trio_core.specs.Sent.{AreListed, LinkView, bodies_to, is_link, link_of, listed_for, longer};
ghost use Rattle.trio_core.specs.Taken.{IsMissing, IsPacketOf};
ghost use Rattle.trio_machine.specs.Numbers.{is_node};
ghost use Rattle.trio_machine.specs.declared.node.TrioNode.{TrioNode as Name};

use crate::acts::member_acts;
use crate::error::TrioError;
use crate::member::Member;
use crate::taking::{body_at, taken_from};
use crate::task::TrioTask;
use std::alloc::Global;
use std::marker::Model;
use trio_nodes::{MOST_PACKETS, TrioNode, TrioOutbox};
use tuple_edge::OutOfMemory;

/// The places of the packets to one receiver, among all that a node sent.
#[derive(Drop)]
pub struct Link {
    to: TrioNode,
    places: Vec<usize>,
}

impl Model for Link {
    ghost use Rattle.trio_core.specs.Sent.{LinkView};

    ghost Value = { LinkView };

    ghost view = { λ l. record { to = l.to; places = l.places.items } };
}

impl Link {
    // Whether it is the link to this receiver.
    fn is_to(&self, to: TrioNode) -> bool
        ensures { result ≡ is_link to (Some self.now) }
    {
        self.to == to
    }

    // The places.
    fn places(&self) -> &[usize]
        ensures { result.now ≡ self.now.places }
    {
        &self.places
    }

    // One more place.
    fn push(&mut self, place: usize) -> Result<(), OutOfMemory>
        ensures longer { OnOk result (self.new ≡ longer self.old place) }
        ensures unchanged { OnErr result (self.new ≡ self.old) }
    {
        self.places.push(place)?;
        Ok(())
    }
}

/// The packets that a node ever sent, each with its receiver, in order. None is ever removed.
#[derive(Drop)]
pub struct Sent {
    alloc: Global,
    log: TrioOutbox,
    // For each receiver the places of its packets among the first `listed`, so that none is searched for
    // from the beginning. All are listed but where memory is wanting.
    links: Vec<Link>,
    listed: usize,
}

impl Model for Sent {
    ghost use Rattle.std.specs.Prelude.{List};
    ghost use Rattle.trio_core.specs.Sent.{AreListed, listed_for};
    ghost use Rattle.trio_machine.specs.declared.body.TrioBody.{TrioBody};
    ghost use Rattle.trio_machine.specs.declared.node.TrioNode.{TrioNode};

    ghost Value = { List (TrioNode × TrioBody) };

    ghost view = { λ s. s.log.packets };

    ghost invariant = { λ s. AreListed s.log.packets (listed_for s.links.items) s.listed };
}

impl Sent {
    // Nothing was sent.
    pub(crate) fn new(alloc: Global) -> Sent
        ensures { result ≡ [] }
    {
        Sent {
            alloc,
            log: TrioOutbox::new(alloc),
            links: Vec::new(alloc),
            listed: 0,
        }
    }

    // A node does what an event asks of it, and what it sends is noted.
    pub(crate) fn note(&mut self, member: &mut Member, task: &TrioTask) -> Result<(), TrioError>
        requires asked { MayBeAsked task.now member.old }
        ensures acts { OnOk result (ActsSo task.now member.old member.new (appended self.old self.new)) }
        ensures packets { self.new ≡ self.old ++ appended self.old self.new }
        ensures refused { IfErr result (IsRefusedSo task.now member.old) }
        ensures unchanged { OnErr result ((contents_of member.new ≡ contents_of member.old) × (self.new ≡ self.old)) }
        ensures inputs { inputs_in member.new ≡ inputs_in member.old }
        ensures name { name_of member.new ≡ name_of member.old }
    {
        self.log.reserve(MOST_PACKETS)?;
        member_acts(member, task, &mut self.log)?;
        list_new(self.alloc, &self.log, &mut self.links, &mut self.listed);
        Ok(())
    }

    // The packet at a place among those to a node, from 1, as the task of its receiver.
    pub(crate) fn taken(
        &self,
        from: TrioNode,
        to: TrioNode,
        index: u64,
    ) -> Result<TrioTask, TrioError>
        ensures found { IfOk result (IsPacketOf (bodies_to to self.now) from index) }
        ensures refused { IfErr result (IsMissing (bodies_to to self.now) index) }
    {
        let places = list_of(&self.links, to);
        let count = places.len() as u64;
        if index == 0 || index > count {
            return taken_from(&self.log, self.listed, count, from, to, index);
        }
        let place = places[index as usize - 1];
        match body_at(&self.log, place, to) {
            Some(body) => Ok(TrioTask::Take { from, body }),
            None => unreachable!(),
        }
    }
}

// The place of the link to a receiver, where there is one.
fn link_to(links: &[Link], to: TrioNode) -> Option<usize>
    ensures found { result ≡ link_of to links.now }
    ensures within { IfSome result (λ link. link < length links.now) }
{
    for link in 0..links.len() {
        if links[link].is_to(to) {
            return Some(link);
        }
    }
    None
}

// The places listed for a receiver.
fn list_of(links: &[Link], to: TrioNode) -> &[usize]
    ensures { result.now ≡ listed_for links.now to }
{
    match link_to(links, to) {
        None => &[],
        Some(link) => links[link].places(),
    }
}

// Lists the packets that aren't listed yet, as far as there is memory for it.
fn list_new(alloc: Global, log: &TrioOutbox, links: &mut Vec<Link>, listed: &mut usize)
    requires { AreListed log.now.packets (listed_for links.old.items) listed.old }
    ensures { AreListed log.now.packets (listed_for links.new.items) listed.new }
{
    for nth in *listed..log.len() {
        match list_next(alloc, log, links, nth) {
            Ok(()) => *listed = nth + 1,
            Err(OutOfMemory) => return,
        }
    }
}

// Lists the next packet.
fn list_next(
    alloc: Global,
    log: &TrioOutbox,
    links: &mut Vec<Link>,
    nth: usize,
) -> Result<(), OutOfMemory>
    requires listed { AreListed log.now.packets (listed_for links.old.items) nth }
    requires next { nth < length log.now.packets }
    ensures listed { OnOk result (AreListed log.now.packets (listed_for links.new.items) (nth + 1)) }
    ensures unchanged { OnErr result (AreListed log.now.packets (listed_for links.new.items) nth) }
{
    let Some((to, _body)) = log.get(nth) else {
        unreachable!()
    };
    list(alloc, links, to, nth)
}

// Lists a packet for its receiver.
fn list(alloc: Global, links: &mut Vec<Link>, to: TrioNode, place: usize) -> Result<(), OutOfMemory>
    ensures listed { OnOk result ((q : Name) → listed_for links.new.items q
        ≡ listed_for links.old.items q ++ (if is_node to q then place ∷ [] else [])) }
    ensures unchanged { OnErr result (links.new.items ≡ links.old.items) }
{
    match link_to(links, to) {
        Some(link) => list_at(links, link, place),
        None => add_link(alloc, links, to, place),
    }
}

// One more place of a link that is there.
fn list_at(links: &mut Vec<Link>, link: usize, place: usize) -> Result<(), OutOfMemory>
    requires { link < length links.old.items }
    ensures listed { OnOk result ((l : LinkView) → slice_get links.old.items link ≡ Some l
        → links.new.items ≡ slice_set links.old.items link (longer l place)) }
    ensures unchanged { OnErr result (links.new.items ≡ links.old.items) }
{
    links[link].push(place)
}

// The link to a receiver that has none yet, with its first place.
fn add_link(
    alloc: Global,
    links: &mut Vec<Link>,
    to: TrioNode,
    place: usize,
) -> Result<(), OutOfMemory>
    ensures listed { OnOk result (links.new.items ≡ links.old.items ++ record { to = to; places = place ∷ [] } ∷ []) }
    ensures unchanged { OnErr result (links.new.items ≡ links.old.items) }
{
    let mut places = Vec::new(alloc);
    places.push(place)?;
    links.push(Link { to, places })?;
    Ok(())
}
