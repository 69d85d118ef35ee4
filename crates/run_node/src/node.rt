// A node of a run.
ghost use Rattle.pair_machine.specs.Counts.{flow_of};
ghost use Rattle.pair_machine.specs.Links.{HasNode, link};
ghost use Rattle.pair_machine.specs.Lists.{Each};
ghost use Rattle.pair_machine.specs.Machine.{new_node};
ghost use Rattle.pair_machine.specs.Joint.{AreRising};
ghost use Rattle.pair_machine.specs.Numbers.{Node as NodeNumbers};
ghost use Rattle.pair_machine.specs.Scripts.{IsAllowedAt};
ghost use Rattle.plan_reader.specs.Nodes.{has_link};
ghost use Rattle.plan_reader.specs.PlanView.{IsPlan};
ghost use Rattle.node_tasks.specs.Coming.{HaveCome};
ghost use Rattle.node_tasks.specs.Timely.{AreTimely};
ghost use Rattle.run_node.specs.Ends.{leads_to, links_in, links_of};
ghost use Rattle.run_node.specs.Fits.{HasHappened, HasMade, HasWorked, Taken};
ghost use Rattle.run_node.specs.NodeView.{name_of};
ghost use Rattle.run_node.specs.Sends.{with_all_sent};
ghost use Rattle.run_node.specs.SoundNode.{IsTrueView, TapFits};
ghost use Rattle.run_node.specs.Takes.{HasTaken, Takes, TakesNothing};
ghost use Rattle.node_tasks.specs.Tasks.{event_of, packet_of};
ghost use Rattle.tuple_edge.specs.Input.{Input};
ghost use Rattle.tuple_edge.specs.Limits.{most_packets};
ghost use Rattle.std.specs.Prelude.{◌≡◌, ◌≢◌, ◌≤◌, ◌++◌, ◌∷◌, [], ℕ, List, None, false, true, IfOk, IsTrue, Ok, OnErr, OnOk, length};
ghost use Rattle.tuple_edge.specs.declared.node.NodeId.{NodeId};

use crate::draws::Draws;
use crate::fired::Fired;
use crate::in_end::InEnd;
use crate::links::Links;
use crate::names::RunNames;
use crate::out_end::OutEnd;
use crate::outs::Outs;
use crate::part::Part;
use crate::receiving::{end_at, pass_at, waiting_at};
use crate::round::Round;
use event_log::Keeps;
use flux_link::Outlet;
use node_tasks::{Acts, Task};
use plan_reader::Plan;
use std::alloc::Global;
use std::marker::{Model, PhantomData};
use tuple_edge::{Input, MOST_PACKETS, NUMBER_LIMIT, OutOfMemory, Outbox, Stamped, Worked};

// No clock passes it.
const LAST_CLOCK: u64 = NUMBER_LIMIT - 1;

// Makes room for what one event adds: an entry of the history, and the packets that it sends.
fn reserve_event<K: Keeps, O: Outlet + Drop>(
    history: &mut K,
    outs: &mut Outs<O>,
    outbox: &mut Outbox,
) -> Result<(), OutOfMemory>
    ensures history { (K.kept history.new).entries ≡ (K.kept history.old).entries }
    ensures node { (K.kept history.new).node ≡ (K.kept history.old).node }
    ensures links { outs.new.links ≡ outs.old.links }
    ensures packets { outbox.new.packets ≡ outbox.old.packets }
    ensures entry { OnOk result (1 ≤ (K.kept history.new).spare) }
    ensures room { OnOk result (most_packets ≤ outs.new.room) }
    ensures spare { OnOk result (most_packets ≤ outbox.new.spare) }
{
    history.reserve(1)?;
    outs.reserve(MOST_PACKETS)?;
    outbox.reserve(MOST_PACKETS)?;
    Ok(())
}

// Appends the event that a task is at the node whose history it is.
fn note<K: Keeps>(history: &mut K, task: &Task, clock: u64)
    requires { 1 ≤ (K.kept history.old).spare }
    ensures node { (K.kept history.new).node ≡ (K.kept history.old).node }
    ensures entries { (K.kept history.new).entries ≡ (K.kept history.old).entries ++ record { clock = clock; event = event_of (K.kept history.old).node task.now } ∷ [] }
{
    let event = task.event_at(history.node());
    history.push_reserved(Stamped { clock, event });
}

// Sends what an event has to send, with its clock, and empties the outbox.
fn send_event<O: Outlet + Drop>(outs: &mut Outs<O>, outbox: &mut Outbox, clock: u64)
    requires { length outbox.old.packets ≤ outs.old.room }
    ensures links { outs.new.links ≡ with_all_sent clock outbox.old.packets outs.old.links }
    ensures unsent { outbox.new.packets ≡ [] }
{
    outs.send_all(outbox, clock);
    outs.flush();
}

/// A node with its links, its clock and its history.
#[derive(Drop)]
pub struct Node<N: RunNames, A: Acts, K: Keeps, M: Links, T: Draws> {
    pub(crate) state: A,
    pub(crate) ins: Vec<InEnd<M::In>>,
    pub(crate) outs: Outs<M::Out>,
    // Empty between events.
    outbox: Outbox,
    clock: u64,
    pub(crate) history: K,
    // What the orders of the script have made it do.
    pub(crate) fired: Fired,
    // Which in-links this turn is still to look at.
    round: Round,
    // By how much some mark has to rise before this turn reports any.
    pub(crate) rise: u64,
    pub(crate) tap: Option<T>,
    of: PhantomData<N>,
}

impl<N: RunNames, A: Acts, K: Keeps, M: Links, T: Draws> Model for Node<N, A, K, M, T> {
    ghost use Rattle.run_node.specs.Ends.{links_in};
    ghost use Rattle.run_node.specs.NodeView.{NodeView};
    ghost use Rattle.run_node.specs.SoundNode.{IsNode};

    ghost Value = { NodeView A T };

    ghost view = { λ n. record {
      state = n.state;
      ins = links_in n.ins.items;
      outs = n.outs.links;
      history = (K.kept n.history).entries;
      tap = n.tap;
    } };

    ghost invariant = { λ n. IsNode T.lets_go T.given A.rows A.gone A.id A.of_plan A.stands A.admits N.plan N.script
        n.state (links_in n.ins.items) n.outs.links n.clock n.fired (K.kept n.history) n.outbox n.tap };
}

impl<N: RunNames, A: Acts, K: Keeps, M: Links, T: Draws> Node<N, A, K, M, T> {
    /// A node before its first event.
    pub(crate) fn new(
        alloc: Global,
        state: A,
        ins: Vec<InEnd<M::In>>,
        outs: Vec<OutEnd<M::Out>>,
        tap: Option<T>,
    ) -> Node<N, A, K, M, T>
        requires planned { IsPlan N.plan }
        requires named { A.of_plan N.plan state }
        requires there { (inputs : List Input) → HasNode (flow_of N.plan inputs) (A.id state) }
        requires opening { (inputs : List Input) → A.admits state inputs → A.stands N.plan inputs state (new_node (A.id state)) }
        requires linked { (to : NodeId) → IsTrue (has_link N.plan (link (A.id state) to)) → leads_to (links_of outs.items) to ≡ true }
        requires fresh { Each (λ l. l.emitted ≡ []) (links_of outs.items) }
        requires tap { TapFits T.lets_go T.given A.rows A.gone tap state }
        ensures { result ≡ record { state = state; ins = links_in ins.items; outs = links_of outs.items; history = []; tap = tap } }
    {
        let history = K::new(alloc, state.id());
        Node {
            state,
            ins,
            outs: Outs::new(outs),
            outbox: Outbox::new(alloc),
            clock: 0,
            history,
            fired: Fired::nothing(),
            round: Round::none(),
            rise: 1,
            tap,
            of: PhantomData,
        }
    }

    /// What is left of it: its own part and its history, which is a true course, and its tap.
    pub fn into_part(self) -> (Part<A, K>, Option<T>)
        ensures part { (result.0.state ≡ self.state) × ((K.kept result.0.history).entries ≡ self.history) }
        ensures node { (K.kept result.0.history).node ≡ A.id self.state }
        ensures tap { (result.1 ≡ self.tap) × TapFits T.lets_go T.given A.rows A.gone result.1 result.0.state }
        ensures course { (inputs : List Input) → A.admits self.state inputs → AreTimely inputs → IsTrueView A.id A.stands N.plan inputs N.script self }
        ensures rising { (inputs : List Input) → A.admits self.state inputs → AreTimely inputs → AreRising self.history }
    {
        let Node {
            state,
            ins: _,
            outs: _,
            outbox: _,
            clock: _,
            history,
            fired: _,
            round: _,
            rise: _,
            tap,
            of: _,
        } = self;
        (Part { state, history }, tap)
    }

    // One event that is neither a take nor work nor a make, if it is one: its room first, then what it does, and then what it sends.
    pub(crate) fn event(&mut self, task: &Task) -> Result<bool, OutOfMemory>
        requires untaken { packet_of task.now ≡ None }
        requires allowed { (inputs : List Input) (x : NodeNumbers) → A.stands N.plan inputs self.old.state x → IsAllowedAt N.script (event_of (A.id self.old.state) task.now) x }
        ensures happens { result ≡ Ok true → HasHappened (event_of (A.id self.old.state) task.now) self.old.history self.new.history }
        ensures name { name_of A.id self.new ≡ name_of A.id self.old }
        ensures ins { self.new.ins ≡ self.old.ins }
    {
        let clock = self.clock;
        if clock >= LAST_CLOCK || self.fired.repeats(task) || !self.state.may(task) {
            return Ok(false);
        }
        reserve_event(&mut self.history, &mut self.outs, &mut self.outbox)?;
        match self.state.act(task, self.rise, &mut self.outbox)? {
            Worked::Idle => return Ok(false),
            Worked::Did => {}
        }
        self.clock = clock + 1;
        self.fired = self.fired.after(task);
        note(&mut self.history, task, self.clock);
        send_event(&mut self.outs, &mut self.outbox, self.clock);
        Ok(true)
    }

    // Takes the next packet of a link, if there is one and it may be taken: one event, its room first, then what it does, and
    // then what it sends. The packet is read where it lies, and what isn't taken stays in its link.
    fn take_next(&mut self) -> Result<bool, OutOfMemory>
        ensures takes { result ≡ Ok true → (taken : Taken) × Takes A.id self.old self.new taken }
        ensures stays { result ≢ Ok true → TakesNothing A.id self.old self.new }
    {
        let Some(place) = waiting_at(&mut self.ins, &mut self.round) else {
            return Ok(false);
        };
        let end = end_at(&self.ins, place);
        let packet = end.first();
        let latest = self.clock.max(packet.at);
        if latest >= LAST_CLOCK {
            return Ok(false);
        }
        reserve_event(&mut self.history, &mut self.outs, &mut self.outbox)?;
        let from = end.from();
        let index = end.index();
        match self.state.take(from, index, packet, &mut self.outbox)? {
            Worked::Idle => return Ok(false),
            Worked::Did => {}
        }
        pass_at(&mut self.ins, place);
        self.clock = latest + 1;
        self.history.take(from, index, self.clock);
        send_event(&mut self.outs, &mut self.outbox, self.clock);
        Ok(true)
    }

    // Takes packets one after another, at most so many. Each is an event of its own, with its clock, and what one sends goes
    // before the next. It ends where nothing is at hand, and where the next packet may not be taken or memory is wanting for
    // it. Gives how many it took.
    pub(crate) fn take(&mut self, most: u64) -> Result<u64, OutOfMemory>
        ensures takes { IfOk result (λ count. HasTaken A.id count self.old self.new) }
        ensures failed { OnErr result ((count : ℕ) × HasTaken A.id count self.old self.new) }
        ensures few { IfOk result (λ count. count ≤ most) }
        ensures name { name_of A.id self.new ≡ name_of A.id self.old }
    {
        for count in 0..most {
            if !self.take_next()? {
                return Ok(count);
            }
        }
        Ok(most)
    }

    // Pieces of work, one after another and at most so many, if nothing waits: their room first, then what they do, and then
    // what they send. Each of them is an event of its own, with its clock. They are no more than the history has room for, so
    // that memory is asked for as for one event. Gives how many they were.
    pub(crate) fn work(&mut self, most: u64) -> Result<u64, OutOfMemory>
        ensures worked { IfOk result (λ count. HasWorked (A.id self.old.state) count self.old.history self.new.history) }
        ensures few { IfOk result (λ count. count ≤ most) }
        ensures name { name_of A.id self.new ≡ name_of A.id self.old }
        ensures ins { self.new.ins ≡ self.old.ins }
    {
        let clock = self.clock;
        if clock >= LAST_CLOCK || self.outs.some_wait() {
            return Ok(0);
        }
        reserve_event(&mut self.history, &mut self.outs, &mut self.outbox)?;
        let most = most.min(LAST_CLOCK - clock) as usize;
        let most = most.min(self.history.spare());
        let steps = self.state.work(most, self.rise, &mut self.outbox)?;
        let count = steps.count as u64;
        self.clock = clock + count;
        self.history.work_times(clock, steps.count);
        self.outs.send_steps(&mut self.outbox, steps, clock);
        self.outs.flush();
        Ok(count)
    }

    // Makes inputs into items, one after another and at most so many, while each edge of ingress holds fewer items than the plan
    // says: the room of the history first, and then what they do. Each of them is an event of its own, with its clock, and sends
    // nothing. They are no more than the history has room for, so that memory is asked for as for one event. Gives how many they
    // were.
    pub(crate) fn make(&mut self, most: u64, plan: &Plan) -> Result<u64, OutOfMemory>
        ensures made { IfOk result (λ count. HasMade count self.old.history self.new.history) }
        ensures few { IfOk result (λ count. count ≤ most) }
        ensures name { name_of A.id self.new ≡ name_of A.id self.old }
        ensures ins { self.new.ins ≡ self.old.ins }
    {
        let clock = self.clock;
        if clock >= LAST_CLOCK {
            return Ok(0);
        }
        self.history.reserve(1)?;
        let most = most.min(LAST_CLOCK - clock) as usize;
        let most = most.min(self.history.spare());
        let times = self.state.make(most, plan)?;
        let count = times as u64;
        self.clock = clock + count;
        self.history.make_times(clock, times);
        Ok(count)
    }

    /// Takes the next input that comes, if it is ingress. It is no event. False where it takes none.
    pub fn feed(&mut self, input: Input) -> Result<bool, OutOfMemory>
        // Where it takes the input, that came behind those that had come. Else the node is as it was.
        ensures came { IfOk result (λ taken. IsTrue taken → (before : List Input) → HaveCome A.admits self.old.state before
            → HaveCome A.admits self.new.state (before ++ input ∷ [])) }
        ensures left { IfOk result (λ taken. taken ≡ false → self.new ≡ self.old) }
        ensures unchanged { OnErr result (self.new ≡ self.old) }
        ensures same { self.new ≡ record self.old { state = self.new.state } }
        ensures name { name_of A.id self.new ≡ name_of A.id self.old }
        ensures inputs { (inputs : List Input) → A.admits self.new.state inputs → A.admits self.old.state inputs }
    {
        self.state.feed(input)
    }

    // Takes inputs that come from outside, if it is ingress, while fewer than so many wait there. It is no event.
    pub(crate) fn refill(&mut self, most: usize) -> Result<(), OutOfMemory>
        ensures same { self.new ≡ record self.old { state = self.new.state } }
        ensures name { name_of A.id self.new ≡ name_of A.id self.old }
        ensures inputs { (inputs : List Input) → A.admits self.new.state inputs → A.admits self.old.state inputs }
    {
        self.state.refill(most)
    }

    // Has its tap, if it has one, give on of the rows that it emitted. It is no event.
    pub(crate) fn offer(&mut self)
        ensures { name_of A.id self.new ≡ name_of A.id self.old }
    {
        let Some(tap) = &mut self.tap else {
            return;
        };
        tap.draw(&mut self.state);
    }

    // Pushes what waits, and begins a round over its in-links. Reports of marks that rose by less are left for later.
    pub(crate) fn begin_turn(&mut self, plan: &Plan, most_rise: u64)
        ensures { name_of A.id self.new ≡ name_of A.id self.old }
    {
        self.outs.flush();
        self.round = self.round.renewed(self.ins.len());
        self.rise = (plan.hold() / 4).min(most_rise).max(1);
    }
}
