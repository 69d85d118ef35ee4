// The walk over all states, breadth first.
use crate::orders::{Fault, Orders, Verdict};
use std::alloc::Global;
use std::collections::HashSet;
use tuple_edge::OutOfMemory;

/// How many events lead to a state at most, and how many of them are failures or requests after one.
#[derive(Clone, Copy, Debug)]
pub(crate) struct Bounds {
    pub(crate) depth: u32,
    pub(crate) failures: u32,
}

/// What a walk has counted: states, events that were tried and those that were steps, and how drains ended.
#[derive(Clone, Copy, Debug)]
pub(crate) struct Tally {
    pub(crate) states: u64,
    pub(crate) tried: u64,
    pub(crate) steps: u64,
    pub(crate) whole: u64,
    pub(crate) lost: u64,
}

// A state that was found: the place of the one before it, the event between them, and how many events and failures lead
// to it. The first one is the opening, to which no event leads.
#[derive(Clone, Copy, Drop)]
struct Found<E: Copy> {
    before: usize,
    event: Option<E>,
    depth: u32,
    failures: u32,
}

/// The states of a run that were found, in the order in which they were.
#[derive(Drop)]
pub(crate) struct Walk<'a, E: Copy, R: Orders<E>> {
    alloc: Global,
    run: &'a R,
    bounds: Bounds,
    found: Vec<Found<E>>,
    states: HashSet<Vec<u8>>,
    tally: Tally,
}

impl<'a, E: Copy, R: Orders<E>> Walk<'a, E, R> {
    /// A walk that has yet to begin.
    pub(crate) fn new(alloc: Global, run: &'a R, bounds: Bounds) -> Walk<'a, E, R> {
        Walk {
            alloc,
            run,
            bounds,
            found: Vec::new(alloc),
            states: HashSet::new(alloc),
            tally: Tally {
                states: 0,
                tried: 0,
                steps: 0,
                whole: 0,
                lost: 0,
            },
        }
    }

    /// What was counted.
    pub(crate) fn tally(&self) -> Tally {
        self.tally
    }

    /// Goes over all states within the bounds, up to the first one that differs; the answer is in what.
    pub(crate) fn goes(&mut self) -> Result<Option<Fault>, OutOfMemory> {
        let opening = Found {
            before: 0,
            event: None,
            depth: 0,
            failures: 0,
        };
        let story = self.run.opened(self.alloc)?;
        let mut fault = self.arrives(opening, story)?;
        for place in 0..usize::MAX {
            if fault.is_some() {
                break;
            }
            let Some(found) = self.found.get(place).copied() else {
                break;
            };
            if found.depth < self.bounds.depth {
                fault = self.leaves(place, found)?;
            }
        }
        Ok(fault)
    }

    // Each event that may come next in a state is tried.
    fn leaves(&mut self, place: usize, from: Found<E>) -> Result<Option<Fault>, OutOfMemory> {
        let way = self.way_to(place)?;
        let mut story = self.after(&way)?;
        let failures = from.failures < self.bounds.failures;
        for event in &self.run.offers(self.alloc, &story, failures)? {
            self.tally.tried = self.tally.tried.saturating_add(1);
            if !self.run.steps(&mut story, *event)? {
                continue;
            }
            self.tally.steps = self.tally.steps.saturating_add(1);
            let fails = self.run.is_failure(event);
            let fault = self.arrives(next(place, from, *event, fails), story)?;
            if fault.is_some() {
                return Ok(fault);
            }
            story = self.after(&way)?;
        }
        Ok(None)
    }

    // A state is reached. Where it is a new one it is noted and checked.
    fn arrives(&mut self, found: Found<E>, story: R::Story) -> Result<Option<Fault>, OutOfMemory> {
        if !self.states.insert(self.run.state(self.alloc, &story)?)? {
            return Ok(None);
        }
        self.found.push(found)?;
        self.tally.states = self.tally.states.saturating_add(1);
        match self.run.verdict(self.alloc, story)? {
            Verdict::Whole => self.tally.whole = self.tally.whole.saturating_add(1),
            Verdict::Lost => self.tally.lost = self.tally.lost.saturating_add(1),
            Verdict::Differs(fault) => return Ok(Some(fault)),
        }
        Ok(None)
    }

    // The run after these events.
    fn after(&self, events: &[E]) -> Result<R::Story, OutOfMemory> {
        let mut story = self.run.opened(self.alloc)?;
        for event in events {
            let _is_step = self.run.steps(&mut story, *event)?;
        }
        Ok(story)
    }

    // The events that lead to a state.
    fn way_to(&self, place: usize) -> Result<Vec<E>, OutOfMemory> {
        let mut events = Vec::new(self.alloc);
        let mut at = place;
        for _event in 0..self.bounds.depth {
            let Some(found) = self.found.get(at) else {
                break;
            };
            let Some(event) = found.event else {
                break;
            };
            events.push(event)?;
            at = found.before;
        }
        events.reverse();
        Ok(events)
    }

    /// The text of the events that lead to the state that was found last.
    pub(crate) fn way(&self) -> Result<Vec<u8>, OutOfMemory> {
        let events = self.way_to(self.found.len().saturating_sub(1))?;
        self.run.text(self.alloc, &events)
    }
}

// The state that an event leads to from the one at a place.
fn next<E: Copy>(place: usize, from: Found<E>, event: E, fails: bool) -> Found<E> {
    let failures = if fails { 1 } else { 0 };
    Found {
        before: place,
        event: Some(event),
        depth: from.depth.saturating_add(1),
        failures: from.failures.saturating_add(failures),
    }
}
