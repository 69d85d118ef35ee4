// What is ready to be given.
ghost use Rattle.flux_link.specs.Choices.{at_own_place, left_behind};
ghost use Rattle.std.specs.Prelude.{◌≡◌, ◌++◌, ◌∷◌, [], IsFalse, IsSome, IsTrue, MatchOption, Some, option_to_list, slice_get};

use crate::{Arrival, Choice};
use std::marker::Model;

// A list of at most three arrivals: what a packet gives at its own place, and behind it the one that was held back.
#[derive(Drop)]
pub struct Ready {
    once: Option<Arrival>,
    again: Option<Arrival>,
    behind: Option<Arrival>,
}

impl Model for Ready {
    ghost use Rattle.flux_link.specs.declared.arrival.Arrival.{Arrival};
    ghost use Rattle.std.specs.Prelude.{List, ◌++◌, option_to_list};

    ghost Value = { List Arrival };

    ghost view = { λ ready. option_to_list ready.once ++ option_to_list ready.again ++ option_to_list ready.behind };
}

impl Ready {
    pub fn new() -> Ready
        ensures { result ≡ [] }
    {
        Ready {
            once: None,
            again: None,
            behind: None,
        }
    }

    // What a packet gives by its choice, and behind it the one that was held back.
    pub fn of(choice: Choice, arrival: Arrival, held: Option<Arrival>) -> Ready
        ensures { result ≡ at_own_place choice arrival ++ option_to_list held }
    {
        let (once, again) = match choice {
            Choice::Pass => (Some(arrival), None),
            Choice::Drop | Choice::Behind => (None, None),
            Choice::Twice => (Some(arrival), Some(arrival)),
        };
        Ready {
            once,
            again,
            behind: held,
        }
    }

    // Whether none is.
    pub fn is_empty(&self) -> bool
        ensures none { IsTrue result → self.now ≡ [] }
        ensures some { IsFalse result → IsSome (slice_get self.now 0) }
    {
        self.once.is_none() && self.again.is_none() && self.behind.is_none()
    }

    // The first one.
    pub fn first(&self) -> Option<&Arrival>
        ensures { MatchOption result (self.now ≡ []) (λ arrival. slice_get self.now 0 ≡ Some arrival.now) }
    {
        if self.once.is_some() {
            return self.once.as_ref();
        }
        if self.again.is_some() {
            return self.again.as_ref();
        }
        self.behind.as_ref()
    }

    // The first one, which is ready no longer.
    pub fn take(&mut self) -> Option<Arrival>
        ensures { MatchOption result ((self.old ≡ []) × (self.new ≡ [])) (λ arrival. self.old ≡ arrival ∷ self.new) }
    {
        if self.once.is_some() {
            return self.once.take();
        }
        if self.again.is_some() {
            return self.again.take();
        }
        self.behind.take()
    }
}

// What a packet leaves to be given behind the next one, by its choice.
pub fn held_back(choice: Choice, arrival: Arrival) -> Option<Arrival>
    ensures { result ≡ left_behind choice arrival }
{
    (choice == Choice::Behind).then_some(arrival)
}
