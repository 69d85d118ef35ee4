// One event, and any list of events.
ghost use Rattle.flux_core.specs.Acts.{IsTimelyTask};
ghost use Rattle.flux_core.specs.CoreView.{flow_in, gone_by, inputs_of};
ghost use Rattle.flux_core.specs.Follows.{AreNamed, IsFollowed, IsStopped, events_of};
ghost use Rattle.flux_core.specs.Promises.{EmitsAFront, HoldsWhatIsOwed, MergesInOrder};
ghost use Rattle.flux_core.specs.Refusals.{IsRefusal};
ghost use Rattle.flux_core.specs.Stands.{IsCore, StandsFor};
ghost use Rattle.flux_core.specs.Steps.{IsApplied, IsTaskOf, MayApply};
ghost use Rattle.pair_machine.specs.Machine.{State, act_of, step};
ghost use Rattle.plan_reader.specs.Nodes.{has_link, names_event};
ghost use Rattle.std.specs.Prelude.{◌≡◌, true, IfErr, IfOk, IsTrue, OnErr, OnOk};
ghost use Rattle.tuple_edge.specs.declared.event.Event.TheVariants as event;

use crate::asked::Asked;
use crate::error::ApplyError;
use crate::nodes::Core;
use crate::rows::CoreRows;
use crate::station::{act_at, taken_at};
use node_tasks::Task;
use run_journal::Lined;
use tuple_edge::{Event, LinkId};

/// Where a list of events stopped: at an event that is no step, with its line.
#[derive(Clone, Copy, Debug, PartialEq, Eq)]
pub struct Stopped {
    /// The line of the event.
    pub line: u64,
    /// Why it is no step.
    pub error: ApplyError,
}

impl<R: CoreRows> Core<R> {
    /// Applies an event of the plan. A core made of nodes alone, whose state need not be sound, may be given
    /// any event that takes no packet; one that takes a packet only where its state is sound. After a refusal,
    /// and where memory is wanting, all is as it was.
    pub fn apply(&mut self, event: Event) -> Result<(), ApplyError>
        requires named { IsTrue (names_event self.old.plan event) }
        requires may { MayApply self.old event }
        ensures applied { OnOk result (IsApplied self.old self.new event) }
        ensures refused { IfErr result (λ e. (s : State) → StandsFor self.old s → IsRefusal (step (flow_in self.old) s event) e) }
        ensures unchanged { OnErr result (self.new ≡ self.old) }
        ensures plan { self.new.plan ≡ self.old.plan }
        ensures inputs { inputs_of self.new ≡ inputs_of self.old }
        ensures whole { self.new.whole ≡ self.old.whole }
        ensures gone { gone_by self.new ≡ gone_by self.old }
        ensures core { IsCore self.new }
        ensures emitted { EmitsAFront self.new }
        ensures merged { MergesInOrder self.new }
        ensures owed { HoldsWhatIsOwed self.new }
    {
        self.known();
        let task = self.task_of(&event)?;
        self.act(&event, &task)
    }

    // What an event asks of its node.
    fn task_of(&mut self, event: &Event) -> Result<Asked, ApplyError>
        requires named { IsTrue (names_event self.old.plan event.now) }
        ensures unchanged { self.new ≡ self.old }
        ensures asked { IfOk result (IsTaskOf self.old event.now) }
        ensures timely { IfOk result IsTimelyTask }
        ensures refused { IfErr result (λ e. (s : State) → StandsFor self.old s → IsRefusal (act_of (flow_in self.old) s event.now) e) }
    {
        match *event {
            Event::Take { link, index } => self.packet_of(link, index),
            Event::Work { .. } => Ok(Asked::Task(Task::Work)),
            Event::Make => Ok(Asked::Task(Task::Make)),
            Event::Kill { .. } => Ok(Asked::Task(Task::Kill)),
            Event::AskStop { .. } => Ok(Asked::Task(Task::AskStop)),
            Event::AskBack { .. } => Ok(Asked::Task(Task::AskBack)),
            Event::Pull { from, to } => self.pull_of(from, to),
        }
    }

    // The packet at a place among those that went over a link.
    fn packet_of(&mut self, link: LinkId, index: u64) -> Result<Asked, ApplyError>
        requires named { IsTrue (has_link self.old.plan link) }
        ensures unchanged { self.new ≡ self.old }
        ensures asked { IfOk result (IsTaskOf self.old (event.Take link index)) }
        ensures timely { IfOk result IsTimelyTask }
        ensures refused { IfErr result (λ e. (s : State) → StandsFor self.old s → IsRefusal (act_of (flow_in self.old) s (event.Take link index)) e) }
    {
        let place = self.place_of(link.from);
        taken_at(&mut self.stations, place, link, index)
    }

    // The node of an event does what it asks.
    fn act(&mut self, event: &Event, task: &Asked) -> Result<(), ApplyError>
        requires named { IsTrue (names_event self.old.plan event.now) }
        requires may { MayApply self.old event.now }
        requires asked { IsTaskOf self.old event.now task.now }
        requires timely { IsTimelyTask task.now }
        ensures applied { OnOk result (IsApplied self.old self.new event.now) }
        ensures refused { IfErr result (λ e. (s : State) → StandsFor self.old s → IsRefusal (step (flow_in self.old) s event.now) e) }
        ensures unchanged { OnErr result (self.new ≡ self.old) }
        ensures core { IsCore self.new }
    {
        let place = self.place_of(event.node());
        act_at(&mut self.stations, place, task)
    }
}

impl Core {
    /// Applies events of the plan one after another, up to the first one that is no step: those before it stay
    /// applied, and it and those after it are not. Failures and lost pairs are events as all others.
    pub fn follow(&mut self, events: &[Lined]) -> Result<(), Stopped>
        requires named { AreNamed self.old.plan events.now }
        requires whole { self.old.whole ≡ true }
        ensures followed { OnOk result (IsFollowed self.old self.new (events_of events.now)) }
        ensures stopped { IfErr result (IsStopped self.old self.new events.now) }
        ensures plan { self.new.plan ≡ self.old.plan }
        ensures inputs { inputs_of self.new ≡ inputs_of self.old }
        ensures whole { self.new.whole ≡ self.old.whole }
        ensures core { IsCore self.new }
        ensures emitted { EmitsAFront self.new }
        ensures merged { MergesInOrder self.new }
        ensures owed { HoldsWhatIsOwed self.new }
    {
        self.known();
        for lined in events {
            if let Err(error) = self.apply(lined.event) {
                return Err(Stopped {
                    line: lined.line,
                    error,
                });
            }
        }
        Ok(())
    }
}
