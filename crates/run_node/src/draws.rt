// How the rows of egress leave it, while the run goes on.
ghost use mathlib.Core.List.{IsPrefix};
ghost use Rattle.pair_machine.specs.Numbers.{Node as NodeNumbers};
ghost use Rattle.plan_reader.specs.PlanView.{PlanView};
ghost use Rattle.run_node.specs.Drawn.{IsDrawn};
ghost use Rattle.std.specs.Prelude.{◌≡◌, Bool, List, false, true};
ghost use Rattle.tuple_edge.specs.Input.{Input};
ghost use Rattle.tuple_edge.specs.declared.row.Row.{Row};

use crate::tap::{RowTap, Tap};
use node_tasks::Acts;

/// How rows leave the node that emitted them, while the run goes on.
pub trait Draws: Send + Drop {
    /// The rows that it gave on.
    ghost given: { Self → List Row };

    /// Whether the node hands on what was given on, and holds it no longer. Else it hands on nothing.
    ghost lets_go: { Bool };

    /// Gives on some of the rows of a node, behind those that it gave before.
    fn draw<A: Acts>(&mut self, state: &mut A)
        requires { IsDrawn lets_go (given self.old) (A.rows state.old) (A.gone state.old) }
        ensures drawn { IsDrawn lets_go (given self.new) (A.rows state.new) (A.gone state.new) }
        ensures more { IsPrefix (given self.old) (given self.new) }
        ensures rows { A.rows state.new ≡ A.rows state.old }
        // It stands for the same numbers, and is the same node of the same plans.
        ensures stands { (plan : PlanView) (inputs : List Input) (x : NodeNumbers) → A.stands plan inputs state.old x → A.stands plan inputs state.new x }
        ensures inputs { (inputs : List Input) → A.admits state.new inputs → A.admits state.old inputs }
        ensures id { A.id state.new ≡ A.id state.old }
        ensures of_plan { (plan : PlanView) → A.of_plan plan state.old → A.of_plan plan state.new };
}

/// A tap is offered all rows that were emitted so far, and the node hands on none.
#[derive(Drop)]
pub struct Offers<T: Tap> {
    pub tap: T,
}

impl<T: Tap> Draws for Offers<T> {
    ghost given = { λ o. T.given o.tap };

    ghost lets_go = { false };

    fn draw<A: Acts>(&mut self, state: &mut A) {
        self.tap.offer(state.emitted());
    }
}

/// A tap takes the rows one by one, and the node hands on what it took.
#[derive(Drop)]
pub struct HandsOn<T: RowTap> {
    pub tap: T,
}

impl<T: RowTap> Draws for HandsOn<T> {
    ghost given = { λ h. T.given h.tap };

    ghost lets_go = { true };

    fn draw<A: Acts>(&mut self, state: &mut A) {
        let mut next = state.first();
        while let Some(row) = next {
            if !self.tap.offer(&row) {
                return;
            }
            let _row = state.let_go();
            next = state.first();
        }
    }
}
