// Inputs that come from a source while a run goes on.
ghost use Rattle.ingress_egress.specs.IngressStands.{AreCome, IsOfPlan, StandsFor};
ghost use Rattle.node_tasks.specs.Coming.{inputs_of};
ghost use Rattle.node_tasks.specs.declared.source.Came.TheVariants as came;
ghost use Rattle.pair_machine.specs.Numbers.{Node};
ghost use Rattle.partition_runner.specs.Feeds.{IsFedBy, IsGivenBy, came_to};
ghost use Rattle.plan_nodes.specs.States.{has_merged_end, tells_loss};
ghost use Rattle.plan_reader.specs.PlanView.{PlanView};
ghost use Rattle.std.specs.Prelude.{◌≡◌, ◌++◌, ◌||◌, Bool, List, None, Ok, false, true};
ghost use Rattle.tuple_edge.specs.Input.{Input};

use crate::feed::Feed;
use ingress_egress::Ingress;
use node_tasks::{Acts, Came, Source};
use plan_nodes::NodeState;
use tuple_edge::{Input, OutOfMemory};

/// A source, and what it gave that ingress hasn't taken.
#[derive(Drop)]
pub(crate) struct Supply<S: Source> {
    pub(crate) source: S,
    // The input that it gave last, where there was no memory for it at ingress.
    pub(crate) held: Option<Input>,
    // Whether it said that no more come.
    pub(crate) over: bool,
}

// Gives ingress the input that is held, if one is. Whether none is held any more.
fn pass_held(node: &mut Ingress, held: &mut Option<Input>) -> Result<bool, OutOfMemory>
    ensures given { (gave : List Input) (ended : Bool) → IsGivenBy gave ended (came_to node.old held.old) → IsGivenBy gave ended (came_to node.new held.new) }
    ensures none { result ≡ Ok true → held.new ≡ None }
    ensures told { node.new.ended ≡ node.old.ended }
    ensures inputs { (inputs : List Input) → AreCome node.new.ended node.new.inputs inputs → AreCome node.old.ended node.old.inputs inputs }
    ensures stands { (plan : PlanView) (inputs : List Input) (x : Node) → AreCome node.new.ended node.new.inputs inputs → StandsFor plan inputs node.old x → StandsFor plan inputs node.new x }
    ensures of_plan { (plan : PlanView) → IsOfPlan plan node.old → IsOfPlan plan node.new }
{
    let Some(input) = *held else {
        return Ok(true);
    };
    let took = node.feed(input)?;
    if took {
        *held = None;
    }
    Ok(took)
}

// Gives ingress what a source said: an input, which is held until ingress takes it, or that no more come. Whether it was an
// input that ingress took.
fn pass_on(
    node: &mut Ingress,
    held: &mut Option<Input>,
    over: &mut bool,
    said: Came,
) -> Result<bool, OutOfMemory>
    requires none { held.old ≡ None }
    requires open { node.old.ended ≡ false }
    requires told { over.old ≡ node.old.ended }
    ensures given { (gave : List Input) (before ended : Bool) → IsGivenBy gave before (came_to node.old held.old) → (said ≡ came.End → ended ≡ true)
        → IsGivenBy (gave ++ inputs_of said) ended (came_to node.new held.new) }
    ensures none { result ≡ Ok true → held.new ≡ None }
    ensures told { over.new ≡ node.new.ended }
    ensures inputs { (inputs : List Input) → AreCome node.new.ended node.new.inputs inputs → AreCome node.old.ended node.old.inputs inputs }
    ensures stands { (plan : PlanView) (inputs : List Input) (x : Node) → AreCome node.new.ended node.new.inputs inputs → StandsFor plan inputs node.old x → StandsFor plan inputs node.new x }
    ensures of_plan { (plan : PlanView) → IsOfPlan plan node.old → IsOfPlan plan node.new }
{
    match said {
        Came::Input(input) => {
            *held = Some(input);
            pass_held(node, held)
        }
        Came::End => {
            node.end();
            *over = true;
            Ok(false)
        }
        Came::Nothing => Ok(false),
    }
}

// Inputs come to ingress from a source, and to no other node.
impl<S: Source + Send> Feed for Option<Supply<S>> {
    ghost use Rattle.partition_runner.specs.FeedLaws.{still_fed_by};

    ghost fits = { λ supply s. IsFedBy S.gave S.ended supply s };

    ghost over = { λ s. has_merged_end s || tells_loss s };

    ghost still = { λ supply old new. still_fed_by S.gave S.ended supply old new };

    fn nothing() -> Option<Supply<S>> {
        None
    }

    fn refill(&mut self, state: &mut NodeState, most: usize) -> Result<(), OutOfMemory> {
        let Some(supply) = self else {
            return Ok(());
        };
        let NodeState::Ingress(node) = state else {
            return Ok(());
        };
        if !pass_held(node, &mut supply.held)? {
            return Ok(());
        }
        for _ in node.waiting()..most {
            if supply.over {
                return Ok(());
            }
            let said = supply.source.next();
            if !pass_on(node, &mut supply.held, &mut supply.over, said)? {
                return Ok(());
            }
        }
        Ok(())
    }

    fn is_over(state: &NodeState) -> bool {
        state.is_done() || state.tells_loss()
    }
}
