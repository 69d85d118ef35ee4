// One turn of a node.
ghost use Rattle.run_node.specs.NodeView.{name_of};
ghost use Rattle.std.specs.Prelude.{◌≡◌, ◌≤◌};

use crate::draws::Draws;
use crate::links::Links;
use crate::names::RunNames;
use crate::node::Node;
use crate::pace::Pace;
use event_log::Keeps;
use failure_script::Script;
use node_tasks::Acts;
use plan_reader::Plan;
use tuple_edge::OutOfMemory;

impl<N: RunNames, A: Acts, K: Keeps, M: Links, T: Draws> Node<N, A, K, M, T> {
    /// One turn: it pushes what it can, obeys the script's orders that are due, takes packets and inputs that come, makes rows and
    /// does work. Marks are reported where one of them rose enough, and where the turn came to nothing else. Then, also where
    /// memory is wanting, it offers its tap the rows that it emitted. Whether it did anything.
    pub fn turn(&mut self, plan: &Plan, script: &Script) -> Result<bool, OutOfMemory>
        requires { script.now ≡ N.script }
        ensures { name_of A.id self.new ≡ name_of A.id self.old }
    {
        let pace = Pace::of(script);
        self.begin_turn(plan, pace.most_rise);
        let result = self.act_some(plan, script, pace.portion);
        self.offer();
        result
    }

    /// Whether the run is over at it.
    pub fn is_done(&self) -> bool
        ensures { result ≡ A.done self.now.state }
    {
        self.state.is_done()
    }

    // What a turn does, up to where memory is wanting.
    fn act_some(&mut self, plan: &Plan, script: &Script, portion: u64) -> Result<bool, OutOfMemory>
        requires script { script.now ≡ N.script }
        requires some { 1 ≤ portion }
        ensures { name_of A.id self.new ≡ name_of A.id self.old }
    {
        let fired = self.fire(script)?;
        let took = self.take(portion)? > 0;
        self.refill(portion as usize)?;
        let made = self.make_some(portion, plan)?;
        let did = self.work_some(portion, script)?;
        if fired || took || made || did {
            return Ok(true);
        }
        self.report_some(portion, script)
    }

    fn make_some(&mut self, portion: u64, plan: &Plan) -> Result<bool, OutOfMemory>
        ensures { name_of A.id self.new ≡ name_of A.id self.old }
    {
        let mut left = portion;
        while left > 0 {
            let count = self.make(left, plan)?;
            if count == 0 {
                break;
            }
            left -= count;
        }
        Ok(left < portion)
    }

    // Where a turn came to nothing else, marks are reported by however little they rose.
    fn report_some(&mut self, portion: u64, script: &Script) -> Result<bool, OutOfMemory>
        requires { 1 ≤ portion }
        ensures { name_of A.id self.new ≡ name_of A.id self.old }
    {
        self.rise = 1;
        self.work_some(portion, script)
    }

    // The pieces are done several in one call, but one by one where an order becomes due in this turn.
    fn work_some(&mut self, portion: u64, script: &Script) -> Result<bool, OutOfMemory>
        requires { 1 ≤ portion }
        ensures { name_of A.id self.new ≡ name_of A.id self.old }
    {
        let most = self.portion(script, portion);
        let mut left = portion;
        while left > 0 {
            let count = self.work(left.min(most))?;
            if count == 0 {
                break;
            }
            left -= count;
        }
        Ok(left < portion)
    }
}
