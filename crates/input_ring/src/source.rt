// The end that gives.
ghost use Rattle.input_ring.specs.Ends.{gives_from, inputs_given};
ghost use Rattle.node_tasks.specs.Coming.{inputs_of};
ghost use Rattle.node_tasks.specs.declared.source.Came.TheVariants as came;
ghost use Rattle.std.specs.Prelude.{◌≡◌, ◌++◌, ◌∷◌, [], true, MatchOption};

use crate::stopping::StopFlag;
use node_tasks::{Came, Source};
use rtrb::Consumer;
use std::alloc::Global;
use std::sync::Arc;
use std::sync::atomic::AtomicBool;
use std::sync::atomic::Ordering::SeqCst;
use tuple_edge::{Input, OutOfMemory};

/// The end that gives the inputs that were sent.
#[derive(Drop)]
pub struct InputSource {
    pub(crate) consumer: Consumer<Input>,
    // Whether the sender said that no more come.
    pub(crate) closed: Arc<AtomicBool, Global>,
    pub(crate) stopped: StopFlag,
    // Whether it said so itself.
    pub(crate) ended: bool,
}

impl InputSource {
    // The first input that waits.
    fn pop(&mut self) -> Option<Input>
        ensures given { MatchOption result (inputs_given self.new ≡ inputs_given self.old) (λ input. inputs_given self.new ≡ inputs_given self.old ++ input ∷ []) }
        ensures ring { gives_from self.new ≡ gives_from self.old }
        ensures ended { self.new.ended ≡ self.old.ended }
    {
        self.consumer.pop().ok()
    }

    /// The flag by which the sender is stopped.
    pub fn stop_flag(&self) -> Result<StopFlag, OutOfMemory> {
        self.stopped.another()
    }
}

impl Source for InputSource {
    ghost gave = { λ source. inputs_given source };

    ghost ended = { λ source. source.ended };

    // Where nothing waits and the sender has said that no more come, the ring is looked at once more: what it sent before it
    // said so is there by then.
    fn next(&mut self) -> Came
        ensures gave { inputs_given self.new ≡ inputs_given self.old ++ inputs_of result }
        ensures ended { result ≡ came.End → self.new.ended ≡ true }
        ensures ring { gives_from self.new ≡ gives_from self.old }
    {
        if let Some(input) = self.pop() {
            return Came::Input(input);
        }
        if !self.closed.load(SeqCst) {
            return Came::Nothing;
        }
        match self.pop() {
            Some(input) => Came::Input(input),
            None => {
                self.ended = true;
                Came::End
            }
        }
    }
}
