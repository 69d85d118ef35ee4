// Where inputs come from while a run goes on.
ghost use Rattle.node_tasks.specs.Coming.{inputs_of};
ghost use Rattle.node_tasks.specs.declared.source.Came.TheVariants as came;
ghost use Rattle.std.specs.Prelude.{◌≡◌, ◌++◌, Bool, List, true};
ghost use Rattle.tuple_edge.specs.Input.{Input};

use tuple_edge::Input;

/// What a source says where it is asked for the next input.
#[derive(Clone, Copy)]
pub enum Came {
    /// This is the next one.
    Input(Input),
    /// No more come.
    End,
    /// None is at hand now.
    Nothing,
}

/// Where inputs come from, one after another, while a run goes on.
pub trait Source: Send + Drop {
    /// The inputs that it gave.
    ghost gave: { Self → List Input };

    /// Whether it said that no more come.
    ghost ended: { Self → Bool };

    /// The next input, where one is at hand. It never waits.
    fn next(&mut self) -> Came
        ensures gave { gave self.new ≡ gave self.old ++ inputs_of result }
        ensures ended { result ≡ came.End → ended self.new ≡ true };
}
