// What holds of every plan that is by key, as a contract of a function that does nothing.
ghost use Rattle.move_command.specs.Laws.{OneOperatorAnswers};

/// The output of a plan that is by key is what one operator answers to all rows, one after another.
#[tactic(auto, using(crate::proofs::OneOperator::one_operator))]
pub fn one_operator_answers()
    ensures { OneOperatorAnswers }
{}
