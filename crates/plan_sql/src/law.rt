// What was worked by hand, as the contract of a function that does nothing.
ghost use Rattle.plan_sql.specs.WorkedTexts.{WorkedTexts};

/// A law: pieces of queries worked by hand are what the definitions have.
#[tactic(auto, using(crate::proofs::Worked::worked_texts))]
pub fn worked_texts()
    ensures { WorkedTexts }
{}
