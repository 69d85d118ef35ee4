// What holds of an operator's answers, as contracts of functions that do nothing.
ghost use Rattle.state_laws.specs.Laws.{AnswersComeFromEntries, EntriesGoOn, LaterAnswersComeFromEntries};

/// An operator's answer to an item depends on the items before through their entries alone.
#[tactic(auto, using(crate::proofs::FromEntries::answer_same))]
pub fn answers_come_from_entries()
    ensures { AnswersComeFromEntries }
{}

/// The entries after one item more depend on the items before through their entries alone.
#[tactic(auto, using(crate::proofs::FromEntries::entries_same))]
pub fn entries_go_on()
    ensures { EntriesGoOn }
{}

/// So do all later answers.
#[tactic(auto, using(crate::proofs::FromEntries::answers_same))]
pub fn later_answers_come_from_entries()
    ensures { LaterAnswersComeFromEntries }
{}
