// What holds of what is warned of and of what isn't, as contracts of functions that do nothing.
ghost use Rattle.plan_check.specs.Laws.{EndsStayTogether, KeysStayTogether, QuietPlansDealNone, UnsafeScriptsAreTold};
ghost use Rattle.plan_check.specs.WorkedRows.{WorkedRows};

/// A law: a stage that isn't warned of for its key answers each row as one partition would to which all rows of the
/// row's key came in that order, alone or among all others.
#[tactic(auto, using(crate::proofs::Together::keys_together))]
pub fn keys_stay_together()
    ensures { KeysStayTogether }
{}

/// A law: so it answers the end. Each partition gives those rows of one partition's answer that the routing column
/// names it for.
#[tactic(auto, using(crate::proofs::Ends::ends_together))]
pub fn ends_stay_together()
    ensures { EndsStayTogether }
{}

/// A law: a plan that isn't warned of for its partitions splits no keys, and no rows of one key leave it from several
/// partitions of a stage behind a `window`.
pub fn quiet_plans_deal_none()
    ensures { QuietPlansDealNone }
{}

/// A law: a script is warned of as not safe exactly where it isn't safe in the machine's sense.
#[tactic(auto, using(crate::proofs::Unsafe::told))]
pub fn unsafe_scripts_are_told()
    ensures { UnsafeScriptsAreTold }
{}

/// What was worked by hand: rows of one key that a stage which splits keys answers otherwise than one partition would, and the warnings
/// of plans and scripts.
#[tactic(auto, using(crate::proofs::WorkedRows::worked))]
pub fn worked_rows()
    ensures { WorkedRows }
{}
