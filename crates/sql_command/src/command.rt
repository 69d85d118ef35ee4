// The command `sql`.
ghost use Rattle.command_course.specs.Steps.{GivesBy, OnlyReads, StopsBy};
ghost use Rattle.command_course.specs.Answers.{answer, answer_of};
ghost use Rattle.command_course.specs.declared.answer.Ending.TheVariants.{Done};
ghost use Rattle.plan_sql.specs.Query.{sql_text};
ghost use Rattle.sql_command.specs.Courses.{sql_way};
ghost use Rattle.std.specs.Prelude.{◌≡◌, IfErr, IfOk};

use command_course::{Answer, Ending, PlanFile, Stop, input_at};
use flux_outside::Files;
use plan_reader::Plan;
use plan_sql::write_sql;
use std::alloc::Global;

/// What `sql` writes: the plan of a file as one SQL query.
#[tactic(auto, using(crate::proofs::Ways::reads_passed, crate::proofs::Ways::reads_then))]
pub fn sql_report<F: Files>(alloc: Global, files: &mut F, plan: &str) -> Result<Answer, Stop>
    ensures gives { IfOk result (λ answer. GivesBy (F.told files.old) (F.told files.new) (sql_way plan.now) (answer_of answer)) }
    ensures stops { IfErr result (λ stop. StopsBy (F.told files.old) (F.told files.new) (sql_way plan.now) stop) }
    ensures reads { OnlyReads (F.told files.old) (F.told files.new) result }
{
    let plan = input_at(alloc, files, plan, &PlanFile)?;
    queried(alloc, &plan)
}

// The query of a plan, where want of memory is why the command stops.
fn queried(alloc: Global, plan: &Plan) -> Result<Answer, Stop>
    ensures answer { IfOk result (λ it. answer_of it ≡ answer Done (sql_text plan.now)) }
    ensures want { IfErr result (λ stop. stop ≡ Stop.OutOfMemory) }
{
    let text = write_sql(alloc, plan)?;
    Ok(Answer {
        text,
        ending: Ending::Done,
        saved: None,
    })
}
