// The warnings of a plan.
ghost use Rattle.std.specs.Prelude.{◌≡◌, ◌++◌, ◌∷◌, ◌≤◌, [], length, nat_lt, None, OnOk};
ghost use Rattle.std.specs.List.{list_any};
ghost use Rattle.std.specs.Option.{IfSome};
ghost use Rattle.plan_check.specs.Warnings.{dealt_warnings, first_sums, hold_warnings, last_window, leaving_warnings, mark_warnings, merges_edges, own_warnings, part_warnings, plan_warnings, split_warnings, stage_warnings, sums_warnings, time_warnings, where_so};

use crate::limits::LONG_MARK;
use crate::order::{dealing, is_window, joins_keys, key_behind};
use crate::sums::{adds_up, counts_again, splits_keys};
use crate::warning::{Numbered, Warning};
use node_tasks::PORTION;
use op_spec::By;
use plan_reader::{Plan, Stage};
use tuple_edge::OutOfMemory;

// Appends a warning where it is so.
pub(crate) fn push_if(
    found: &mut Vec<Warning>,
    so: bool,
    warning: Warning,
) -> Result<(), OutOfMemory>
    ensures { OnOk result (found.new.items ≡ found.old.items ++ where_so so warning) }
{
    if so {
        found.push(warning)?;
    }
    Ok(())
}

// Whether one of the stages runs in several partitions.
fn any_in_parts(stages: &[Stage]) -> bool
    ensures { result ≡ list_any (λ s. nat_lt 1 s.parts) stages.now }
{
    stages.iter().any(|stage| stage.parts > 1)
}

// Whether some node of a plan merges several edges.
fn merges_edges(plan: &Plan) -> bool
    ensures { result ≡ merges_edges plan.now }
{
    plan.version() > 1 || any_in_parts(plan.stages())
}

// Appends the warnings of a plan's settings.
fn push_settings(found: &mut Vec<Warning>, plan: &Plan) -> Result<(), OutOfMemory>
    ensures { OnOk result (found.new.items ≡ found.old.items ++ (mark_warnings plan.now ++ hold_warnings plan.now)) }
{
    let mark = plan.mark();
    let hold = plan.hold();
    let is_long = mark > LONG_MARK && merges_edges(plan);
    push_if(found, is_long, Warning::LongMark { mark })?;
    push_if(found, hold < PORTION, Warning::ShortHold { hold })
}

// Appends the warning of a stage that adds up sums, where an earlier one gives them.
fn push_sums(
    found: &mut Vec<Warning>,
    sums: Option<Numbered>,
    stage: Numbered,
) -> Result<(), OutOfMemory>
    ensures { OnOk result (found.new.items ≡ found.old.items ++ sums_warnings sums stage) }
{
    match sums {
        None => Ok(()),
        Some(sums) => push_if(
            found,
            adds_up(&stage.stage.op),
            Warning::SumsOfSums { stage, sums },
        ),
    }
}

// Appends the warnings of a stage of its own keys: whether they are split, and whether sums are added up.
fn push_keys(
    found: &mut Vec<Warning>,
    sums: Option<Numbered>,
    stage: Numbered,
) -> Result<(), OutOfMemory>
    ensures { OnOk result (found.new.items ≡ found.old.items ++ (split_warnings stage ++ sums_warnings sums stage)) }
{
    push_if(
        found,
        splits_keys(&stage.stage),
        Warning::SplitKeys { stage },
    )?;
    push_sums(found, sums, stage)
}

// Appends the warning of a stage that adds up rows of several keys of the last `window` before it.
fn push_time(
    found: &mut Vec<Warning>,
    window: Option<Numbered>,
    before: &[Stage],
    stage: Numbered,
) -> Result<(), OutOfMemory>
    requires { IfSome window (λ w. w.number ≤ length before.now) }
    ensures { OnOk result (found.new.items ≡ found.old.items ++ time_warnings window (before.now ++ stage.stage ∷ []) stage) }
{
    match window {
        None => Ok(()),
        Some(window) => {
            let is_so = adds_up(&stage.stage.op) && joins_keys(window.number, before, &stage.stage);
            push_if(found, is_so, Warning::TimeOrder { stage, window })
        }
    }
}

// Appends the warning of a stage that adds up rows of one key from several partitions of another one.
fn push_dealt(
    found: &mut Vec<Warning>,
    dealt: Option<Numbered>,
    stage: Numbered,
) -> Result<(), OutOfMemory>
    ensures { OnOk result (found.new.items ≡ found.old.items ++ dealt_warnings dealt stage) }
{
    match dealt {
        None => Ok(()),
        Some(dealt) => push_if(
            found,
            adds_up(&stage.stage.op),
            Warning::PartOrder { stage, dealt },
        ),
    }
}

// Appends the same of the stages before it.
fn push_parts(
    found: &mut Vec<Warning>,
    before: &[Stage],
    stage: Numbered,
) -> Result<(), OutOfMemory>
    ensures { OnOk result (found.new.items ≡ found.old.items ++ part_warnings before.now stage) }
{
    push_dealt(found, dealing(key_behind(&stage.stage.op), before), stage)
}

// The first stage whose rows are sums in which a trade counts again and again, where this one follows.
fn first_sums(sums: Option<Numbered>, stage: Numbered) -> Option<Numbered>
    ensures { result ≡ first_sums sums stage }
{
    match sums {
        Some(sums) => Some(sums),
        None => {
            if counts_again(&stage.stage.op) {
                Some(stage)
            } else {
                None
            }
        }
    }
}

// The last `window`, where this stage follows.
fn last_window(window: Option<Numbered>, stage: Numbered) -> Option<Numbered>
    ensures { result ≡ last_window window stage }
{
    if is_window(&stage.stage.op) {
        Some(stage)
    } else {
        window
    }
}

// Appends the warnings of a stage that stands behind others.
fn push_stage(
    found: &mut Vec<Warning>,
    sums: Option<Numbered>,
    window: Option<Numbered>,
    before: &[Stage],
    stage: Numbered,
) -> Result<(), OutOfMemory>
    requires { IfSome window (λ w. w.number ≤ length before.now) }
    ensures { OnOk result (found.new.items ≡ found.old.items ++ own_warnings sums window before.now stage) }
{
    push_keys(found, sums, stage)?;
    push_time(found, window, before, stage)?;
    push_parts(found, before, stage)
}

// Appends the warnings of stages.
fn push_stages(found: &mut Vec<Warning>, stages: &[Stage]) -> Result<(), OutOfMemory>
    ensures { OnOk result (found.new.items ≡ found.old.items ++ stage_warnings None None [] stages.now) }
{
    let mut sums = None;
    let mut window = None;
    for (place, stage) in stages.iter().enumerate() {
        let numbered = Numbered {
            number: place + 1,
            stage: *stage,
        };
        push_stage(found, sums, window, &stages[..place], numbered)?;
        sums = first_sums(sums, numbered);
        window = last_window(window, numbered);
    }
    Ok(())
}

// Appends the warning of rows of one key that leave from several partitions.
fn push_leaving(found: &mut Vec<Warning>, stages: &[Stage]) -> Result<(), OutOfMemory>
    ensures { OnOk result (found.new.items ≡ found.old.items ++ leaving_warnings stages.now) }
{
    match dealing(By::Both, stages) {
        None => Ok(()),
        Some(dealt) => {
            found.push(Warning::LeavingOrder { dealt })?;
            Ok(())
        }
    }
}

// Appends the warnings of a plan.
pub(crate) fn push_plan(found: &mut Vec<Warning>, plan: &Plan) -> Result<(), OutOfMemory>
    ensures { OnOk result (found.new.items ≡ found.old.items ++ plan_warnings plan.now) }
{
    push_settings(found, plan)?;
    push_stages(found, plan.stages())?;
    push_leaving(found, plan.stages())
}
