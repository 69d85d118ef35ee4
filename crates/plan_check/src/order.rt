// In which order rows come behind a `window`.
ghost use Rattle.std.specs.Prelude.{◌≡◌, ◌+◌, ◌++◌, ◌∷◌, ◌≤◌, [], drop, length};
ghost use Rattle.plan_check.specs.Order.{deals_out, dealing, first_dealing, has_column, is_window, joins_keys, key_behind, loses};

use crate::sums::{holds_column, splits_keys};
use crate::warning::Numbered;
use op_spec::{By, OpSpec};
use plan_reader::Stage;
use tuple_edge::Column;

/// Whether an operator is a `window`.
pub fn is_window(op: &OpSpec) -> bool
    ensures { result ≡ is_window op.now }
{
    matches!(op, OpSpec::Window { .. })
}

// What rows that an operator answers with still have of an account and a symbol.
pub(crate) fn key_behind(op: &OpSpec) -> By
    ensures { result ≡ key_behind op.now }
{
    match op {
        OpSpec::Keep { .. } => By::Both,
        OpSpec::Total { by } => *by,
        OpSpec::Last { by, .. } => *by,
        OpSpec::Window { by, .. } => *by,
        OpSpec::Crossing { by, .. } => *by,
        OpSpec::Join { by, .. } => *by,
    }
}

// Whether rows behind these stages still have a column.
fn has_column(column: Column, stages: &[Stage]) -> bool
    ensures { result ≡ has_column column stages.now }
{
    stages
        .iter()
        .all(|stage| holds_column(key_behind(&stage.op), column))
}

// Whether rows behind the first of some stages, which stand before another one, have a column that is lost behind that.
fn loses(first: usize, before: &[Stage], last: &Stage, column: Column) -> bool
    requires { first ≤ length before.now }
    ensures { result ≡ loses first (before.now ++ last.now ∷ []) column }
{
    has_column(column, &before[..first])
        && !(has_column(column, before) && holds_column(key_behind(&last.op), column))
}

// Whether rows of two keys behind the first of these stages may be of one key at the last one.
pub(crate) fn joins_keys(first: usize, before: &[Stage], last: &Stage) -> bool
    requires { first ≤ length before.now }
    ensures { result ≡ joins_keys first (before.now ++ last.now ∷ []) }
{
    loses(first, before, last, Column::Account) || loses(first, before, last, Column::Symbol)
}

// Whether rows of one key come to several partitions of a stage, where the key is one behind the others that follow.
fn deals_out(key: By, stage: &Stage, others: &[Stage]) -> bool
    ensures { result ≡ deals_out key stage.now others.now }
{
    let by = stage.by;
    stage.parts > 1
        && !splits_keys(stage)
        && !(holds_column(key, by)
            && holds_column(key_behind(&stage.op), by)
            && has_column(by, others))
}

// The first stage from a place on to whose partitions rows of one key come.
fn first_dealing(key: By, stages: &[Stage], from: usize) -> Option<Numbered>
    requires { from ≤ length stages.now }
    ensures { result ≡ first_dealing key (from + 1) (drop from stages.now) }
{
    for place in from..stages.len() {
        let stage = stages[place];
        if deals_out(key, &stage, &stages[place + 1..]) {
            return Some(Numbered {
                number: place + 1,
                stage,
            });
        }
    }
    None
}

// The same from the first `window` on.
pub(crate) fn dealing(key: By, stages: &[Stage]) -> Option<Numbered>
    ensures { result ≡ dealing key 1 stages.now }
{
    for (place, stage) in stages.iter().enumerate() {
        if is_window(&stage.op) {
            return first_dealing(key, stages, place);
        }
    }
    None
}
