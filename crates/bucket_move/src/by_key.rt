// Plans that are by key.
ghost use Rattle.std.specs.Prelude.{◌≡◌};
ghost use Rattle.bucket_move.specs.ByKey.{holds_column, is_by_key, is_keyed, is_one_keyed};

use plan_reader::{Plan, Stage};
use stream_ops::{By, OpSpec};
use tuple_edge::Column;

// Whether rows of one key agree in a column.
fn holds_column(key: By, column: Column) -> bool
    ensures { result ≡ holds_column key column }
{
    match (key, column) {
        (By::Account, Column::Account) => true,
        (By::Symbol, Column::Symbol) => true,
        (By::Both, Column::Account) => true,
        (By::Both, Column::Symbol) => true,
        _ => false,
    }
}

// Whether an operator is by the key of a column.
fn is_keyed(column: Column, op: &OpSpec) -> bool
    ensures { result ≡ is_keyed column op.now }
{
    match op {
        OpSpec::Keep { .. } => true,
        OpSpec::Total { by } => holds_column(*by, column),
        OpSpec::Last { by, .. } => holds_column(*by, column),
        OpSpec::Window { .. } => false,
        OpSpec::Crossing { by, .. } => holds_column(*by, column),
        OpSpec::Join { .. } => false,
    }
}

// Whether there is one stage, by the key of the column that routes its rows.
fn is_one_keyed(stages: &[Stage]) -> bool
    ensures { result ≡ is_one_keyed stages.now }
{
    match stages {
        [stage] => is_keyed(stage.by, &stage.op),
        _ => false,
    }
}

/// Whether a plan is by key: it is of version 1 and has one stage, which answers a row from rows that
/// the routing column brings to the same bucket.
pub fn is_by_key(plan: &Plan) -> bool
    ensures { result ≡ is_by_key plan.now }
{
    plan.version() == 1 && is_one_keyed(plan.stages())
}
