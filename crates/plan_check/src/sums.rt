// What the rows of a stage are sums of.
ghost use Rattle.std.specs.Prelude.{◌≡◌};
ghost use Rattle.plan_check.specs.Sums.{adds_up, counts_again, key_holds, key_in, splits_keys};
ghost use Rattle.bucket_move.specs.ByKey.{holds_column};

use op_spec::{By, OpSpec};
use plan_reader::Stage;
use tuple_edge::Column;

// The key by which an operator keeps rows.
fn key_in(op: &OpSpec) -> Option<By>
    ensures { result ≡ key_in op.now }
{
    match op {
        OpSpec::Keep { .. } => None,
        OpSpec::Total { by } => Some(*by),
        OpSpec::Last { by, .. } => Some(*by),
        OpSpec::Window { by, .. } => Some(*by),
        OpSpec::Crossing { by, .. } => Some(*by),
        OpSpec::Join { by, .. } => Some(*by),
    }
}

// Whether an operator adds up rows.
pub(crate) fn adds_up(op: &OpSpec) -> bool
    ensures { result ≡ adds_up op.now }
{
    match op {
        OpSpec::Keep { .. } => false,
        OpSpec::Last { rows, .. } => *rows > 1,
        _ => true,
    }
}

// Whether a row may count in several of the rows that answer.
pub(crate) fn counts_again(op: &OpSpec) -> bool
    ensures { result ≡ counts_again op.now }
{
    match op {
        OpSpec::Keep { .. } | OpSpec::Window { .. } => false,
        OpSpec::Last { rows, .. } => *rows > 1,
        _ => true,
    }
}

// Whether rows of one key agree in a column.
pub(crate) fn holds_column(key: By, column: Column) -> bool
    ensures { result ≡ holds_column key column }
{
    match (key, column) {
        (By::Account | By::Both, Column::Account) => true,
        (By::Symbol | By::Both, Column::Symbol) => true,
        _ => false,
    }
}

// The same, where there is a key.
fn key_holds(key: Option<By>, column: Column) -> bool
    ensures { result ≡ key_holds key column }
{
    match key {
        None => false,
        Some(by) => holds_column(by, column),
    }
}

// Whether rows of one key come to several partitions of a stage, each of which sums for itself.
pub(crate) fn splits_keys(stage: &Stage) -> bool
    ensures { result ≡ splits_keys stage.now }
{
    adds_up(&stage.op) && stage.parts > 1 && !key_holds(key_in(&stage.op), stage.by)
}
