// The rows that enter a stage.
ghost use Rattle.std.specs.Prelude.{◌≡◌, ◌++◌, OnOk, string_bytes};
ghost use Rattle.plan_sql.specs.Routed.{key_sql, part_sql, routed_sql, row_sql, rows_after, left_sql, ordered_sql, keyed_sql, side_sql};

use op_spec::{By, Compare, OpSpec};
use plan_reader::{Stage, column_name, push_test};
use tuple_edge::{Column, OutOfMemory};

// Appends the name of the rows after so many stages.
#[tactic(auto, unfolding(crate::specs::Routed::rows_after))]
pub(crate) fn push_rows_after(text: &mut String, stages: usize) -> Result<(), OutOfMemory>
    ensures { OnOk result (string_bytes text.new ≡ string_bytes text.old ++ rows_after stages) }
{
    if stages == 0 {
        text.push_str("input")?;
    } else {
        write!(text, "stage{stages}")?;
    }
    Ok(())
}

// Appends the partition to which a row goes.
#[tactic(auto, unfolding(crate::specs::Routed::part_sql))]
fn push_part(text: &mut String, column: Column, parts: u32) -> Result<(), OutOfMemory>
    ensures { OnOk result (string_bytes text.new ≡ string_bytes text.old ++ part_sql column parts) }
{
    if parts == 1 {
        text.push_str("0")?;
    } else {
        let column = column_name(column);
        write!(text, "(({column} % {parts}) + {parts}) % {parts}")?;
    }
    Ok(())
}

// The account and the symbol of a row's key.
fn key_sql(by: By) -> &'static str
    ensures { result.now ≡ key_sql by }
{
    match by {
        By::Account => "account, 0 AS symbol",
        By::Symbol => "0 AS account, symbol",
        By::Both => "account, symbol",
    }
}

// The account and the symbol that a stage's rows have.
fn row_sql(op: &OpSpec) -> &'static str
    ensures { result.now ≡ row_sql op.now }
{
    match op {
        OpSpec::Keep { .. } => "account, symbol",
        OpSpec::Total { by }
        | OpSpec::Last { by, .. }
        | OpSpec::Window { by, .. }
        | OpSpec::Crossing { by, .. }
        | OpSpec::Join { by, .. } => key_sql(*by),
    }
}

// Appends the column of a join's rows that says whether they are left.
fn push_side(text: &mut String, op: &OpSpec) -> Result<(), OutOfMemory>
    ensures { OnOk result (string_bytes text.new ≡ string_bytes text.old ++ side_sql op.now) }
{
    match op {
        OpSpec::Join {
            column,
            compare,
            limit,
            ..
        } => push_left(text, *column, *compare, *limit),
        _ => Ok(()),
    }
}

// Appends the column that says whether a row is left.
#[tactic(auto, unfolding(crate::specs::Routed::left_sql))]
fn push_left(
    text: &mut String,
    column: Column,
    compare: Compare,
    limit: i64,
) -> Result<(), OutOfMemory>
    ensures { OnOk result (string_bytes text.new ≡ string_bytes text.old ++ left_sql column compare limit) }
{
    text.push_str(", (")?;
    push_test(text, column, compare, limit)?;
    text.push_str(") AS side")?;
    Ok(())
}

// Appends the order of the rows that enter a stage, and their partitions.
#[tactic(auto, unfolding(crate::specs::Routed::ordered_sql))]
fn push_ordered(text: &mut String, stage: &Stage) -> Result<(), OutOfMemory>
    ensures { OnOk result (string_bytes text.new ≡ string_bytes text.old ++ ordered_sql stage.now) }
{
    text.push_str("  WITH routed AS (\n")?;
    text.push_str("    SELECT ROW_NUMBER() OVER (ORDER BY stamp, source, place) AS n, ")?;
    push_part(text, stage.by, stage.parts)?;
    text.push_str(" AS part,\n")?;
    Ok(())
}

// Appends the other columns of the rows that enter a stage.
#[tactic(auto, unfolding(crate::specs::Routed::keyed_sql))]
fn push_keyed(text: &mut String, stage: &Stage) -> Result<(), OutOfMemory>
    ensures { OnOk result (string_bytes text.new ≡ string_bytes text.old ++ keyed_sql stage.now) }
{
    text.push_str("           stamp, time, ")?;
    text.push_str(row_sql(&stage.op))?;
    text.push_str(", qty, value")?;
    push_side(text, &stage.op)?;
    text.push_str("\n")?;
    Ok(())
}

// Appends the rows that enter a stage after so many others.
#[tactic(auto, unfolding(crate::specs::Routed::routed_sql))]
pub(crate) fn push_routed(
    text: &mut String,
    before: usize,
    stage: &Stage,
) -> Result<(), OutOfMemory>
    ensures { OnOk result (string_bytes text.new ≡ string_bytes text.old ++ routed_sql before stage.now) }
{
    push_ordered(text, stage)?;
    push_keyed(text, stage)?;
    text.push_str("    FROM ")?;
    push_rows_after(text, before)?;
    text.push_str("\n")?;
    Ok(())
}
