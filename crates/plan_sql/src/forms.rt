// The form of each operator.
ghost use Rattle.std.specs.Prelude.{◌≡◌, ◌-◌, ◌++◌, OnOk, string_bytes};
ghost use Rattle.plan_sql.specs.Forms.{closed_sql, crossed_sql, crossing_sql, join_sql, keep_sql, last_sql, leveled_sql, op_sql, own_sums_sql, pairs_sql, runs_sql, sides_sql, sums_sql, total_sql, window_sql};

use crate::numbers::{push_count, push_number};
use op_spec::{Compare, OpSpec};
use plan_reader::push_test;
use tuple_edge::{Column, OutOfMemory};

// Appends the form of a filter.
#[tactic(auto, unfolding(crate::specs::Forms::keep_sql))]
fn push_keep(
    text: &mut String,
    column: Column,
    compare: Compare,
    limit: i64,
) -> Result<(), OutOfMemory>
    ensures { OnOk result (string_bytes text.new ≡ string_bytes text.old ++ keep_sql column compare limit) }
{
    text.push_str("  )\n")?;
    text.push_str(
        "  SELECT stamp, part AS source, n AS place, time, account, symbol, qty, value\n",
    )?;
    text.push_str("  FROM routed\n")?;
    text.push_str("  WHERE ")?;
    push_test(text, column, compare, limit)?;
    text.push_str("\n")?;
    Ok(())
}

// Appends the sums of a row's key up to it; how far back is said behind.
#[tactic(auto, unfolding(crate::specs::Forms::sums_sql))]
fn push_sums(text: &mut String) -> Result<(), OutOfMemory>
    ensures { OnOk result (string_bytes text.new ≡ string_bytes text.old ++ sums_sql) }
{
    text.push_str("  )\n")?;
    text.push_str("  SELECT stamp, part AS source, n AS place, time, account, symbol,\n")?;
    text.push_str(
        "         CAST(SUM(qty) OVER k AS BIGINT) AS qty, CAST(SUM(value) OVER k AS BIGINT) AS value\n",
    )?;
    text.push_str("  FROM routed\n")?;
    text.push_str("  WINDOW k AS (PARTITION BY part, account, symbol ORDER BY n")?;
    Ok(())
}

// Appends the form of the sums so far.
#[tactic(auto, unfolding(crate::specs::Forms::total_sql))]
fn push_total(text: &mut String) -> Result<(), OutOfMemory>
    ensures { OnOk result (string_bytes text.new ≡ string_bytes text.old ++ total_sql) }
{
    push_sums(text)?;
    text.push_str(")\n")?;
    Ok(())
}

// How many rows are before the last one of so many.
fn rows_before(rows: u32) -> u32
    ensures { result ≡ rows - 1 }
{
    rows.saturating_sub(1)
}

// Appends the form of the sums of the last rows.
#[tactic(auto, unfolding(crate::specs::Forms::last_sql))]
fn push_last(text: &mut String, rows: u32) -> Result<(), OutOfMemory>
    ensures { OnOk result (string_bytes text.new ≡ string_bytes text.old ++ last_sql rows) }
{
    push_sums(text)?;
    text.push_str(" ROWS BETWEEN ")?;
    push_count(text, rows_before(rows))?;
    text.push_str(" PRECEDING AND CURRENT ROW)\n")?;
    Ok(())
}

// Appends the window of a row: the greatest that its key's rows came to so far.
#[tactic(auto, unfolding(crate::specs::Forms::leveled_sql))]
fn push_leveled(text: &mut String, width: i64) -> Result<(), OutOfMemory>
    ensures { OnOk result (string_bytes text.new ≡ string_bytes text.old ++ leveled_sql width) }
{
    text.push_str("  ), leveled AS (\n")?;
    text.push_str("    SELECT part, account, symbol, stamp, n, qty, value,\n")?;
    text.push_str("           MAX(time / ")?;
    push_number(text, width)?;
    text.push_str(") OVER (PARTITION BY part, account, symbol ORDER BY n) AS level\n")?;
    text.push_str("    FROM routed\n")?;
    Ok(())
}

// Appends a key's windows, each with its first row and its sums.
#[tactic(auto, unfolding(crate::specs::Forms::runs_sql))]
fn push_runs(text: &mut String) -> Result<(), OutOfMemory>
    ensures { OnOk result (string_bytes text.new ≡ string_bytes text.old ++ runs_sql) }
{
    text.push_str("  ), runs AS (\n")?;
    text.push_str("    SELECT part, account, symbol, level, MIN(stamp) AS stamp, MIN(n) AS n,\n")?;
    text.push_str(
        "           CAST(SUM(qty) AS BIGINT) AS qty, CAST(SUM(value) AS BIGINT) AS value\n",
    )?;
    text.push_str("    FROM leveled\n")?;
    text.push_str("    GROUP BY part, account, symbol, level\n")?;
    Ok(())
}

// Appends where a window is answered: at the first row of its key's next window, and the last one at the end.
#[tactic(auto, unfolding(crate::specs::Forms::closed_sql))]
fn push_closed(text: &mut String, width: i64) -> Result<(), OutOfMemory>
    ensures { OnOk result (string_bytes text.new ≡ string_bytes text.old ++ closed_sql width) }
{
    text.push_str("  )\n")?;
    text.push_str(
        "  SELECT COALESCE(LEAD(stamp) OVER k, (SELECT COUNT(*) + 1 FROM input)) AS stamp, part AS source,\n",
    )?;
    text.push_str(
        "         COALESCE(LEAD(n) OVER k, MAX(n) OVER () + ROW_NUMBER() OVER (ORDER BY account, symbol)) AS place,\n",
    )?;
    text.push_str("         level * ")?;
    push_number(text, width)?;
    text.push_str(" AS time, account, symbol, qty, value\n")?;
    text.push_str("  FROM runs\n")?;
    text.push_str("  WINDOW k AS (PARTITION BY part, account, symbol ORDER BY level)\n")?;
    Ok(())
}

// Appends the form of the sums of windows.
#[tactic(auto, unfolding(crate::specs::Forms::window_sql))]
fn push_window(text: &mut String, width: i64) -> Result<(), OutOfMemory>
    ensures { OnOk result (string_bytes text.new ≡ string_bytes text.old ++ window_sql width) }
{
    push_leveled(text, width)?;
    push_runs(text)?;
    push_closed(text, width)
}

// Appends the sums so far, beside a row's own value.
#[tactic(auto, unfolding(crate::specs::Forms::own_sums_sql))]
fn push_own_sums(text: &mut String) -> Result<(), OutOfMemory>
    ensures { OnOk result (string_bytes text.new ≡ string_bytes text.old ++ own_sums_sql) }
{
    text.push_str("  ), sums AS (\n")?;
    text.push_str(
        "    SELECT stamp, part AS source, n AS place, time, account, symbol, value AS own,\n",
    )?;
    text.push_str(
        "           CAST(SUM(qty) OVER k AS BIGINT) AS qty, CAST(SUM(value) OVER k AS BIGINT) AS value\n",
    )?;
    text.push_str("    FROM routed\n")?;
    text.push_str("    WINDOW k AS (PARTITION BY part, account, symbol ORDER BY n)\n")?;
    Ok(())
}

// Appends those sums by which the size of the value's goes above the limit, or back.
#[tactic(auto, unfolding(crate::specs::Forms::crossed_sql))]
fn push_crossed(text: &mut String, limit: i64) -> Result<(), OutOfMemory>
    ensures { OnOk result (string_bytes text.new ≡ string_bytes text.old ++ crossed_sql limit) }
{
    text.push_str("  )\n")?;
    text.push_str("  SELECT stamp, source, place, time, account, symbol, qty, value\n")?;
    text.push_str("  FROM sums\n")?;
    text.push_str("  WHERE (ABS(value) > ")?;
    push_number(text, limit)?;
    text.push_str(") <> (ABS(value - own) > ")?;
    push_number(text, limit)?;
    text.push_str(")\n")?;
    Ok(())
}

// Appends the form of the sums where they cross a limit.
#[tactic(auto, unfolding(crate::specs::Forms::crossing_sql))]
fn push_crossing(text: &mut String, limit: i64) -> Result<(), OutOfMemory>
    ensures { OnOk result (string_bytes text.new ≡ string_bytes text.old ++ crossing_sql limit) }
{
    push_own_sums(text)?;
    push_crossed(text, limit)
}

// Appends a row's window, its number among those of its key and side, and how many of the other side came before it.
#[tactic(auto, unfolding(crate::specs::Forms::sides_sql))]
fn push_sides(text: &mut String, width: i64) -> Result<(), OutOfMemory>
    ensures { OnOk result (string_bytes text.new ≡ string_bytes text.old ++ sides_sql width) }
{
    text.push_str("  ), sides AS (\n")?;
    text.push_str("    SELECT part, account, symbol, stamp, n, time, qty, value, side, time / ")?;
    push_number(text, width)?;
    text.push_str(" AS span,\n")?;
    text.push_str(
        "           ROW_NUMBER() OVER s AS own, ROW_NUMBER() OVER k - ROW_NUMBER() OVER s AS other\n",
    )?;
    text.push_str("    FROM routed\n")?;
    text.push_str(
        "    WINDOW k AS (PARTITION BY part, account, symbol ORDER BY n), s AS (PARTITION BY part, account, symbol, side ORDER BY n)\n",
    )?;
    Ok(())
}

// Appends a row b with those rows a of its key and window that are among the last of the other side before it.
#[tactic(auto, unfolding(crate::specs::Forms::pairs_sql))]
fn push_pairs(text: &mut String, rows: u32) -> Result<(), OutOfMemory>
    ensures { OnOk result (string_bytes text.new ≡ string_bytes text.old ++ pairs_sql rows) }
{
    text.push_str("  )\n")?;
    text.push_str(
        "  SELECT b.stamp, b.part AS source, ROW_NUMBER() OVER (ORDER BY b.n, a.n) AS place, b.time, b.account, b.symbol,\n",
    )?;
    text.push_str("         a.qty + b.qty AS qty, a.value + b.value AS value\n")?;
    text.push_str("  FROM sides AS b JOIN sides AS a\n")?;
    text.push_str(
        "    ON a.part = b.part AND a.account = b.account AND a.symbol = b.symbol AND a.span = b.span AND a.side <> b.side\n",
    )?;
    text.push_str("   AND a.own > b.other - ")?;
    push_count(text, rows)?;
    text.push_str(" AND a.own <= b.other\n")?;
    Ok(())
}

// Appends the form of the sums of pairs of rows.
#[tactic(auto, unfolding(crate::specs::Forms::join_sql))]
fn push_join(text: &mut String, width: i64, rows: u32) -> Result<(), OutOfMemory>
    ensures { OnOk result (string_bytes text.new ≡ string_bytes text.old ++ join_sql width rows) }
{
    push_sides(text, width)?;
    push_pairs(text, rows)
}

// Appends the form of an operator.
pub(crate) fn push_op(text: &mut String, op: &OpSpec) -> Result<(), OutOfMemory>
    ensures { OnOk result (string_bytes text.new ≡ string_bytes text.old ++ op_sql op.now) }
{
    match op {
        OpSpec::Keep {
            column,
            compare,
            limit,
        } => push_keep(text, *column, *compare, *limit),
        OpSpec::Total { .. } => push_total(text),
        OpSpec::Last { rows, .. } => push_last(text, *rows),
        OpSpec::Window { width, .. } => push_window(text, *width),
        OpSpec::Crossing { limit, .. } => push_crossing(text, *limit),
        OpSpec::Join { width, rows, .. } => push_join(text, *width, *rows),
    }
}
