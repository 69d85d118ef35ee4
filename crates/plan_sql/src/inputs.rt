// The inputs of a query: how rows go, the numbers of symbols, and the rows that come in.
ghost use Rattle.std.specs.Prelude.{◌≡◌, ◌++◌, OnOk, string_bytes};
ghost use Rattle.plan_sql.specs.Query.{input_sql, merged_sql, order_text, sources_sql, symbols_sql, trades_sql};

use tuple_edge::OutOfMemory;

// Appends how rows go from stage to stage.
#[tactic(auto, unfolding(crate::specs::Query::order_text))]
pub(crate) fn push_order(text: &mut String) -> Result<(), OutOfMemory>
    ensures { OnOk result (string_bytes text.new ≡ string_bytes text.old ++ order_text) }
{
    text.push_str(
        "--\n-- Each stage takes the rows of the one before by (stamp, source, place): the stamp of the input that a row goes back to, the\n",
    )?;
    text.push_str(
        "-- partition that it comes from, and its place there. In a stage, routed are these rows with their order n, the partition\n",
    )?;
    text.push_str("-- part that each goes to, and the account and symbol of its key.\n")?;
    Ok(())
}

// Appends the number of a symbol, by which rows are routed, compared and ordered.
#[tactic(auto, unfolding(crate::specs::Query::symbols_sql))]
pub(crate) fn push_symbols(text: &mut String) -> Result<(), OutOfMemory>
    ensures { OnOk result (string_bytes text.new ≡ string_bytes text.old ++ symbols_sql) }
{
    text.push_str("WITH\n")?;
    text.push_str(
        "-- A symbol's number: its place among the symbols by first appearance in the trades.\n",
    )?;
    text.push_str("symbols AS (\n")?;
    text.push_str(
        "  SELECT symbol AS name, ROW_NUMBER() OVER (ORDER BY MIN(n)) AS number FROM trades GROUP BY symbol\n",
    )?;
    text.push_str(")")?;
    Ok(())
}

// Appends the inputs where the trades are the one source.
#[tactic(auto, unfolding(crate::specs::Query::trades_sql))]
fn push_trades(text: &mut String) -> Result<(), OutOfMemory>
    ensures { OnOk result (string_bytes text.new ≡ string_bytes text.old ++ trades_sql) }
{
    text.push_str(",\n-- The inputs: the trades in their order.\n")?;
    text.push_str("input AS (\n")?;
    text.push_str(
        "  SELECT n AS stamp, 0 AS source, 0 AS place, time, account, number AS symbol, qty, value\n",
    )?;
    text.push_str("  FROM trades JOIN symbols ON symbols.name = trades.symbol\n")?;
    text.push_str(")")?;
    Ok(())
}

// Appends the rows of both sources, each with its source.
#[tactic(auto, unfolding(crate::specs::Query::sources_sql))]
fn push_sources(text: &mut String) -> Result<(), OutOfMemory>
    ensures { OnOk result (string_bytes text.new ≡ string_bytes text.old ++ sources_sql) }
{
    text.push_str("  WITH sources AS (\n")?;
    text.push_str("    SELECT 0 AS source, n, time, account, number AS symbol, qty, value\n")?;
    text.push_str("    FROM trades JOIN symbols ON symbols.name = trades.symbol\n")?;
    text.push_str("    UNION ALL SELECT 1, n, time, account, 0, 0, amount FROM movements\n")?;
    text.push_str("  )\n")?;
    Ok(())
}

// Appends the inputs where movements come in beside the trades.
#[tactic(auto, unfolding(crate::specs::Query::merged_sql))]
fn push_merged(text: &mut String) -> Result<(), OutOfMemory>
    ensures { OnOk result (string_bytes text.new ≡ string_bytes text.old ++ merged_sql) }
{
    text.push_str(
        ",\n-- The inputs: trades and movements by their times, of one time trades first.\n",
    )?;
    text.push_str("input AS (\n")?;
    push_sources(text)?;
    text.push_str(
        "  SELECT ROW_NUMBER() OVER (ORDER BY time, source, n) AS stamp, source, 0 AS place, time, account, symbol, qty, value FROM sources\n",
    )?;
    text.push_str(")")?;
    Ok(())
}

// Appends the inputs of a plan of this version.
#[tactic(auto, unfolding(crate::specs::Query::input_sql))]
pub(crate) fn push_input(text: &mut String, version: u32) -> Result<(), OutOfMemory>
    ensures { OnOk result (string_bytes text.new ≡ string_bytes text.old ++ input_sql version) }
{
    if version == 1 {
        push_trades(text)
    } else {
        push_merged(text)
    }
}
