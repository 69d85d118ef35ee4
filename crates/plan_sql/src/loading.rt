// The comment at the head of a query: where it is right, and how its tables are made and loaded.
ghost use Rattle.std.specs.Prelude.{◌≡◌, ◌++◌, OnOk, string_bytes};
ghost use Rattle.plan_sql.specs.Loading.{intro_text, loading, movements_filled, movements_loading, movements_read, movements_table, time_read, trades_filled, trades_loading, trades_read, trades_table};

use tuple_edge::OutOfMemory;

// Appends what the query gives, and where it is right.
#[tactic(auto, unfolding(crate::specs::Loading::intro_text))]
pub(crate) fn push_intro(text: &mut String) -> Result<(), OutOfMemory>
    ensures { OnOk result (string_bytes text.new ≡ string_bytes text.old ++ intro_text) }
{
    text.push_str(
        "-- The rows that `flux eval` writes for this plan, in their order: one query for PostgreSQL, SQLite, and engines that take\n",
    )?;
    text.push_str(
        "-- PostgreSQL's SQL. It is right while no sum goes beyond 9,000,000,000,000,000,000 either way: there Flux cuts sums, and\n",
    )?;
    text.push_str("-- this query doesn't. Marks and hold change no row.\n")?;
    Ok(())
}

// Appends the table of trades.
#[tactic(auto, unfolding(crate::specs::Loading::trades_table))]
fn push_trades_table(text: &mut String) -> Result<(), OutOfMemory>
    ensures { OnOk result (string_bytes text.new ≡ string_bytes text.old ++ trades_table) }
{
    text.push_str(
        "--\n-- The trades: n is the place in the file from 1, time is in seconds, value is qty times the price in cents, and of a sale\n",
    )?;
    text.push_str("-- qty and value are below zero.\n")?;
    text.push_str(
        "--   CREATE TABLE trades (n BIGINT, time BIGINT, account BIGINT, symbol TEXT, qty BIGINT, value BIGINT);\n",
    )?;
    Ok(())
}

// Appends a file of trades is read as it stands.
#[tactic(auto, unfolding(crate::specs::Loading::trades_read))]
fn push_trades_read(text: &mut String) -> Result<(), OutOfMemory>
    ensures { OnOk result (string_bytes text.new ≡ string_bytes text.old ++ trades_read) }
{
    text.push_str(
        "-- A file of them with the columns time,account,symbol,side,qty,price is loaded by sqlite3\n",
    )?;
    text.push_str("--   .import --csv trades.csv trades_file\n")?;
    text.push_str("-- or by psql\n")?;
    text.push_str(
        "--   CREATE TABLE trades_file (rowid BIGINT GENERATED ALWAYS AS IDENTITY, time TEXT, account BIGINT, symbol TEXT,\n--     side TEXT, qty BIGINT, price NUMERIC);\n",
    )?;
    text.push_str(
        "--   \\copy trades_file (time, account, symbol, side, qty, price) FROM 'trades.csv' WITH (FORMAT csv, HEADER)\n",
    )?;
    Ok(())
}

// Appends a time of a file, a number of seconds or a time of day, as seconds.
#[tactic(auto, unfolding(crate::specs::Loading::time_read))]
fn push_time_read(text: &mut String) -> Result<(), OutOfMemory>
    ensures { OnOk result (string_bytes text.new ≡ string_bytes text.old ++ time_read) }
{
    text.push_str(
        "--            CASE WHEN time LIKE '%:%' THEN CAST(SUBSTR(time, 1, LENGTH(time) - 6) AS BIGINT) * 3600\n",
    )?;
    text.push_str(
        "--              + CAST(SUBSTR(time, LENGTH(time) - 4, 2) AS BIGINT) * 60 + CAST(SUBSTR(time, LENGTH(time) - 1) AS BIGINT)\n",
    )?;
    text.push_str("--              ELSE CAST(time AS BIGINT) END AS time\n")?;
    Ok(())
}

// Appends the fields of a file of trades become a table's.
#[tactic(auto, unfolding(crate::specs::Loading::trades_filled))]
fn push_trades_filled(text: &mut String) -> Result<(), OutOfMemory>
    ensures { OnOk result (string_bytes text.new ≡ string_bytes text.old ++ trades_filled) }
{
    text.push_str("-- and then by both\n")?;
    text.push_str(
        "--   INSERT INTO trades\n--   SELECT n, time, account, symbol, sign * qty, sign * qty * CAST(ROUND(price * 100) AS BIGINT)\n",
    )?;
    text.push_str(
        "--   FROM (SELECT rowid AS n, account, symbol, qty, price, CASE WHEN UPPER(side) LIKE 'B%' THEN 1 ELSE -1 END AS sign,\n",
    )?;
    push_time_read(text)?;
    text.push_str("--         FROM trades_file) AS fields;\n")?;
    Ok(())
}

// Appends the table of movements.
#[tactic(auto, unfolding(crate::specs::Loading::movements_table))]
fn push_movements_table(text: &mut String) -> Result<(), OutOfMemory>
    ensures { OnOk result (string_bytes text.new ≡ string_bytes text.old ++ movements_table) }
{
    text.push_str(
        "--\n-- The cash movements: n is the place in their file from 1, and amount is in cents. Without such a file the table is empty.\n",
    )?;
    text.push_str(
        "--   CREATE TABLE movements (n BIGINT, time BIGINT, account BIGINT, amount BIGINT);\n",
    )?;
    Ok(())
}

// Appends a file of movements is read as it stands.
#[tactic(auto, unfolding(crate::specs::Loading::movements_read))]
fn push_movements_read(text: &mut String) -> Result<(), OutOfMemory>
    ensures { OnOk result (string_bytes text.new ≡ string_bytes text.old ++ movements_read) }
{
    text.push_str("-- A file of them with the columns time,account,amount is loaded by sqlite3\n")?;
    text.push_str("--   .import --csv cash.csv movements_file\n")?;
    text.push_str("-- or by psql\n")?;
    text.push_str(
        "--   CREATE TABLE movements_file (rowid BIGINT GENERATED ALWAYS AS IDENTITY, time TEXT, account BIGINT, amount NUMERIC);\n",
    )?;
    text.push_str(
        "--   \\copy movements_file (time, account, amount) FROM 'cash.csv' WITH (FORMAT csv, HEADER)\n",
    )?;
    Ok(())
}

// Appends the fields of a file of movements become a table's.
#[tactic(auto, unfolding(crate::specs::Loading::movements_filled))]
fn push_movements_filled(text: &mut String) -> Result<(), OutOfMemory>
    ensures { OnOk result (string_bytes text.new ≡ string_bytes text.old ++ movements_filled) }
{
    text.push_str("-- and then by both\n")?;
    text.push_str(
        "--   INSERT INTO movements\n--   SELECT n, time, account, CAST(ROUND(amount * 100) AS BIGINT)\n",
    )?;
    text.push_str("--   FROM (SELECT rowid AS n, account, amount,\n")?;
    push_time_read(text)?;
    text.push_str("--         FROM movements_file) AS fields;\n")?;
    Ok(())
}

// Appends how the table of trades is made and loaded.
#[tactic(auto, unfolding(crate::specs::Loading::trades_loading))]
fn push_trades_loading(text: &mut String) -> Result<(), OutOfMemory>
    ensures { OnOk result (string_bytes text.new ≡ string_bytes text.old ++ trades_loading) }
{
    push_trades_table(text)?;
    push_trades_read(text)?;
    push_trades_filled(text)
}

// Appends how the table of movements is made and loaded.
#[tactic(auto, unfolding(crate::specs::Loading::movements_loading))]
fn push_movements_loading(text: &mut String) -> Result<(), OutOfMemory>
    ensures { OnOk result (string_bytes text.new ≡ string_bytes text.old ++ movements_loading) }
{
    push_movements_table(text)?;
    push_movements_read(text)?;
    push_movements_filled(text)
}

// Appends how the tables of a plan of this version are made and loaded.
#[tactic(auto, unfolding(crate::specs::Loading::loading))]
pub(crate) fn push_loading(text: &mut String, version: u32) -> Result<(), OutOfMemory>
    ensures { OnOk result (string_bytes text.new ≡ string_bytes text.old ++ loading version) }
{
    push_trades_loading(text)?;
    if version != 1 {
        push_movements_loading(text)?;
    }
    Ok(())
}
