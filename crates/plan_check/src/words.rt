// What is said of a stage and of a key, and how a script's line says an order.
ghost use Rattle.std.specs.Prelude.{◌≡◌, ◌++◌, OnOk, string_bytes};
ghost use Rattle.plan_check.specs.Words.{back_text, key_text, kill_text, order_text, stage_text};

use crate::warning::Numbered;
use op_spec::By;
use pair_machine::Order;
use plan_reader::push_op;
use run_journal::push_node;
use tuple_edge::OutOfMemory;

// What rows of one key have in common.
pub(crate) fn key_text(by: By) -> &'static str
    ensures { result.now ≡ key_text by }
{
    match by {
        By::Account => "account",
        By::Symbol => "symbol",
        By::Both => "account and symbol",
    }
}

/// Appends a stage's number and its operator.
pub fn push_stage(text: &mut String, stage: &Numbered) -> Result<(), OutOfMemory>
    ensures { OnOk result (string_bytes text.new ≡ string_bytes text.old ++ stage_text stage.now) }
{
    let number = stage.number;
    write!(text, "stage {number}, ")?;
    push_op(text, &stage.stage.op)
}

// The word of an order's kind.
fn kill_text(kill: bool) -> &'static str
    ensures { result.now ≡ kill_text kill }
{
    if kill { "kill" } else { "stop" }
}

// Appends when a replica is asked back.
fn push_back(text: &mut String, back: Option<u64>) -> Result<(), OutOfMemory>
    ensures { OnOk result (string_bytes text.new ≡ string_bytes text.old ++ back_text back) }
{
    match back {
        None => text.push_str("never")?,
        Some(back) => write!(text, "{back}")?,
    }
    Ok(())
}

/// Appends the words of an order.
pub fn push_order(text: &mut String, order: &Order) -> Result<(), OutOfMemory>
    ensures { OnOk result (string_bytes text.new ≡ string_bytes text.old ++ order_text order.now) }
{
    let kind = kill_text(order.kill);
    let at = order.at;
    write!(text, "{kind} ")?;
    push_node(text, order.node)?;
    write!(text, " at {at} back ")?;
    push_back(text, order.back)
}
