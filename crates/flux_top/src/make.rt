// The command `make`: trades that are made from a number. It reads no file.
ghost use Rattle.std.specs.Prelude.{◌≡◌, ◌≤◌, IfErr, IfOk};
ghost use Rattle.trade_maker.specs.MadeText.{made_text};
ghost use Rattle.command_line.specs.Forms.{max_count, max_start};

use command_course::Stop;
use std::alloc::Global;
use trade_maker::make_trades;

/// The text that `make` writes.
pub(crate) fn made_text(alloc: Global, start: u32, count: u32) -> Result<Vec<u8>, Stop>
    requires { (start ≤ max_start) × (count ≤ max_count) }
    ensures text { IfOk result (λ bytes. bytes.items ≡ made_text start count) }
    ensures want { IfErr result (λ stop. stop ≡ Stop.OutOfMemory) }
{
    let text = make_trades(alloc, start, count)?;
    Ok(text)
}
