// The command `sift`.
ghost use Rattle.command_course.specs.Steps.{GivesBy, OnlyReads, StopsBy};
ghost use Rattle.command_course.specs.Answers.{answer_of};
ghost use Rattle.sift_command.specs.Courses.{parts_from, parts_way, sift_answer, sift_way};
ghost use Rattle.std.specs.Prelude.{◌≡◌, IfErr, IfOk, string_bytes};
ghost use Rattle.trade_sift.specs.Laws.{IsAccepted};
ghost use Rattle.trade_text.specs.Limits.{max_input_bytes};

use command_course::{Answer, Ending, Input, Saved, Stop, input_at, refused};
use flux_outside::Files;
use std::alloc::Global;
use trade_sift::{Sifted, sift_trades};
use trade_text::{MAX_INPUT_BYTES, TradeError};
use tuple_edge::OutOfMemory;

// A file of trades that is parted.
#[derive(Drop)]
struct PartedFile;

impl Input for PartedFile {
    type Value = Sifted;

    ghost most = { λ _. max_input_bytes };

    ghost reading = { λ _. parts_from };

    ghost keeps = { λ _ parts. IsAccepted parts.kept };

    fn most(&self) -> u64 {
        MAX_INPUT_BYTES
    }

    #[tactic(auto, using(crate::proofs::Refusals::parts_refused))]
    fn value(&self, alloc: Global, name: &str, bytes: &[u8]) -> Result<Sifted, Stop> {
        match sift_trades(alloc, bytes) {
            Ok(sifted) => Ok(sifted),
            Err(TradeError::OutOfMemory) => Err(Stop::OutOfMemory),
            Err(error) => Err(refused(alloc, name, error)),
        }
    }

    #[tactic(auto, using(crate::proofs::Refusals::long_parts))]
    fn too_long(&self, alloc: Global, name: &str, seen: u64) -> Stop {
        refused(alloc, name, TradeError::TooLong { bytes: seen })
    }
}

// The parts of a file of trades.
fn sift_parts<F: Files>(alloc: Global, files: &mut F, trades: &str) -> Result<Sifted, Stop>
    ensures gives { IfOk result (λ parts. GivesBy (F.told files.old) (F.told files.new) (parts_way trades.now) parts) }
    ensures accepted { IfOk result (λ parts. IsAccepted parts.kept) }
    ensures stops { IfErr result (λ stop. StopsBy (F.told files.old) (F.told files.new) (parts_way trades.now) stop) }
    ensures reads { OnlyReads (F.told files.old) (F.told files.new) result }
{
    input_at(alloc, files, trades, &PartedFile)
}

// A name of its own.
fn name_of(alloc: Global, name: &str) -> Result<String, OutOfMemory>
    ensures { IfOk result (λ own. string_bytes own ≡ name.now) }
{
    let own = format!(in alloc; "{name}")?;
    Ok(own)
}

// The answer with both parts.
fn answered(alloc: Global, rejects: &str, parts: Sifted) -> Result<Answer, Stop>
    ensures answer { IfOk result (λ answer. answer_of answer ≡ sift_answer rejects.now parts) }
    ensures want { IfErr result (λ stop. stop ≡ Stop.OutOfMemory) }
{
    let name = name_of(alloc, rejects)?;
    let (text, bytes) = parts.into_texts();
    Ok(Answer {
        text,
        ending: Ending::Done,
        saved: Some(Saved { name, bytes }),
    })
}

/// What `sift` writes: the header and the records of a file of trades that `flux` accepts. The records that it refuses, each behind
/// its line and why, are saved in a file of the name `rejects` before.
#[tactic(auto, using(crate::proofs::Ways::reads_passed, crate::proofs::Ways::reads_then))]
pub fn sift_report<F: Files>(
    alloc: Global,
    files: &mut F,
    trades: &str,
    rejects: &str,
) -> Result<Answer, Stop>
    ensures gives { IfOk result (λ answer. GivesBy (F.told files.old) (F.told files.new) (sift_way trades.now rejects.now) (answer_of answer)) }
    ensures stops { IfErr result (λ stop. StopsBy (F.told files.old) (F.told files.new) (sift_way trades.now rejects.now) stop) }
    ensures reads { OnlyReads (F.told files.old) (F.told files.new) result }
{
    let parts = sift_parts(alloc, files, trades)?;
    answered(alloc, rejects, parts)
}
