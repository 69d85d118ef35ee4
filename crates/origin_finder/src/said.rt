// What made operators give answers.
ghost use Rattle.origin_finder.specs.Said.{key_in, speaker_of, speakers_of};
ghost use Rattle.std.specs.Prelude.{◌≡◌, ◌++◌, OnOk, drop};

use row_cause::Placed;
use tuple_edge::{Key, OutOfMemory, Row};

/// What made an operator give an answer: the row of a place, and which of its answers to that row it is; or the end of a partition,
/// and of which key the answer tells.
#[derive(Clone, Copy, Debug, PartialEq, Eq)]
pub enum Speaker {
    Row { place: usize, nth: usize },
    End { part: u32, key: Key },
}

// The key of which an answer tells.
fn key_in(answer: &Row) -> Key
    ensures { result ≡ key_in answer.now }
{
    Key {
        account: answer.account,
        symbol: answer.symbol,
    }
}

// What is noted of the nth answer.
fn speaker_of(part: u32, spoke: &Option<Placed>, nth: usize, answer: &Row) -> Speaker
    ensures { result ≡ speaker_of part spoke.now nth answer.now }
{
    match spoke {
        None => Speaker::End {
            part,
            key: key_in(answer),
        },
        Some(r) => Speaker::Row {
            place: r.place,
            nth,
        },
    }
}

/// Notes what made an operator of a partition give the answers from `had` on.
pub(crate) fn note(
    said: &mut Vec<Speaker>,
    part: u32,
    spoke: &Option<Placed>,
    out: &[Row],
    had: usize,
) -> Result<(), OutOfMemory>
    ensures { OnOk result (said.new.items ≡ said.old.items ++ speakers_of part spoke.now 0 (drop had out.now)) }
{
    for place in had..out.len() {
        said.push(speaker_of(part, spoke, place - had, &out[place]))?;
    }
    Ok(())
}
