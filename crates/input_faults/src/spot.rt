// Where a line is refused: the first word that may not stand where it stands.
ghost use Rattle.std.specs.Prelude.{◌≡◌, ◌≤◌, length, option_map, slice_get};
ghost use Rattle.text_words.specs.Lines.{words_of};
ghost use Rattle.input_faults.specs.Spots.{spot_from, start_of, word_end};

use crate::place::Place;
use text_words::{Words, blanks_len, word_len};

// Where a line is refused.
#[derive(Clone, Copy)]
pub(crate) struct Spot {
    // How many words of the line stand before.
    pub(crate) passed: u64,
    // Which place of the grammar that is.
    pub(crate) place: Place,
}

// The spot of words of which the first one stands at a place.
#[tactic(auto, using(crate::proofs::SpotFacts::words_few, crate::proofs::SpotFacts::spot_goes, crate::proofs::SpotFacts::spot_stop, crate::proofs::SpotFacts::spot_end))]
pub(crate) fn spot_of(line: &[u8], first: Place) -> Spot
    ensures { result ≡ spot_from 0 first (words_of line.now) }
{
    let mut words = Words::new(line);
    let mut place = first;
    let mut passed = 0u64;
    while let Some(word) = words.next_word() {
        if !place.takes(word) {
            break;
        }
        place = place.behind(word);
        passed += 1;
    }
    Spot { passed, place }
}

// How many bytes come before the end of the first word.
fn word_end(line: &[u8]) -> usize
    ensures value { result ≡ word_end line.now }
    ensures within { result ≤ length line.now }
{
    let blanks = blanks_len(line);
    let (_, text) = line.split_at(blanks);
    blanks + word_len(text)
}

// How many bytes of a line stand before the word that has so many words before it.
#[tactic(auto, using(crate::proofs::SpotFacts::start_more, crate::proofs::SpotFacts::start_none))]
pub(crate) fn start_of(line: &[u8], before: u64) -> usize
    ensures value { result ≡ start_of before line.now }
    ensures within { result ≤ length line.now }
{
    let mut rest = line;
    for _turn in 0..before {
        let (_, more) = rest.split_at(word_end(rest));
        rest = more;
    }
    line.len() - rest.len() + blanks_len(rest)
}

// The word of a line that has so many words before it.
#[tactic(auto, using(crate::proofs::SpotFacts::drop_next, crate::proofs::SpotFacts::drop_next_none, crate::proofs::SpotFacts::get_here, crate::proofs::SpotFacts::get_none))]
pub(crate) fn word_of(line: &[u8], before: u64) -> Option<&[u8]>
    ensures { option_map (λ word. word.now) result ≡ slice_get (words_of line.now) before }
{
    let mut words = Words::new(line);
    for _turn in 0..before {
        let _ = words.next_word();
    }
    words.next_word()
}
