// What holds of the texts of all rows, as the contract of a function that does nothing.
ghost use Rattle.std.specs.Prelude.{ℕ, List};
ghost use Rattle.trade_text.specs.Laws.{FirstRowsBeginTheText};
ghost use Rattle.trade_text.specs.StreamLaws.{TellsAsFile};

/// What is written of the first rows, with no last line, is a prefix of what is written of all rows.
#[tactic(auto, using(crate::proofs::FirstRows::first_rows_begin))]
pub fn first_rows_begin_the_text()
    ensures { FirstRowsBeginTheText }
{}

/// What comes over a reader without a fault is what the file of the same bytes says, where that isn't too long: the same rows, and
/// the same symbols.
pub fn tells_as_file()
    ensures { (bytes : List ℕ) → TellsAsFile bytes }
{}
