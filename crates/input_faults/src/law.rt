// What the table of places has to do with the grammar, and columns with words, as contracts of functions that do nothing.
ghost use Rattle.input_faults.specs.Laws.{ColumnsAreOfWords, EachWordLeadsOn, PlacesAreTheGrammar};
ghost use Rattle.input_faults.specs.Ranges.{RangesAreRead};

/// The readings of a plan's lines accept words exactly where they fit the places, and an order that is
/// accepted fits them. So where a line is refused, the word that is shown may not stand where it stands,
/// and what may stand there is what would lead on.
pub fn places_are_the_grammar()
    ensures { PlacesAreTheGrammar }
{}

/// Where a column says that a word begins, there it begins.
pub fn columns_are_of_words()
    ensures { ColumnsAreOfWords }
{}

/// Each word that may stand at a place leads on to a whole line, so that what is said to be possible there
/// is.
pub fn each_word_leads_on()
    ensures { EachWordLeadsOn }
{}

/// The ranges that are said of a field of a trade or of a cash movement are those that are read: what is said to be
/// possible there is, and nothing is read that lies beyond.
#[tactic(auto, using(crate::proofs::Ranges::are_read))]
pub fn ranges_are_read()
    ensures { RangesAreRead }
{}
