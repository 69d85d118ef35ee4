// Texts worked by hand, as the contract of a function that does nothing.
ghost use Rattle.state_text.specs.WorkedTexts.{WorkedTexts};

/// The states that these lists of events reach on small plans have these texts.
pub fn worked_texts()
    ensures { WorkedTexts }
{}
