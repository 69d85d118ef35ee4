// Texts worked by hand, as the contract of a function that does nothing.
ghost use Rattle.trio_state.specs.WorkedTexts.{WorkedTexts};

/// The states that these lists of events reach on a small plan have these texts.
pub fn worked_texts()
    ensures { WorkedTexts }
{}
