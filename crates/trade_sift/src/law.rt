// That each record of a file stands in one of its parts, as a contract of a function that does nothing.
ghost use Rattle.trade_sift.specs.Laws.{EachStandsOnce};

/// Each record of a file of trades is accepted or refused: it stands in one of the two parts, in order.
pub fn each_stands_once()
    ensures { EachStandsOnce }
{}
