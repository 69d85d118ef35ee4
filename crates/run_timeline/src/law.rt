// The order of the key, and parts of a timeline worked by hand, as the contracts of functions that do nothing.
ghost use Rattle.run_timeline.specs.Keys.{RanksArePlaces};
ghost use Rattle.run_timeline.specs.WorkedTimelines.{WorkedTimelines};

/// A law: the key has its letters in the order of their ranks, so that of several marks of a column the one is drawn
/// whose letter stands first there.
pub fn ranks_are_places()
    ensures { RanksArePlaces }
{}

/// These happenings and frames have these columns, cells, marks and scale.
pub fn worked_timelines()
    ensures { WorkedTimelines }
{}
