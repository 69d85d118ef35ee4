// Laws of the definitions, as contracts of functions that do nothing.
ghost use Rattle.run_watch.specs.Columns.{LastFramesAreOfTheEnd};
ghost use Rattle.run_watch.specs.WorkedRows.{WorkedRows};

/// The last frame is that of the state which the whole list reaches.
pub fn last_frames_are_of_the_end()
    ensures { LastFramesAreOfTheEnd }
{}

/// These things are seen of a node at an event, and this happens then.
pub fn worked_rows()
    ensures { WorkedRows }
{}
