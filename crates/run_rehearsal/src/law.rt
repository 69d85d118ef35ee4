// Laws of the definitions, as contracts of functions that do nothing.
ghost use Rattle.run_rehearsal.specs.WorkedRehearsal.{WorkedRehearsal};

/// A run that is told so has this text, and of these orders each was obeyed or was not.
pub fn worked_rehearsal()
    ensures { WorkedRehearsal }
{}
