// Which parts of soundness each part's keeping uses, as contracts of functions that do nothing.
ghost use Rattle.machine_parts.specs.Parts.{AcknowledgingIsKept, CatchingIsKept, CountingIsKept, IncarnationsAreKept, LengthsAreKept, LinksAreKept, MovesAreKept, NodesAreKept, ReportsAreKept, SoundIsItsParts};

/// A state is sound exactly where it has all the parts.
pub fn sound_is_its_parts()
    ensures { SoundIsItsParts }
{}

/// That messages go between nodes of the plan is kept by itself.
pub fn nodes_are_kept()
    ensures { NodesAreKept }
{}

/// That messages stand on links that carry them is kept by itself.
pub fn links_are_kept()
    ensures { LinksAreKept }
{}

/// That numbers are within lengths is kept where messages stand on their links.
pub fn lengths_are_kept()
    ensures { LengthsAreKept }
{}

/// That what is acknowledged is at most reported is kept where messages stand on their links.
pub fn acknowledging_is_kept()
    ensures { AcknowledgingIsKept }
{}

/// That incarnations are in order is kept where messages stand on their links.
pub fn incarnations_are_kept()
    ensures { IncarnationsAreKept }
{}

/// That reports are true is kept where incarnations are in order.
pub fn reports_are_kept()
    ensures { ReportsAreKept }
{}

/// That there is one move for a target is kept where incarnations are in order.
pub fn moves_are_kept()
    ensures { MovesAreKept }
{}

/// That counted reports are covered is kept where incarnations are in order, reports are true, and a
/// newcomer's reports are covered.
pub fn counting_is_kept()
    ensures { CountingIsKept }
{}

/// That a newcomer's reports are covered is kept where incarnations are in order, reports are true,
/// and counted reports are covered.
pub fn catching_is_kept()
    ensures { CatchingIsKept }
{}
