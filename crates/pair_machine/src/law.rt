// What holds of the edges of every plan, as contracts of functions that do nothing.
ghost use Rattle.pair_machine.specs.Laws.{EachPartSends, EdgesAreShort, EdgesHaveTheForm, MarksAreShared, SourcesMergeInOrder, StagesAnswer, TimesStay};

/// The edges into each partition, and into egress, are of the form that a merge asks for.
pub fn edges_have_the_form()
    ensures { EdgesHaveTheForm }
{}

/// There is one edge into a partition for each partition of the stage before.
pub fn each_part_sends()
    ensures { EachPartSends }
{}

/// An edge from a partition is what the stage's operator answers to the partition's merged list, as
/// far as it goes to the target.
pub fn stages_answer()
    ensures { StagesAnswer }
{}

/// What the sources of ingress send, merged, is the rows of all inputs in their order, with the marks
/// and one end.
#[tactic(auto, using(crate::proofs::Together::merge_in_order))]
pub fn sources_merge_in_order()
    ensures { SourcesMergeInOrder }
{}

/// Every edge carries just the marks that ingress sends.
pub fn marks_are_shared()
    ensures { MarksAreShared }
{}

/// An edge and a merged list have at most so many rows for each input as the stages up to it send for
/// one, and one mark or end at most for each stamp; before the last stage that is one row for an input.
pub fn edges_are_short()
    ensures { EdgesAreShort }
{}

/// Where the times of the inputs are within their limits, so are those of all rows on edges and in
/// merged lists.
pub fn times_stay()
    ensures { TimesStay }
{}
