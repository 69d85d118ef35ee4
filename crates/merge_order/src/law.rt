// What holds of a merge over any order of calls, as contracts of functions that do nothing.
ghost use Rattle.merge_order.specs.Counts.{AllAreUsed, EdgesStayInOrder};
ghost use Rattle.merge_order.specs.Runs.{AnyOrderMerges, GivesAFront};

/// After any order of offers of true items and of calls of `next`, a merge has given the next
/// items of the merged list, what waits is what was taken and not merged, and it is ready where
/// each edge has taken an item that was not merged.
pub fn any_order_merges()
    ensures { AnyOrderMerges }
{}

/// A merge that begins with nothing gives a front of the merged list, as long as its count.
pub fn gives_a_front()
    ensures { GivesAFront }
{}

/// As long as a merged list goes on, each edge has an item that isn't used; where the list ends,
/// all items of all edges are used.
pub fn all_are_used()
    ensures { AllAreUsed }
{}

/// The items of a source among the first places of a merged list are the first items of its edge, in
/// order, as many as are used.
pub fn edges_stay_in_order()
    ensures { EdgesStayInOrder }
{}
