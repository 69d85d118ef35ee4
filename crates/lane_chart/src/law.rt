// What escaping is good for, and charts worked by hand, as the contracts of functions that do nothing.
ghost use Rattle.lane_chart.specs.Escape.{are_plain, escaped};
ghost use Rattle.lane_chart.specs.WorkedCharts.{WorkedCharts};
ghost use Rattle.std.specs.Prelude.{List, ℕ, IsTrue};

/// A law: of whatever text, no byte comes into an SVG that begins or ends a tag or a value there.
#[tactic(auto, using(crate::proofs::Escaped::escaped_plain))]
pub fn escaped_is_plain()
    ensures { (text : List ℕ) → IsTrue (are_plain (escaped text)) }
{}

/// These charts have these texts.
pub fn worked_charts()
    ensures { WorkedCharts }
{}
