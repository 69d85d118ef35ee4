// An operator that runs twice: on rows, and on marks in place of their amounts.
ghost use Rattle.evaluation.specs.StageRows.{HasTaken, HasTime, alike};
ghost use Rattle.op_spec.specs.Spec.{IsSpec};
ghost use Rattle.op_spec.specs.Times.{IsTime};
ghost use Rattle.op_spec.specs.declared.spec.OpSpec.{OpSpec};
ghost use Rattle.reach_finder.specs.Traced.{HasSeen, traced_end, traced_row};
ghost use Rattle.reach_finder.specs.declared.shades.Traced.{Traced};
ghost use Rattle.std.specs.Prelude.{◌≡◌, ◌++◌, ◌∷◌, [], IfOk, List, OnOk};
ghost use Rattle.stream_ops.specs.Answers.{end_answer, row_answer};
ghost use Rattle.tuple_edge.specs.declared.row.Row.{Row};

use crate::shades::{Traced, marking, shaded, trace};
use op_spec::OpSpec;
use std::alloc::Global;
use stream_ops::OpState;
use tuple_edge::{Item, OutOfMemory, Row};

/// Both runs of an operator.
#[derive(Drop)]
pub(crate) struct Tracer {
    rows: OpState,
    marks: OpState,
}

// What one run answers to a row.
fn row_answers(alloc: Global, state: &mut OpState, row: Row) -> Result<Vec<Row>, OutOfMemory>
    requires { IsTime row.time }
    ensures answers { IfOk result (λ rows. (op : OpSpec) (before : List Row) → HasTaken op state.old before → rows.items ≡ row_answer op (alike before) row) }
    ensures taken { OnOk result ((op : OpSpec) (before : List Row) → HasTaken op state.old before → HasTaken op state.new (before ++ row ∷ [])) }
{
    let mut out = Vec::new(alloc);
    state.step(Item::Row { stamp: 0, row }, &mut out)?;
    Ok(out)
}

// What one run answers to the end.
fn end_answers(alloc: Global, state: &mut OpState) -> Result<Vec<Row>, OutOfMemory>
    ensures { IfOk result (λ rows. (op : OpSpec) (before : List Row) → HasTaken op state.old before → rows.items ≡ end_answer op (alike before)) }
{
    let mut out = Vec::new(alloc);
    state.step(Item::End { stamp: 0 }, &mut out)?;
    Ok(out)
}

impl Tracer {
    /// An operator that was given nothing.
    pub(crate) fn new(alloc: Global, op: OpSpec) -> Tracer
        requires { IsSpec op }
        ensures { HasSeen op result [] }
    {
        let rows = OpState::new(alloc, op);
        let adder = marking(op);
        let marks = OpState::new(alloc, adder);
        Tracer { rows, marks }
    }

    /// Gives both runs a row, and puts the answers behind others.
    pub(crate) fn take(
        &mut self,
        alloc: Global,
        op: &OpSpec,
        x: &Traced,
        out: &mut Vec<Traced>,
    ) -> Result<(), OutOfMemory>
        requires { HasTime x.now.row }
        ensures answers { OnOk result ((before : List Traced) → HasSeen op.now self.old before → out.new.items ≡ out.old.items ++ traced_row op.now before x.now) }
        ensures seen { OnOk result ((before : List Traced) → HasSeen op.now self.old before → HasSeen op.now self.new (before ++ x.now ∷ [])) }
    {
        let rows = row_answers(alloc, &mut self.rows, x.row)?;
        let shade = shaded(op, x);
        let shades = row_answers(alloc, &mut self.marks, shade)?;
        trace(op, x.reached, &rows, &shades, out)
    }

    /// Gives both runs the end, and puts the answers behind others.
    pub(crate) fn end(
        &mut self,
        alloc: Global,
        op: &OpSpec,
        out: &mut Vec<Traced>,
    ) -> Result<(), OutOfMemory>
        ensures { OnOk result ((before : List Traced) → HasSeen op.now self.old before → out.new.items ≡ out.old.items ++ traced_end op.now before) }
    {
        let rows = end_answers(alloc, &mut self.rows)?;
        let shades = end_answers(alloc, &mut self.marks)?;
        trace(op, false, &rows, &shades, out)
    }
}
