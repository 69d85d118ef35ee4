// The roles of rows, as marks at their places.
ghost use Rattle.row_origin.specs.Marks.{marked, no_roles};
ghost use Rattle.std.specs.Prelude.{◌≡◌, ◌∷◌, [], false, true, slice_index_or, slice_set, IfOk};

use row_cause::Placed;
use std::alloc::Global;
use std::marker::Model;
use tuple_edge::OutOfMemory;

/// The roles of the rows that come to a stage: a mark for each at which an asked-about row rests on it, and one where it
/// counts into such a row. One that only closed a window doesn't count.
#[derive(Debug, Drop)]
pub struct RowRoles {
    pub(crate) rests: Vec<bool>,
    pub(crate) counts: Vec<bool>,
}

impl Model for RowRoles {
    ghost use Rattle.row_origin.specs.Marks.{Roles};

    ghost Value = { Roles };

    ghost view = { λ r. record { rests = r.rests.items; counts = r.counts.items } };
}

impl RowRoles {
    ghost use Rattle.row_origin.specs.Marks.{marked, no_roles};
    ghost use Rattle.row_cause.specs.Causes.{spoke};
    ghost use Rattle.row_origin.specs.Origins.{only};
    ghost use Rattle.std.specs.Prelude.{◌≡◌, ◌∷◌, [], IfOk, if◌then◌else◌};

    // No roles, of so many rows.
    pub(crate) fn none(alloc: Global, rows: usize) -> Result<RowRoles, OutOfMemory>
        ensures { IfOk result (λ roles. roles ≡ no_roles rows) }
    {
        Ok(RowRoles {
            rests: vec![in alloc; false; rows]?,
            counts: vec![in alloc; false; rows]?,
        })
    }

    // The roles where one row alone is asked about, and these are the rows that are passed on last.
    pub(crate) fn of_one(alloc: Global, rows: usize, number: usize) -> Result<RowRoles, OutOfMemory>
        ensures { IfOk result (λ roles. roles ≡ record { rests = only number rows; counts = only number rows }) }
    {
        let mut roles = RowRoles::none(alloc, rows)?;
        roles.mark_place(number, true);
        Ok(roles)
    }

    /// Whether an asked-about row rests on each.
    pub fn rests(&self) -> &[bool]
        ensures { result.now ≡ self.now.rests }
    {
        &self.rests
    }

    /// Whether each counts into an asked-about row.
    pub fn counts(&self) -> &[bool]
        ensures { result.now ≡ self.now.counts }
    {
        &self.counts
    }

    // Marks the row of a place, which counts.
    pub(crate) fn mark_counted(&mut self, place: usize)
        ensures { self.new ≡ record { rests = slice_set self.old.rests place true; counts = slice_set self.old.counts place true } }
    {
        self.mark_place(place, true);
    }

    // Marks the row that spoke, if one did; it counts or doesn't.
    pub(crate) fn mark_spoke(&mut self, speaker: &Option<Placed>, counts: bool)
        ensures rests { self.new.rests ≡ marked (spoke speaker.now) self.old.rests }
        ensures counts { self.new.counts ≡ (if counts then marked (spoke speaker.now) self.old.counts else self.old.counts) }
    {
        match speaker {
            None => {}
            Some(r) => self.mark_place(r.place, counts),
        }
    }

    // Marks the row of a place, which counts or doesn't.
    fn mark_place(&mut self, place: usize, counts: bool)
        ensures rests { self.new.rests ≡ slice_set self.old.rests place true }
        ensures counts { self.new.counts ≡ (if counts then slice_set self.old.counts place true else self.old.counts) }
    {
        mark(&mut self.rests, place);
        if counts {
            mark(&mut self.counts, place);
        }
    }
}

// Marks one place, if it is there.
fn mark(marks: &mut [bool], place: usize)
    ensures { marks.new ≡ slice_set marks.old place true }
{
    if place < marks.len() {
        marks[place] = true;
    }
}

/// Whether a place is marked.
pub fn is_marked(marks: &[bool], place: usize) -> bool
    ensures { result ≡ slice_index_or marks.now place false }
{
    match marks.get(place) {
        Some(mark) => *mark,
        None => false,
    }
}
