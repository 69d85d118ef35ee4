// The trails of the rows that come to a stage: of each row the last one before it of its partition and key.
ghost use Rattle.cause_finder.specs.Trails.{AreTrails, IsBelow, Tells, keyed_by, place_at, rested_from, window_in};
ghost use Rattle.op_spec.specs.Keys.{is_key, key_of};
ghost use Rattle.op_spec.specs.Spec.{IsSpec};
ghost use Rattle.plan_reader.specs.PlanView.{IsStage};
ghost use Rattle.row_cause.specs.declared.placed.Placed.{Placed};
ghost use Rattle.std.specs.Prelude.{◌≡◌, ◌≤◌, ◌<◌, ◌^◌, ◌+◌, ◌&&◌, ◌==◌, ◌++◌, ◌∷◌, [], ℕ, IfOk, IfSome, List, None, OnOk, Some, if◌then◌else◌, length, slice_get};
ghost use Rattle.tuple_edge.specs.Row.{route_of};
ghost use Rattle.tuple_edge.specs.declared.row.Key.{Key};
ghost use Rattle.cause_finder.specs.declared.trails.Trail.{Trail};

use crate::windows::window_at;
use op_spec::{By, OpSpec};
use plan_reader::Stage;
use std::alloc::Global;
use std::collections::BTreeMap;
use std::marker::Model;
use tuple_edge::{Key, OutOfMemory, Row, route};

/// What is known of a row by those of its partition and key that came before it.
#[derive(Clone, Copy, Debug, PartialEq, Eq)]
pub struct Trail {
    /// The place of the last one.
    pub before: Option<usize>,
    /// How many there are.
    pub count: usize,
    /// From which of them on, the row itself being the last one, the next answer rests on them.
    pub from: usize,
    /// The greatest window among all of these, where a window is kept.
    pub level: i64,
}

/// A partition and a key.
#[derive(Clone, Copy, Debug, PartialEq, Eq, PartialOrd, Ord)]
pub struct Spot {
    part: u32,
    key: Key,
}

/// The rows that come to a stage by their keys: a trail for each, and the last one of each partition and key.
#[derive(Drop)]
pub struct KeyTrails {
    trails: Vec<Trail>,
    last: BTreeMap<Spot, usize>,
}

impl Model for KeyTrails {
    ghost use Rattle.cause_finder.specs.Trails.{GoBack, KeyTrails};

    ghost Value = { KeyTrails };

    ghost view = { λ k. record { trails = k.trails.items; last = k.last.entries } };

    ghost invariant = { λ k. GoBack k.trails.items };
}

impl KeyTrails {
    /// The trail of the row of a place.
    pub fn trail(&self, place: usize) -> Option<Trail>
        ensures value { result ≡ slice_get self.now.trails place }
        ensures back { IfSome result (λ trail. IsBelow place trail.before) }
    {
        self.trails.get(place).copied()
    }

    /// The place of the last row of a partition and a key.
    pub fn last(&self, part: u32, key: &Key) -> Option<usize>
        ensures { result ≡ place_at self.now.last part key.now }
    {
        let spot = Spot { part, key: *key };
        self.last.get(&spot).copied()
    }
}

// By what an operator keeps rows. One that keeps none takes any.
fn keyed_by(op: &OpSpec) -> By
    ensures { result ≡ keyed_by op.now }
{
    match *op {
        OpSpec::Keep { .. } => By::Account,
        OpSpec::Total { by }
        | OpSpec::Last { by, .. }
        | OpSpec::Window { by, .. }
        | OpSpec::Crossing { by, .. }
        | OpSpec::Join { by, .. } => by,
    }
}

// The window of a row, where an operator keeps one.
fn window_in(op: &OpSpec, row: &Row) -> i64
    requires { IsSpec op.now }
    ensures { result ≡ window_in op.now row.now }
{
    match *op {
        OpSpec::Window { width, .. } => window_at(width, row),
        OpSpec::Keep { .. }
        | OpSpec::Total { .. }
        | OpSpec::Last { .. }
        | OpSpec::Crossing { .. }
        | OpSpec::Join { .. } => 0,
    }
}

// From which of the rows of a key on the next answer rests on them, behind a row before which so many came: the answer to this one
// rested on them from `from` on, and it opens a window or doesn't.
fn rested_from(op: &OpSpec, count: usize, from: usize, opens: bool) -> usize
    requires { count + 1 < 2 ^ 64 }
    ensures { result ≡ rested_from op.now count from opens }
{
    match *op {
        OpSpec::Total { .. } | OpSpec::Crossing { .. } => 0,
        OpSpec::Last { rows, .. } => (count + 1).saturating_sub((rows as usize).saturating_sub(1)),
        OpSpec::Window { .. } if opens => count,
        OpSpec::Window { .. } => from,
        OpSpec::Keep { .. } | OpSpec::Join { .. } => count + 1,
    }
}

// The trail of the first row of a key.
fn first_trail(op: &OpSpec, row: &Row) -> Trail
    requires { IsSpec op.now }
    ensures before { result.before ≡ None }
    ensures tells { (x : Placed) → x.row ≡ row.now → Tells op.now [] x result }
{
    Trail {
        before: None,
        count: 0,
        from: rested_from(op, 0, 0, true),
        level: window_in(op, row),
    }
}

// The trail of a row behind the last one of its key.
fn next_trail(op: &OpSpec, before: usize, last: &Trail, row: &Row) -> Trail
    requires spec { IsSpec op.now }
    requires room { last.now.count + 2 < 2 ^ 64 }
    ensures before { result.before ≡ Some before }
    ensures tells { (own : List Placed) (y x : Placed) → x.row ≡ row.now → Tells op.now own y last.now → Tells op.now (own ++ y ∷ []) x result }
{
    let window = window_in(op, row);
    let count = last.count + 1;
    Trail {
        before: Some(before),
        count,
        from: rested_from(op, count, last.from, last.level < window),
        level: last.level.max(window),
    }
}

// The trail of a row, behind those of the rows before it, where the last one of its key has this place.
fn trail_behind(op: &OpSpec, trails: &[Trail], before: Option<usize>, row: &Row) -> Trail
    requires spec { IsSpec op.now }
    requires below { IsBelow (length trails.now) before }
    requires few { (place : ℕ) (trail : Trail) → slice_get trails.now place ≡ Some trail → trail.count ≤ place }
    requires room { length trails.now + 1 < 2 ^ 64 }
    ensures before { result.before ≡ before }
    ensures first { before ≡ None → (x : Placed) → x.row ≡ row.now → Tells op.now [] x result }
    ensures next { (place : ℕ) (trail : Trail) → before ≡ Some place → slice_get trails.now place ≡ Some trail
        → (own : List Placed) (y x : Placed) → x.row ≡ row.now → Tells op.now own y trail → Tells op.now (own ++ y ∷ []) x result }
{
    match before {
        None => first_trail(op, row),
        Some(place) => next_trail(op, place, &trails[place], row),
    }
}

// The partition and the key of a row.
fn spot_of(stage: &Stage, row: &Row) -> Spot
    requires { 1 ≤ stage.now.parts }
    ensures part { result.part ≡ route_of row.now stage.now.by stage.now.parts }
    ensures key { result.key ≡ key_of (keyed_by stage.now.op) row.now }
{
    Spot {
        part: route(row, stage.by, stage.parts),
        key: keyed_by(&stage.op).key(row),
    }
}

// Puts the place of the last row of a partition and a key, and gives the one that was there.
fn put_last(
    last: &mut BTreeMap<Spot, usize>,
    spot: Spot,
    place: usize,
) -> Result<Option<usize>, OutOfMemory>
    ensures before { IfOk result (λ before. before ≡ place_at last.old.entries spot.part spot.key) }
    ensures puts { OnOk result ((q : ℕ) (k : Key) → place_at last.new.entries q k
        ≡ (if (spot.part == q) && is_key spot.key k then Some place else place_at last.old.entries q k)) }
{
    match last.insert(spot, place) {
        Ok(before) => Ok(before),
        Err(_) => Err(OutOfMemory),
    }
}

/// The trails of the rows that come to a stage.
pub fn key_trails(alloc: Global, stage: &Stage, rows: &[Row]) -> Result<KeyTrails, OutOfMemory>
    requires { IsStage stage.now }
    ensures { IfOk result (λ known. AreTrails stage.now rows.now known) }
{
    let mut last = BTreeMap::new(alloc);
    let mut trails = Vec::with_capacity(alloc, rows.len())?;
    for (place, row) in rows.iter().enumerate() {
        let before = put_last(&mut last, spot_of(stage, row), place)?;
        let trail = trail_behind(&stage.op, &trails, before, row);
        trails.push(trail)?;
    }
    Ok(KeyTrails { trails, last })
}
