// What a controller knows of one replica.
ghost use Rattle.pair_control.specs.ControllerView.{reported, watched_numbers};
ghost use Rattle.pair_machine.specs.Controllers.{counts, least_of};
ghost use Rattle.pair_machine.specs.Machine.{new_watched};
ghost use Rattle.std.specs.Prelude.{◌≡◌, ◌<◌, ◌+◌, ◌^◌, ℕ, false, true, IfOk, if◌then◌else◌, length, slice_index};
ghost use Rattle.tuple_edge.specs.declared.status.Status.TheVariants as status;

use std::alloc::Global;
use std::marker::Model;
use tuple_edge::{OutOfMemory, Status};

// What is known of a replica.
#[derive(Drop)]
pub(crate) struct Watched {
    pub(crate) status: Status,
    pub(crate) inc: u64,
    // For each in-edge the greatest number that was reported of it.
    pub(crate) reports: Vec<u64>,
    // Whether it is to be stopped.
    pub(crate) stop: bool,
    // Whether it is to be brought back.
    pub(crate) back: bool,
}

impl Model for Watched {
    ghost use Rattle.pair_control.specs.ControllerView.{WatchedView};

    ghost Value = { WatchedView };

    ghost view = { λ w. record { status = w.status; inc = w.inc; reports = w.reports.items; stop = w.stop; back = w.back } };
}

impl Watched {
    // A replica as it opens, with so many in-edges: up, in its first incarnation, with nothing reported.
    pub(crate) fn new(alloc: Global, edges: usize) -> Result<Watched, OutOfMemory>
        ensures numbers { IfOk result (λ w. watched_numbers w ≡ new_watched) }
        ensures edges { IfOk result (λ w. length w.reports ≡ edges) }
    {
        let reports = zeros(alloc, edges)?;
        Ok(Watched {
            status: Status::Up,
            inc: 1,
            reports,
            stop: false,
            back: false,
        })
    }

    // Not down, and in this incarnation.
    pub(crate) fn counts(&self, inc: u64) -> bool
        ensures { result ≡ counts (watched_numbers self.now) inc }
    {
        self.status != Status::Down && self.inc == inc
    }

    // The replica reports the items of an in-edge up to a number.
    pub(crate) fn hear_report(&mut self, inc: u64, edge: usize, upto: u64)
        requires { edge < length self.old.reports }
        ensures numbers { watched_numbers self.new ≡ (if counts (watched_numbers self.old) inc
            then reported (watched_numbers self.old) edge upto else watched_numbers self.old) }
        ensures edges { length self.new.reports ≡ length self.old.reports }
        ensures inc { self.new.inc ≡ self.old.inc }
    {
        if self.counts(inc) && self.reports[edge] < upto {
            self.reports[edge] = upto;
        }
    }

    // The replica asks to be stopped.
    pub(crate) fn want_stop(&mut self, inc: u64)
        ensures numbers { watched_numbers self.new ≡ (if counts (watched_numbers self.old) inc
            then record (watched_numbers self.old) { stop = true } else watched_numbers self.old) }
        ensures reports { self.new.reports ≡ self.old.reports }
        ensures inc { self.new.inc ≡ self.old.inc }
    {
        if self.counts(inc) {
            self.stop = true;
        }
    }

    // The replica is to be brought back.
    pub(crate) fn want_back(&mut self)
        ensures { self.new ≡ record self.old { back = true } }
    {
        self.back = true;
    }

    // The replica is down, and no stop is wanted for it.
    pub(crate) fn go_down(&mut self)
        ensures { self.new ≡ record self.old { status = status.Down; stop = false } }
    {
        self.status = Status::Down;
        self.stop = false;
    }

    // The replica is up.
    pub(crate) fn come_up(&mut self)
        ensures { self.new ≡ record self.old { status = status.Up } }
    {
        self.status = Status::Up;
    }

    // The replica is to catch up in its next incarnation, from what its partner is known to have.
    pub(crate) fn begin(&mut self, partner: &Watched)
        requires inc { self.old.inc + 1 < 2 ^ 64 }
        requires edges { length self.old.reports ≡ length partner.now.reports }
        ensures { self.new ≡ record self.old {
          status = status.Catching;
          inc = self.old.inc + 1;
          reports = partner.now.reports;
          back = false;
        } }
    {
        self.status = Status::Catching;
        self.inc += 1;
        self.reports.copy_from_slice(&partner.reports);
        self.back = false;
    }
}

// The least report of an in-edge by those that aren't down, and `known` where both are.
pub(crate) fn least_report(known: u64, a: &Watched, b: &Watched, edge: usize) -> u64
    requires a_edges { edge < length a.now.reports }
    requires b_edges { edge < length b.now.reports }
    ensures { result ≡ least_of known a.now.status (slice_index a.now.reports edge)
        b.now.status (slice_index b.now.reports edge) }
{
    match (a.status, b.status) {
        (Status::Down, Status::Down) => known,
        (Status::Down, _) => b.reports[edge],
        (_, Status::Down) => a.reports[edge],
        _ => a.reports[edge].min(b.reports[edge]),
    }
}

// So many zeros.
pub(crate) fn zeros(alloc: Global, items: usize) -> Result<Vec<u64>, OutOfMemory>
    ensures zero { IfOk result (λ v. (q : ℕ) → slice_index v.items q ≡ 0) }
    ensures len { IfOk result (λ v. length v.items ≡ items) }
{
    Ok(vec![in alloc; 0; items]?)
}
