// What a controller knows of one replica.
ghost use Rattle.std.specs.Prelude.{◌≡◌, ◌<◌, false, IfOk, length};
ghost use Rattle.trio_nodes.specs.ControllerView.{heard, unheard};

use std::alloc::Global;
use std::marker::Model;
use tuple_edge::OutOfMemory;

// What is known of a replica.
#[derive(Drop)]
pub(crate) struct TrioWatched {
    pub(crate) up: bool,
    // For each in-edge the greatest number that was reported of it.
    pub(crate) reports: Vec<u64>,
}

impl Model for TrioWatched {
    ghost use Rattle.trio_nodes.specs.ControllerView.{TrioWatchedView};

    ghost Value = { TrioWatchedView };

    ghost view = { λ w. record { up = w.up; reports = w.reports.items } };
}

impl TrioWatched {
    // A replica as it opens, with so many in-edges: up, with nothing reported.
    pub(crate) fn new(alloc: Global, edges: usize) -> Result<TrioWatched, OutOfMemory>
        ensures { IfOk result (λ w. w ≡ unheard edges) }
    {
        Ok(TrioWatched {
            up: true,
            reports: vec![in alloc; 0u64; edges]?,
        })
    }

    // The replica is down.
    pub(crate) fn go_down(&mut self)
        ensures { self.new ≡ record self.old { up = false } }
    {
        self.up = false;
    }

    // The replica reports the items of an in-edge up to a number.
    pub(crate) fn hear(&mut self, edge: usize, upto: u64)
        requires { edge < length self.old.reports }
        ensures { self.new ≡ heard self.old edge upto }
    {
        if self.up {
            self.reports[edge] = self.reports[edge].max(upto);
        }
    }
}
