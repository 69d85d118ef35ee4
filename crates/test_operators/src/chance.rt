// Rows that look as if they came by chance, the same in every run.
ghost use Rattle.std.specs.Prelude.{◌≤◌};

use crate::steps::Numbers;

#[derive(Drop)]
pub(crate) struct Chance {
    state: u64,
}

impl Chance {
    pub(crate) fn new() -> Chance {
        Chance { state: 20_260_101 }
    }

    fn next(&mut self, below: u64) -> i64
        requires { 1 ≤ below }
    {
        self.state = self
            .state
            .wrapping_mul(6_364_136_223_846_793_005)
            .wrapping_add(1_442_695_040_888_963_407);
        ((self.state >> 33) % below) as i64
    }

    // A row of one of a few keys, within a quarter of an hour.
    pub(crate) fn row(&mut self) -> Numbers {
        let time = self.next(900);
        let account = self.next(5);
        let symbol = self.next(3);
        let qty = self.next(11).saturating_sub(5);
        let value = self.next(2001).saturating_sub(1000);
        (time, account, symbol, qty, value)
    }
}
