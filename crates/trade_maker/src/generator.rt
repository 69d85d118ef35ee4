// The generator: a linear congruential one, and the trades that are made of its draws.
ghost use Rattle.std.specs.Prelude.{◌≡◌, ◌<◌};
ghost use Rattle.trade_maker.specs.Generator.{drawn, made_trade, next_state, state_after};
ghost use Rattle.trade_maker.specs.Limits.{states};

// A state is below this.
const STATES: u64 = 1 << 31;

const MULTIPLIER: u64 = 1_103_515_245;

const INCREMENT: u64 = 12_345;

// A draw drops so much of a state, whose low bits are poor.
const DROPPED: u64 = 65_536;

// The time before the first trade: half past nine.
const OPENING: u64 = 34_200;

/// A trade as it is written.
#[derive(Clone, Copy, Drop)]
pub(crate) struct MadeTrade {
    pub(crate) time: u64,
    pub(crate) account: u64,
    // the number behind its `S`
    pub(crate) symbol: u64,
    pub(crate) is_buy: bool,
    pub(crate) qty: u64,
    pub(crate) cents: u64,
}

/// The generator in its state.
#[derive(Drop)]
pub(crate) struct Generator {
    state: u64,
    ghost small: { state < states },
}

impl Generator {
    // The generator in the state of this number.
    pub(crate) fn new(start: u32) -> Generator
        requires { start < states }
        ensures { result.state ≡ start }
    {
        Generator {
            state: u64::from(start),
        }
    }

    // The next draw.
    #[tactic(auto, unfolding(crate::specs::Generator::next_state))]
    fn draw(&mut self) -> u64
        ensures state { self.new.state ≡ next_state self.old.state }
        ensures value { result ≡ drawn self.new.state }
        ensures small { result < 32768 }
    {
        self.state = (self.state * MULTIPLIER + INCREMENT) % STATES;
        self.state / DROPPED
    }

    // The trade of this number.
    #[tactic(auto, unfolding(crate::specs::Generator::state_after))]
    pub(crate) fn next_trade(&mut self, number: u32) -> MadeTrade
        ensures state { self.new.state ≡ state_after 5 self.old.state }
        ensures trade { result ≡ made_trade number self.old.state }
        ensures symbol { result.symbol < 100 }
    {
        let account = 1 + self.draw() % 500;
        let symbol = self.draw() % 40;
        let is_buy = self.draw() % 2 == 0;
        let qty = 1 + self.draw() % 1000;
        let cents = 1000 + self.draw();
        MadeTrade {
            time: OPENING + u64::from(number),
            account,
            symbol,
            is_buy,
            qty,
            cents,
        }
    }
}
