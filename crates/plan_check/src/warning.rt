// What is warned of.
use pair_machine::Order;
use plan_reader::Stage;

/// A stage with its number, from 1.
#[derive(Clone, Copy)]
pub struct Numbered {
    pub number: usize,
    pub stage: Stage,
}

/// What is hardly meant about a plan or a script.
#[derive(Clone, Copy)]
pub(crate) enum Warning {
    /// Where no row comes on an edge, partitions wait for up to so many rows.
    LongMark {
        mark: u64,
    },
    /// Ingress stops in the midst of its turns.
    ShortHold {
        hold: u64,
    },
    /// Rows of one key come to several partitions.
    SplitKeys {
        stage: Numbered,
    },
    /// The first stage adds up rows that are sums already, those of the second one.
    SumsOfSums {
        stage: Numbered,
        sums: Numbered,
    },
    /// The first stage adds up rows of several keys of the second one, a `window`, which come as its windows close.
    TimeOrder {
        stage: Numbered,
        window: Numbered,
    },
    /// Rows of one key come to the first stage from several partitions of the second one, which is behind a `window`.
    PartOrder {
        stage: Numbered,
        dealt: Numbered,
    },
    /// Rows of one key leave the plan from several partitions of a stage, which is behind a `window`.
    LeavingOrder {
        dealt: Numbered,
    },
    /// Two orders by which a script isn't safe.
    Unsafe {
        first: Order,
        second: Order,
    },
    /// An order, or its back, is due after so many items, while its partner may be down by another one.
    Alone {
        order: Order,
        back: bool,
        items: u64,
        partner: Order,
    },
}
