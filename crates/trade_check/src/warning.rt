// What is warned of.
use pair_machine::Order;
use plan_check::Numbered;
use tuple_edge::NodeId;

/// A trade whose time is earlier than that of the trade before it: its record in the file, from 1, and both times.
#[derive(Clone, Copy)]
pub(crate) struct Fall {
    pub(crate) number: u64,
    pub(crate) from: i64,
    pub(crate) to: i64,
}

/// What is hardly meant about trades under a plan.
#[derive(Clone, Copy)]
pub(crate) enum TradeWarning {
    /// In this line the time falls, and a window counts the trade into a span that isn't that of its time.
    Falls { line: u64, from: i64, to: i64 },
    /// In this line times of day go over midnight.
    Midnight { line: u64, from: i64, to: i64 },
    /// So many times fall, of which only the first are told.
    MoreFalls { count: usize },
    /// A stage keeps the rows of a symbol that these trades, which have so many, don't have.
    FewSymbols { stage: Numbered, symbols: i64 },
}

/// A count of an order to which a replica doesn't come, or perhaps only in its last turn: the replica is that of the order or, where the count is
/// that of the way back, its partner, and it merges so many items.
#[derive(Clone, Copy)]
pub(crate) struct CountWarning {
    pub(crate) order: Order,
    pub(crate) replica: NodeId,
    pub(crate) count: u64,
    pub(crate) items: u64,
}
