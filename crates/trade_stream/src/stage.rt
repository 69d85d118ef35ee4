// What comes next of a text of trades.

// What the next bytes belong to.
#[derive(Clone, Copy, Debug, PartialEq, Eq)]
pub(crate) enum Stage {
    // A byte order mark, where the text begins with one. All bytes so far are the front of one.
    Start,
    // A second mark, which is no header. All bytes behind the first one are the front of it.
    Marked,
    // The header.
    Header,
    // A trade.
    Trades,
}
