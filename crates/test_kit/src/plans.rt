// Small plans, and the names of trades' columns.

/// One stage of one partition.
pub const ONE: &[u8] = b"flux 1\nstage 1 parts 1 by account total account\n";

/// Two stages, of two partitions and of one.
pub const TWO: &[u8] = b"flux 1
stage 1 parts 2 by account total account
stage 2 parts 1 by symbol total symbol
";

/// Three stages, of which two have two partitions.
pub const THREE: &[u8] = b"flux 1
stage 1 parts 2 by symbol keep qty != 0
stage 2 parts 2 by account window both 60
stage 3 parts 1 by account total account
";

/// The first line of trades.
pub const NAMES: &[u8] = b"time,account,symbol,side,qty,price\n";
