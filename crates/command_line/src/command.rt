// What words ask for.

/// A command with the names of its files, its numbers and its options. No name is empty or begins with `-`.
#[derive(Clone, Copy)]
pub enum Command<'a> {
    /// Writes the output of a plan for trades, and for cash movements where a file of them is given.
    Eval {
        plan: &'a str,
        trades: &'a str,
        cash: Option<&'a str>,
    },
    /// Writes the same by pairs on threads.
    Run {
        plan: &'a str,
        trades: &'a str,
        options: RunOptions<'a>,
    },
    /// Writes the state that events lead to.
    Replay {
        plan: &'a str,
        trades: &'a str,
        events: &'a str,
        cash: Option<&'a str>,
    },
    /// Writes `count` trades that are made from the number `start`.
    Make {
        start: u32,
        count: u32,
    },
    /// Runs a plan for made trades, and writes a summary.
    Trial {
        plan: &'a str,
        start: u32,
        count: u32,
        options: RunOptions<'a>,
    },
    /// Writes the output of a plan for trades, worked in buckets that move between partitions.
    Move {
        plan: &'a str,
        trades: &'a str,
        moves: &'a str,
    },
    /// Writes the groups of three that events lead to, and what the drain emits.
    Trio {
        plan: &'a str,
        trades: &'a str,
        events: &'a str,
    },
}

/// The options of `run` and `trial`, with their defaults where they are not given.
#[derive(Clone, Copy)]
pub struct RunOptions<'a> {
    /// The file with the cash movements.
    pub cash: Option<&'a str>,
    /// The file with the failure script.
    pub script: Option<&'a str>,
    /// How many threads there are, 1 to 16; 4 where the option isn't given.
    pub threads: u32,
    /// How many turns there are at most, 0 to 10,000,000; 200,000 where the option isn't given.
    pub turns: u32,
    /// The file that the journal is saved to.
    pub journal: Option<&'a str>,
}
