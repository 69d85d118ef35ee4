// What words ask for.

/// A command with the names of its files, its numbers and its options. No name is empty or begins with `-`.
#[derive(Clone, Copy)]
pub enum LookCommand<'a> {
    /// Says what a plan does and warns, or says the first fault of each file or all of them, in sentences or as JSON.
    Check {
        plan: &'a str,
        trades: Option<&'a str>,
        cash: Option<&'a str>,
        script: Option<&'a str>,
        all: bool,
        json: bool,
    },
    /// Tells what happened in a run, from its events, in sentences or as JSON.
    Story {
        plan: &'a str,
        trades: &'a str,
        events: &'a str,
        cash: Option<&'a str>,
        script: Option<&'a str>,
        json: bool,
    },
    /// Draws it, as text, as SVG or as JSON, all of it or only the lanes where something happened.
    Timeline {
        plan: &'a str,
        trades: &'a str,
        events: &'a str,
        cash: Option<&'a str>,
        svg: bool,
        json: bool,
        only: bool,
    },
    /// Runs a plan under a failure script, and tells what became of each order.
    Rehearse {
        plan: &'a str,
        trades: &'a str,
        script: &'a str,
        cash: Option<&'a str>,
        threads: u32,
        turns: u32,
        picture: Option<&'a str>,
    },
    /// Tells how a row of the output came about, by the first and last rows on which it rests or by all, and whether these
    /// alone give it again.
    Why {
        plan: &'a str,
        trades: &'a str,
        number: u32,
        cash: Option<&'a str>,
        all: bool,
        check: bool,
    },
    /// Tells what became of the trade in a line of its file.
    Trace {
        plan: &'a str,
        trades: &'a str,
        line: u32,
        cash: Option<&'a str>,
    },
    /// Writes the records of a file of trades that are accepted, and saves the others.
    Sift {
        trades: &'a str,
        rejects: &'a str,
    },
    /// Writes a plan as SQL.
    Sql {
        plan: &'a str,
    },
}
