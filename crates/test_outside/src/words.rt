// What the words of runs and trials ask for: threads and turns, which no output shows. It is worked out by hand.
use command_line::{Command, RunOptions, read_words};
use std::alloc::Global;
use std::test::Fail;

/// A command line, and what its words ask for: the cash file, the script, the threads, the turns and the journal. `-`
/// stands for a file that wasn't given.
type Line = (&'static str, &'static str);

const LINES: [Line; 14] = [
    ("run p.txt t.csv", "run p.txt t.csv - - 4 200000 -"),
    (
        "run --threads=2 p.txt t.csv",
        "run p.txt t.csv - - 2 200000 -",
    ),
    (
        "run p.txt --threads 2 t.csv",
        "run p.txt t.csv - - 2 200000 -",
    ),
    (
        "run p.txt t.csv --script s.txt",
        "run p.txt t.csv - s.txt 4 200000 -",
    ),
    (
        "run p.txt t.csv --journal=j.txt",
        "run p.txt t.csv - - 4 200000 j.txt",
    ),
    (
        "run --journal j.txt p.txt --turns=5 --cash c.csv t.csv --threads 16 --script=s.txt",
        "run p.txt t.csv c.csv s.txt 16 5 j.txt",
    ),
    (
        "run p.txt t.csv --threads 1",
        "run p.txt t.csv - - 1 200000 -",
    ),
    (
        "run p.txt t.csv --threads=16",
        "run p.txt t.csv - - 16 200000 -",
    ),
    (
        "run p.txt t.csv --threads 0000000004",
        "run p.txt t.csv - - 4 200000 -",
    ),
    ("run p.txt t.csv --turns 0", "run p.txt t.csv - - 4 0 -"),
    (
        "run p.txt t.csv --turns=10000000",
        "run p.txt t.csv - - 4 10000000 -",
    ),
    ("trial p.txt 1 5", "trial p.txt 1 5 - - 4 200000 -"),
    (
        "trial p.txt 2147483647 100000",
        "trial p.txt 2147483647 100000 - - 4 200000 -",
    ),
    (
        "trial --turns 0 p.txt 1 --cash=c.csv 5 --script s.txt --threads=1 --journal j.txt",
        "trial p.txt 1 5 c.csv s.txt 1 0 j.txt",
    ),
];

// The words of a line.
fn words(alloc: Global, line: &str) -> Result<Vec<String>, Fail> {
    let mut words = Vec::new(alloc);
    for word in line.split_whitespace() {
        words.push(String::from_str(alloc, word)?)?;
    }
    Ok(words)
}

// The cash file, the script, the threads, the turns and the journal.
fn options_text(alloc: Global, options: RunOptions<'_>) -> Result<String, Fail> {
    let cash = options.cash.unwrap_or("-");
    let script = options.script.unwrap_or("-");
    let threads = options.threads;
    let turns = options.turns;
    let journal = options.journal.unwrap_or("-");
    let text = format!(in alloc; "{cash} {script} {threads} {turns} {journal}")?;
    Ok(text)
}

// A run or a trial with what it was given, in order.
fn text_of(alloc: Global, command: Command<'_>) -> Result<String, Fail> {
    let text = match command {
        Command::Run {
            plan,
            trades,
            options,
        } => {
            let options = options_text(alloc, options)?;
            format!(in alloc; "run {plan} {trades} {options}")?
        }
        Command::Trial {
            plan,
            start,
            count,
            options,
        } => {
            let options = options_text(alloc, options)?;
            format!(in alloc; "trial {plan} {start} {count} {options}")?
        }
        _ => String::from_str(alloc, "another command")?,
    };
    Ok(text)
}

// What the words of a line ask for.
fn asked(alloc: Global, line: &str) -> Result<String, Fail> {
    let words = words(alloc, line)?;
    match read_words(alloc, &words)? {
        None => Ok(String::from_str(alloc, "none")?),
        Some(command) => text_of(alloc, command),
    }
}

#[test]
fn words_ask_for_threads_and_turns(rt: HostRuntime) -> Result<(), Fail> {
    for (line, wanted) in LINES {
        let said = asked(rt.alloc(), line)?;
        assert_eq!(rt; said.as_str(), wanted, "{line}");
    }
    Ok(())
}
