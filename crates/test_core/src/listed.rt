// The lines of a list of stories.
use crate::fault::Fault;
use std::str::from_utf8;
use text_words::{Words, number_of};

/// What is told of a story.
#[derive(Clone, Copy)]
pub(crate) enum Kind {
    /// Which of the events are no step, and the state that the others reach.
    State,
    /// How the drain after them ends, by which events, and the rows.
    Drain,
    /// How that drain ends, and how many rows there are before and after it.
    Ending,
    /// The rows that ingress sends, alone and without events.
    Sends,
}

/// A line of a list: what is told, the files of the plan, the trades, the cash movements where there are any, and the
/// events where there are any; and how many of the events happen, where not all do.
#[derive(Clone, Copy)]
pub(crate) struct Listed<'a> {
    pub(crate) kind: Kind,
    pub(crate) plan: &'a str,
    pub(crate) trades: &'a str,
    pub(crate) cash: Option<&'a str>,
    pub(crate) events: Option<&'a str>,
    pub(crate) front: Option<u64>,
}

// The next word.
fn word_at<'a>(words: &mut Words<'a>) -> Result<&'a str, Fault> {
    match from_utf8(words.word_or(Fault::Form)?) {
        Ok(word) => Ok(word),
        Err(_) => Err(Fault::Form),
    }
}

// The next word, which is `-` where there is no such file.
fn file_at<'a>(words: &mut Words<'a>) -> Result<Option<&'a str>, Fault> {
    let name = word_at(words)?;
    Ok(if name == "-" { None } else { Some(name) })
}

fn kind_at(words: &mut Words<'_>) -> Result<Kind, Fault> {
    match word_at(words)? {
        "state" => Ok(Kind::State),
        "drain" => Ok(Kind::Drain),
        "ending" => Ok(Kind::Ending),
        "sends" => Ok(Kind::Sends),
        _ => Err(Fault::Form),
    }
}

// How many events happen: a word that may be left out.
fn front_at(words: &mut Words<'_>) -> Result<Option<u64>, Fault> {
    match words.next_word() {
        None => Ok(None),
        Some(word) => match number_of(word) {
            None => Err(Fault::Form),
            Some(count) => Ok(Some(count)),
        },
    }
}

/// The line of these words: `KIND PLAN TRADES CASH EVENTS [COUNT]`. A file that isn't
/// there is `-`.
pub(crate) fn listed_at<'a>(words: &mut Words<'a>) -> Result<Listed<'a>, Fault> {
    let listed = Listed {
        kind: kind_at(words)?,
        plan: word_at(words)?,
        trades: word_at(words)?,
        cash: file_at(words)?,
        events: file_at(words)?,
        front: front_at(words)?,
    };
    words.end_or(Fault::Form)?;
    Ok(listed)
}
