// The lines of a file of cases.
//
//   # TEXT            a comment, as is an empty line
//   file NAME         a file, whose content is in the lines that follow: before the first case a file of all cases
//   |TEXT             TEXT and a line feed. `!TEXT` is TEXT alone; `*N|TEXT` and `*N!TEXT` are that N times
//   case NAME         a case: all up to the next one belongs to it
//   call WORDS        a call of `flux`; `''` is an empty word. `look WORDS` is one of `flux_look`
//   fails N..         the calls of files with these numbers fail, counted from 1 over the whole case
//   keep out NAME     the output of the next call becomes a file too
//   last, rows        of the next call's output only the last line, or only the rows, are shown
//   out ROOM MOST N.. the next call's output takes ROOM bytes in all, at most MOST a put, and its Nth puts fail
//   err ROOM MOST N.. the same of what it says
//   hold              in the next call worker 0 waits in its first turn for worker 1, and it is told whether it saw it
//   has NAME LINE     tells whether a file has this line; `front NAME TEXT` whether it has one that begins so
//   begins NAME OTHER tells whether a file begins with another one
//   with A | B ..     the case is made once for each such line, with its values in place of @1@, @2@ and so on
//   range A B STEP    is the lines `with A`, `with A + STEP` and so on up to B

/// A line of a case, and what stands behind its first word.
#[derive(Clone, Copy)]
pub(crate) enum Line<'a> {
    /// A comment, or what was read of the whole case before: `case`, `fails`, `with` and `range`.
    Nothing,
    File(&'a str),
    Content {
        times: u32,
        ends: bool,
        text: &'a str,
    },
    Call(Program, &'a str),
    Keep(&'a str),
    Last,
    Rows,
    Hold,
    Out(&'a str),
    Err(&'a str),
    Asks(Question, &'a str),
}

/// What is called.
#[derive(Clone, Copy)]
pub(crate) enum Program {
    Flux,
    Look,
}

/// What is asked of a file.
#[derive(Clone, Copy)]
pub(crate) enum Question {
    /// Whether it has this line.
    Has,
    /// Whether it has a line that begins so.
    Front,
    /// Whether it begins with this other file.
    Begins,
}

// A line that begins with a word.
fn line_of<'a>(word: &str, rest: &'a str) -> Option<Line<'a>> {
    match word {
        "case" | "fails" | "with" | "range" => Some(Line::Nothing),
        "file" => Some(Line::File(rest)),
        "call" => Some(Line::Call(Program::Flux, rest)),
        "look" => Some(Line::Call(Program::Look, rest)),
        "keep" => Some(Line::Keep(rest.strip_prefix("out ")?)),
        "last" => Some(Line::Last),
        "rows" => Some(Line::Rows),
        "hold" => Some(Line::Hold),
        "out" => Some(Line::Out(rest)),
        "err" => Some(Line::Err(rest)),
        "has" => Some(Line::Asks(Question::Has, rest)),
        "front" => Some(Line::Asks(Question::Front, rest)),
        "begins" => Some(Line::Asks(Question::Begins, rest)),
        _ => None,
    }
}

// Content that is there so many times: what stands behind `*N`, or the whole line.
fn content_of(times: u32, rest: &str) -> Option<Line<'_>> {
    if let Some(text) = rest.strip_prefix('|') {
        return Some(Line::Content {
            times,
            ends: true,
            text,
        });
    }
    match rest.strip_prefix('!') {
        Some(text) => Some(Line::Content {
            times,
            ends: false,
            text,
        }),
        None => None,
    }
}

// Content with a number before it.
fn repeated(rest: &str) -> Option<Line<'_>> {
    let place = rest.find(|letter: char| !letter.is_ascii_digit())?;
    let (number, content) = rest.split_at(place);
    let times = number.parse::<u32>().ok()?;
    content_of(times, content)
}

/// What a line is. None where it has no form.
pub(crate) fn read_line(text: &str) -> Option<Line<'_>> {
    if text.is_empty() || text.starts_with('#') {
        return Some(Line::Nothing);
    }
    if let Some(rest) = text.strip_prefix('*') {
        return repeated(rest);
    }
    if let Some(line) = content_of(1, text) {
        return Some(line);
    }
    match text.split_once(' ') {
        Some((word, rest)) => line_of(word, rest),
        None => line_of(text, ""),
    }
}
