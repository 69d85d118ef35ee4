// The lines of a controller.
ghost use Rattle.pair_control.specs.ControllerView.{numbers_of, watched_numbers, watched_of};
ghost use Rattle.state_text.specs.StateText.{controller_text, leader_word, reports_line, status_word, term_line, watched_line};
ghost use Rattle.std.specs.Prelude.{◌≡◌, ◌<◌, ◌++◌, OnOk, length, string_bytes};

use crate::names::flag_word;
use pair_control::PairControl;
use run_journal::letter_of;
use tuple_edge::{OutOfMemory, Status, Which};

fn leader_word(leader: Option<Which>) -> &'static str
    ensures { result.now ≡ leader_word leader }
{
    match leader {
        None => "none",
        Some(which) => letter_of(which),
    }
}

fn status_word(status: Status) -> &'static str
    ensures { result.now ≡ status_word status }
{
    match status {
        Status::Up => "up",
        Status::Catching => "catching",
        Status::Down => "down",
    }
}

// Appends the line of what a controller knows of a replica.
fn push_watched(
    text: &mut String,
    name: &str,
    control: &PairControl,
    which: Which,
) -> Result<(), OutOfMemory>
    ensures { OnOk result (string_bytes text.new ≡ string_bytes text.old ++ watched_line name.now which (watched_numbers (watched_of control.now which))) }
{
    let letter = letter_of(which);
    let status = status_word(control.status(which));
    let inc = control.inc(which);
    let stop = flag_word(control.stop_wanted(which));
    let back = flag_word(control.back_wanted(which));
    write!(text, "{name} {letter}={status} inc={inc}")?;
    write!(text, " stop={stop} back={back}\n")?;
    Ok(())
}

// Appends the line of an in-edge of a controller's pair.
fn push_reports(
    text: &mut String,
    name: &str,
    control: &PairControl,
    edge: u32,
) -> Result<(), OutOfMemory>
    requires { edge < length control.now.acked }
    ensures { OnOk result (string_bytes text.new ≡ string_bytes text.old ++ reports_line name.now (numbers_of control.now) edge) }
{
    let acked = control.acked(edge);
    let a = control.report(Which::A, edge);
    let b = control.report(Which::B, edge);
    write!(text, "{name} < {edge} acked={acked}")?;
    write!(text, " a={a} b={b}\n")?;
    Ok(())
}

// Appends the line of a controller's term.
fn push_term(text: &mut String, name: &str, control: &PairControl) -> Result<(), OutOfMemory>
    ensures { OnOk result (string_bytes text.new ≡ string_bytes text.old ++ term_line name.now control.now.term control.now.leader) }
{
    let term = control.term();
    let leader = leader_word(control.leader());
    write!(text, "{name} term={term} lead={leader}\n")?;
    Ok(())
}

// Appends the lines of a controller whose pair has so many in-edges.
#[tactic(auto, using(crate::proofs::Below::lines_next))]
pub(crate) fn push_controller(
    text: &mut String,
    name: &str,
    control: &PairControl,
    edges: u32,
) -> Result<(), OutOfMemory>
    requires { edges ≡ length control.now.acked }
    ensures { OnOk result (string_bytes text.new ≡ string_bytes text.old ++ controller_text name.now edges (numbers_of control.now)) }
{
    push_term(text, name, control)?;
    push_watched(text, name, control, Which::A)?;
    push_watched(text, name, control, Which::B)?;
    for edge in 0..edges {
        push_reports(text, name, control, edge)?;
    }
    Ok(())
}
