// The lines of a node's events.
ghost use Rattle.std.specs.Prelude.{◌≡◌, ◌++◌, [], ◌∷◌, IfOk, IfSome, OnOk, codes, string_bytes};
ghost use Rattle.std.specs.Fmt.{decimal};
ghost use Rattle.tuple_edge.specs.declared.event.Event.TheVariants as event;
ghost use Rattle.text_words.specs.Text.{line_text};
ghost use Rattle.run_journal.specs.Text.{event_words};
ghost use Rattle.journal_writer.specs.Lines.{AreStarts, IsFrom, take_start};

use itoa::Buffer;
use run_journal::{push_event, push_node};
use std::alloc::Global;
use std::marker::Model;
use tuple_edge::{Event, NodeId, OutOfMemory};

/// How the lines of takes from a sender begin.
#[derive(Drop)]
pub(crate) struct Start {
    pub(crate) sender: NodeId,
    pub(crate) text: String,
}

/// The lines of a node's events. What comes again in many lines is made once and then copied.
#[derive(Drop)]
pub(crate) struct Lines {
    node: NodeId,
    work: String,
    starts: Vec<Start>,
    // The place of the sender from which it took last.
    near: usize,
}

impl Model for Lines {
    ghost use Rattle.std.specs.Prelude.{◌≡◌, string_bytes};
    ghost use Rattle.text_words.specs.Text.{line_text};
    ghost use Rattle.tuple_edge.specs.declared.event.Event.TheVariants as event;
    ghost use Rattle.tuple_edge.specs.declared.node.NodeId.{NodeId};
    ghost use Rattle.run_journal.specs.Text.{event_words};
    ghost use Rattle.journal_writer.specs.Lines.{AreStarts};

    ghost Value = { NodeId };

    ghost view = { λ l. l.node };

    ghost invariant = { λ l. (string_bytes l.work ≡ line_text (event_words (event.Work l.node))) × AreStarts l.node l.starts.items };
}

// The line of a piece of work.
fn work_line(alloc: Global, node: NodeId) -> Result<String, OutOfMemory>
    ensures { IfOk result (λ text. string_bytes text ≡ line_text (event_words (event.Work node))) }
{
    let mut text = String::new(alloc);
    push_event(&mut text, Event::Work { node })?;
    Ok(text)
}

// How the lines of takes begin.
fn start_text(alloc: Global, sender: NodeId, node: NodeId) -> Result<String, OutOfMemory>
    ensures { IfOk result (λ text. string_bytes text ≡ take_start sender node) }
{
    let mut text = String::new(alloc);
    text.push_str("take ")?;
    push_node(&mut text, sender)?;
    text.push_str(">")?;
    push_node(&mut text, node)?;
    text.push_str(" ")?;
    Ok(text)
}

// The place of a sender.
fn place_of(starts: &[Start], near: usize, sender: NodeId) -> Option<usize>
    ensures { IfSome result (λ place. IsFrom starts.now place sender) }
{
    if let Some(start) = starts.get(near) {
        if start.sender == sender {
            return Some(near);
        }
    }
    for place in 0..starts.len() {
        if starts[place].sender == sender {
            return Some(place);
        }
    }
    None
}

// Makes a place for a sender.
fn add_start(
    alloc: Global,
    starts: &mut Vec<Start>,
    sender: NodeId,
    node: NodeId,
) -> Result<usize, OutOfMemory>
    requires { AreStarts node starts.old.items }
    ensures starts { AreStarts node starts.new.items }
    ensures place { IfOk result (λ place. IsFrom starts.new.items place sender) }
{
    let place = starts.len();
    let text = start_text(alloc, sender, node)?;
    starts.push(Start { sender, text })?;
    Ok(place)
}

// Appends a line that begins so and ends with a number.
fn push_numbered(text: &mut String, start: &str, number: u64) -> Result<(), OutOfMemory>
    ensures { OnOk result (string_bytes text.new ≡ string_bytes text.old ++ (start.now ++ (decimal number ++ codes "\n"))) }
{
    let mut digits = Buffer::new();
    text.push_str(start)?;
    text.push_str(digits.format(number))?;
    text.push_str("\n")?;
    Ok(())
}

impl Lines {
    /// The lines of this node's events.
    pub(crate) fn new(alloc: Global, node: NodeId) -> Result<Lines, OutOfMemory>
        ensures { IfOk result (λ lines. lines ≡ node) }
    {
        let work = work_line(alloc, node)?;
        Ok(Lines {
            node,
            work,
            starts: Vec::new(alloc),
            near: 0,
        })
    }

    // Appends the line of a take by the node.
    fn push_take(
        &mut self,
        alloc: Global,
        text: &mut String,
        sender: NodeId,
        index: u64,
    ) -> Result<(), OutOfMemory>
        ensures node { self.new ≡ self.old }
        ensures text { OnOk result (string_bytes text.new ≡ string_bytes text.old ++ (take_start sender self.old ++ (decimal index ++ codes "\n"))) }
    {
        let place = match place_of(&self.starts, self.near, sender) {
            Some(place) => place,
            None => add_start(alloc, &mut self.starts, sender, self.node)?,
        };
        self.near = place;
        push_numbered(text, &self.starts[place].text, index)
    }

    /// Appends the line of an event.
    pub(crate) fn push(
        &mut self,
        alloc: Global,
        text: &mut String,
        event: Event,
    ) -> Result<(), OutOfMemory>
        ensures node { self.new ≡ self.old }
        ensures text { OnOk result (string_bytes text.new ≡ string_bytes text.old ++ line_text (event_words event)) }
    {
        match event {
            Event::Work { node } if node == self.node => {
                text.push_str(&self.work)?;
                Ok(())
            }
            Event::Take { link, index } if link.to == self.node => {
                self.push_take(alloc, text, link.from, index)
            }
            _ => push_event(text, event),
        }
    }
}
