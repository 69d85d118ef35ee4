// The title of the mark of a happening.
ghost use Rattle.run_timeline.specs.Said.{title_of, where_said};
ghost use Rattle.std.specs.Fmt.{decimal};
ghost use Rattle.std.specs.Prelude.{◌≡◌, ◌++◌, IfOk, OnOk, string_bytes};

use crate::signs::name_of;
use run_journal::push_node;
use run_watch::Told;
use std::alloc::Global;
use tuple_edge::{NodeId, OutOfMemory};

// Appends a word, and a number behind it.
fn push_number(text: &mut String, word: &str, number: u64) -> Result<(), OutOfMemory>
    ensures { OnOk result (string_bytes text.new ≡ string_bytes text.old ++ (word.now ++ decimal number)) }
{
    write!(text, "{word}{number}")?;
    Ok(())
}

// Appends where it happened.
fn push_where(text: &mut String, told: &Told) -> Result<(), OutOfMemory>
    ensures { OnOk result (string_bytes text.new ≡ string_bytes text.old ++ where_said told.now) }
{
    push_number(text, " at event ", told.place)?;
    push_number(text, " line ", told.line)?;
    push_number(text, " in ", told.made)?;
    push_number(text, " out ", told.emitted)
}

// Appends the title of the mark of a happening.
#[tactic(auto, unfolding(crate::specs::Said::title_of))]
fn push_title(text: &mut String, lane: NodeId, told: &Told) -> Result<(), OutOfMemory>
    ensures { OnOk result (string_bytes text.new ≡ string_bytes text.old ++ title_of lane told.now) }
{
    push_node(text, lane)?;
    text.push_str(": ")?;
    text.push_str(name_of(told.happening))?;
    push_where(text, told)
}

// The title of the mark of a happening that is told, in the lane of a node.
pub(crate) fn title_of(alloc: Global, lane: NodeId, told: &Told) -> Result<String, OutOfMemory>
    ensures { IfOk result (λ title. string_bytes title ≡ title_of lane told.now) }
{
    let mut text = String::new(alloc);
    push_title(&mut text, lane, told)?;
    Ok(text)
}
