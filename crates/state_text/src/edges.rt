// The lines of edges.
ghost use Rattle.flux_producer.specs.ProducerView.{cursor_at};
ghost use Rattle.node_edges.specs.OutEdges.{copy_of};
ghost use Rattle.state_text.specs.Shown.{consumer_numbers, in_edges_shown, made_in, out_edges_shown, producer_numbers};
ghost use Rattle.state_text.specs.StateText.{cursors_text, ends_of, in_edge_line, out_edge_line};
ghost use Rattle.std.specs.Prelude.{◌≡◌, ◌<◌, ◌++◌, OnOk, length, string_bytes};

use flux_consumer::Consumer;
use flux_producer::Producer;
use tuple_edge::OutOfMemory;

// Appends the line of an in-edge.
fn push_in_edge(
    text: &mut String,
    name: &str,
    consumer: &Consumer,
    edge: u32,
) -> Result<(), OutOfMemory>
    requires { edge < length consumer.now.merge.marks }
    ensures { OnOk result (string_bytes text.new ≡ string_bytes text.old ++ in_edge_line name.now (consumer_numbers consumer.now) edge) }
{
    let mark = consumer.merge().mark(edge);
    let told = consumer.told(edge);
    write!(text, "{name} < {edge} mark={mark} told={told}\n")?;
    Ok(())
}

// Appends the lines of all in-edges of a node.
#[tactic(auto, using(crate::proofs::Below::lines_next))]
pub(crate) fn push_in_edges(
    text: &mut String,
    name: &str,
    consumer: &Consumer,
) -> Result<(), OutOfMemory>
    ensures { OnOk result (string_bytes text.new ≡ string_bytes text.old ++ in_edges_shown name.now consumer.now) }
{
    let edges = consumer.merge().edges();
    for edge in 0..edges {
        push_in_edge(text, name, consumer, edge)?;
    }
    Ok(())
}

// Appends the number to send next to each replica at the other end of an out-edge.
fn push_cursors(text: &mut String, producer: &Producer, to: u32) -> Result<(), OutOfMemory>
    requires { to < length producer.now.edges }
    ensures { OnOk result (string_bytes text.new ≡ string_bytes text.old
        ++ cursors_text (λ w. cursor_at producer.now to (copy_of w)) (ends_of producer.now.copies)) }
{
    let copies = producer.copies();
    let a = producer.cursor(to, 0);
    write!(text, " a={a}")?;
    if copies == 1 {
        return Ok(());
    }
    let b = producer.cursor(to, 1);
    write!(text, " b={b}")?;
    Ok(())
}

// Appends the line of an out-edge.
fn push_out_edge(
    text: &mut String,
    name: &str,
    producer: &Producer,
    to: u32,
) -> Result<(), OutOfMemory>
    requires { to < length producer.now.edges }
    ensures { OnOk result (string_bytes text.new ≡ string_bytes text.old
        ++ out_edge_line name.now (ends_of producer.now.copies) (made_in producer.now) (producer_numbers producer.now) to) }
{
    let low = producer.buffer(to).low();
    let made = producer.buffer(to).produced();
    write!(text, "{name} > {to} low={low} made={made}")?;
    push_cursors(text, producer, to)?;
    text.push_str("\n")?;
    Ok(())
}

// Appends the lines of all out-edges of a node.
#[tactic(auto, using(crate::proofs::Below::lines_next))]
pub(crate) fn push_out_edges(
    text: &mut String,
    name: &str,
    producer: &Producer,
) -> Result<(), OutOfMemory>
    ensures { OnOk result (string_bytes text.new ≡ string_bytes text.old ++ out_edges_shown name.now producer.now) }
{
    let edges = producer.edges();
    for to in 0..edges {
        push_out_edge(text, name, producer, to)?;
    }
    Ok(())
}
