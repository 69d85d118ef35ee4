// The lines of the links that have packets.
ghost use Rattle.flux_core.specs.CoreView.{flow_in};
ghost use Rattle.flux_core.specs.Stands.{StandsFor};
ghost use Rattle.pair_machine.specs.Links.{link};
ghost use Rattle.pair_machine.specs.Machine.{State};
ghost use Rattle.pair_machine.specs.Numbers.{is_node};
ghost use Rattle.plan_reader.specs.Nodes.{has_node};
ghost use Rattle.state_text.specs.Counted.{AreCounted, count_in, links_shown};
ghost use Rattle.plan_nodes.specs.NodeOrder.{nodes_in};
ghost use Rattle.state_text.specs.StateText.{sent_by_text, sent_line};
ghost use Rattle.run_journal.specs.Text.{link_name};
ghost use Rattle.std.specs.Fmt.{decimal};
ghost use Rattle.std.specs.List.{flat_map};
ghost use Rattle.std.specs.Prelude.{◌≡◌, ◌<◌, ◌+◌, ◌++◌, ◌^◌, All, IfOk, IsTrue, OnOk, codes, if◌then◌else◌, length, string_bytes, take};
ghost use Rattle.tuple_edge.specs.declared.node.NodeId.{NodeId as Node};

use flux_core::Core;
use plan_nodes::nodes_of;
use run_journal::push_node;
use std::alloc::Global;
use std::collections::BTreeMap;
use tuple_edge::{NodeId, OutOfMemory, Outbox};

// How many packets to a receiver were counted.
fn count_of(counts: &BTreeMap<NodeId, usize>, to: NodeId) -> usize
    ensures { result ≡ count_in counts.now to }
{
    counts.get(&to).copied().unwrap_or(0)
}

// Counts a packet for its receiver.
fn count_packet(counts: &mut BTreeMap<NodeId, usize>, to: NodeId) -> Result<(), OutOfMemory>
    requires { count_in counts.old to + 1 < 2 ^ 64 }
    ensures { OnOk result ((q : Node) → count_in counts.new q ≡ count_in counts.old q + (if is_node to q then 1 else 0)) }
{
    let before = count_of(counts, to);
    counts.insert(to, before + 1)?;
    Ok(())
}

// Counts the next packet of a log.
fn count_next(
    counts: &mut BTreeMap<NodeId, usize>,
    log: &Outbox,
    nth: usize,
) -> Result<(), OutOfMemory>
    requires counted { AreCounted counts.old (take nth log.now.packets) }
    requires next { nth < length log.now.packets }
    requires fits { nth + 1 < 2 ^ 64 }
    ensures { OnOk result (AreCounted counts.new (take (nth + 1) log.now.packets)) }
{
    let Some((to, _body)) = log.get(nth) else {
        unreachable!()
    };
    count_packet(counts, to)?;
    Ok(())
}

// How many packets of a log went to each receiver.
fn counts_of(alloc: Global, log: &Outbox) -> Result<BTreeMap<NodeId, usize>, OutOfMemory>
    ensures { IfOk result (λ counts. AreCounted counts log.now.packets) }
{
    let mut counts = BTreeMap::new(alloc);
    for nth in 0..log.len() {
        count_next(&mut counts, log, nth)?;
    }
    Ok(counts)
}

// Appends the name of a link.
fn push_link_name(text: &mut String, from: NodeId, to: NodeId) -> Result<(), OutOfMemory>
    ensures { OnOk result (string_bytes text.new ≡ string_bytes text.old ++ link_name (link from to)) }
{
    push_node(text, from)?;
    text.push_str(">")?;
    push_node(text, to)?;
    Ok(())
}

// Appends the line of a link that has packets.
fn push_packets(
    text: &mut String,
    from: NodeId,
    to: NodeId,
    packets: usize,
) -> Result<(), OutOfMemory>
    ensures { OnOk result (string_bytes text.new ≡ string_bytes text.old
        ++ (codes "sent " ++ link_name (link from to) ++ codes " " ++ decimal packets ++ codes "\n")) }
{
    text.push_str("sent ")?;
    push_link_name(text, from, to)?;
    write!(text, " {packets}\n")?;
    Ok(())
}

// Appends the line of a link, where it has packets.
#[tactic(auto, using(crate::proofs::Counting::sent_some))]
fn push_link(
    text: &mut String,
    counts: &BTreeMap<NodeId, usize>,
    from: NodeId,
    to: NodeId,
) -> Result<(), OutOfMemory>
    ensures { OnOk result (string_bytes text.new ≡ string_bytes text.old ++ sent_line (link from to) (count_in counts.now to)) }
{
    let packets = count_of(counts, to);
    if packets == 0 {
        return Ok(());
    }
    push_packets(text, from, to, packets)?;
    Ok(())
}

// Appends the lines of the links out of a node, whose packets to each node are counted.
fn push_counted(
    text: &mut String,
    counts: &BTreeMap<NodeId, usize>,
    from: NodeId,
    nodes: &[NodeId],
) -> Result<(), OutOfMemory>
    ensures { OnOk result (string_bytes text.new ≡ string_bytes text.old ++ flat_map (λ to. sent_line (link from to) (count_in counts.now to)) nodes.now) }
{
    for to in nodes {
        push_link(text, counts, from, *to)?;
    }
    Ok(())
}

// Appends the lines of the links out of a node to these nodes.
fn push_sent_by(
    text: &mut String,
    alloc: Global,
    core: &Core,
    from: NodeId,
    nodes: &[NodeId],
) -> Result<(), OutOfMemory>
    requires { IsTrue (has_node core.now.plan from) }
    ensures { OnOk result (string_bytes text.new ≡ string_bytes text.old ++ links_shown core.now nodes.now from) }
{
    let counts = counts_of(alloc, core.sent_by(from))?;
    push_counted(text, &counts, from, nodes)?;
    Ok(())
}

// Appends the lines of all links between these nodes, by their senders and then by their receivers.
fn push_between(
    text: &mut String,
    alloc: Global,
    core: &Core,
    nodes: &[NodeId],
) -> Result<(), OutOfMemory>
    requires { All (λ n. IsTrue (has_node core.now.plan n)) nodes.now }
    ensures { OnOk result (string_bytes text.new ≡ string_bytes text.old ++ flat_map (links_shown core.now nodes.now) nodes.now) }
{
    for from in nodes {
        push_sent_by(text, alloc, core, *from, nodes)?;
    }
    Ok(())
}

// Appends the lines of all links.
pub(crate) fn push_links(text: &mut String, alloc: Global, core: &Core) -> Result<(), OutOfMemory>
    ensures { OnOk result ((s : State) → StandsFor core.now s
        → string_bytes text.new ≡ string_bytes text.old ++ flat_map (sent_by_text (flow_in core.now) s) (nodes_in (flow_in core.now))) }
{
    let nodes = nodes_of(alloc, core.plan())?;
    push_between(text, alloc, core, &nodes)?;
    Ok(())
}
