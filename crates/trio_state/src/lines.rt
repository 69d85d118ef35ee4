// The line of one node of a group.
ghost use Rattle.std.specs.Prelude.{◌≡◌, ◌++◌, OnOk, string_bytes};
ghost use Rattle.trio_nodes.specs.ReplicaView.{node_of as replica_of};
ghost use Rattle.trio_nodes.specs.ControllerView.{node_of, numbers_of};
ghost use Rattle.trio_state.specs.GroupsText.{control_line, leader_word};
ghost use Rattle.trio_state.specs.Shown.{replica_shown};
ghost use Rattle.trio_text.specs.Text.{trio_node_name};

use trio_nodes::{TrioControl, TrioReplica};
use trio_text::push_trio_node;
use tuple_edge::OutOfMemory;

// Appends which replica leads.
fn push_leader(text: &mut String, leader: Option<u32>) -> Result<(), OutOfMemory>
    ensures { OnOk result (string_bytes text.new ≡ string_bytes text.old ++ leader_word leader) }
{
    match leader {
        None => text.push_str("none")?,
        Some(copy) => write!(text, "{copy}")?,
    }
    Ok(())
}

// Appends the line of a controller, under its name.
pub(crate) fn push_control(text: &mut String, control: &TrioControl) -> Result<(), OutOfMemory>
    ensures { OnOk result (string_bytes text.new ≡ string_bytes text.old ++ control_line (trio_node_name (node_of control.now)) (numbers_of control.now)) }
{
    push_trio_node(text, control.id())?;
    let term = control.term();
    write!(text, " term={term} lead=")?;
    push_leader(text, control.leader())?;
    text.push_str("\n")?;
    Ok(())
}

// Appends the line of a replica, under its name.
pub(crate) fn push_replica(text: &mut String, replica: &TrioReplica) -> Result<(), OutOfMemory>
    ensures { OnOk result (string_bytes text.new ≡ string_bytes text.old ++ replica_shown (trio_node_name (replica_of replica.now.role)) replica.now.running) }
{
    push_trio_node(text, replica.id())?;
    if replica.running() {
        let count = replica.count();
        write!(text, " running count={count}\n")?;
    } else {
        text.push_str(" gone\n")?;
    }
    Ok(())
}
