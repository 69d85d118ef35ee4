// The lanes, the rank, the letter, the name and the weight of a happening.
ghost use Rattle.pair_machine.specs.Numbers.{is_node};
ghost use Rattle.run_timeline.specs.Signs.{is_of, letter_of, name_of, rank_of, stands_in, weight_of};
ghost use Rattle.std.specs.Prelude.{◌≡◌};

use lane_chart::Weight;
use run_watch::Happening;
use tuple_edge::NodeId;

// Whether two nodes are one.
fn is_node(one: NodeId, another: NodeId) -> bool
    ensures { result ≡ is_node one another }
{
    one == another
}

// Whether a node is a replica of a pair.
fn is_of(at: u32, of: u32, node: NodeId) -> bool
    ensures { result ≡ is_of at of node }
{
    match node {
        NodeId::Replica { stage, part, .. } => stage == at && part == of,
        NodeId::Ingress | NodeId::Control { .. } | NodeId::Egress => false,
    }
}

// Whether a happening stands in the lane of a node; one of a pair stands in those of both its replicas.
pub(crate) fn stands_in(lane: NodeId, happening: Happening) -> bool
    ensures { result ≡ stands_in lane happening }
{
    match happening {
        Happening::Failed { node, .. }
        | Happening::Stopped { node, .. }
        | Happening::AskedStop { node, .. }
        | Happening::AskedBack { node }
        | Happening::Named { node, .. }
        | Happening::Leads { node, .. }
        | Happening::Recalled { node, .. }
        | Happening::Begun { node, .. }
        | Happening::Moved { node, .. }
        | Happening::CaughtUp { node, .. } => is_node(node, lane),
        Happening::Lost { stage, part } | Happening::Regained { stage, part } => {
            is_of(stage, part, lane)
        }
    }
}

// How heavy a kind of happening is, 0 the heaviest: its place in the key.
pub(crate) fn rank_of(happening: Happening) -> u8
    ensures { result ≡ rank_of happening }
{
    match happening {
        Happening::Lost { .. } => 0,
        Happening::Failed { .. } => 1,
        Happening::Named { .. } => 2,
        Happening::Leads { .. } => 3,
        Happening::Regained { .. } => 4,
        Happening::AskedStop { .. } => 5,
        Happening::Stopped { .. } => 6,
        Happening::AskedBack { .. } => 7,
        Happening::Recalled { .. } => 8,
        Happening::Begun { .. } => 9,
        Happening::Moved { .. } => 10,
        Happening::CaughtUp { .. } => 11,
    }
}

// The letter of a kind of happening.
pub(crate) fn letter_of(happening: Happening) -> &'static str
    ensures { result.now ≡ letter_of happening }
{
    match happening {
        Happening::Failed { .. } => "X",
        Happening::Stopped { .. } => "S",
        Happening::AskedStop { .. } => "A",
        Happening::AskedBack { .. } => "B",
        Happening::Named { .. } => "N",
        Happening::Leads { .. } => "L",
        Happening::Recalled { .. } => "R",
        Happening::Begun { .. } => "G",
        Happening::Moved { .. } => "M",
        Happening::CaughtUp { .. } => "C",
        Happening::Lost { .. } => "!",
        Happening::Regained { .. } => "O",
    }
}

/// The name of a kind of happening.
pub fn name_of(happening: Happening) -> &'static str
    ensures { result.now ≡ name_of happening }
{
    match happening {
        Happening::Failed { .. } => "failed",
        Happening::Stopped { .. } => "stopped",
        Happening::AskedStop { .. } => "asked to stop",
        Happening::AskedBack { .. } => "asked back",
        Happening::Named { .. } => "named leader",
        Happening::Leads { .. } => "takes the lead",
        Happening::Recalled { .. } => "recalled",
        Happening::Begun { .. } => "gathers state",
        Happening::Moved { .. } => "gave its state",
        Happening::CaughtUp { .. } => "caught up",
        Happening::Lost { .. } => "pair lost",
        Happening::Regained { .. } => "pair serves",
    }
}

// How much a kind of happening weighs.
pub(crate) fn weight_of(happening: Happening) -> Weight
    ensures { result ≡ weight_of happening }
{
    match happening {
        Happening::Failed { .. } | Happening::Lost { .. } => Weight::Alarm,
        Happening::Named { .. } | Happening::Leads { .. } | Happening::Regained { .. } => {
            Weight::Turn
        }
        Happening::Stopped { .. }
        | Happening::AskedStop { .. }
        | Happening::AskedBack { .. }
        | Happening::Recalled { .. }
        | Happening::Begun { .. }
        | Happening::Moved { .. }
        | Happening::CaughtUp { .. } => Weight::Note,
    }
}
