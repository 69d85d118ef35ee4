// The name of a node on the board.
ghost use Rattle.run_node.specs.NodeView.{NodeName, name_of};

use crate::draws::Draws;
use crate::links::Links;
use crate::names::RunNames;
use crate::node::Node;
use claim_board::Named;
use event_log::Keeps;
use node_tasks::Acts;

impl<N: RunNames, A: Acts, K: Keeps, M: Links, T: Draws> Named for Node<N, A, K, M, T> {
    ghost Name = { NodeName };

    ghost name = { λ n. name_of A.id n };
}
