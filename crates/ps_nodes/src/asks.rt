// What is asked of nodes, and how one is changed.
ghost use Rattle.std.specs.Prelude.{◌≡◌};
ghost use Rattle.ps_types.specs.Nodes.{is_made_by, is_node, with_config};
ghost use Rattle.ps_rows.specs.Digests.{bare_digest, node_digest};

use ps_rows::{Ask, Change, bare_digest, node_digest};
use ps_types::{Jid, NodeConfig, NodeKey, NodeRow};

/// The node of a key.
#[derive(Drop)]
pub struct NodeOf<'a> {
    pub node: &'a NodeKey,
}

impl<'a> Ask<NodeRow> for NodeOf<'a> {
    ghost passes = { λ ask row. is_node ask.node.now row };

    ghost seeks = { λ seed ask. node_digest seed ask.node.now };

    fn passes(&self, row: &NodeRow) -> bool {
        self.node.is_same(&row.key)
    }

    fn digest(&self, seed: u64) -> u64 {
        node_digest(seed, self.node)
    }
}

/// The nodes that a bare address made.
#[derive(Drop)]
pub struct MadeBy<'a> {
    pub who: &'a Jid,
}

impl<'a> Ask<NodeRow> for MadeBy<'a> {
    ghost passes = { λ ask row. is_made_by ask.who.now row };

    ghost seeks = { λ seed ask. bare_digest seed ask.who.now };

    fn passes(&self, row: &NodeRow) -> bool {
        self.who.same_bare(&row.creator)
    }

    fn digest(&self, seed: u64) -> u64 {
        bare_digest(seed, self.who)
    }
}

/// A configuration that a node is given.
#[derive(Drop)]
pub struct Given {
    pub config: NodeConfig,
}

impl Change<NodeRow> for Given {
    ghost makes = { λ given row. with_config given.config row };

    fn make(self, row: NodeRow) -> NodeRow {
        let Given { config } = self;
        let NodeRow {
            key,
            creator,
            config: _,
        } = row;
        NodeRow {
            key,
            creator,
            config,
        }
    }
}
