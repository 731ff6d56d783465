// What is asked of counts.
ghost use Rattle.std.specs.Prelude.{◌≡◌};
ghost use Rattle.ps_types.specs.Counts.{is_count_of, is_count_at};
ghost use Rattle.ps_rows.specs.Digests.{bare_at_digest, node_digest};

use ps_rows::{Ask, bare_at_digest, node_digest};
use ps_types::{CountRow, Jid, NodeKey};

/// The count of a node and a bare address.
#[derive(Drop)]
pub struct CountOf<'a> {
    pub node: &'a NodeKey,
    pub who: &'a Jid,
}

impl<'a> Ask<CountRow> for CountOf<'a> {
    ghost passes = { λ ask row. is_count_of ask.node.now ask.who.now row };

    ghost seeks = { λ seed ask. bare_at_digest seed ask.node.now ask.who.now };

    fn passes(&self, row: &CountRow) -> bool {
        self.node.is_same(&row.node) && self.who.same_bare(&row.who)
    }

    fn digest(&self, seed: u64) -> u64 {
        bare_at_digest(seed, self.node, self.who)
    }
}

/// The counts of a node.
#[derive(Drop)]
pub struct AtNode<'a> {
    pub node: &'a NodeKey,
}

impl<'a> Ask<CountRow> for AtNode<'a> {
    ghost passes = { λ ask row. is_count_at ask.node.now row };

    ghost seeks = { λ seed ask. node_digest seed ask.node.now };

    fn passes(&self, row: &CountRow) -> bool {
        self.node.is_same(&row.node)
    }

    fn digest(&self, seed: u64) -> u64 {
        node_digest(seed, self.node)
    }
}
