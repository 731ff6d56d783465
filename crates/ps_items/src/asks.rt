// What is asked of items.
ghost use Rattle.std.specs.Prelude.{◌≡◌};
ghost use Rattle.ps_items.specs.Chosen.{is_named_at};
ghost use Rattle.ps_types.specs.Items.{is_item_at, is_item_of};
ghost use Rattle.ps_types.specs.Rosters.{is_among};
ghost use Rattle.ps_rows.specs.Digests.{item_digest, node_digest};

use ps_rows::{Ask, item_digest, node_digest};
use ps_types::{ItemRow, NodeKey, Text};

/// The item of a node and an id.
#[derive(Drop)]
pub struct ItemOf<'a> {
    pub node: &'a NodeKey,
    pub id: &'a Text,
}

impl<'a> Ask<ItemRow> for ItemOf<'a> {
    ghost passes = { λ ask row. is_item_of ask.node.now ask.id.now row };

    ghost seeks = { λ seed ask. item_digest seed ask.node.now ask.id.now };

    fn passes(&self, row: &ItemRow) -> bool {
        self.node.is_same(&row.node) && *self.id == row.id
    }

    fn digest(&self, seed: u64) -> u64 {
        item_digest(seed, self.node, self.id)
    }
}

/// The items of a node.
#[derive(Drop)]
pub struct AtNode<'a> {
    pub node: &'a NodeKey,
}

impl<'a> Ask<ItemRow> for AtNode<'a> {
    ghost passes = { λ ask row. is_item_at ask.node.now row };

    ghost seeks = { λ seed ask. node_digest seed ask.node.now };

    fn passes(&self, row: &ItemRow) -> bool {
        self.node.is_same(&row.node)
    }

    fn digest(&self, seed: u64) -> u64 {
        node_digest(seed, self.node)
    }
}

/// The items of a node that have one of some ids.
#[derive(Drop)]
pub struct NamedAt<'a> {
    pub node: &'a NodeKey,
    pub ids: &'a [Text],
}

fn is_one_of(ids: &[Text], id: &Text) -> bool
    ensures { result ≡ is_among ids.now id.now }
{
    ids.iter().any(|other| *id == *other)
}

impl<'a> Ask<ItemRow> for NamedAt<'a> {
    ghost passes = { λ ask row. is_named_at ask.node.now ask.ids.now row };

    ghost seeks = { λ seed ask. node_digest seed ask.node.now };

    fn passes(&self, row: &ItemRow) -> bool {
        self.node.is_same(&row.node) && is_one_of(self.ids, &row.id)
    }

    fn digest(&self, seed: u64) -> u64 {
        node_digest(seed, self.node)
    }
}
