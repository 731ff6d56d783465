// What is asked of links.
ghost use Rattle.std.specs.Prelude.{◌≡◌};
ghost use Rattle.ps_types.specs.Links.{is_link_of, is_link_to};
ghost use Rattle.ps_rows.specs.Digests.{node_digest};

use ps_rows::{Ask, node_digest};
use ps_types::{LinkRow, NodeKey};

/// The link of a child.
#[derive(Drop)]
pub struct ChildOf<'a> {
    pub child: &'a NodeKey,
}

impl<'a> Ask<LinkRow> for ChildOf<'a> {
    ghost passes = { λ ask row. is_link_of ask.child.now row };

    ghost seeks = { λ seed ask. node_digest seed ask.child.now };

    fn passes(&self, row: &LinkRow) -> bool {
        self.child.is_same(&row.child)
    }

    fn digest(&self, seed: u64) -> u64 {
        node_digest(seed, self.child)
    }
}

/// The links to a collection.
#[derive(Drop)]
pub struct Under<'a> {
    pub collection: &'a NodeKey,
}

impl<'a> Ask<LinkRow> for Under<'a> {
    ghost passes = { λ ask row. is_link_to ask.collection.now row };

    ghost seeks = { λ seed ask. node_digest seed ask.collection.now };

    fn passes(&self, row: &LinkRow) -> bool {
        self.collection.is_same(&row.collection)
    }

    fn digest(&self, seed: u64) -> u64 {
        node_digest(seed, self.collection)
    }
}
