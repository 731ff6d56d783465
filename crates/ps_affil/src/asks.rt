// What is asked of affiliations.
ghost use Rattle.std.specs.Prelude.{◌≡◌};
ghost use Rattle.ps_types.specs.Affils.{is_affil_of, is_affil_at, is_affil_by, is_owner};
ghost use Rattle.ps_affil.specs.Among.{is_among, is_other_owner};
ghost use Rattle.ps_rows.specs.Digests.{bare_at_digest, bare_digest, node_digest};

use crate::affils::Affils;
use ps_rows::{Ask, bare_at_digest, bare_digest, node_digest};
use ps_types::{Affil, AffilRow, Jid, NodeKey};

fn is_owner(affil: Affil) -> bool
    ensures { result ≡ is_owner affil }
{
    matches!(affil, Affil::Owner)
}

/// The affiliation of a node and a bare address.
#[derive(Drop)]
pub struct AffilOf<'a> {
    pub node: &'a NodeKey,
    pub who: &'a Jid,
}

impl<'a> Ask<AffilRow> for AffilOf<'a> {
    ghost passes = { λ ask row. is_affil_of ask.node.now ask.who.now row };

    ghost seeks = { λ seed ask. bare_at_digest seed ask.node.now ask.who.now };

    fn passes(&self, row: &AffilRow) -> bool {
        self.node.is_same(&row.node) && self.who.same_bare(&row.who)
    }

    fn digest(&self, seed: u64) -> u64 {
        bare_at_digest(seed, self.node, self.who)
    }
}

/// The affiliations of a node.
#[derive(Drop)]
pub struct AtNode<'a> {
    pub node: &'a NodeKey,
}

impl<'a> Ask<AffilRow> for AtNode<'a> {
    ghost passes = { λ ask row. is_affil_at ask.node.now row };

    ghost seeks = { λ seed ask. node_digest seed ask.node.now };

    fn passes(&self, row: &AffilRow) -> bool {
        self.node.is_same(&row.node)
    }

    fn digest(&self, seed: u64) -> u64 {
        node_digest(seed, self.node)
    }
}

/// The affiliations of a bare address.
#[derive(Drop)]
pub struct Held<'a> {
    pub who: &'a Jid,
}

impl<'a> Ask<AffilRow> for Held<'a> {
    ghost passes = { λ ask row. is_affil_by ask.who.now row };

    ghost seeks = { λ seed ask. bare_digest seed ask.who.now };

    fn passes(&self, row: &AffilRow) -> bool {
        self.who.same_bare(&row.who)
    }

    fn digest(&self, seed: u64) -> u64 {
        bare_digest(seed, self.who)
    }
}

/// The affiliations at a node of addresses of which others have a row there.
#[derive(Drop)]
pub struct Among<'a> {
    pub node: &'a NodeKey,
    pub others: &'a Affils,
}

impl<'a> Ask<AffilRow> for Among<'a> {
    ghost passes = { λ ask row. is_among ask.node.now ask.others.now.rows row };

    ghost seeks = { λ seed ask. node_digest seed ask.node.now };

    fn passes(&self, row: &AffilRow) -> bool {
        self.node.is_same(&row.node) && self.others.row_of(self.node, &row.who).is_some()
    }

    fn digest(&self, seed: u64) -> u64 {
        node_digest(seed, self.node)
    }
}

/// An owner's affiliation at a node, but of an address of which others have a row there.
#[derive(Drop)]
pub struct OtherOwner<'a> {
    pub node: &'a NodeKey,
    pub others: &'a Affils,
}

impl<'a> Ask<AffilRow> for OtherOwner<'a> {
    ghost passes = { λ ask row. is_other_owner ask.node.now ask.others.now.rows row };

    ghost seeks = { λ seed ask. node_digest seed ask.node.now };

    fn passes(&self, row: &AffilRow) -> bool {
        let here = self.node.is_same(&row.node);
        !(here && self.others.row_of(self.node, &row.who).is_some())
            && (here && is_owner(row.affil))
    }

    fn digest(&self, seed: u64) -> u64 {
        node_digest(seed, self.node)
    }
}
