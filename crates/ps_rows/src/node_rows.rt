// By what the rows of nodes are found.
ghost use Rattle.std.specs.Prelude.{◌≡◌};
ghost use Rattle.ps_types.specs.Affils.{is_affil_of};
ghost use Rattle.ps_types.specs.Subs.{is_sub_of};
ghost use Rattle.ps_types.specs.Counts.{is_count_of};
ghost use Rattle.ps_rows.specs.Digests.{bare_at_digest, jid_at_digest};
ghost use Rattle.ps_rows.specs.RowKeys.{item_by, item_kin, item_kin_is, affil_by, affil_kin, affil_kin_is, sub_by, sub_kin, sub_kin_is, count_by, count_kin, count_kin_is, link_by, link_kin, link_kin_is, node_by, node_kin, node_kin_is};

use crate::digests::{bare_at_digest, bare_digest, item_digest, jid_at_digest, node_digest};
use crate::index::Index;
use crate::row::{Ask, Row};
use ps_types::{AffilRow, CountRow, ItemRow, LinkRow, NodeRow, SubRow};

impl Row for ItemRow {
    ghost by = { item_by };

    ghost kin = { item_kin };

    fn digest(&self, seed: u64, index: Index) -> u64 {
        match index {
            Index::Key => item_digest(seed, &self.node, &self.id),
            Index::Node => node_digest(seed, &self.node),
            Index::Bare => 0,
        }
    }

    fn is_kin(&self, other: &ItemRow) -> bool {
        self.node.is_same(&other.node)
    }

    ghost kin_is = { item_kin_is };
}

impl Row for AffilRow {
    ghost by = { affil_by };

    ghost kin = { affil_kin };

    fn digest(&self, seed: u64, index: Index) -> u64 {
        match index {
            Index::Key => bare_at_digest(seed, &self.node, &self.who),
            Index::Node => node_digest(seed, &self.node),
            Index::Bare => bare_digest(seed, &self.who),
        }
    }

    fn is_kin(&self, other: &AffilRow) -> bool {
        self.node.is_same(&other.node)
    }

    ghost kin_is = { affil_kin_is };
}

impl Ask<AffilRow> for AffilRow {
    ghost passes = { λ ask row. is_affil_of ask.node ask.who row };

    ghost seeks = { λ seed ask. bare_at_digest seed ask.node ask.who };

    fn passes(&self, row: &AffilRow) -> bool {
        self.node.is_same(&row.node) && self.who.same_bare(&row.who)
    }

    fn digest(&self, seed: u64) -> u64 {
        bare_at_digest(seed, &self.node, &self.who)
    }
}

impl Row for SubRow {
    ghost by = { sub_by };

    ghost kin = { sub_kin };

    fn digest(&self, seed: u64, index: Index) -> u64 {
        match index {
            Index::Key => jid_at_digest(seed, &self.node, &self.who),
            Index::Node => node_digest(seed, &self.node),
            Index::Bare => bare_digest(seed, &self.who),
        }
    }

    fn is_kin(&self, other: &SubRow) -> bool {
        self.node.is_same(&other.node)
    }

    ghost kin_is = { sub_kin_is };
}

impl Ask<SubRow> for SubRow {
    ghost passes = { λ ask row. is_sub_of ask.node ask.who row };

    ghost seeks = { λ seed ask. jid_at_digest seed ask.node ask.who };

    fn passes(&self, row: &SubRow) -> bool {
        self.node.is_same(&row.node) && self.who.is_same(&row.who)
    }

    fn digest(&self, seed: u64) -> u64 {
        jid_at_digest(seed, &self.node, &self.who)
    }
}

impl Row for CountRow {
    ghost by = { count_by };

    ghost kin = { count_kin };

    fn digest(&self, seed: u64, index: Index) -> u64 {
        match index {
            Index::Key => bare_at_digest(seed, &self.node, &self.who),
            Index::Node => node_digest(seed, &self.node),
            Index::Bare => 0,
        }
    }

    fn is_kin(&self, other: &CountRow) -> bool {
        self.node.is_same(&other.node)
    }

    ghost kin_is = { count_kin_is };
}

impl Ask<CountRow> for CountRow {
    ghost passes = { λ ask row. is_count_of ask.node ask.who row };

    ghost seeks = { λ seed ask. bare_at_digest seed ask.node ask.who };

    fn passes(&self, row: &CountRow) -> bool {
        self.node.is_same(&row.node) && self.who.same_bare(&row.who)
    }

    fn digest(&self, seed: u64) -> u64 {
        bare_at_digest(seed, &self.node, &self.who)
    }
}

impl Row for LinkRow {
    ghost by = { link_by };

    ghost kin = { link_kin };

    fn digest(&self, seed: u64, index: Index) -> u64 {
        match index {
            Index::Key => node_digest(seed, &self.child),
            Index::Node => node_digest(seed, &self.collection),
            Index::Bare => 0,
        }
    }

    fn is_kin(&self, other: &LinkRow) -> bool {
        self.collection.is_same(&other.collection)
    }

    ghost kin_is = { link_kin_is };
}

impl Row for NodeRow {
    ghost by = { node_by };

    ghost kin = { node_kin };

    fn digest(&self, seed: u64, index: Index) -> u64 {
        match index {
            Index::Key => node_digest(seed, &self.key),
            Index::Node => bare_digest(seed, &self.creator),
            Index::Bare => bare_digest(seed, &self.key.service),
        }
    }

    fn is_kin(&self, other: &NodeRow) -> bool {
        self.creator.same_bare(&other.creator)
    }

    ghost kin_is = { node_kin_is };
}
