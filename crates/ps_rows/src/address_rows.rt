// By what the rows of addresses and of capability strings are found.
ghost use Rattle.std.specs.Prelude.{◌≡◌};
ghost use Rattle.ps_types.specs.Rosters.{is_contact_of};
ghost use Rattle.ps_types.specs.Resources.{is_resource_of};
ghost use Rattle.ps_rows.specs.Digests.{jid_digest, pair_digest};
ghost use Rattle.ps_rows.specs.RowKeys.{roster_by, roster_kin, roster_kin_is, resource_by, resource_kin, resource_kin_is, ver_by, ver_kin, ver_kin_is};

use crate::digests::{bare_digest, jid_digest, pair_digest, text_digest};
use crate::index::Index;
use crate::row::{Ask, Row};
use ps_types::{ResourceRow, RosterRow, VerRow};

impl Row for RosterRow {
    ghost by = { roster_by };

    ghost kin = { roster_kin };

    fn digest(&self, seed: u64, index: Index) -> u64 {
        match index {
            Index::Key => pair_digest(seed, &self.account, &self.contact),
            Index::Node => bare_digest(seed, &self.account),
            Index::Bare => 0,
        }
    }

    fn is_kin(&self, other: &RosterRow) -> bool {
        self.account.same_bare(&other.account)
    }

    ghost kin_is = { roster_kin_is };
}

impl Ask<RosterRow> for RosterRow {
    ghost passes = { λ ask row. is_contact_of ask.account ask.contact row };

    ghost seeks = { λ seed ask. pair_digest seed ask.account ask.contact };

    fn passes(&self, row: &RosterRow) -> bool {
        self.account.same_bare(&row.account) && self.contact.same_bare(&row.contact)
    }

    fn digest(&self, seed: u64) -> u64 {
        pair_digest(seed, &self.account, &self.contact)
    }
}

impl Row for ResourceRow {
    ghost by = { resource_by };

    ghost kin = { resource_kin };

    fn digest(&self, seed: u64, index: Index) -> u64 {
        match index {
            Index::Key => jid_digest(seed, &self.who),
            Index::Node => bare_digest(seed, &self.who),
            Index::Bare => text_digest(seed, &self.who.host),
        }
    }

    fn is_kin(&self, other: &ResourceRow) -> bool {
        self.who.same_bare(&other.who)
    }

    ghost kin_is = { resource_kin_is };
}

impl Ask<ResourceRow> for ResourceRow {
    ghost passes = { λ ask row. is_resource_of ask.who row };

    ghost seeks = { λ seed ask. jid_digest seed ask.who };

    fn passes(&self, row: &ResourceRow) -> bool {
        self.who.is_same(&row.who)
    }

    fn digest(&self, seed: u64) -> u64 {
        jid_digest(seed, &self.who)
    }
}

impl Row for VerRow {
    ghost by = { ver_by };

    ghost kin = { ver_kin };

    fn digest(&self, seed: u64, index: Index) -> u64 {
        match index {
            Index::Key => text_digest(seed, &self.ver),
            Index::Node => text_digest(seed, &self.ver),
            Index::Bare => 0,
        }
    }

    fn is_kin(&self, other: &VerRow) -> bool {
        self.ver == other.ver
    }

    ghost kin_is = { ver_kin_is };
}
