// What is asked of resources and of capability strings.
ghost use Rattle.std.specs.Prelude.{◌≡◌};
ghost use Rattle.ps_types.specs.Resources.{is_resource_of, is_resource_at, is_resource_on};
ghost use Rattle.ps_types.specs.Vers.{is_ver_of};
ghost use Rattle.ps_rows.specs.Digests.{bare_digest, jid_digest, text_digest};

use ps_rows::{Ask, bare_digest, jid_digest, text_digest};
use ps_types::{Jid, ResourceRow, Text, VerRow};

/// The resource of an address.
#[derive(Drop)]
pub struct ResourceOf<'a> {
    pub who: &'a Jid,
}

impl<'a> Ask<ResourceRow> for ResourceOf<'a> {
    ghost passes = { λ ask row. is_resource_of ask.who.now row };

    ghost seeks = { λ seed ask. jid_digest seed ask.who.now };

    fn passes(&self, row: &ResourceRow) -> bool {
        self.who.is_same(&row.who)
    }

    fn digest(&self, seed: u64) -> u64 {
        jid_digest(seed, self.who)
    }
}

/// The resources of a bare address.
#[derive(Drop)]
pub struct OfBare<'a> {
    pub who: &'a Jid,
}

impl<'a> Ask<ResourceRow> for OfBare<'a> {
    ghost passes = { λ ask row. is_resource_at ask.who.now row };

    ghost seeks = { λ seed ask. bare_digest seed ask.who.now };

    fn passes(&self, row: &ResourceRow) -> bool {
        self.who.same_bare(&row.who)
    }

    fn digest(&self, seed: u64) -> u64 {
        bare_digest(seed, self.who)
    }
}

/// The resources of a host.
#[derive(Drop)]
pub struct OnHost<'a> {
    pub host: &'a Text,
}

impl<'a> Ask<ResourceRow> for OnHost<'a> {
    ghost passes = { λ ask row. is_resource_on ask.host.now row };

    ghost seeks = { λ seed ask. text_digest seed ask.host.now };

    fn passes(&self, row: &ResourceRow) -> bool {
        *self.host == row.who.host
    }

    fn digest(&self, seed: u64) -> u64 {
        text_digest(seed, self.host)
    }
}

/// The row of a capability string.
#[derive(Drop)]
pub struct VerOf<'a> {
    pub ver: &'a Text,
}

impl<'a> Ask<VerRow> for VerOf<'a> {
    ghost passes = { λ ask row. is_ver_of ask.ver.now row };

    ghost seeks = { λ seed ask. text_digest seed ask.ver.now };

    fn passes(&self, row: &VerRow) -> bool {
        *self.ver == row.ver
    }

    fn digest(&self, seed: u64) -> u64 {
        text_digest(seed, self.ver)
    }
}
