// What a resource wants.
ghost use Rattle.std.specs.Prelude.{◌≡◌};
ghost use Rattle.ps_filter.specs.Keys.{want_by, want_kin, want_kin_is};

use ps_rows::{Index, Row, jid_digest, text_digest};
use ps_types::{Jid, Text};

/// A resource wants the events of nodes of this name.
#[derive(Clone, Drop)]
pub struct Want {
    pub who: Jid,
    pub name: Text,
}

impl Row for Want {
    ghost by = { want_by };

    ghost kin = { want_kin };

    fn digest(&self, seed: u64, index: Index) -> u64 {
        match index {
            Index::Key => jid_digest(seed, &self.who),
            Index::Node => text_digest(seed, &self.name),
            Index::Bare => text_digest(seed, &self.who.host),
        }
    }

    fn is_kin(&self, other: &Want) -> bool {
        self.name == other.name
    }

    ghost kin_is = { want_kin_is };
}
