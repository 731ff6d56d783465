// A row of which the digest is always the same, and what is asked of such rows.
ghost use Rattle.std.specs.Prelude.{◌≡◌, ◌&&◌, nat_eq};
ghost use Rattle.ps_collision_tests.specs.Lump.{lump_by, lump_kin, lump_kin_is};

use ps_rows::{Ask, Index, Row};

/// A row of a group.
#[derive(Clone, Drop)]
pub struct Lump {
    pub group: u64,
    pub key: u64,
}

impl Row for Lump {
    ghost by = { lump_by };

    ghost kin = { lump_kin };

    fn digest(&self, _seed: u64, _index: Index) -> u64 {
        7
    }

    fn is_kin(&self, other: &Lump) -> bool {
        self.group == other.group
    }

    ghost kin_is = { lump_kin_is };
}

impl Ask<Lump> for Lump {
    ghost passes = { λ ask row. nat_eq ask.group row.group && nat_eq ask.key row.key };

    ghost seeks = { λ seed ask. 7 };

    fn passes(&self, row: &Lump) -> bool {
        self.group == row.group && self.key == row.key
    }

    fn digest(&self, _seed: u64) -> u64 {
        7
    }
}

/// The rows of a group.
#[derive(Drop)]
pub struct InGroup {
    pub group: u64,
}

impl Ask<Lump> for InGroup {
    ghost passes = { λ ask row. nat_eq ask.group row.group };

    ghost seeks = { λ seed ask. 7 };

    fn passes(&self, row: &Lump) -> bool {
        self.group == row.group
    }

    fn digest(&self, _seed: u64) -> u64 {
        7
    }
}
