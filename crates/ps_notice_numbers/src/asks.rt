// What is kept as rows, and what is asked of them.
ghost use Rattle.std.specs.Prelude.{◌≡◌};
ghost use Rattle.ps_model.specs.Tallies.{is_tally_of};
ghost use Rattle.ps_rows.specs.Digests.{bare_digest};

use ps_rows::{Ask, Index, Row, bare_digest};
use ps_types::{Jid, TallyRow};
use std::alloc::AllocError;
use std::marker::Model;

/// The numbers of a bare address, found by it.
#[derive(Drop)]
pub struct Tally {
    pub row: TallyRow,
}

impl Model for Tally {
    ghost use Rattle.ps_types.specs.declared.rows.TallyRow.{TallyRow};

    ghost Value = { TallyRow };

    ghost view = { λ t. t.row };
}

impl Clone for Tally {
    ghost is_clone = { λ a b. b ≡ a };

    fn clone(&self) -> Result<Tally, AllocError> {
        Ok(Tally {
            row: self.row.clone()?,
        })
    }
}

impl Row for Tally {
    ghost use Rattle.ps_notice_numbers.specs.Keys.{tally_by, tally_kin, tally_kin_is};

    ghost by = { tally_by };

    ghost kin = { tally_kin };

    fn digest(&self, seed: u64, index: Index) -> u64 {
        match index {
            Index::Key => bare_digest(seed, &self.row.who),
            Index::Node => bare_digest(seed, &self.row.who),
            Index::Bare => 0,
        }
    }

    fn is_kin(&self, other: &Tally) -> bool {
        self.row.who.same_bare(&other.row.who)
    }

    ghost kin_is = { tally_kin_is };
}

impl Ask<Tally> for Tally {
    ghost passes = { λ ask row. is_tally_of ask.who row };

    ghost seeks = { λ seed ask. bare_digest seed ask.who };

    fn passes(&self, row: &Tally) -> bool {
        self.row.who.same_bare(&row.row.who)
    }

    fn digest(&self, seed: u64) -> u64 {
        bare_digest(seed, &self.row.who)
    }
}

/// The numbers of a bare address.
#[derive(Drop)]
pub(crate) struct TallyOf<'a> {
    pub(crate) who: &'a Jid,
}

impl<'a> Ask<Tally> for TallyOf<'a> {
    ghost passes = { λ ask row. is_tally_of ask.who.now row };

    ghost seeks = { λ seed ask. bare_digest seed ask.who.now };

    fn passes(&self, row: &Tally) -> bool {
        self.who.same_bare(&row.row.who)
    }

    fn digest(&self, seed: u64) -> u64 {
        bare_digest(seed, self.who)
    }
}
