// What is asked of contacts.
ghost use Rattle.std.specs.Prelude.{◌≡◌};
ghost use Rattle.ps_types.specs.Rosters.{is_contact_of, is_contact_at};
ghost use Rattle.ps_rows.specs.Digests.{bare_digest, pair_digest};

use ps_rows::{Ask, bare_digest, pair_digest};
use ps_types::{Jid, RosterRow};

/// The contact of an account.
#[derive(Drop)]
pub struct ContactOf<'a> {
    pub account: &'a Jid,
    pub contact: &'a Jid,
}

impl<'a> Ask<RosterRow> for ContactOf<'a> {
    ghost passes = { λ ask row. is_contact_of ask.account.now ask.contact.now row };

    ghost seeks = { λ seed ask. pair_digest seed ask.account.now ask.contact.now };

    fn passes(&self, row: &RosterRow) -> bool {
        self.account.same_bare(&row.account) && self.contact.same_bare(&row.contact)
    }

    fn digest(&self, seed: u64) -> u64 {
        pair_digest(seed, self.account, self.contact)
    }
}

/// The contacts of an account.
#[derive(Drop)]
pub struct OfAccount<'a> {
    pub account: &'a Jid,
}

impl<'a> Ask<RosterRow> for OfAccount<'a> {
    ghost passes = { λ ask row. is_contact_at ask.account.now row };

    ghost seeks = { λ seed ask. bare_digest seed ask.account.now };

    fn passes(&self, row: &RosterRow) -> bool {
        self.account.same_bare(&row.account)
    }

    fn digest(&self, seed: u64) -> u64 {
        bare_digest(seed, self.account)
    }
}
