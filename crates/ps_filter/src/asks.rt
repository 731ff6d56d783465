// What is asked of the rows.
ghost use Rattle.std.specs.Prelude.{◌≡◌};
ghost use Rattle.ps_rows.specs.Digests.{jid_digest, text_digest};
ghost use Rattle.ps_filter.specs.Wants.{is_want, is_want_for, is_want_of, is_want_on};

use crate::want::Want;
use ps_rows::{Ask, jid_digest, text_digest};
use ps_types::{Jid, Text};

/// What a resource wants.
#[derive(Drop)]
pub struct WantsOf<'a> {
    pub who: &'a Jid,
}

impl<'a> Ask<Want> for WantsOf<'a> {
    ghost passes = { λ ask row. is_want_of ask.who.now row };

    ghost seeks = { λ seed ask. jid_digest seed ask.who.now };

    fn passes(&self, row: &Want) -> bool {
        self.who.is_same(&row.who)
    }

    fn digest(&self, seed: u64) -> u64 {
        jid_digest(seed, self.who)
    }
}

/// That a resource wants the nodes of a name.
#[derive(Drop)]
pub struct WantOf<'a> {
    pub who: &'a Jid,
    pub name: &'a Text,
}

impl<'a> Ask<Want> for WantOf<'a> {
    ghost passes = { λ ask row. is_want ask.who.now ask.name.now row };

    ghost seeks = { λ seed ask. jid_digest seed ask.who.now };

    fn passes(&self, row: &Want) -> bool {
        self.who.is_same(&row.who) && *self.name == row.name
    }

    fn digest(&self, seed: u64) -> u64 {
        jid_digest(seed, self.who)
    }
}

/// Who wants the nodes of a name.
#[derive(Drop)]
pub struct WantsFor<'a> {
    pub name: &'a Text,
}

impl<'a> Ask<Want> for WantsFor<'a> {
    ghost passes = { λ ask row. is_want_for ask.name.now row };

    ghost seeks = { λ seed ask. text_digest seed ask.name.now };

    fn passes(&self, row: &Want) -> bool {
        *self.name == row.name
    }

    fn digest(&self, seed: u64) -> u64 {
        text_digest(seed, self.name)
    }
}

/// What the resources of a host want.
#[derive(Drop)]
pub struct WantsOn<'a> {
    pub host: &'a Text,
}

impl<'a> Ask<Want> for WantsOn<'a> {
    ghost passes = { λ ask row. is_want_on ask.host.now row };

    ghost seeks = { λ seed ask. text_digest seed ask.host.now };

    fn passes(&self, row: &Want) -> bool {
        *self.host == row.who.host
    }

    fn digest(&self, seed: u64) -> u64 {
        text_digest(seed, self.host)
    }
}
