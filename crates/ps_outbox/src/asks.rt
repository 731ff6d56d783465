// What is kept as rows, and what is asked of them.
ghost use Rattle.std.specs.Prelude.{◌≡◌, bytes_eq, option_copied};
ghost use Rattle.ps_types.specs.Same.{same_bare};
ghost use Rattle.ps_rows.specs.Digests.{bare_digest, text_digest};
ghost use Rattle.ps_outbox.specs.Boxes.{is_of, is_ready, is_to, peeked};
ghost use Rattle.ps_outbox.specs.Keys.{is_at};

use ps_rows::{Ask, Index, Row, Rows, bare_digest, text_digest};
use ps_types::{Jid, Notice, Text};
use std::marker::Model;

/// A notice that waits, found by its bare address and by its host.
#[derive(Drop)]
pub(crate) struct Waiting {
    pub(crate) notice: Notice,
}

impl Model for Waiting {
    ghost use Rattle.ps_types.specs.declared.entry.Notice.{Notice};

    ghost Value = { Notice };

    ghost view = { λ w. w.notice };
}

impl Row for Waiting {
    ghost use Rattle.ps_outbox.specs.Keys.{notice_by, notice_kin, notice_kin_is};

    ghost by = { notice_by };

    ghost kin = { notice_kin };

    fn digest(&self, seed: u64, index: Index) -> u64 {
        match index {
            Index::Key => 0,
            Index::Node => bare_digest(seed, &self.notice.to),
            Index::Bare => text_digest(seed, &self.notice.to.host),
        }
    }

    fn is_kin(&self, other: &Waiting) -> bool {
        self.notice.to.same_bare(&other.notice.to)
    }

    ghost kin_is = { notice_kin_is };
}

/// A bare address for which room was made.
#[derive(Drop)]
pub(crate) struct Address {
    pub(crate) bare: Jid,
}

impl Model for Address {
    ghost use Rattle.ps_types.specs.declared.jid.Jid.{Jid};

    ghost Value = { Jid };

    ghost view = { λ a. a.bare };
}

impl Row for Address {
    ghost use Rattle.ps_outbox.specs.Keys.{address_by, address_kin, address_kin_is};

    ghost by = { address_by };

    ghost kin = { address_kin };

    fn digest(&self, seed: u64, index: Index) -> u64 {
        match index {
            Index::Key => bare_digest(seed, &self.bare),
            Index::Node => bare_digest(seed, &self.bare),
            Index::Bare => text_digest(seed, &self.bare.host),
        }
    }

    fn is_kin(&self, other: &Address) -> bool {
        self.bare.same_bare(&other.bare)
    }

    ghost kin_is = { address_kin_is };
}

/// The notices to a bare address.
#[derive(Drop)]
pub(crate) struct ToBare<'a> {
    pub(crate) who: &'a Jid,
}

impl<'a> Ask<Waiting> for ToBare<'a> {
    ghost passes = { λ ask notice. is_to ask.who.now notice };

    ghost seeks = { λ seed ask. bare_digest seed ask.who.now };

    fn passes(&self, row: &Waiting) -> bool {
        self.who.same_bare(&row.notice.to)
    }

    fn digest(&self, seed: u64) -> u64 {
        bare_digest(seed, self.who)
    }
}

/// The notices to a host.
#[derive(Drop)]
pub(crate) struct ToHost<'a> {
    pub(crate) host: &'a Text,
}

impl<'a> Ask<Waiting> for ToHost<'a> {
    ghost passes = { λ ask notice. is_at ask.host.now notice };

    ghost seeks = { λ seed ask. text_digest seed ask.host.now };

    fn passes(&self, row: &Waiting) -> bool {
        *self.host == row.notice.to.host
    }

    fn digest(&self, seed: u64) -> u64 {
        text_digest(seed, self.host)
    }
}

/// A bare address.
#[derive(Drop)]
pub(crate) struct AddressOf<'a> {
    pub(crate) who: &'a Jid,
}

impl<'a> Ask<Address> for AddressOf<'a> {
    ghost passes = { λ ask address. same_bare ask.who.now address };

    ghost seeks = { λ seed ask. bare_digest seed ask.who.now };

    fn passes(&self, row: &Address) -> bool {
        self.who.same_bare(&row.bare)
    }

    fn digest(&self, seed: u64) -> u64 {
        bare_digest(seed, self.who)
    }
}

/// The addresses of a host.
#[derive(Drop)]
pub(crate) struct OfHost<'a> {
    pub(crate) host: &'a Text,
}

impl<'a> Ask<Address> for OfHost<'a> {
    ghost passes = { λ ask address. is_of ask.host.now address };

    ghost seeks = { λ seed ask. text_digest seed ask.host.now };

    fn passes(&self, row: &Address) -> bool {
        *self.host == row.bare.host
    }

    fn digest(&self, seed: u64) -> u64 {
        text_digest(seed, self.host)
    }
}

/// The first notice of a bare address, where its entry is durable.
pub(crate) fn peek_in<'a>(waiting: &'a Rows<Waiting>, who: &Jid, durable: u64) -> Option<&'a Notice>
    ensures { option_copied result ≡ peeked who.now durable waiting.now.rows }
{
    match waiting.find(Index::Node, &ToBare { who }) {
        Some(row) if row.notice.place < durable => Some(&row.notice),
        _ => None,
    }
}

/// The addresses of a host that have a notice to show.
#[derive(Drop)]
pub(crate) struct ReadyAt<'a> {
    pub(crate) host: &'a Text,
    pub(crate) durable: u64,
    pub(crate) waiting: &'a Rows<Waiting>,
}

impl<'a> Ask<Address> for ReadyAt<'a> {
    ghost passes = { λ ask address. is_ready ask.host.now ask.durable ask.waiting.now.rows address };

    ghost seeks = { λ seed ask. text_digest seed ask.host.now };

    fn passes(&self, row: &Address) -> bool {
        *self.host == row.bare.host && peek_in(self.waiting, &row.bare, self.durable).is_some()
    }

    fn digest(&self, seed: u64) -> u64 {
        text_digest(seed, self.host)
    }
}
