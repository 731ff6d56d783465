// The queues.
ghost use Rattle.std.specs.Prelude.{◌≡◌, ℕ, ◌+◌, ◌<◌, ◌≤◌, ◌++◌, ◌∷◌, [], true, false, IfOk, OnErr, OnOk, IfSome, IfNone, IsSome, is_some, find, length, count_by, option_copied};
ghost use Rattle.std.specs.List.{list_any};
ghost use Rattle.ps_base.specs.Rows.{without, without_first};
ghost use Rattle.ps_types.specs.declared.jid.Jid.{Jid};
ghost use Rattle.ps_types.specs.Same.{same_bare};
ghost use Rattle.ps_outbox.specs.Boxes.{has_box, is_known, is_of, is_ready, is_to, peeked, shown, spare_for, IsReady, NoneReady};
ghost use Rattle.ps_outbox.specs.Keys.{is_at};

use crate::asks::{Address, AddressOf, OfHost, ReadyAt, ToBare, ToHost, Waiting, peek_in};
use crate::kept::ordered;
use ps_base::Memory;
use ps_rows::{Index, Rows};
use ps_types::{Jid, Notice, Text};
use std::alloc::Global;
use std::marker::Model;

/// The notices that wait to be handed out, in one queue for each bare address.
pub struct Outboxes {
    waiting: Rows<Waiting>,
    /// The addresses for which room was made, without those that are held.
    free: Rows<Address>,
    /// The addresses that are held.
    held: Rows<Address>,
    /// The greatest place so far, while notices came in the order of their entries.
    last: u64,
    in_order: bool,
}

// By hand, so that the queues are let go by one call wherever a function ends.
impl Drop for Outboxes {
    fn drop(self) {
        let Outboxes {
            waiting: _,
            free: _,
            held: _,
            last: _,
            in_order: _,
        } = self;
    }
}

impl Model for Outboxes {
    ghost use Rattle.std.specs.Prelude.{List, ℕ, refl};
    ghost use Rattle.std.specs.Coded.{code_by, coded×, coded_list, coded_ℕ};
    ghost use Rattle.ps_types.specs.declared.entry.Notice.{Notice};
    ghost use Rattle.ps_types.specs.declared.jid.Jid.{Jid};
    ghost use Rattle.ps_outbox.specs.Boxes.{Boxes};

    ghost Value = { Boxes };

    ghost view = { λ b. record {
      waiting = b.waiting.rows;
      free = b.free.rows;
      held = b.held.rows;
      room = b.waiting.spare;
    } };

    ghost use Rattle.ps_outbox.specs.Kept.{QueuesAreKept};

    ghost invariant = { λ b. QueuesAreKept b.waiting.rows b.free b.held.rows b.last b.in_order };
}

impl Outboxes {
    /// No notices.
    pub fn new(alloc: Global) -> Result<Outboxes, Memory>
        ensures empty { IfOk result (λ b. b.waiting ≡ []) }
        ensures held { IfOk result (λ b. b.held ≡ []) }
    {
        Outboxes::seeded(alloc, 0)
    }

    /// No notices. Addresses are found by digests that go by the seed, which no stranger should know.
    /// No answer depends on it.
    pub fn seeded(alloc: Global, seed: u64) -> Result<Outboxes, Memory>
        ensures empty { IfOk result (λ b. b.waiting ≡ []) }
        ensures held { IfOk result (λ b. b.held ≡ []) }
    {
        Ok(Outboxes {
            waiting: Rows::seeded(alloc, seed),
            free: Rows::seeded(alloc, seed),
            held: Rows::seeded(alloc, seed),
            last: 0,
            in_order: true,
        })
    }

    // How many rooms there have to be for the addresses that are held, and one more.
    fn one_more(&self) -> Result<u64, Memory>
        ensures { IfOk result (λ n. n ≡ length self.now.held + 1) }
    {
        match self.held.len().checked_add(1) {
            Some(rooms) => Ok(rooms),
            None => Err(Memory),
        }
    }

    // Makes the box of an address, if it has none.
    fn add_box(&mut self, alloc: Global, to: &Jid) -> Result<(), Memory>
        ensures waiting { self.new.waiting ≡ self.old.waiting }
        ensures held { self.new.held ≡ self.old.held }
        ensures room { self.new.room ≡ self.old.room }
        ensures known { OnOk result (has_box self.new.free self.new.held to.now ≡ true) }
        ensures kept { (who : Jid) → has_box self.old.free self.old.held who ≡ true
            → has_box self.new.free self.new.held who ≡ true }
    {
        let ask = AddressOf { who: to };
        if self.free.any(Index::Key, &ask) || self.held.any(Index::Key, &ask) {
            return Ok(());
        }
        let bare = to.to_bare(alloc)?;
        let rooms = self.one_more()?;
        self.free.reserve(rooms)?;
        self.free.add(Address { bare });
        Ok(())
    }

    /// Makes room, so that at least this many more notices are taken without memory, of which any number may be to the bare address of `to`.
    /// What was spare for an address stays spare.
    pub fn reserve(&mut self, alloc: Global, to: &Jid, notices: u64) -> Result<(), Memory>
        ensures waiting { self.new.waiting ≡ self.old.waiting }
        ensures held { self.new.held ≡ self.old.held }
        ensures room { OnOk result (notices ≤ spare_for to.now self.new) }
        ensures kept { (who : Jid) → spare_for who self.old ≤ spare_for who self.new }
    {
        self.add_box(alloc, to)?;
        self.waiting.reserve(notices)
    }

    /// Adds a notice at the end of the queue of its bare address. It takes no memory. It takes one of what is spare, whatever the address.
    pub fn push(&mut self, notice: Notice)
        requires room { 0 < spare_for notice.to self.old }
        ensures waiting { self.new.waiting ≡ self.old.waiting ++ notice ∷ [] }
        ensures held { self.new.held ≡ self.old.held }
        ensures kept { (who : Jid) → spare_for who self.old ≤ spare_for who self.new + 1 }
    {
        let (last, in_order) = ordered(self.last, self.in_order, notice.place);
        self.last = last;
        self.in_order = in_order;
        self.waiting.add(Waiting { notice });
    }

    // The first notice of the queue of a bare address.
    fn first(&self, who: &Jid) -> Option<&Notice>
        ensures { option_copied result ≡ find (is_to who.now) self.now.waiting }
    {
        match self.waiting.find(Index::Node, &ToBare { who }) {
            Some(row) => Some(&row.notice),
            None => None,
        }
    }

    // Whether the first notice to a host is one to show.
    fn shows(&self, host: &Text, durable: u64) -> bool
        ensures { result ≡ is_some (shown durable (find (is_at host.now) self.now.waiting)) }
    {
        match self.waiting.find(Index::Bare, &ToHost { host }) {
            Some(row) => row.notice.place < durable,
            None => false,
        }
    }

    /// The first notice of the queue of a bare address, where the place of its entry is below `durable`, the number of entries that are durable.
    /// There is none where the queue is empty, or its first notice tells of an entry that isn't durable yet.
    pub fn peek(&self, bare: &Jid, durable: u64) -> Option<&Notice>
        ensures { option_copied result ≡ peeked bare.now durable self.now.waiting }
    {
        peek_in(&self.waiting, bare, durable)
    }

    /// Takes the first notice away from the queue of a bare address, and answers whether there was one.
    pub fn drop_first(&mut self, bare: &Jid) -> bool
        ensures there { result ≡ is_some (find (is_to bare.now) self.old.waiting) }
        ensures waiting { self.new.waiting ≡ without_first (is_to bare.now) self.old.waiting }
        ensures held { self.new.held ≡ self.old.held }
        ensures kept { (who : Jid) → spare_for who self.old ≤ spare_for who self.new }
    {
        let there = self.first(bare).is_some();
        self.waiting.take_first(Index::Node, &ToBare { who: bare });
        there
    }

    /// How many notices wait for a bare address, durable or not.
    pub fn pending(&self, bare: &Jid) -> u64
        ensures { result ≡ count_by (is_to bare.now) self.now.waiting }
    {
        self.waiting.count_node(&ToBare { who: bare })
    }

    /// Holds a bare address, until it is released: it isn't ready meanwhile. After a refusal none is held more than before.
    pub fn hold(&mut self, bare: Jid) -> Result<(), Memory>
        ensures waiting { self.new.waiting ≡ self.old.waiting }
        ensures held { OnOk result (self.new.held ≡ self.old.held ++ bare ∷ []) }
        ensures err { OnErr result (self.new.held ≡ self.old.held) }
        ensures kept { (who : Jid) → spare_for who self.old ≤ spare_for who self.new }
    {
        let rooms = self.one_more()?;
        self.free.reserve(rooms)?;
        self.held.reserve(1)?;
        self.free.take_away(Index::Key, &AddressOf { who: &bare });
        self.held.add(Address { bare });
        Ok(())
    }

    /// Releases a bare address that is held. It takes no memory. What was spare for an address stays spare, but for this one where no notice waits for it.
    pub fn release(&mut self, bare: Jid)
        requires bare { bare.resource ≡ [] }
        requires held { is_known bare self.old.held ≡ true }
        ensures waiting { self.new.waiting ≡ self.old.waiting }
        ensures held { self.new.held ≡ without (same_bare bare) self.old.held }
        ensures kept { (who : Jid) → same_bare bare who ≡ false → spare_for who self.old ≤ spare_for who self.new }
        ensures own { IsSome (find (is_to bare) self.old.waiting)
            → spare_for bare self.old ≤ spare_for bare self.new }
    {
        let waits = self.first(&bare).is_some();
        self.held.take_away(Index::Key, &AddressOf { who: &bare });
        if waits {
            self.free.add(Address { bare });
        }
    }

    /// Forgets a bare address that isn't held and for which no notice waits: nothing is spare for it any more.
    pub fn forget(&mut self, bare: &Jid)
        ensures waiting { self.new.waiting ≡ self.old.waiting }
        ensures held { self.new.held ≡ self.old.held }
        ensures kept { (who : Jid) → same_bare bare.now who ≡ false → spare_for who self.old ≤ spare_for who self.new }
        ensures own { IsSome (find (is_to bare.now) self.old.waiting)
            → spare_for bare.now self.old ≤ spare_for bare.now self.new }
    {
        if self.first(bare).is_none() {
            self.free.take_away(Index::Key, &AddressOf { who: bare });
        }
    }

    /// Whether this bare address is held.
    pub fn is_held(&self, bare: &Jid) -> bool
        ensures { result ≡ is_known bare.now self.now.held }
    {
        self.held.any(Index::Key, &AddressOf { who: bare })
    }

    /// Whether an address of the host is held.
    pub fn holds(&self, host: &Text) -> bool
        ensures { result ≡ list_any (is_of host.now) self.now.held }
    {
        self.held.any(Index::Bare, &OfHost { host })
    }

    /// A bare address of the host that isn't held, with a notice to show, as [`Outboxes::peek`] shows it. There is none exactly where no such address has one.
    pub fn ready(&self, host: &Text, durable: u64) -> Option<&Jid>
        ensures some { IfSome result (λ j. IsReady host.now durable j.now self.now.waiting self.now.held) }
        ensures none { IfNone result (NoneReady host.now durable self.now.waiting self.now.held) }
    {
        if self.in_order && !self.shows(host, durable) {
            return None;
        }
        let ask = ReadyAt {
            host,
            durable,
            waiting: &self.waiting,
        };
        match self.free.find(Index::Bare, &ask) {
            Some(row) => Some(&row.bare),
            None => None,
        }
    }
}
