// The table.
ghost use Rattle.std.specs.Prelude.{◌≡◌, ◌+◌, ◌<◌, ◌≤◌, [], ◌∷◌, ◌++◌, IfOk, OnOk, length, slice_get, option_copied, is_some};
ghost use Rattle.ps_types.specs.Rosters.{contact_at, contact_count, roster_with, roster_without};
ghost use Rattle.ps_rows.specs.Standing.{standing};

use crate::asks::{ContactOf, OfAccount};
use ps_rows::{Index, Rows};
use ps_types::{Jid, Memory, RosterRow};
use std::alloc::Global;
use std::marker::Model;

/// The contacts of accounts: rows in order of making, and how many more are taken without memory.
#[derive(Drop)]
pub struct Roster {
    rows: Rows<RosterRow>,
}

impl Model for Roster {
    ghost use Rattle.ps_base.specs.Rows.{Table};
    ghost use Rattle.ps_types.specs.declared.rows.RosterRow.{RosterRow};

    ghost Value = { Table RosterRow };

    ghost view = { λ t. t.rows };
}

impl Roster {
    /// The empty table.
    pub fn new(alloc: Global) -> Result<Roster, Memory>
        ensures empty { IfOk result (λ t. t.rows ≡ []) }
    {
        Ok(Roster {
            rows: Rows::new(alloc),
        })
    }

    /// The empty table, whose digests go by a seed that no stranger knows. No answer depends on it.
    pub fn seeded(alloc: Global, seed: u64) -> Result<Roster, Memory>
        ensures empty { IfOk result (λ t. t.rows ≡ []) }
    {
        Ok(Roster {
            rows: Rows::seeded(alloc, seed),
        })
    }

    /// How many rows there are.
    pub fn len(&self) -> u64
        ensures len { result ≡ length self.now.rows }
    {
        self.rows.len()
    }

    /// The places of the rows, in order, of which some are empty. To go over the table, go over them.
    pub fn places(&self) -> &[Option<RosterRow>]
        ensures rows { standing result.now ≡ self.now.rows }
    {
        self.rows.places()
    }

    /// The row at a place, counted from 0. It goes through the table once rows have gone: [`Roster::places`] serves a walk.
    pub fn row(&self, at: u64) -> Option<&RosterRow>
        ensures row { option_copied result ≡ slice_get self.now.rows at }
    {
        self.rows.row(at)
    }

    /// Makes room, so that at least this many more rows are taken without memory.
    pub fn reserve(&mut self, rows: u64) -> Result<(), Memory>
        ensures rows { self.new.rows ≡ self.old.rows }
        ensures room { OnOk result (rows ≤ self.new.spare) }
        ensures kept { self.old.spare ≤ self.new.spare }
    {
        self.rows.reserve(rows)
    }

    /// A table with the same rows.
    pub fn copy(&self) -> Result<Roster, Memory>
        ensures rows { IfOk result (λ t. t.rows ≡ self.now.rows) }
    {
        Ok(Roster {
            rows: self.rows.copy()?,
        })
    }

    /// The contact in the account's roster.
    pub fn contact(&self, account: &Jid, contact: &Jid) -> Option<&RosterRow>
        ensures contact { option_copied result ≡ contact_at account.now contact.now self.now.rows }
    {
        let ask = ContactOf { account, contact };
        self.rows.find(Index::Key, &ask)
    }

    /// How many contacts an account has.
    pub fn count(&self, account: &Jid) -> u64
        ensures count { result ≡ contact_count account.now self.now.rows }
    {
        let ask = OfAccount { account };
        self.rows.count_node(&ask)
    }

    /// Adds a row as the last one, as a list of rows is read back. It takes no memory.
    pub fn add(&mut self, row: RosterRow)
        requires room { 0 < self.old.spare }
        ensures rows { self.new.rows ≡ self.old.rows ++ row ∷ [] }
        ensures room { self.old.spare ≤ self.new.spare + 1 }
    {
        self.rows.add(row);
    }

    /// Sets a contact of an account. It takes no memory.
    pub fn set(&mut self, row: RosterRow)
        requires room { 0 < self.old.spare }
        ensures rows { self.new.rows ≡ roster_with row self.old.rows }
        ensures room { self.old.spare ≤ self.new.spare + 1 }
    {
        self.rows.put(row);
    }

    /// Removes a contact of an account, and answers whether it was there. It takes no memory.
    pub fn remove(&mut self, account: &Jid, contact: &Jid) -> bool
        ensures there { result ≡ is_some (contact_at account.now contact.now self.old.rows) }
        ensures rows { self.new.rows ≡ roster_without account.now contact.now self.old.rows }
        ensures room { self.old.spare ≤ self.new.spare }
    {
        let there = self.contact(account, contact).is_some();
        let ask = ContactOf { account, contact };
        self.rows.take_away(Index::Key, &ask);
        there
    }
}
