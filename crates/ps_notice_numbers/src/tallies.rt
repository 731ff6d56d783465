// The table.
ghost use Rattle.std.specs.Prelude.{◌≡◌, ◌+◌, ◌^◌, ◌<◌, ◌≤◌, [], IfOk, OnOk, length, slice_get, option_copied, find};
ghost use Rattle.ps_types.specs.Address.{bare as bare_of};
ghost use Rattle.ps_rows.specs.Standing.{standing};
ghost use Rattle.ps_model.specs.Tallies.{is_tally_of, made_for, handed_to, tallies_with, more_made, one_handed};

use crate::asks::{Tally, TallyOf};
use ps_rows::{Index, Rows};
use ps_types::{Jid, Memory, TallyRow, Text};
use std::alloc::Global;
use std::marker::Model;

/// How many notices were made for bare addresses and handed to them: rows in order of making, and how many more are taken without
/// memory.
#[derive(Drop)]
pub struct Tallies {
    alloc: Global,
    rows: Rows<Tally>,
}

impl Model for Tallies {
    ghost use Rattle.ps_base.specs.Rows.{Table};
    ghost use Rattle.ps_types.specs.declared.rows.TallyRow.{TallyRow};

    ghost Value = { Table TallyRow };

    ghost view = { λ t. t.rows };
}

// The address without its resource. It takes no memory.
fn into_bare(alloc: Global, who: Jid) -> Jid
    ensures { result ≡ bare_of who }
{
    let mut who = who;
    who.resource = Text::from_string(String::new(alloc));
    who
}

impl Tallies {
    /// The empty table.
    pub fn new(alloc: Global) -> Result<Tallies, Memory>
        ensures empty { IfOk result (λ t. t.rows ≡ []) }
    {
        Tallies::seeded(alloc, 0)
    }

    /// The empty table, whose digests go by a seed that no stranger knows. No answer depends on it.
    pub fn seeded(alloc: Global, seed: u64) -> Result<Tallies, Memory>
        ensures empty { IfOk result (λ t. t.rows ≡ []) }
    {
        Ok(Tallies {
            alloc,
            rows: Rows::seeded(alloc, seed),
        })
    }

    /// How many rows there are.
    pub fn len(&self) -> u64
        ensures len { result ≡ length self.now.rows }
    {
        self.rows.len()
    }

    /// The places of the rows, in order, of which some are empty. To go over the table, go over them.
    pub fn places(&self) -> &[Option<Tally>]
        ensures rows { standing result.now ≡ self.now.rows }
    {
        self.rows.places()
    }

    /// The row at a place, counted from 0. It goes through the table once rows have gone: [`Tallies::places`] serves a walk.
    pub fn row(&self, at: u64) -> Option<&TallyRow>
        ensures row { option_copied result ≡ slice_get self.now.rows at }
    {
        match self.rows.row(at) {
            Some(tally) => Some(&tally.row),
            None => None,
        }
    }

    /// Makes room, so that at least this many more rows are taken without memory.
    pub fn reserve(&mut self, rows: u64) -> Result<(), Memory>
        ensures rows { self.new.rows ≡ self.old.rows }
        ensures room { OnOk result (rows ≤ self.new.spare) }
        ensures kept { self.old.spare ≤ self.new.spare }
    {
        self.rows.reserve(rows)
    }

    /// A table with the same rows.
    pub fn copy(&self) -> Result<Tallies, Memory>
        ensures rows { IfOk result (λ t. t.rows ≡ self.now.rows) }
    {
        Ok(Tallies {
            alloc: self.alloc,
            rows: self.rows.copy()?,
        })
    }

    /// The row of a bare address.
    pub fn row_of(&self, who: &Jid) -> Option<&TallyRow>
        ensures row { option_copied result ≡ find (is_tally_of who.now) self.now.rows }
    {
        match self.rows.find(Index::Key, &TallyOf { who }) {
            Some(tally) => Some(&tally.row),
            None => None,
        }
    }

    /// How many notices were made for a bare address.
    pub fn made(&self, who: &Jid) -> u128
        ensures made { result ≡ made_for who.now self.now.rows }
    {
        match self.row_of(who) {
            Some(row) => row.made,
            None => 0,
        }
    }

    /// How many notices were handed to a bare address.
    pub fn handed(&self, who: &Jid) -> u128
        ensures handed { result ≡ handed_to who.now self.now.rows }
    {
        match self.row_of(who) {
            Some(row) => row.handed,
            None => 0,
        }
    }

    /// Sets the numbers of a bare address. It takes no memory.
    pub fn set(&mut self, who: Jid, made: u128, handed: u128)
        requires room { 0 < self.old.spare }
        ensures rows { self.new.rows ≡ tallies_with who made handed self.old.rows }
        ensures room { self.old.spare ≤ self.new.spare + 1 }
    {
        let who = into_bare(self.alloc, who);
        let row = TallyRow { who, made, handed };
        self.rows.put(Tally { row });
    }

    /// So many more notices are made for a bare address. It takes no memory.
    pub fn make(&mut self, who: Jid, more: u128)
        requires room { 0 < self.old.spare }
        requires fits { made_for who self.old.rows + more < 2 ^ 128 }
        ensures rows { self.new.rows ≡ more_made who more self.old.rows }
        ensures room { self.old.spare ≤ self.new.spare + 1 }
    {
        let made = self.made(&who) + more;
        let handed = self.handed(&who);
        self.set(who, made, handed);
    }

    /// One more notice is handed to a bare address. It takes no memory.
    pub fn hand(&mut self, who: Jid)
        requires room { 0 < self.old.spare }
        requires fits { handed_to who self.old.rows + 1 < 2 ^ 128 }
        ensures rows { self.new.rows ≡ one_handed who self.old.rows }
        ensures room { self.old.spare ≤ self.new.spare + 1 }
    {
        let made = self.made(&who);
        let handed = self.handed(&who) + 1;
        self.set(who, made, handed);
    }
}
