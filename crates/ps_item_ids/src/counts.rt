// The table.
ghost use Rattle.std.specs.Prelude.{◌≡◌, ◌+◌, ◌<◌, ◌≤◌, [], ◌∷◌, ◌++◌, IfOk, OnOk, length, slice_get, option_copied, find};
ghost use Rattle.ps_types.specs.Counts.{is_count_of, made_at, counts_with, counts_without};
ghost use Rattle.ps_rows.specs.Standing.{standing};

use crate::asks::{AtNode, CountOf};
use ps_rows::{Index, Rows};
use ps_types::{CountRow, Jid, Memory, NodeKey};
use std::alloc::Global;
use std::marker::Model;

/// How many item ids were made: rows in order of making, and how many more are taken without memory.
#[derive(Drop)]
pub struct Counts {
    rows: Rows<CountRow>,
}

impl Model for Counts {
    ghost use Rattle.ps_base.specs.Rows.{Table};
    ghost use Rattle.ps_types.specs.declared.rows.CountRow.{CountRow};

    ghost Value = { Table CountRow };

    ghost view = { λ t. t.rows };
}

impl Counts {
    /// The empty table.
    pub fn new(alloc: Global) -> Result<Counts, Memory>
        ensures empty { IfOk result (λ t. t.rows ≡ []) }
    {
        Ok(Counts {
            rows: Rows::new(alloc),
        })
    }

    /// The empty table, whose digests go by a seed that no stranger knows. No answer depends on it.
    pub fn seeded(alloc: Global, seed: u64) -> Result<Counts, Memory>
        ensures empty { IfOk result (λ t. t.rows ≡ []) }
    {
        Ok(Counts {
            rows: Rows::seeded(alloc, seed),
        })
    }

    /// How many rows there are.
    pub fn len(&self) -> u64
        ensures len { result ≡ length self.now.rows }
    {
        self.rows.len()
    }

    /// The places of the rows, in order, of which some are empty. To go over the table, go over them.
    pub fn places(&self) -> &[Option<CountRow>]
        ensures rows { standing result.now ≡ self.now.rows }
    {
        self.rows.places()
    }

    /// The row at a place, counted from 0. It goes through the table once rows have gone: [`Counts::places`] serves a walk.
    pub fn row(&self, at: u64) -> Option<&CountRow>
        ensures row { option_copied result ≡ slice_get self.now.rows at }
    {
        self.rows.row(at)
    }

    /// Makes room, so that at least this many more rows are taken without memory.
    pub fn reserve(&mut self, rows: u64) -> Result<(), Memory>
        ensures rows { self.new.rows ≡ self.old.rows }
        ensures room { OnOk result (rows ≤ self.new.spare) }
        ensures kept { self.old.spare ≤ self.new.spare }
    {
        self.rows.reserve(rows)
    }

    /// A table with the same rows.
    pub fn copy(&self) -> Result<Counts, Memory>
        ensures rows { IfOk result (λ t. t.rows ≡ self.now.rows) }
    {
        Ok(Counts {
            rows: self.rows.copy()?,
        })
    }

    /// How many ids were made for a bare address at a node.
    pub fn get(&self, node: &NodeKey, who: &Jid) -> u64
        ensures made { result ≡ made_at node.now who.now self.now.rows }
    {
        match self.row_of(node, who) {
            Some(row) => row.made,
            None => 0,
        }
    }

    /// The row of a bare address at a node.
    pub fn row_of(&self, node: &NodeKey, who: &Jid) -> Option<&CountRow>
        ensures row { option_copied result ≡ find (is_count_of node.now who.now) self.now.rows }
    {
        let ask = CountOf { node, who };
        self.rows.find(Index::Key, &ask)
    }

    /// Adds a row as the last one, as a list of rows is read back. It takes no memory.
    pub fn add(&mut self, row: CountRow)
        requires room { 0 < self.old.spare }
        ensures rows { self.new.rows ≡ self.old.rows ++ row ∷ [] }
        ensures room { self.old.spare ≤ self.new.spare + 1 }
    {
        self.rows.add(row);
    }

    /// Sets how many ids were made for a bare address at a node. It takes no memory.
    pub fn set(&mut self, row: CountRow)
        requires room { 0 < self.old.spare }
        ensures rows { self.new.rows ≡ counts_with row self.old.rows }
        ensures room { self.old.spare ≤ self.new.spare + 1 }
    {
        self.rows.put(row);
    }

    /// Takes away the rows of a node. It takes no memory.
    pub fn drop_node(&mut self, node: &NodeKey)
        ensures rows { self.new.rows ≡ counts_without node.now self.old.rows }
        ensures room { self.old.spare ≤ self.new.spare }
    {
        let ask = AtNode { node };
        self.rows.take_away(Index::Node, &ask);
    }
}
