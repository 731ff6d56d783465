// The table.
ghost use Rattle.std.specs.Prelude.{◌≡◌, ◌+◌, ◌<◌, ◌≤◌, [], ◌∷◌, ◌++◌, IfOk, OnOk, length, slice_get, option_copied, find};
ghost use Rattle.ps_base.specs.Rows.{put_row, without};
ghost use Rattle.ps_types.specs.Affils.{is_affil_of, affil_at, affils_with, affils_of, affils_held, affils_without};
ghost use Rattle.ps_rows.specs.Standing.{standing};
ghost use Rattle.std.specs.List.{list_any};
ghost use Rattle.ps_affil.specs.Among.{is_among, is_other_owner};
ghost use Rattle.ps_rows.specs.Around.{own_and_last};

use crate::asks::{AffilOf, Among, AtNode, Held, OtherOwner};
use ps_rows::{Index, Rows};
use ps_types::{Affil, AffilRow, Jid, Memory, NodeKey};
use std::alloc::Global;
use std::marker::Model;

/// Affiliations in the order of their making, and how many more are taken without memory.
#[derive(Drop)]
pub struct Affils {
    rows: Rows<AffilRow>,
}

impl Model for Affils {
    ghost use Rattle.ps_base.specs.Rows.{Table};
    ghost use Rattle.ps_types.specs.declared.rows.AffilRow.{AffilRow};

    ghost Value = { Table AffilRow };

    ghost view = { λ t. t.rows };
}

impl Affils {
    /// The empty table.
    pub fn new(alloc: Global) -> Result<Affils, Memory>
        ensures empty { IfOk result (λ t. t.rows ≡ []) }
    {
        Ok(Affils {
            rows: Rows::new(alloc),
        })
    }

    /// The empty table, whose digests go by a seed that no stranger knows. No answer depends on it.
    pub fn seeded(alloc: Global, seed: u64) -> Result<Affils, Memory>
        ensures empty { IfOk result (λ t. t.rows ≡ []) }
    {
        Ok(Affils {
            rows: Rows::seeded(alloc, seed),
        })
    }

    /// How many rows there are.
    pub fn len(&self) -> u64
        ensures len { result ≡ length self.now.rows }
    {
        self.rows.len()
    }

    /// The places of the rows, in order, of which some are empty. To go over the table, go over them.
    pub fn places(&self) -> &[Option<AffilRow>]
        ensures rows { standing result.now ≡ self.now.rows }
    {
        self.rows.places()
    }

    /// The row at a place, counted from 0. It goes through the table once rows have gone: [`Affils::places`] serves a walk.
    pub fn row(&self, at: u64) -> Option<&AffilRow>
        ensures row { option_copied result ≡ slice_get self.now.rows at }
    {
        self.rows.row(at)
    }

    /// Makes room, so that at least this many more rows are taken without memory.
    pub fn reserve(&mut self, rows: u64) -> Result<(), Memory>
        ensures rows { self.new.rows ≡ self.old.rows }
        ensures room { OnOk result (rows ≤ self.new.spare) }
        ensures kept { self.old.spare ≤ self.new.spare }
    {
        self.rows.reserve(rows)
    }

    /// A table with the same rows.
    pub fn copy(&self) -> Result<Affils, Memory>
        ensures rows { IfOk result (λ t. t.rows ≡ self.now.rows) }
    {
        Ok(Affils {
            rows: self.rows.copy()?,
        })
    }

    /// What an address is at a node, by the row of its bare address.
    pub fn get(&self, node: &NodeKey, who: &Jid) -> Affil
        ensures affil { result ≡ affil_at node.now who.now self.now.rows }
    {
        match self.row_of(node, who) {
            Some(row) => row.affil,
            None => Affil::Nothing,
        }
    }

    /// The row of a bare address at a node.
    pub fn row_of(&self, node: &NodeKey, who: &Jid) -> Option<&AffilRow>
        ensures row { option_copied result ≡ find (is_affil_of node.now who.now) self.now.rows }
    {
        let ask = AffilOf { node, who };
        self.rows.find(Index::Key, &ask)
    }

    /// Adds a row as the last one, as a list of rows is read back. It takes no memory.
    pub fn add(&mut self, row: AffilRow)
        requires room { 0 < self.old.spare }
        ensures rows { self.new.rows ≡ self.old.rows ++ row ∷ [] }
        ensures room { self.old.spare ≤ self.new.spare + 1 }
    {
        self.rows.add(row);
    }

    /// Sets what an address is at a node. It takes no memory.
    pub fn set(&mut self, row: AffilRow)
        requires room { 0 < self.old.spare }
        ensures rows { self.new.rows ≡ affils_with row self.old.rows }
        ensures room { self.old.spare ≤ self.new.spare + 1 }
    {
        match row.affil {
            Affil::Nothing => remove(&mut self.rows, &row),
            _ => put(&mut self.rows, row),
        }
    }

    /// The rows of a node.
    pub fn of_node(&self, alloc: Global, node: &NodeKey) -> Result<Vec<AffilRow>, Memory>
        ensures rows { IfOk result (λ rows. rows.items ≡ affils_of node.now self.now.rows) }
    {
        let ask = AtNode { node };
        self.rows.list(Index::Node, &ask, alloc)
    }

    /// The rows of a bare address.
    pub fn of_address(&self, alloc: Global, who: &Jid) -> Result<Vec<AffilRow>, Memory>
        ensures rows { IfOk result (λ rows. rows.items ≡ affils_held who.now self.now.rows) }
    {
        let ask = Held { who };
        self.rows.list(Index::Bare, &ask, alloc)
    }

    /// The rows of a node of addresses of which others have a row there, with the last row of the table that is none of these.
    pub fn concerned(
        &self,
        alloc: Global,
        node: &NodeKey,
        others: &Affils,
    ) -> Result<Vec<AffilRow>, Memory>
        ensures rows { IfOk result
            (λ rows. rows.items ≡ own_and_last (is_among node.now others.now.rows) self.now.rows) }
    {
        let ask = Among { node, others };
        self.rows.list_around(Index::Node, &ask, alloc)
    }

    /// Whether an address owns a node of which others have no row there.
    pub fn has_other_owner(&self, node: &NodeKey, others: &Affils) -> bool
        ensures owner { result ≡ list_any (is_other_owner node.now others.now.rows) self.now.rows }
    {
        let ask = OtherOwner { node, others };
        self.rows.any(Index::Node, &ask)
    }

    /// Takes away the rows of a node. It takes no memory.
    pub fn drop_node(&mut self, node: &NodeKey)
        ensures rows { self.new.rows ≡ affils_without node.now self.old.rows }
        ensures room { self.old.spare ≤ self.new.spare }
    {
        let ask = AtNode { node };
        self.rows.take_away(Index::Node, &ask);
    }
}

fn put(rows: &mut Rows<AffilRow>, row: AffilRow)
    requires room { 0 < rows.old.spare }
    ensures rows { rows.new.rows ≡ put_row (is_affil_of row.node row.who) row rows.old.rows }
    ensures room { rows.old.spare ≤ rows.new.spare + 1 }
{
    rows.put(row);
}

fn remove(rows: &mut Rows<AffilRow>, row: &AffilRow)
    ensures rows { rows.new.rows ≡ without (is_affil_of row.now.node row.now.who) rows.old.rows }
    ensures room { rows.old.spare ≤ rows.new.spare }
{
    rows.take_away(Index::Key, row);
}
