// The table.
ghost use Rattle.std.specs.Prelude.{◌≡◌, ◌+◌, ◌<◌, ◌≤◌, [], ◌∷◌, ◌++◌, IfOk, OnOk, length, slice_get, option_copied};
ghost use Rattle.ps_base.specs.Rows.{put_row, without};
ghost use Rattle.ps_types.specs.Subs.{is_sub_of, sub_row, sub_at, sub_count, subscribed_in, subs_with, subs_of, subs_held, subs_without};
ghost use Rattle.ps_rows.specs.Standing.{standing};
ghost use Rattle.ps_subs.specs.Among.{is_among};
ghost use Rattle.ps_rows.specs.Around.{own_and_last};

use crate::asks::{Among, AtNode, Held, SubOf, SubscribedBy};
use ps_rows::{Index, Rows};
use ps_types::{Jid, Memory, NodeKey, SubRow, SubState};
use std::alloc::Global;
use std::marker::Model;

/// The subscriptions: rows in order of making, and how many more are taken without memory.
#[derive(Drop)]
pub struct Subs {
    rows: Rows<SubRow>,
}

impl Model for Subs {
    ghost use Rattle.ps_base.specs.Rows.{Table};
    ghost use Rattle.ps_types.specs.declared.rows.SubRow.{SubRow};

    ghost Value = { Table SubRow };

    ghost view = { λ t. t.rows };
}

impl Subs {
    /// The empty table.
    pub fn new(alloc: Global) -> Result<Subs, Memory>
        ensures empty { IfOk result (λ t. t.rows ≡ []) }
    {
        Ok(Subs {
            rows: Rows::new(alloc),
        })
    }

    /// The empty table, whose digests go by a seed that no stranger knows. No answer depends on it.
    pub fn seeded(alloc: Global, seed: u64) -> Result<Subs, Memory>
        ensures empty { IfOk result (λ t. t.rows ≡ []) }
    {
        Ok(Subs {
            rows: Rows::seeded(alloc, seed),
        })
    }

    /// How many rows there are.
    pub fn len(&self) -> u64
        ensures len { result ≡ length self.now.rows }
    {
        self.rows.len()
    }

    /// The places of the rows, in order, of which some are empty. To go over the table, go over them.
    pub fn places(&self) -> &[Option<SubRow>]
        ensures rows { standing result.now ≡ self.now.rows }
    {
        self.rows.places()
    }

    /// The row at a place, counted from 0. It goes through the table once rows have gone: [`Subs::places`] serves a walk.
    pub fn row(&self, at: u64) -> Option<&SubRow>
        ensures row { option_copied result ≡ slice_get self.now.rows at }
    {
        self.rows.row(at)
    }

    /// Makes room, so that at least this many more rows are taken without memory.
    pub fn reserve(&mut self, rows: u64) -> Result<(), Memory>
        ensures rows { self.new.rows ≡ self.old.rows }
        ensures room { OnOk result (rows ≤ self.new.spare) }
        ensures kept { self.old.spare ≤ self.new.spare }
    {
        self.rows.reserve(rows)
    }

    /// A table with the same rows.
    pub fn copy(&self) -> Result<Subs, Memory>
        ensures rows { IfOk result (λ t. t.rows ≡ self.now.rows) }
    {
        Ok(Subs {
            rows: self.rows.copy()?,
        })
    }

    /// How far the subscription of exactly this address has come.
    pub fn get(&self, node: &NodeKey, who: &Jid) -> SubState
        ensures state { result ≡ sub_at node.now who.now self.now.rows }
    {
        match self.row_of(node, who) {
            Some(row) => row.state,
            None => SubState::Nothing,
        }
    }

    /// The subscription of exactly this address, with its options.
    pub fn row_of(&self, node: &NodeKey, who: &Jid) -> Option<&SubRow>
        ensures row { option_copied result ≡ sub_row node.now who.now self.now.rows }
    {
        let ask = SubOf { node, who };
        self.rows.find(Index::Key, &ask)
    }

    /// Whether an address of this bare address is subscribed to the node.
    pub fn is_subscribed(&self, node: &NodeKey, who: &Jid) -> bool
        ensures subscribed { result ≡ subscribed_in node.now who.now self.now.rows }
    {
        let ask = SubscribedBy { node, who };
        self.rows.any(Index::Bare, &ask)
    }

    /// How many subscriptions there are at a node, pending ones among them.
    pub fn count(&self, node: &NodeKey) -> u64
        ensures count { result ≡ sub_count node.now self.now.rows }
    {
        let ask = AtNode { node };
        self.rows.count_node(&ask)
    }

    /// Adds a row as the last one, as a list of rows is read back. It takes no memory.
    pub fn add(&mut self, row: SubRow)
        requires room { 0 < self.old.spare }
        ensures rows { self.new.rows ≡ self.old.rows ++ row ∷ [] }
        ensures room { self.old.spare ≤ self.new.spare + 1 }
    {
        self.rows.add(row);
    }

    /// Sets the subscription of exactly this address. It takes no memory.
    pub fn set(&mut self, row: SubRow)
        requires room { 0 < self.old.spare }
        ensures rows { self.new.rows ≡ subs_with row self.old.rows }
        ensures room { self.old.spare ≤ self.new.spare + 1 }
    {
        match row.state {
            SubState::Nothing => remove(&mut self.rows, &row),
            _ => put(&mut self.rows, row),
        }
    }

    /// The rows of a node.
    pub fn of_node(&self, alloc: Global, node: &NodeKey) -> Result<Vec<SubRow>, Memory>
        ensures rows { IfOk result (λ rows. rows.items ≡ subs_of node.now self.now.rows) }
    {
        let ask = AtNode { node };
        self.rows.list(Index::Node, &ask, alloc)
    }

    /// The rows of a bare address, whatever their resources.
    pub fn of_address(&self, alloc: Global, who: &Jid) -> Result<Vec<SubRow>, Memory>
        ensures rows { IfOk result (λ rows. rows.items ≡ subs_held who.now self.now.rows) }
    {
        let ask = Held { who };
        self.rows.list(Index::Bare, &ask, alloc)
    }

    /// The rows of a node of addresses of which others have a row there, with the last row of the table that is none of these.
    pub fn concerned(
        &self,
        alloc: Global,
        node: &NodeKey,
        others: &Subs,
    ) -> Result<Vec<SubRow>, Memory>
        ensures rows { IfOk result
            (λ rows. rows.items ≡ own_and_last (is_among node.now others.now.rows) self.now.rows) }
    {
        let ask = Among { node, others };
        self.rows.list_around(Index::Node, &ask, alloc)
    }

    /// Takes away the rows of a node. It takes no memory.
    pub fn drop_node(&mut self, node: &NodeKey)
        ensures rows { self.new.rows ≡ subs_without node.now self.old.rows }
        ensures room { self.old.spare ≤ self.new.spare }
    {
        let ask = AtNode { node };
        self.rows.take_away(Index::Node, &ask);
    }
}

fn put(rows: &mut Rows<SubRow>, row: SubRow)
    requires room { 0 < rows.old.spare }
    ensures rows { rows.new.rows ≡ put_row (is_sub_of row.node row.who) row rows.old.rows }
    ensures room { rows.old.spare ≤ rows.new.spare + 1 }
{
    rows.put(row);
}

fn remove(rows: &mut Rows<SubRow>, row: &SubRow)
    ensures rows { rows.new.rows ≡ without (is_sub_of row.now.node row.now.who) rows.old.rows }
    ensures room { rows.old.spare ≤ rows.new.spare }
{
    rows.take_away(Index::Key, row);
}
