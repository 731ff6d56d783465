// The table.
ghost use Rattle.std.specs.Prelude.{◌≡◌, ◌+◌, ◌<◌, ◌≤◌, [], ◌∷◌, ◌++◌, IfOk, OnOk, length, slice_get, option_copied, is_some};
ghost use Rattle.ps_types.specs.Items.{item_at, items_of, item_count, items_with, items_except, items_without, items_kept, last_item};
ghost use Rattle.ps_items.specs.Chosen.{items_named};
ghost use Rattle.ps_rows.specs.Newest.{newest_of};
ghost use Rattle.ps_rows.specs.Standing.{standing};

use crate::asks::{AtNode, ItemOf, NamedAt};
use ps_rows::{Index, Rows};
use ps_types::{ItemRow, Memory, NodeKey, Text};
use std::alloc::Global;
use std::marker::Model;

/// Items in the order of publishing, and how many more are taken without memory.
#[derive(Drop)]
pub struct Items {
    rows: Rows<ItemRow>,
}

impl Model for Items {
    ghost use Rattle.ps_base.specs.Rows.{Table};
    ghost use Rattle.ps_types.specs.declared.rows.ItemRow.{ItemRow};
    ghost use Rattle.ps_types.specs.contracts.rows.ItemRow as item;
    ghost use Rattle.std.specs.Coded.{codes};

    ghost Value = { Table ItemRow };

    ghost coded = { Prim.hlevel (codes, item.the_row.coded) };

    ghost view = { λ t. t.rows };
}

impl Items {
    /// The empty table.
    pub fn new(alloc: Global) -> Result<Items, Memory>
        ensures empty { IfOk result (λ t. t.rows ≡ []) }
    {
        Ok(Items {
            rows: Rows::new(alloc),
        })
    }

    /// The empty table, whose digests go by a seed that no stranger knows. No answer depends on it.
    pub fn seeded(alloc: Global, seed: u64) -> Result<Items, Memory>
        ensures empty { IfOk result (λ t. t.rows ≡ []) }
    {
        Ok(Items {
            rows: Rows::seeded(alloc, seed),
        })
    }

    /// How many rows there are.
    pub fn len(&self) -> u64
        ensures len { result ≡ length self.now.rows }
    {
        self.rows.len()
    }

    /// The places of the rows, in order, of which some are empty. To go over the table, go over them.
    pub fn places(&self) -> &[Option<ItemRow>]
        ensures rows { standing result.now ≡ self.now.rows }
    {
        self.rows.places()
    }

    /// The row at a place, counted from 0. It goes through the table once rows have gone: [`Items::places`] serves a walk.
    pub fn row(&self, at: u64) -> Option<&ItemRow>
        ensures row { option_copied result ≡ slice_get self.now.rows at }
    {
        self.rows.row(at)
    }

    /// Makes room, so that at least this many more rows are taken without memory.
    pub fn reserve(&mut self, rows: u64) -> Result<(), Memory>
        ensures rows { self.new.rows ≡ self.old.rows }
        ensures room { OnOk result (rows ≤ self.new.spare) }
        ensures kept { self.old.spare ≤ self.new.spare }
    {
        self.rows.reserve(rows)
    }

    /// A table with the same rows.
    pub fn copy(&self) -> Result<Items, Memory>
        ensures rows { IfOk result (λ t. t.rows ≡ self.now.rows) }
    {
        Ok(Items {
            rows: self.rows.copy()?,
        })
    }

    /// The node's item of an id.
    pub fn get(&self, node: &NodeKey, id: &Text) -> Option<&ItemRow>
        ensures item { option_copied result ≡ item_at node.now id.now self.now.rows }
    {
        let ask = ItemOf { node, id };
        self.rows.find(Index::Key, &ask)
    }

    /// Whether the node has an item of this id.
    pub fn has(&self, node: &NodeKey, id: &Text) -> bool
        ensures there { result ≡ is_some (item_at node.now id.now self.now.rows) }
    {
        self.get(node, id).is_some()
    }

    /// The newest item of a node.
    pub fn last(&self, node: &NodeKey) -> Option<&ItemRow>
        ensures last { option_copied result ≡ last_item node.now self.now.rows }
    {
        let ask = AtNode { node };
        self.rows.last(Index::Node, &ask)
    }

    /// How many items a node holds.
    pub fn count(&self, node: &NodeKey) -> u64
        ensures count { result ≡ item_count node.now self.now.rows }
    {
        let ask = AtNode { node };
        self.rows.count_node(&ask)
    }

    /// The items of a node, the oldest first.
    pub fn list(&self, alloc: Global, node: &NodeKey) -> Result<Vec<ItemRow>, Memory>
        ensures rows { IfOk result (λ rows. rows.items ≡ items_of node.now self.now.rows) }
    {
        let ask = AtNode { node };
        self.rows.list(Index::Node, &ask, alloc)
    }

    /// The newest items of a node, at most as many as given, the oldest of these first. It goes through no other item.
    pub fn newest(&self, alloc: Global, node: &NodeKey, most: u64) -> Result<Vec<ItemRow>, Memory>
        ensures rows { IfOk result (λ rows. rows.items ≡ newest_of most (items_of node.now self.now.rows)) }
    {
        let ask = AtNode { node };
        self.rows.newest(Index::Node, &ask, most, alloc)
    }

    /// The newest of the items of a node that have one of these ids, at most as many as given, the oldest of these first. It goes through
    /// the node's items alone, and copies none but these.
    pub fn named(
        &self,
        alloc: Global,
        node: &NodeKey,
        ids: &[Text],
        most: u64,
    ) -> Result<Vec<ItemRow>, Memory>
        ensures rows { IfOk result (λ rows. rows.items ≡ newest_of most (items_named node.now ids.now self.now.rows)) }
    {
        let ask = NamedAt { node, ids };
        self.rows.newest(Index::Node, &ask, most, alloc)
    }

    /// Adds a row as the last one, as a list of rows is read back. It takes no memory.
    pub fn add(&mut self, row: ItemRow)
        requires room { 0 < self.old.spare }
        ensures rows { self.new.rows ≡ self.old.rows ++ row ∷ [] }
        ensures room { self.old.spare ≤ self.new.spare + 1 }
    {
        self.rows.add(row);
    }

    /// Publishes an item. Of the node's items the newest stay, at most as many as given. It takes no memory.
    pub fn put(&mut self, row: ItemRow, max: u64)
        requires room { 0 < self.old.spare }
        requires one { 1 ≤ max }
        ensures rows { self.new.rows ≡ items_with row max self.old.rows }
        ensures room { self.old.spare ≤ self.new.spare + 1 }
    {
        take_item(&mut self.rows, &row.node, &row.id);
        keep(&mut self.rows, &row.node, max - 1);
        self.rows.add(row);
    }

    /// Takes an item away, and answers whether it was there. It takes no memory.
    pub fn remove(&mut self, node: &NodeKey, id: &Text) -> bool
        ensures there { result ≡ is_some (item_at node.now id.now self.old.rows) }
        ensures rows { self.new.rows ≡ items_except node.now id.now self.old.rows }
        ensures room { self.old.spare ≤ self.new.spare }
    {
        let there = self.has(node, id);
        take_item(&mut self.rows, node, id);
        there
    }

    /// Takes the oldest items of a node away until at most as many as given stay. It takes no memory.
    pub fn keep(&mut self, node: &NodeKey, max: u64)
        ensures rows { self.new.rows ≡ items_kept node.now max self.old.rows }
        ensures room { self.old.spare ≤ self.new.spare }
    {
        keep(&mut self.rows, node, max);
    }

    /// Takes away all items of a node. It takes no memory.
    pub fn purge(&mut self, node: &NodeKey)
        ensures rows { self.new.rows ≡ items_without node.now self.old.rows }
        ensures room { self.old.spare ≤ self.new.spare }
    {
        take_all(&mut self.rows, node);
    }

    /// Takes away the rows of a node, as every table does. It takes no memory.
    pub fn drop_node(&mut self, node: &NodeKey)
        ensures rows { self.new.rows ≡ items_without node.now self.old.rows }
        ensures room { self.old.spare ≤ self.new.spare }
    {
        take_all(&mut self.rows, node);
    }
}

fn take_item(rows: &mut Rows<ItemRow>, node: &NodeKey, id: &Text)
    ensures rows { rows.new.rows ≡ items_except node.now id.now rows.old.rows }
    ensures room { rows.old.spare ≤ rows.new.spare }
{
    let ask = ItemOf { node, id };
    rows.take_away(Index::Key, &ask);
}

fn take_all(rows: &mut Rows<ItemRow>, node: &NodeKey)
    ensures rows { rows.new.rows ≡ items_without node.now rows.old.rows }
    ensures room { rows.old.spare ≤ rows.new.spare }
{
    let ask = AtNode { node };
    rows.take_away(Index::Node, &ask);
}

fn keep(rows: &mut Rows<ItemRow>, node: &NodeKey, most: u64)
    ensures rows { rows.new.rows ≡ items_kept node.now most rows.old.rows }
    ensures room { rows.old.spare ≤ rows.new.spare }
{
    let ask = AtNode { node };
    rows.keep(&ask, most);
}
