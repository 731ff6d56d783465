// The table.
ghost use Rattle.std.specs.Prelude.{◌≡◌, ◌+◌, ◌<◌, ◌≤◌, [], not, IfOk, OnOk, OnErr, length, slice_get, option_copied, is_err};
ghost use Rattle.std.specs.List.{list_any};
ghost use Rattle.ps_types.specs.Links.{collection_of, has_children, above, is_under, is_link_at, links_with, links_without};
ghost use Rattle.ps_rows.specs.Standing.{standing};
ghost use Rattle.ps_coll.specs.Children.{children_in};

use crate::climb::{ancestors_of, is_reached};
use crate::named::{children_among, collection_among, has_child, is_named, remove_all_of};
use ps_rows::Rows;
use ps_types::{LinkRow, Memory, NodeKey};
use std::alloc::Global;
use std::marker::Model;

/// The node that was to hold another is no collection.
#[derive(Clone, Copy, PartialEq, Eq, Debug)]
pub struct NotCollection;

/// The links from nodes to their collections, in order of making, and how many more are taken without memory.
#[derive(Drop)]
pub struct Links {
    rows: Rows<LinkRow>,
}

impl Model for Links {
    ghost use Rattle.ps_base.specs.Rows.{Table};
    ghost use Rattle.ps_types.specs.declared.rows.LinkRow.{LinkRow};

    ghost Value = { Table LinkRow };

    ghost view = { λ t. t.rows };
}

impl Links {
    /// The empty table.
    pub fn new(alloc: Global) -> Result<Links, Memory>
        ensures empty { IfOk result (λ t. t.rows ≡ []) }
    {
        Ok(Links {
            rows: Rows::new(alloc),
        })
    }

    /// The empty table, whose digests go by a seed that no stranger knows. No answer depends on it.
    pub fn seeded(alloc: Global, seed: u64) -> Result<Links, Memory>
        ensures empty { IfOk result (λ t. t.rows ≡ []) }
    {
        Ok(Links {
            rows: Rows::seeded(alloc, seed),
        })
    }

    /// How many rows there are.
    pub fn len(&self) -> u64
        ensures len { result ≡ length self.now.rows }
    {
        self.rows.len()
    }

    /// The places of the rows, in order, of which some are empty. To go over the table, go over them.
    pub fn places(&self) -> &[Option<LinkRow>]
        ensures rows { standing result.now ≡ self.now.rows }
    {
        self.rows.places()
    }

    /// The row at a place, counted from 0. It goes through the table once rows have gone: [`Links::places`] serves a walk.
    pub fn row(&self, at: u64) -> Option<&LinkRow>
        ensures row { option_copied result ≡ slice_get self.now.rows at }
    {
        self.rows.row(at)
    }

    /// Makes room, so that at least this many more rows are taken without memory.
    pub fn reserve(&mut self, rows: u64) -> Result<(), Memory>
        ensures rows { self.new.rows ≡ self.old.rows }
        ensures room { OnOk result (rows ≤ self.new.spare) }
        ensures kept { self.old.spare ≤ self.new.spare }
    {
        self.rows.reserve(rows)
    }

    /// A table with the same rows.
    pub fn copy(&self) -> Result<Links, Memory>
        ensures rows { IfOk result (λ t. t.rows ≡ self.now.rows) }
    {
        Ok(Links {
            rows: self.rows.copy()?,
        })
    }

    /// The collection that holds a node.
    pub fn collection_of(&self, node: &NodeKey) -> Option<&NodeKey>
        ensures collection { option_copied result ≡ collection_of node.now self.now.rows }
    {
        collection_among(&self.rows, node)
    }

    /// Whether a collection holds some node.
    pub fn has_children(&self, collection: &NodeKey) -> bool
        ensures children { result ≡ has_children collection.now self.now.rows }
    {
        has_child(&self.rows, collection)
    }

    /// The nodes that the links to a collection name as children, in the order of these links.
    pub fn children(&self, alloc: Global, collection: &NodeKey) -> Result<Vec<NodeKey>, Memory>
        ensures children { IfOk result (λ nodes. nodes.items ≡ children_in collection.now self.now.rows) }
    {
        children_among(alloc, &self.rows, collection)
    }

    /// Whether some row names a node, as its child or as its collection.
    pub fn names(&self, node: &NodeKey) -> bool
        ensures named { result ≡ list_any (is_link_at node.now) self.now.rows }
    {
        is_named(&self.rows, node)
    }

    /// Whether a node is under a collection, in one step or, where deep, in any number from one up.
    pub fn is_under(&self, node: &NodeKey, collection: &NodeKey, deep: bool) -> bool
        ensures under { result ≡ is_under node.now collection.now deep self.now.rows }
    {
        is_reached(&self.rows, node, collection, deep)
    }

    /// The collections above a node, the nearest first.
    pub fn ancestors(&self, alloc: Global, node: &NodeKey) -> Result<Vec<NodeKey>, Memory>
        ensures above { IfOk result (λ nodes. nodes.items ≡ above node.now self.now.rows) }
    {
        ancestors_of(alloc, &self.rows, node)
    }

    /// Puts a node into a collection, where it is one: the flag says so. It takes no memory.
    pub fn attach(&mut self, row: LinkRow, is_collection: bool) -> Result<(), NotCollection>
        requires room { 0 < self.old.spare }
        ensures not_collection { is_err result ≡ not is_collection }
        ensures ok { OnOk result (self.new.rows ≡ links_with row self.old.rows) }
        ensures err { OnErr result (self.new.rows ≡ self.old.rows) }
        ensures room { self.old.spare ≤ self.new.spare + 1 }
    {
        if !is_collection {
            return Err(NotCollection);
        }
        self.rows.add(row);
        Ok(())
    }

    /// Takes away the rows that name a node. It takes no memory.
    pub fn drop_node(&mut self, node: &NodeKey)
        ensures rows { self.new.rows ≡ links_without node.now self.old.rows }
        ensures room { self.old.spare ≤ self.new.spare }
    {
        remove_all_of(&mut self.rows, node);
    }
}
