// The table.
ghost use Rattle.std.specs.Prelude.{◌≡◌, ◌+◌, ◌<◌, ◌≤◌, [], ◌∷◌, ◌++◌, true, IfOk, IfSome, OnOk, OnErr, length, slice_get, option_copied, option_map, is_err};
ghost use Rattle.ps_types.specs.Nodes.{node_at, config_at, stands, made_by, nodes_with, nodes_without};
ghost use Rattle.ps_nodes.specs.NodeRows.{IsAlone, is_there, row_seen};
ghost use Rattle.ps_nodes.specs.Named.{places_at};
ghost use Rattle.ps_nodes.specs.Served.{keys_at};

use crate::asks::Given;
use crate::entries::{filled, holds, made_in, nth, parts, place_in, row_in, seek_node};
use crate::gaps::reserve;
use crate::named::places_among;
use crate::names::{empty, names_of, pack};
use crate::served::keys_among;
use ps_chains::Chains;
use ps_rows::{Slots, text_digest};
use ps_types::{Jid, Memory, NodeConfig, NodeKey, NodeRow, Text};
use std::alloc::Global;
use std::marker::Model;

/// A node of the key is there already.
#[derive(Clone, Copy, PartialEq, Eq, Debug)]
pub struct Exists;

/// A node's row, by its parts.
#[derive(Clone, Copy)]
pub struct NodeRef<'a> {
    pub key: &'a NodeKey,
    pub creator: &'a Jid,
    pub config: &'a NodeConfig,
}

/// The nodes in the order of their making, and how many more are taken without memory. All digests go by the seed.
pub struct Nodes {
    slots: Slots<NodeRow>,
    named: Chains,
    gaps: Vec<usize>,
}

// By hand, so that a table is let go by one call wherever a function ends.
impl Drop for Nodes {
    fn drop(self) {
        let Nodes {
            slots: _,
            named: _,
            gaps: _,
        } = self;
    }
}

impl Model for Nodes {
    ghost use Rattle.ps_base.specs.Rows.{Table};
    ghost use Rattle.ps_rows.specs.Standing.{standing};
    ghost use Rattle.ps_types.specs.declared.rows.NodeRow.{NodeRow};
    ghost use Rattle.ps_nodes.specs.Kept.{PlacesAreKept, room_of};

    ghost Value = { Table NodeRow };

    ghost view = { λ t. record { rows = standing t.slots.rows; spare = room_of t.slots t.named t.gaps } };

    ghost invariant = { λ t. PlacesAreKept t.slots t.named t.gaps };
}

impl Nodes {
    /// The empty table.
    pub fn new(alloc: Global) -> Result<Nodes, Memory>
        ensures empty { IfOk result (λ t. t.rows ≡ []) }
    {
        Nodes::seeded(alloc, 0)
    }

    /// The empty table, whose digests go by a seed that no stranger knows. No answer depends on it.
    pub fn seeded(alloc: Global, seed: u64) -> Result<Nodes, Memory>
        ensures empty { IfOk result (λ t. t.rows ≡ []) }
    {
        Ok(Nodes {
            slots: Slots::new(alloc, seed),
            named: Chains::new(alloc),
            gaps: Vec::new(alloc),
        })
    }

    /// How many nodes there are.
    pub fn len(&self) -> u64
        ensures len { result ≡ length self.now.rows }
    {
        self.slots.standing() as u64
    }

    /// The node at a place, counted from 0.
    pub fn row(&self, at: u64) -> Option<NodeRef<'_>>
        ensures row { option_map row_seen result ≡ slice_get self.now.rows at }
    {
        match nth(&self.slots, &self.gaps, at as usize) {
            Some(row) => Some(parts(row)),
            None => None,
        }
    }

    /// Makes room, so that at least this many more nodes are taken without memory.
    pub fn reserve(&mut self, rows: u64) -> Result<(), Memory>
        ensures rows { self.new.rows ≡ self.old.rows }
        ensures room { OnOk result (rows ≤ self.new.spare) }
        ensures kept { self.old.spare ≤ self.new.spare }
    {
        self.tidy(rows as usize);
        self.grow(rows as usize)
    }

    /// Packs the places, where that is worth its time and there is no room for the rows.
    fn tidy(&mut self, rows: usize)
        ensures rows { self.new.rows ≡ self.old.rows }
        ensures kept { self.old.spare ≤ self.new.spare }
    {
        if self.slots.standing() <= self.slots.len() - self.slots.len() / 4 {
            if self.gaps.capacity() - self.slots.len() < rows {
                pack(&mut self.slots, &mut self.named, &mut self.gaps);
            }
        }
    }

    fn grow(&mut self, rows: usize) -> Result<(), Memory>
        ensures rows { self.new.rows ≡ self.old.rows }
        ensures room { OnOk result (rows ≤ self.new.spare) }
        ensures kept { self.old.spare ≤ self.new.spare }
    {
        let Some(places) = self.slots.len().checked_add(rows) else {
            return Err(Memory);
        };
        self.slots.grow(rows)?;
        self.named.reserve(rows)?;
        Ok(reserve(&mut self.gaps, places)?)
    }

    /// A table with the same rows.
    pub fn copy(&self) -> Result<Nodes, Memory>
        ensures rows { IfOk result (λ t. t.rows ≡ self.now.rows) }
    {
        let alloc = *self.gaps.allocator();
        let slots = filled(self.slots.copy()?);
        let named = names_of(alloc, &slots)?;
        let gaps = Vec::with_capacity(alloc, slots.len())?;
        Ok(Nodes { slots, named, gaps })
    }

    /// Whether a node stands.
    pub fn has(&self, node: &NodeKey) -> bool
        ensures there { result ≡ stands node.now self.now.rows }
    {
        holds(&self.slots, node)
    }

    /// The row of a node.
    pub fn get(&self, node: &NodeKey) -> Option<NodeRef<'_>>
        ensures row { option_map row_seen result ≡ node_at node.now self.now.rows }
    {
        match row_in(&self.slots, node) {
            Some(row) => Some(parts(row)),
            None => None,
        }
    }

    /// The place of a node, counted from 0. No other row is of that node.
    pub fn place(&self, node: &NodeKey) -> Option<u64>
        ensures here { IfSome result (λ at. is_there node.now (slice_get self.now.rows at) ≡ true) }
        ensures alone { IsAlone node.now self.now.rows result }
    {
        match place_in(&self.slots, &self.gaps, node) {
            Some(at) => Some(at as u64),
            None => None,
        }
    }

    /// The configuration of a node.
    pub fn config(&self, node: &NodeKey) -> Option<&NodeConfig>
        ensures config { option_copied result ≡ config_at node.now self.now.rows }
    {
        match row_in(&self.slots, node) {
            Some(row) => Some(&row.config),
            None => None,
        }
    }

    /// How many nodes a bare address made.
    pub fn made_by(&self, who: &Jid) -> u64
        ensures made { result ≡ made_by who.now self.now.rows }
    {
        made_in(&self.slots, who) as u64
    }

    /// The keys of the nodes of a service host or an account, in the order of their making.
    pub fn keys_of(&self, alloc: Global, service: &Jid) -> Result<Vec<NodeKey>, Memory>
        ensures keys { IfOk result (λ keys. keys.items ≡ keys_at service.now self.now.rows) }
    {
        keys_among(alloc, &self.slots, service)
    }

    /// The places of the nodes of a name, counted from 0, in the order of their making.
    pub fn places_named(&self, alloc: Global, name: &Text) -> Result<Vec<u64>, Memory>
        ensures places { IfOk result (λ places. places.items ≡ places_at name.now self.now.rows) }
    {
        places_among(alloc, &self.slots, &self.gaps, &self.named, name)
    }

    /// Adds a node as the last one, where its key is new. It takes no memory.
    pub fn create(&mut self, row: NodeRow) -> Result<(), Exists>
        requires room { 0 < self.old.spare }
        ensures exists { is_err result ≡ stands row.key self.old.rows }
        ensures ok { OnOk result (self.new.rows ≡ self.old.rows ++ row ∷ []) }
        ensures err { OnErr result (self.new.rows ≡ self.old.rows) }
        ensures room { self.old.spare ≤ self.new.spare + 1 }
    {
        if holds(&self.slots, &row.key) {
            return Err(Exists);
        }
        let name = text_digest(self.slots.seed(), &row.key.name);
        self.slots.push(row);
        self.named.push(name);
        Ok(())
    }

    /// Gives a node a configuration, in its place, and answers whether it stands. It takes no memory.
    pub fn set_config(&mut self, node: &NodeKey, config: NodeConfig) -> bool
        ensures there { result ≡ stands node.now self.old.rows }
        ensures rows { self.new.rows ≡ nodes_with node.now config self.old.rows }
        ensures room { self.old.spare ≤ self.new.spare }
    {
        match seek_node(&self.slots, node) {
            Some(place) => {
                self.slots.update(place, Given { config });
                true
            }
            None => false,
        }
    }

    /// Takes a node away, and answers whether it stood. The others keep their order. It takes no memory.
    pub fn delete(&mut self, node: &NodeKey) -> bool
        ensures there { result ≡ stands node.now self.old.rows }
        ensures rows { self.new.rows ≡ nodes_without node.now self.old.rows }
        ensures room { self.old.spare ≤ self.new.spare }
    {
        match seek_node(&self.slots, node) {
            Some(place) => {
                empty(&mut self.slots, &mut self.named, &mut self.gaps, place);
                true
            }
            None => false,
        }
    }

    /// Takes away the row of a node, as every table does. It takes no memory.
    pub fn drop_node(&mut self, node: &NodeKey)
        ensures rows { self.new.rows ≡ nodes_without node.now self.old.rows }
        ensures room { self.old.spare ≤ self.new.spare }
    {
        self.delete(node);
    }
}
