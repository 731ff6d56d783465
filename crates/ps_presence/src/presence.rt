// The table of resources.
ghost use Rattle.std.specs.Prelude.{◌≡◌, ◌+◌, ◌<◌, ◌≤◌, [], IfOk, OnOk, length, slice_get, option_copied, is_some};
ghost use Rattle.ps_types.specs.Resources.{resource_at, is_present, resources_of, resources_with, resources_without, resources_off};
ghost use Rattle.ps_rows.specs.Standing.{standing};

use crate::asks::{OnHost, ResourceOf};
use crate::resources::{is_present_among, listed};
use ps_rows::{Index, Rows};
use ps_types::{Jid, Memory, ResourceRow, Text};
use std::alloc::Global;
use std::marker::Model;

/// The resources that are present: rows in order of making, and how many more are taken without memory.
#[derive(Drop)]
pub struct Presence {
    rows: Rows<ResourceRow>,
}

impl Model for Presence {
    ghost use Rattle.ps_base.specs.Rows.{Table};
    ghost use Rattle.ps_types.specs.declared.rows.ResourceRow.{ResourceRow};

    ghost Value = { Table ResourceRow };

    ghost view = { λ t. t.rows };
}

impl Presence {
    /// The empty table.
    pub fn new(alloc: Global) -> Result<Presence, Memory>
        ensures empty { IfOk result (λ t. t.rows ≡ []) }
    {
        Ok(Presence {
            rows: Rows::new(alloc),
        })
    }

    /// The empty table, whose digests go by a seed that no stranger knows. No answer depends on it.
    pub fn seeded(alloc: Global, seed: u64) -> Result<Presence, Memory>
        ensures empty { IfOk result (λ t. t.rows ≡ []) }
    {
        Ok(Presence {
            rows: Rows::seeded(alloc, seed),
        })
    }

    /// How many rows there are.
    pub fn len(&self) -> u64
        ensures len { result ≡ length self.now.rows }
    {
        self.rows.len()
    }

    /// The places of the rows, in order, of which some are empty. To go over the table, go over them.
    pub fn places(&self) -> &[Option<ResourceRow>]
        ensures rows { standing result.now ≡ self.now.rows }
    {
        self.rows.places()
    }

    /// The row at a place, counted from 0. It goes through the table once rows have gone: [`Presence::places`] serves a walk.
    pub fn row(&self, at: u64) -> Option<&ResourceRow>
        ensures row { option_copied result ≡ slice_get self.now.rows at }
    {
        self.rows.row(at)
    }

    /// Makes room, so that at least this many more rows are taken without memory.
    pub fn reserve(&mut self, rows: u64) -> Result<(), Memory>
        ensures rows { self.new.rows ≡ self.old.rows }
        ensures room { OnOk result (rows ≤ self.new.spare) }
        ensures kept { self.old.spare ≤ self.new.spare }
    {
        self.rows.reserve(rows)
    }

    /// A table with the same rows.
    pub fn copy(&self) -> Result<Presence, Memory>
        ensures rows { IfOk result (λ t. t.rows ≡ self.now.rows) }
    {
        Ok(Presence {
            rows: self.rows.copy()?,
        })
    }

    /// The row of exactly this address.
    pub fn resource(&self, who: &Jid) -> Option<&ResourceRow>
        ensures row { option_copied result ≡ resource_at who.now self.now.rows }
    {
        let ask = ResourceOf { who };
        self.rows.find(Index::Key, &ask)
    }

    /// Whether an address is present: a bare one where some resource of it is.
    pub fn is_present(&self, who: &Jid) -> bool
        ensures present { result ≡ is_present who.now self.now.rows }
    {
        is_present_among(&self.rows, who)
    }

    /// The resources of a bare address that are present.
    pub fn resources_of(&self, alloc: Global, bare: &Jid) -> Result<Vec<Jid>, Memory>
        ensures resources { IfOk result (λ jids. jids.items ≡ resources_of bare.now self.now.rows) }
    {
        listed(alloc, &self.rows, bare)
    }

    /// Sets the row of exactly this address. It takes no memory.
    pub fn set(&mut self, row: ResourceRow)
        requires room { 0 < self.old.spare }
        ensures rows { self.new.rows ≡ resources_with row self.old.rows }
        ensures room { self.old.spare ≤ self.new.spare + 1 }
    {
        self.rows.put(row);
    }

    /// Takes away the row of exactly this address, and answers whether it was there. It takes no memory.
    pub fn clear(&mut self, who: &Jid) -> bool
        ensures there { result ≡ is_some (resource_at who.now self.old.rows) }
        ensures rows { self.new.rows ≡ resources_without who.now self.old.rows }
        ensures room { self.old.spare ≤ self.new.spare }
    {
        let there = self.resource(who).is_some();
        let ask = ResourceOf { who };
        self.rows.take_away(Index::Key, &ask);
        there
    }

    /// Takes away all resources of a host. It takes no memory.
    pub fn clear_host(&mut self, host: &Text)
        ensures rows { self.new.rows ≡ resources_off host.now self.old.rows }
        ensures room { self.old.spare ≤ self.new.spare }
    {
        let ask = OnHost { host };
        self.rows.take_away(Index::Bare, &ask);
    }
}
