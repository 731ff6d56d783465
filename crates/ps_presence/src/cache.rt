// The table of capability strings.
ghost use Rattle.std.specs.Prelude.{◌≡◌, ◌+◌, ◌<◌, ◌≤◌, [], ◌∷◌, ◌++◌, IfOk, OnOk, length, slice_get, option_copied, option_map, is_some};
ghost use Rattle.ps_types.specs.Vers.{ver_at, vers_with};
ghost use Rattle.ps_rows.specs.Standing.{standing};

use crate::asks::VerOf;
use ps_rows::{Index, Rows};
use ps_types::{Memory, Text, Texts, VerRow};
use std::alloc::Global;
use std::marker::Model;

/// The verified capability strings: rows in order of making, and how many more are taken without memory.
#[derive(Drop)]
pub struct Cache {
    rows: Rows<VerRow>,
}

impl Model for Cache {
    ghost use Rattle.ps_base.specs.Rows.{Table};
    ghost use Rattle.ps_types.specs.declared.rows.VerRow.{VerRow};

    ghost Value = { Table VerRow };

    ghost view = { λ t. t.rows };
}

impl Cache {
    /// The empty table.
    pub fn new(alloc: Global) -> Result<Cache, Memory>
        ensures empty { IfOk result (λ t. t.rows ≡ []) }
    {
        Ok(Cache {
            rows: Rows::new(alloc),
        })
    }

    /// The empty table, whose digests go by a seed that no stranger knows. No answer depends on it.
    pub fn seeded(alloc: Global, seed: u64) -> Result<Cache, Memory>
        ensures empty { IfOk result (λ t. t.rows ≡ []) }
    {
        Ok(Cache {
            rows: Rows::seeded(alloc, seed),
        })
    }

    /// How many rows there are.
    pub fn len(&self) -> u64
        ensures len { result ≡ length self.now.rows }
    {
        self.rows.len()
    }

    /// The places of the rows, in order, of which some are empty. To go over the table, go over them.
    pub fn places(&self) -> &[Option<VerRow>]
        ensures rows { standing result.now ≡ self.now.rows }
    {
        self.rows.places()
    }

    /// The row at a place, counted from 0. It goes through the table once rows have gone: [`Cache::places`] serves a walk.
    pub fn row(&self, at: u64) -> Option<&VerRow>
        ensures row { option_copied result ≡ slice_get self.now.rows at }
    {
        self.rows.row(at)
    }

    /// Makes room, so that at least this many more rows are taken without memory.
    pub fn reserve(&mut self, rows: u64) -> Result<(), Memory>
        ensures rows { self.new.rows ≡ self.old.rows }
        ensures room { OnOk result (rows ≤ self.new.spare) }
        ensures kept { self.old.spare ≤ self.new.spare }
    {
        self.rows.reserve(rows)
    }

    /// A table with the same rows.
    pub fn copy(&self) -> Result<Cache, Memory>
        ensures rows { IfOk result (λ t. t.rows ≡ self.now.rows) }
    {
        Ok(Cache {
            rows: self.rows.copy()?,
        })
    }

    /// The features that a verified string stands for.
    pub fn get(&self, ver: &Text) -> Option<&Texts>
        ensures features { option_copied result ≡ option_map (λ row. row.features) (ver_at ver.now self.now.rows) }
    {
        match row_among(&self.rows, ver) {
            Some(row) => Some(&row.features),
            None => None,
        }
    }

    /// Adds a row as the last one, as a list of rows is read back. It takes no memory.
    pub fn add(&mut self, row: VerRow)
        requires room { 0 < self.old.spare }
        ensures rows { self.new.rows ≡ self.old.rows ++ row ∷ [] }
        ensures room { self.old.spare ≤ self.new.spare + 1 }
    {
        self.rows.add(row);
    }

    /// Keeps the row of a string that was verified. A row that is there stays as it is. It takes no memory.
    pub fn keep(&mut self, row: VerRow)
        requires room { 0 < self.old.spare }
        ensures rows { self.new.rows ≡ vers_with row self.old.rows }
        ensures room { self.old.spare ≤ self.new.spare + 1 }
    {
        if !has(&self.rows, &row.ver) {
            self.rows.add(row);
        }
    }
}

fn row_among<'a>(rows: &'a Rows<VerRow>, ver: &Text) -> Option<&'a VerRow>
    ensures { option_copied result ≡ ver_at ver.now rows.now.rows }
{
    let ask = VerOf { ver };
    rows.find(Index::Key, &ask)
}

fn has(rows: &Rows<VerRow>, ver: &Text) -> bool
    ensures { result ≡ is_some (ver_at ver.now rows.now.rows) }
{
    row_among(rows, ver).is_some()
}
