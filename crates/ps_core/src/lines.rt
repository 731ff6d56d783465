// The greatest line of each host since the last boot.
ghost use Rattle.std.specs.Prelude.{◌≡◌, ◌+◌, ◌≤◌, ◌<◌, [], IfOk, OnOk, find, position, option_copied};
ghost use Rattle.ps_model.specs.Tallies.{is_line_of, is_next_line, lines_with};

use crate::rows::Rows;
use ps_base::Memory;
use ps_types::{LineRow, Text};
use std::alloc::Global;
use std::marker::Model;

/// Hosts with the greatest line of each. A contract sees the rows and the spare.
#[derive(Drop)]
pub struct LastLines {
    rows: Rows<LineRow>,
}

impl Model for LastLines {
    ghost use Rattle.ps_base.specs.Rows.{Table};
    ghost use Rattle.ps_types.specs.declared.rows.LineRow.{LineRow};

    ghost Value = { Table LineRow };

    ghost view = { λ t. t.rows };
}

fn row_among<'a>(rows: &'a [LineRow], host: &Text) -> Option<&'a LineRow>
    ensures { option_copied result ≡ find (is_line_of host.now) rows.now }
{
    rows.iter().find(|row| *host == row.host)
}

fn place_of(rows: &[LineRow], host: &Text) -> Option<usize>
    ensures { result ≡ position (is_line_of host.now) rows.now }
{
    rows.iter().position(|row| *host == row.host)
}

impl LastLines {
    /// No hosts.
    pub fn new(alloc: Global) -> LastLines
        ensures empty { result.rows ≡ [] }
    {
        LastLines {
            rows: Rows::new(alloc),
        }
    }

    /// Makes room for more hosts.
    pub fn reserve(&mut self, rows: u64) -> Result<(), Memory>
        ensures rows { self.new.rows ≡ self.old.rows }
        ensures room { OnOk result (rows ≤ self.new.spare) }
    {
        self.rows.reserve(rows)
    }

    /// Whether the line comes after those of the host so far.
    pub fn is_next(&self, host: &Text, line: u64) -> bool
        ensures next { result ≡ is_next_line host.now line self.now.rows }
    {
        match row_among(self.rows.as_slice(), host) {
            Some(row) => row.line < line,
            None => true,
        }
    }

    /// Sets the greatest line of a host. It takes no memory.
    pub fn set(&mut self, row: LineRow)
        requires room { 0 < self.old.spare }
        ensures rows { self.new.rows ≡ lines_with row.host row.line self.old.rows }
    {
        let at = place_of(self.rows.as_slice(), &row.host);
        self.rows.put_at(at, row);
    }

    /// The same rows.
    pub fn copy(&self) -> Result<LastLines, Memory>
        ensures rows { IfOk result (λ t. t.rows ≡ self.now.rows) }
    {
        Ok(LastLines {
            rows: self.rows.copy()?,
        })
    }
}
