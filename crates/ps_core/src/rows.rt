// A table as its rows in the order of their making, with room that is made beforehand. It stays short and is gone through.
ghost use Rattle.std.specs.Prelude.{◌≡◌, ◌+◌, ◌<◌, ◌≤◌, [], length, IsNone, IfSome, IfOk, OnOk, OnErr};
ghost use Rattle.std.specs.List.{AllZip};
ghost use Rattle.ps_base.specs.Rows.{put_at};

use ps_base::Memory;
use std::alloc::Global;
use std::marker::Model;

/// The rows of a table in the order of their making, and how many more are taken without memory.
#[derive(Drop)]
pub struct Rows<R> {
    rows: Vec<R>,
}

impl<R> Model for Rows<R> {
    ghost use Rattle.std.specs.Prelude.{List, ℕ, ◌-◌, refl, vec_len, vec_capacity};
    ghost use Rattle.std.specs.Coded.{code_by, coded×, coded_list, coded_ℕ};
    ghost use Rattle.ps_base.specs.Rows.{Table};

    ghost Value = { Table R };

    ghost coded = { code_by (List R × ℕ) (coded× (coded_list R.code) coded_ℕ) (λ t. (t.rows, t.spare))
        (λ p. record { rows = p.0; spare = p.1 }) (λ _. refl) };

    ghost view = { λ t. record { rows = t.rows.items; spare = vec_capacity t.rows - vec_len t.rows } };
}

impl<R> Rows<R> {
    /// No rows. It takes no memory.
    pub fn new(alloc: Global) -> Rows<R>
        ensures empty { result.rows ≡ [] }
    {
        Rows {
            rows: Vec::new(alloc),
        }
    }

    /// The rows in order.
    pub fn as_slice(&self) -> &[R]
        ensures rows { result.now ≡ self.now.rows }
    {
        self.rows.as_slice()
    }

    /// Makes room, so that at least this many more rows are taken without memory.
    pub fn reserve(&mut self, rows: u64) -> Result<(), Memory>
        ensures rows { self.new.rows ≡ self.old.rows }
        ensures room { OnOk result (rows ≤ self.new.spare) }
        ensures kept { self.old.spare ≤ self.new.spare }
    {
        self.rows.try_reserve(rows as usize)?;
        Ok(())
    }
}

impl<R: Clone> Rows<R> {
    /// A table with the same rows.
    pub fn copy(&self) -> Result<Rows<R>, Memory>
        ensures rows { IfOk result (λ t. AllZip R.is_clone self.now.rows t.rows) }
    {
        Ok(Rows {
            rows: self.rows.clone()?,
        })
    }
}

impl<R: Drop> Rows<R> {
    /// Writes the row at a place, or puts it last where there is none. It takes no memory.
    pub fn put_at(&mut self, at: Option<usize>, row: R)
        requires room { IsNone at → 0 < self.old.spare }
        requires within { IfSome at (λ i. i < length self.old.rows) }
        ensures rows { self.new.rows ≡ put_at at row self.old.rows }
        ensures room { self.old.spare ≤ self.new.spare + 1 }
    {
        match at {
            Some(i) => self.rows[i] = row,
            None => {
                let _ = self.rows.push(row);
            }
        }
    }
}
