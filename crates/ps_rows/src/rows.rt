// The rows of a table.
ghost use Rattle.std.specs.Prelude.{◌≡◌, ℕ, ◌+◌, ◌<◌, ◌≤◌, [], ◌∷◌, ◌++◌, Option, Some, None, true, IfOk, OnOk, length, is_some, find, filter, reverse, count_by, option_copied, slice_get};
ghost use Rattle.ps_base.specs.Rows.{put_row, without, without_first, keep_newest};
ghost use Rattle.std.specs.List.{AllZip, list_any};
ghost use Rattle.ps_rows.specs.declared.index.Index.TheVariants.{Key, Node};
ghost use Rattle.ps_rows.specs.Kin.{AsksKin};
ghost use Rattle.ps_rows.specs.Around.{own_and_last};
ghost use Rattle.ps_rows.specs.Newest.{newest_of};
ghost use Rattle.ps_rows.specs.Standing.{AsksBy, standing};

use crate::around::gather_around;
use crate::index::Index;
use crate::newest::gather_newest;
use crate::row::{Ask, Row};
use crate::slots::Slots;
use crate::walks::{count_node, gather, seek, seek_last, take_away, take_first, tally};
use ps_base::Memory;
use std::alloc::Global;
use std::marker::Model;

/// The rows of a table in the order of their making, and how many more are taken without memory.
pub struct Rows<R: Row> {
    slots: Slots<R>,
}

// By hand, so that a table is let go by one call wherever a function ends.
impl<R: Row> Drop for Rows<R> {
    fn drop(self) {
        let Rows { slots: _ } = self;
    }
}

impl<R: Row> Model for Rows<R> {
    ghost use Rattle.std.specs.Prelude.{◌≡◌, List, ℕ, length, refl};
    ghost use Rattle.std.specs.Coded.{code_by, coded×, coded_list, coded_ℕ};
    ghost use Rattle.ps_base.specs.Rows.{Table};

    ghost Value = { Table R };

    ghost coded = { code_by (List R × ℕ) (coded× (coded_list R.code) coded_ℕ) (λ t. (t.rows, t.spare))
        (λ p. record { rows = p.0; spare = p.1 }) (λ _. refl) };

    ghost use Rattle.ps_rows.specs.Standing.{standing};

    ghost view = { λ t. record { rows = standing t.slots.rows; spare = t.slots.spare } };
}

impl<R: Row> Rows<R> {
    /// No rows. It takes no memory.
    pub fn new(alloc: Global) -> Rows<R>
        ensures empty { result.rows ≡ [] }
    {
        Rows {
            slots: Slots::new(alloc, 0),
        }
    }

    /// No rows, whose digests go by a seed that no stranger knows. No answer depends on it. It takes no memory.
    pub fn seeded(alloc: Global, seed: u64) -> Rows<R>
        ensures empty { result.rows ≡ [] }
    {
        Rows {
            slots: Slots::new(alloc, seed),
        }
    }

    /// How many rows there are.
    pub fn len(&self) -> u64
        ensures len { result ≡ length self.now.rows }
    {
        self.slots.standing() as u64
    }

    /// The places of the rows, of which some are empty. A walk over them goes through the table at a steady cost for each place.
    pub fn places(&self) -> &[Option<R>]
        ensures rows { standing result.now ≡ self.now.rows }
    {
        self.slots.places()
    }

    /// The row at a place, counted from 0. It goes through the rows, once some have gone.
    pub fn row(&self, at: u64) -> Option<&R>
        ensures row { option_copied result ≡ slice_get self.now.rows at }
    {
        self.slots.nth(at as usize)
    }

    /// The first row that passes.
    pub fn find<A: Ask<R>>(&self, index: Index, ask: &A) -> Option<&R>
        requires asks { AsksBy (A.passes ask.now) (λ seed. R.by seed index) (λ seed. A.seeks seed ask.now) }
        ensures row { option_copied result ≡ find (A.passes ask.now) self.now.rows }
    {
        match seek(&self.slots, index, ask) {
            Some(place) => self.slots.get(place),
            None => None,
        }
    }

    fn has<A: Ask<R>>(&self, index: Index, ask: &A) -> bool
        requires asks { AsksBy (A.passes ask.now) (λ seed. R.by seed index) (λ seed. A.seeks seed ask.now) }
        ensures { result ≡ is_some (find (A.passes ask.now) self.now.rows) }
    {
        self.find(index, ask).is_some()
    }

    /// Whether some row passes.
    pub fn any<A: Ask<R>>(&self, index: Index, ask: &A) -> bool
        requires asks { AsksBy (A.passes ask.now) (λ seed. R.by seed index) (λ seed. A.seeks seed ask.now) }
        ensures { result ≡ list_any (A.passes ask.now) self.now.rows }
    {
        self.has(index, ask)
    }

    /// The last row that passes.
    pub fn last<A: Ask<R>>(&self, index: Index, ask: &A) -> Option<&R>
        requires asks { AsksBy (A.passes ask.now) (λ seed. R.by seed index) (λ seed. A.seeks seed ask.now) }
        ensures row { option_copied result ≡ find (A.passes ask.now) (reverse self.now.rows) }
    {
        match seek_last(&self.slots, index, ask) {
            Some(place) => self.slots.get(place),
            None => None,
        }
    }

    /// How many rows pass.
    pub fn count<A: Ask<R>>(&self, index: Index, ask: &A) -> u64
        requires asks { AsksBy (A.passes ask.now) (λ seed. R.by seed index) (λ seed. A.seeks seed ask.now) }
        ensures count { result ≡ count_by (A.passes ask.now) self.now.rows }
    {
        tally(&self.slots, index, ask) as u64
    }

    /// How many rows of a node there are.
    pub fn count_node<A: Ask<R>>(&self, ask: &A) -> u64
        requires asks { AsksBy (A.passes ask.now) (λ seed. R.by seed Node) (λ seed. A.seeks seed ask.now) }
        requires kin { AsksKin R.kin (A.passes ask.now) }
        ensures count { result ≡ count_by (A.passes ask.now) self.now.rows }
    {
        count_node(&self.slots, ask) as u64
    }

    /// Adds a row as the last one. It takes no memory.
    pub fn add(&mut self, row: R)
        requires room { 0 < self.old.spare }
        ensures rows { self.new.rows ≡ self.old.rows ++ row ∷ [] }
        ensures room { self.old.spare ≤ self.new.spare + 1 }
    {
        self.slots.push(row);
    }

    /// Takes each row away that passes. It takes no memory.
    pub fn take_away<A: Ask<R>>(&mut self, index: Index, ask: &A)
        requires asks { AsksBy (A.passes ask.now) (λ seed. R.by seed index) (λ seed. A.seeks seed ask.now) }
        ensures rows { self.new.rows ≡ without (A.passes ask.now) self.old.rows }
        ensures room { self.old.spare ≤ self.new.spare }
    {
        take_away(&mut self.slots, index, ask);
    }

    /// Takes the first row away that passes. It takes no memory.
    pub fn take_first<A: Ask<R>>(&mut self, index: Index, ask: &A)
        requires asks { AsksBy (A.passes ask.now) (λ seed. R.by seed index) (λ seed. A.seeks seed ask.now) }
        ensures rows { self.new.rows ≡ without_first (A.passes ask.now) self.old.rows }
        ensures room { self.old.spare ≤ self.new.spare }
    {
        take_first(&mut self.slots, index, ask);
    }

    /// Takes the first rows away that pass, until at most as many as given are left. It takes no memory.
    pub fn keep<A: Ask<R>>(&mut self, ask: &A, most: u64)
        requires asks { AsksBy (A.passes ask.now) (λ seed. R.by seed Node) (λ seed. A.seeks seed ask.now) }
        requires kin { AsksKin R.kin (A.passes ask.now) }
        ensures rows { self.new.rows ≡ keep_newest (A.passes ask.now) most self.old.rows }
        ensures room { self.old.spare ≤ self.new.spare }
    {
        let mut held = self.count_node(ask);
        while held > most {
            self.take_first(Index::Node, ask);
            held -= 1;
        }
    }

    /// Makes room, so that at least this many more rows are taken without memory.
    pub fn reserve(&mut self, rows: u64) -> Result<(), Memory>
        ensures rows { self.new.rows ≡ self.old.rows }
        ensures room { OnOk result (rows ≤ self.new.spare) }
        ensures kept { self.old.spare ≤ self.new.spare }
    {
        self.slots.reserve(rows as usize)
    }
}

impl<R: Row + Ask<R>> Rows<R> {
    /// Writes the row over the first of its key, or puts it last where there is none. It takes no memory.
    pub fn put(&mut self, row: R)
        requires asks { AsksBy (R.passes row) (λ seed. R.by seed Key) (λ seed. R.seeks seed row) }
        requires alike { (seed : ℕ) (index : Index) (old : R) → R.passes row old ≡ true
            → R.by seed index old ≡ R.by seed index row }
        requires kin { (old : R) → R.passes row old ≡ true → R.kin old row ≡ true }
        requires room { 0 < self.old.spare }
        ensures rows { self.new.rows ≡ put_row (R.passes row) row self.old.rows }
        ensures room { self.old.spare ≤ self.new.spare + 1 }
    {
        match seek(&self.slots, Index::Key, &row) {
            Some(place) => self.slots.change(place, row),
            None => self.slots.push(row),
        }
    }
}

impl<R: Row + Clone> Rows<R> {
    /// Copies of the rows that pass, in their order.
    pub fn list<A: Ask<R>>(&self, index: Index, ask: &A, alloc: Global) -> Result<Vec<R>, Memory>
        requires asks { AsksBy (A.passes ask.now) (λ seed. R.by seed index) (λ seed. A.seeks seed ask.now) }
        ensures rows { IfOk result (λ rows. AllZip R.is_clone (filter (A.passes ask.now) self.now.rows) rows.items) }
    {
        gather(&self.slots, index, ask, alloc)
    }

    /// Copies of the last rows that pass, at most as many as given, in their order. It goes through no row before them.
    pub fn newest<A: Ask<R>>(
        &self,
        index: Index,
        ask: &A,
        most: u64,
        alloc: Global,
    ) -> Result<Vec<R>, Memory>
        requires asks { AsksBy (A.passes ask.now) (λ seed. R.by seed index) (λ seed. A.seeks seed ask.now) }
        ensures rows { IfOk result
            (λ rows. AllZip R.is_clone (newest_of most (filter (A.passes ask.now) self.now.rows)) rows.items) }
    {
        gather_newest(&self.slots, index, ask, most as usize, alloc)
    }

    /// Copies of the rows that pass, and of the last row that does not, in their order. Beside the rows that pass it goes through the empty places
    /// at the end.
    pub fn list_around<A: Ask<R>>(
        &self,
        index: Index,
        ask: &A,
        alloc: Global,
    ) -> Result<Vec<R>, Memory>
        requires asks { AsksBy (A.passes ask.now) (λ seed. R.by seed index) (λ seed. A.seeks seed ask.now) }
        ensures rows { IfOk result
            (λ rows. AllZip R.is_clone (own_and_last (A.passes ask.now) self.now.rows) rows.items) }
    {
        gather_around(&self.slots, index, ask, alloc)
    }

    /// A table with the same rows.
    pub fn copy(&self) -> Result<Rows<R>, Memory>
        ensures rows { IfOk result (λ t. AllZip R.is_clone self.now.rows t.rows) }
    {
        Ok(Rows {
            slots: self.slots.copy()?,
        })
    }
}
