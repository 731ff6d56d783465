// Rows in places.
ghost use Rattle.std.specs.Prelude.{◌≡◌, ℕ, ◌+◌, ◌<◌, ◌≤◌, [], ◌∷◌, ◌++◌, List, Option, Some, None, IfOk, OnOk, length, slice_set, slice_get, option_copied, option_map, vec_len, vec_capacity, is_some, true, if◌then◌else◌, ◌&&◌};
ghost use Rattle.ps_chains.specs.Marks.{mark_at, count_of, FirstFrom, LastBelow};
ghost use Rattle.ps_rows.specs.Standing.{marked_by, marks_of, packed, standing};
ghost use Rattle.std.specs.List.{AllZip};
ghost use Rattle.ps_rows.specs.Placed.{pick};
ghost use Rattle.ps_rows.specs.Kin.{IsPure, kin_at};
ghost use Rattle.ps_rows.specs.declared.index.Index.TheVariants.{Node};

use crate::index::Index;
use crate::row::{Change, Row};
use ps_base::Memory;
use ps_chains::Chains;
use std::alloc::Global;
use std::marker::Model;

/// Rows in places, in the order of their making, how many more are taken without memory, and the chains of each index.
#[derive(Drop)]
pub struct Slots<R: Row> {
    slots: Vec<Option<R>>,
    key: Chains,
    node: Chains,
    bare: Chains,
    standing: usize,
    pure: bool,
    seed: u64,
}

impl<R: Row> Model for Slots<R> {
    ghost use Rattle.std.specs.Prelude.{List, Option, ℕ, refl};
    ghost use Rattle.std.specs.Coded.{code_by, coded×, coded_list, coded_option, coded_ℕ};
    ghost use Rattle.ps_rows.specs.Placed.{Places, IsMarked, room_of};

    ghost Value = { Places R };

    ghost coded = { code_by (List (Option R) × (ℕ × ℕ))
        (coded× (coded_list (coded_option R.code)) (coded× coded_ℕ coded_ℕ)) (λ t. (t.rows, (t.spare, t.seed)))
        (λ p. record { rows = p.0; spare = p.1.0; seed = p.1.1 }) (λ _. refl) };

    ghost view = { λ t. record { rows = t.slots.items; spare = room_of t.slots t.key t.node t.bare; seed = t.seed } };

    ghost invariant = { λ t. IsMarked (R.by t.seed) t.slots.items t.key.rows t.node.rows t.bare.rows
        t.standing R.kin t.pure };
}

fn chain<'a>(index: Index, key: &'a Chains, node: &'a Chains, bare: &'a Chains) -> &'a Chains
    ensures { result.now ≡ pick index key.now node.now bare.now }
{
    match index {
        Index::Key => key,
        Index::Node => node,
        Index::Bare => bare,
    }
}

impl<R: Row> Slots<R> {
    /// No rows, whose digests go by a seed. It takes no memory.
    pub fn new(alloc: Global, seed: u64) -> Slots<R>
        ensures empty { result.rows ≡ [] }
    {
        Slots {
            slots: Vec::new(alloc),
            key: Chains::new(alloc),
            node: Chains::new(alloc),
            bare: Chains::new(alloc),
            standing: 0,
            pure: true,
            seed,
        }
    }

    /// The seed of the digests.
    pub fn seed(&self) -> u64
        ensures { result ≡ self.now.seed }
    {
        self.seed
    }

    /// How many places there are.
    pub fn len(&self) -> usize
        ensures len { result ≡ length self.now.rows }
    {
        self.slots.len()
    }

    /// How many rows stand.
    pub fn standing(&self) -> usize
        ensures standing { result ≡ length (standing self.now.rows) }
    {
        self.standing
    }

    /// Whether rows of one digest of a node are known to be of one node.
    pub fn is_pure(&self) -> bool
        ensures pure { IsPure R.kin (R.by self.now.seed Node) self.now.rows result }
    {
        self.pure
    }

    /// The places.
    pub fn places(&self) -> &[Option<R>]
        ensures { result.now ≡ self.now.rows }
    {
        self.slots.as_slice()
    }

    /// The row at a place.
    pub fn get(&self, place: usize) -> Option<&R>
        ensures row { option_copied result ≡ mark_at self.now.rows place }
    {
        match self.slots.get(place) {
            Some(slot) => slot.as_ref(),
            None => None,
        }
    }

    /// The row that stands after as many others as given. It goes through the places, unless none is empty.
    pub fn nth(&self, at: usize) -> Option<&R>
        ensures row { option_copied result ≡ slice_get (standing self.now.rows) at }
    {
        if self.standing == self.slots.len() {
            return self.get(at);
        }
        let mut left = at;
        for slot in &self.slots {
            let Some(row) = slot else {
                continue;
            };
            if left == 0 {
                return Some(row);
            }
            left -= 1;
        }
        None
    }

    /// The first place of a digest.
    pub fn first(&self, index: Index, digest: u64) -> Option<usize>
        ensures first { FirstFrom (mark_at (marked_by (R.by self.now.seed index) self.now.rows)) digest 0 result }
    {
        chain(index, &self.key, &self.node, &self.bare).first(digest)
    }

    /// The last place of a digest.
    pub fn last(&self, index: Index, digest: u64) -> Option<usize>
        ensures last { LastBelow (mark_at (marked_by (R.by self.now.seed index) self.now.rows)) digest
            (length self.now.rows) result }
    {
        chain(index, &self.key, &self.node, &self.bare).last(digest)
    }

    /// How many rows have a digest.
    pub fn count(&self, index: Index, digest: u64) -> usize
        ensures count { result ≡ count_of digest (marked_by (R.by self.now.seed index) self.now.rows) }
    {
        chain(index, &self.key, &self.node, &self.bare).count(digest)
    }

    /// The next place of the digest of the row at a place.
    pub fn next(&self, index: Index, place: usize) -> Option<usize>
        ensures next { (digest : ℕ) → mark_at (marked_by (R.by self.now.seed index) self.now.rows) place ≡ Some digest
            → FirstFrom (mark_at (marked_by (R.by self.now.seed index) self.now.rows)) digest (place + 1) result }
    {
        chain(index, &self.key, &self.node, &self.bare).next(place)
    }

    /// The last place before a place of the digest of the row there.
    pub fn prior(&self, index: Index, place: usize) -> Option<usize>
        ensures prior { (digest : ℕ) → mark_at (marked_by (R.by self.now.seed index) self.now.rows) place ≡ Some digest
            → LastBelow (mark_at (marked_by (R.by self.now.seed index) self.now.rows)) digest place result }
    {
        chain(index, &self.key, &self.node, &self.bare).prior(place)
    }

    /// Adds a row at the end. It takes no memory.
    pub fn push(&mut self, row: R)
        requires room { 0 < self.old.spare }
        ensures rows { self.new.rows ≡ self.old.rows ++ Some row ∷ [] }
        ensures seed { self.new.seed ≡ self.old.seed }
        ensures room { self.old.spare ≤ self.new.spare + 1 }
    {
        let digest = row.digest(self.seed, Index::Node);
        self.pure = stays_pure(self.pure, &self.slots, self.node.last(digest), &row);
        self.key.push(row.digest(self.seed, Index::Key));
        self.node.push(digest);
        self.bare.push(row.digest(self.seed, Index::Bare));
        add(&mut self.slots, Some(row));
        self.standing += 1;
    }

    /// Empties a place. It takes no memory.
    pub fn remove(&mut self, place: usize)
        ensures rows { self.new.rows ≡ slice_set self.old.rows place None }
        ensures seed { self.new.seed ≡ self.old.seed }
        ensures room { self.old.spare ≤ self.new.spare }
    {
        self.key.remove(place);
        self.node.remove(place);
        self.bare.remove(place);
        let stood = stands(&self.slots, place);
        put(&mut self.slots, place, None);
        self.standing = without(self.standing, stood);
    }

    /// Writes a row over one with the same digests. It takes no memory.
    pub fn change(&mut self, place: usize, row: R)
        requires alike { (index : Index)
            → mark_at (marked_by (R.by self.old.seed index) self.old.rows) place ≡ Some (R.by self.old.seed index row) }
        requires kin { (old : R) → mark_at self.old.rows place ≡ Some old → R.kin old row ≡ true }
        ensures rows { self.new.rows ≡ slice_set self.old.rows place (Some row) }
        ensures seed { self.new.seed ≡ self.old.seed }
        ensures room { self.old.spare ≤ self.new.spare }
    {
        put(&mut self.slots, place, Some(row));
    }

    /// Changes the row at a place, if one stands there, and none of its digests. It takes no memory.
    pub fn update<C: Change<R>>(&mut self, place: usize, change: C)
        requires alike { (index : Index) (old : R) → mark_at self.old.rows place ≡ Some old
            → R.by self.old.seed index (C.makes change old) ≡ R.by self.old.seed index old }
        requires kin { (old : R) → mark_at self.old.rows place ≡ Some old → R.kin old (C.makes change old) ≡ true }
        ensures rows { self.new.rows
            ≡ slice_set self.old.rows place (option_map (C.makes change) (mark_at self.old.rows place)) }
        ensures seed { self.new.seed ≡ self.old.seed }
        ensures room { self.old.spare ≤ self.new.spare }
    {
        apply(&mut self.slots, place, change);
    }

    /// Takes the empty places away. It takes no memory.
    pub fn pack(&mut self)
        ensures rows { self.new.rows ≡ packed self.old.rows }
        ensures seed { self.new.seed ≡ self.old.seed }
        ensures room { self.old.spare ≤ self.new.spare }
    {
        self.slots.retain(|slot| slot.is_some());
        mark(&self.slots, self.seed, Index::Key, &mut self.key);
        mark(&self.slots, self.seed, Index::Node, &mut self.node);
        mark(&self.slots, self.seed, Index::Bare, &mut self.bare);
    }

    /// Makes room, so that at least this many more rows are taken without memory. Where there is none and more places are empty than not,
    /// they are taken away.
    pub fn reserve(&mut self, rows: usize) -> Result<(), Memory>
        ensures rows { standing self.new.rows ≡ standing self.old.rows }
        ensures seed { self.new.seed ≡ self.old.seed }
        ensures room { OnOk result (rows ≤ self.new.spare) }
        ensures kept { self.old.spare ≤ self.new.spare }
    {
        self.tidy(rows);
        self.grow(rows)
    }

    /// Packs the places, where that is worth its time and there is no room for the rows.
    fn tidy(&mut self, rows: usize)
        ensures rows { standing self.new.rows ≡ standing self.old.rows }
        ensures seed { self.new.seed ≡ self.old.seed }
        ensures kept { self.old.spare ≤ self.new.spare }
    {
        if self.standing <= self.slots.len() - self.slots.len() / 4 {
            if self.slots.capacity() - self.slots.len() < rows {
                self.pack();
            }
        }
    }

    /// Makes room, so that at least this many more rows are taken without memory. Each row keeps its place.
    pub fn grow(&mut self, rows: usize) -> Result<(), Memory>
        ensures rows { self.new.rows ≡ self.old.rows }
        ensures seed { self.new.seed ≡ self.old.seed }
        ensures room { OnOk result (rows ≤ self.new.spare) }
        ensures kept { self.old.spare ≤ self.new.spare }
    {
        self.slots.try_reserve(rows)?;
        self.key.reserve(rows)?;
        self.node.reserve(rows)?;
        self.bare.reserve(rows)
    }
}

/// Adds the mark of a row, if there is one.
fn note<R: Row>(slot: &Option<R>, seed: u64, index: Index, chains: &mut Chains)
    requires room { 0 < chains.old.spare }
    ensures marks { chains.new.rows ≡ chains.old.rows ++ marks_of (R.by seed index) (slot.now ∷ []) }
    ensures room { chains.old.spare ≤ chains.new.spare + 1 }
{
    if let Some(row) = slot {
        chains.push(row.digest(seed, index));
    }
}

/// Marks all rows anew.
fn mark<R: Row>(slots: &[Option<R>], seed: u64, index: Index, chains: &mut Chains)
    requires room { length slots.now ≤ length chains.old.rows }
    ensures marks { chains.new.rows ≡ marks_of (R.by seed index) slots.now }
    ensures room { chains.old.spare ≤ chains.new.spare }
{
    chains.clear();
    for slot in slots {
        note(slot, seed, index, chains);
    }
}

impl<R: Row + Clone> Slots<R> {
    /// The same rows, with no empty places.
    pub fn copy(&self) -> Result<Slots<R>, Memory>
        ensures rows { IfOk result (λ t. AllZip R.is_clone (standing self.now.rows) (standing t.rows)) }
    {
        let mut copy = Slots::new(*self.slots.allocator(), self.seed);
        copy.reserve(self.slots.len())?;
        for slot in &self.slots {
            copy_row(&mut copy, slot)?;
        }
        Ok(copy)
    }
}

fn copy_row<R: Row + Clone>(copy: &mut Slots<R>, slot: &Option<R>) -> Result<(), Memory>
    requires room { 0 < copy.old.spare }
    ensures rows { (before : List R) → AllZip R.is_clone before (standing copy.old.rows)
        → OnOk result (AllZip R.is_clone (before ++ standing (slot.now ∷ [])) (standing copy.new.rows)) }
    ensures room { copy.old.spare ≤ copy.new.spare + 1 }
{
    if let Some(row) = slot {
        copy.push(row.clone()?);
    }
    Ok(())
}

fn add<R: Drop>(slots: &mut Vec<Option<R>>, slot: Option<R>)
    requires room { vec_len slots.old < vec_capacity slots.old }
    ensures rows { slots.new.items ≡ slots.old.items ++ slot ∷ [] }
    ensures room { vec_capacity slots.old ≤ vec_capacity slots.new }
{
    let _ = slots.push(slot);
}

fn put<R: Drop>(slots: &mut Vec<Option<R>>, place: usize, slot: Option<R>)
    ensures rows { slots.new.items ≡ slice_set slots.old.items place slot }
    ensures room { vec_capacity slots.new ≡ vec_capacity slots.old }
{
    if place < slots.len() {
        slots[place] = slot;
    }
}

fn apply<R: Drop, C: Change<R>>(slots: &mut Vec<Option<R>>, place: usize, change: C)
    ensures rows { slots.new.items
        ≡ slice_set slots.old.items place (option_map (C.makes change) (mark_at slots.old.items place)) }
    ensures room { vec_capacity slots.new ≡ vec_capacity slots.old }
{
    if place < slots.len() {
        if let Some(row) = slots[place].take() {
            slots[place] = Some(change.make(row));
        }
    }
}

/// Whether digests still tell nodes apart with one more row, where the last row of its digest is given.
fn stays_pure<R: Row>(pure: bool, slots: &[Option<R>], last: Option<usize>, row: &R) -> bool
    ensures { result ≡ (pure && kin_at R.kin row.now slots.now last) }
{
    match last {
        None => pure,
        Some(place) => match slots.get(place) {
            Some(Some(other)) => pure && other.is_kin(row),
            _ => false,
        },
    }
}

fn stands<R>(slots: &[Option<R>], place: usize) -> bool
    ensures { result ≡ is_some (mark_at slots.now place) }
{
    match slots.get(place) {
        Some(slot) => slot.is_some(),
        None => false,
    }
}

fn without(standing: usize, stood: bool) -> usize
    requires some { stood ≡ true → 1 ≤ standing }
    ensures { standing ≡ result + (if stood then 1 else 0) }
{
    if stood { standing - 1 } else { standing }
}
