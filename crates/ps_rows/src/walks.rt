// Walks from place to place of a digest.
ghost use Rattle.std.specs.Prelude.{◌≡◌, true, ℕ, ◌^◌, if◌then◌else◌, ◌+◌, ◌<◌, ◌≤◌, [], ◌∷◌, ◌++◌, List, Option, Some, None, IfSome, IfOk, OnOk, length, find, filter, count_by, option_copied};
ghost use Rattle.ps_base.specs.Rows.{put_row, without, without_first};
ghost use Rattle.ps_chains.specs.Marks.{mark_at};
ghost use Rattle.std.specs.List.{AllZip};
ghost use Rattle.ps_rows.specs.declared.index.Index.TheVariants.{Node};
ghost use Rattle.ps_rows.specs.Kin.{AsksKin};
ghost use Rattle.ps_rows.specs.Standing.{AsksBy, standing, seen, passes_at, passing, seen_after};

use crate::index::Index;
use crate::row::{Ask, Row};
use crate::slots::Slots;
use ps_base::Memory;
use std::alloc::Global;

fn passes<R: Row, A: Ask<R>>(slots: &Slots<R>, place: usize, ask: &A) -> bool
    ensures { result ≡ passes_at (A.passes ask.now) (mark_at slots.now.rows place) }
{
    match slots.get(place) {
        Some(row) => ask.passes(row),
        None => false,
    }
}

/// The digest of the rows that pass.
pub fn sought<R: Row, A: Ask<R>>(slots: &Slots<R>, ask: &A) -> u64
    ensures { result ≡ A.seeks slots.now.seed ask.now }
{
    ask.digest(slots.seed())
}

/// The place of the first row that passes.
pub fn seek<R: Row, A: Ask<R>>(slots: &Slots<R>, index: Index, ask: &A) -> Option<usize>
    requires asks { AsksBy (A.passes ask.now) (λ seed. R.by seed index) (λ seed. A.seeks seed ask.now) }
    ensures before { seen (A.passes ask.now) result slots.now.rows ≡ [] }
    ensures here { IfSome result (λ place. passes_at (A.passes ask.now) (mark_at slots.now.rows place) ≡ true) }
{
    let mut at = slots.first(index, sought(slots, ask));
    while let Some(place) = at {
        if passes(slots, place, ask) {
            return Some(place);
        }
        at = slots.next(index, place);
    }
    None
}

/// Takes each row away that passes. It takes no memory.
pub fn take_away<R: Row, A: Ask<R>>(slots: &mut Slots<R>, index: Index, ask: &A)
    requires asks { AsksBy (A.passes ask.now) (λ seed. R.by seed index) (λ seed. A.seeks seed ask.now) }
    ensures rows { standing slots.new.rows ≡ without (A.passes ask.now) (standing slots.old.rows) }
    ensures seed { slots.new.seed ≡ slots.old.seed }
    ensures room { slots.old.spare ≤ slots.new.spare }
{
    let mut at = slots.first(index, sought(slots, ask));
    while let Some(place) = at {
        at = slots.next(index, place);
        if passes(slots, place, ask) {
            slots.remove(place);
        }
    }
}

/// Adds a copy of the row at a place, if it passes.
pub fn copy_passing<R: Row + Clone, A: Ask<R>>(
    rows: &mut Vec<R>,
    slots: &Slots<R>,
    place: usize,
    ask: &A,
) -> Result<(), Memory>
    ensures rows { (before : List R) → AllZip R.is_clone before rows.old.items → OnOk result
        (AllZip R.is_clone (before ++ passing (A.passes ask.now) (mark_at slots.now.rows place)) rows.new.items) }
{
    if let Some(row) = slots.get(place) {
        if ask.passes(row) {
            rows.push(row.clone()?)?;
        }
    }
    Ok(())
}

/// Copies of the rows that pass, in their order.
pub fn gather<R: Row + Clone, A: Ask<R>>(
    slots: &Slots<R>,
    index: Index,
    ask: &A,
    alloc: Global,
) -> Result<Vec<R>, Memory>
    requires asks { AsksBy (A.passes ask.now) (λ seed. R.by seed index) (λ seed. A.seeks seed ask.now) }
    ensures rows { IfOk result
        (λ rows. AllZip R.is_clone (filter (A.passes ask.now) (standing slots.now.rows)) rows.items) }
{
    let mut rows = Vec::new(alloc);
    let mut at = slots.first(index, sought(slots, ask));
    while let Some(place) = at {
        copy_passing(&mut rows, slots, place, ask)?;
        at = slots.next(index, place);
    }
    Ok(rows)
}

/// Takes the first row away that passes. It takes no memory.
pub fn take_first<R: Row, A: Ask<R>>(slots: &mut Slots<R>, index: Index, ask: &A)
    requires asks { AsksBy (A.passes ask.now) (λ seed. R.by seed index) (λ seed. A.seeks seed ask.now) }
    ensures rows { standing slots.new.rows ≡ without_first (A.passes ask.now) (standing slots.old.rows) }
    ensures seed { slots.new.seed ≡ slots.old.seed }
    ensures room { slots.old.spare ≤ slots.new.spare }
{
    if let Some(place) = seek(slots, index, ask) {
        slots.remove(place);
    }
}

fn more(held: usize, passes: bool) -> usize
    requires few { held + 1 < 2 ^ 64 }
    ensures { result ≡ held + (if passes then 1 else 0) }
{
    if passes { held + 1 } else { held }
}

/// How many rows pass.
pub fn tally<R: Row, A: Ask<R>>(slots: &Slots<R>, index: Index, ask: &A) -> usize
    requires asks { AsksBy (A.passes ask.now) (λ seed. R.by seed index) (λ seed. A.seeks seed ask.now) }
    ensures count { result ≡ count_by (A.passes ask.now) (standing slots.now.rows) }
{
    let _places = slots.len();
    let mut held = 0;
    let mut at = slots.first(index, sought(slots, ask));
    while let Some(place) = at {
        held = more(held, passes(slots, place, ask));
        at = slots.next(index, place);
    }
    held
}

/// The place of the last row that passes.
pub fn seek_last<R: Row, A: Ask<R>>(slots: &Slots<R>, index: Index, ask: &A) -> Option<usize>
    requires asks { AsksBy (A.passes ask.now) (λ seed. R.by seed index) (λ seed. A.seeks seed ask.now) }
    ensures after { seen_after (A.passes ask.now) result slots.now.rows ≡ [] }
    ensures here { IfSome result (λ place. passes_at (A.passes ask.now) (mark_at slots.now.rows place) ≡ true) }
{
    let mut at = slots.last(index, sought(slots, ask));
    while let Some(place) = at {
        if passes(slots, place, ask) {
            return Some(place);
        }
        at = slots.prior(index, place);
    }
    None
}

/// How many rows of a node there are. All of its digest are gone through only where another node may have that digest.
pub fn count_node<R: Row, A: Ask<R>>(slots: &Slots<R>, ask: &A) -> usize
    requires asks { AsksBy (A.passes ask.now) (λ seed. R.by seed Node) (λ seed. A.seeks seed ask.now) }
    requires kin { AsksKin R.kin (A.passes ask.now) }
    ensures count { result ≡ count_by (A.passes ask.now) (standing slots.now.rows) }
{
    let digest = sought(slots, ask);
    if let Some(place) = slots.first(Index::Node, digest) {
        if slots.is_pure() {
            if passes(slots, place, ask) {
                return slots.count(Index::Node, digest);
            }
        }
    }
    tally(slots, Index::Node, ask)
}
