// The chain of the digests of names, and what stands beside the places, changed together.
ghost use Rattle.std.specs.Prelude.{◌≡◌, ◌+◌, ◌<◌, ◌≤◌, [], ◌∷◌, ◌++◌, true, None, IfOk, is_some, length, slice_set};
ghost use Rattle.ps_chains.specs.Marks.{mark_at};
ghost use Rattle.ps_rows.specs.Standing.{marked_by, marks_of, standing};
ghost use Rattle.ps_nodes.specs.Kept.{AreFull, PlacesAreKept, name_digest, room_of};

use crate::gaps::put;
use ps_base::Memory;
use ps_chains::Chains;
use ps_rows::{Slots, text_digest};
use ps_types::NodeRow;
use std::alloc::Global;

/// Adds the mark of a row, if there is one.
fn note(named: &mut Chains, seed: u64, slot: &Option<NodeRow>)
    requires room { 0 < named.old.spare }
    ensures marks { named.new.rows ≡ named.old.rows ++ marks_of (name_digest seed) (slot.now ∷ []) }
    ensures room { named.old.spare ≤ named.new.spare + 1 }
{
    if let Some(row) = slot {
        named.push(text_digest(seed, &row.key.name));
    }
}

/// Marks all rows anew.
fn mark(named: &mut Chains, seed: u64, slots: &[Option<NodeRow>])
    requires room { length slots.now ≤ length named.old.rows + named.old.spare }
    ensures marks { named.new.rows ≡ marks_of (name_digest seed) slots.now }
    ensures room { length named.old.rows + named.old.spare ≤ length slots.now + named.new.spare }
{
    named.clear();
    for slot in slots {
        note(named, seed, slot);
    }
}

/// The marks of the names, where no place is empty.
pub fn names_of(alloc: Global, slots: &Slots<NodeRow>) -> Result<Chains, Memory>
    requires full { AreFull slots.now.rows }
    ensures names { IfOk result (λ named. named.rows ≡ marked_by (name_digest slots.now.seed) slots.now.rows) }
{
    let mut named = Chains::new(alloc);
    named.reserve(slots.len())?;
    mark(&mut named, slots.seed(), slots.places());
    Ok(named)
}

/// Takes the empty places away. It takes no memory.
pub fn pack(slots: &mut Slots<NodeRow>, named: &mut Chains, gaps: &mut Vec<usize>)
    requires kept { PlacesAreKept slots.old named.old gaps.old }
    ensures kept { PlacesAreKept slots.new named.new gaps.new }
    ensures rows { standing slots.new.rows ≡ standing slots.old.rows }
    ensures room { room_of slots.old named.old gaps.old ≤ room_of slots.new named.new gaps.new }
{
    slots.pack();
    mark(named, slots.seed(), slots.places());
    gaps.clear();
}

/// Empties the place of a row. It takes no memory.
pub fn empty(slots: &mut Slots<NodeRow>, named: &mut Chains, gaps: &mut Vec<usize>, place: usize)
    requires kept { PlacesAreKept slots.old named.old gaps.old }
    requires here { is_some (mark_at slots.old.rows place) ≡ true }
    ensures kept { PlacesAreKept slots.new named.new gaps.new }
    ensures rows { slots.new.rows ≡ slice_set slots.old.rows place None }
    ensures room { room_of slots.old named.old gaps.old ≤ room_of slots.new named.new gaps.new }
{
    slots.remove(place);
    named.remove(place);
    put(gaps, place);
}
