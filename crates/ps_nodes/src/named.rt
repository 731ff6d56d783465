// The nodes of a name, at whatever service host or account.
ghost use Rattle.std.specs.Prelude.{◌≡◌, ◌++◌, IfOk, OnOk, map};
ghost use Rattle.ps_chains.specs.Marks.{mark_at};
ghost use Rattle.ps_rows.specs.Standing.{marked_by, passing, standing};
ghost use Rattle.ps_nodes.specs.Gaps.{empties};
ghost use Rattle.ps_nodes.specs.Kept.{name_digest};
ghost use Rattle.ps_nodes.specs.Named.{is_named, is_named_in, place_in, places_at};
ghost use Rattle.ps_nodes.specs.Ranked.{ranked};

use crate::gaps::rank_of;
use ps_base::Memory;
use ps_chains::Chains;
use ps_rows::{Slots, text_digest};
use ps_types::{NodeRow, Text};
use std::alloc::Global;

fn has_name(row: &NodeRow, name: &Text) -> bool
    ensures { result ≡ is_named name.now row.now }
{
    row.key.name == *name
}

/// Adds how many rows stand before a place, if the node there has the name.
fn add_place(
    places: &mut Vec<u64>,
    slots: &Slots<NodeRow>,
    gaps: &[usize],
    place: usize,
    name: &Text,
) -> Result<(), Memory>
    requires gaps { gaps.now ≡ empties 0 slots.now.rows }
    ensures { OnOk result (places.new.items ≡ places.old.items
        ++ map place_in (passing (is_named_in name.now) (mark_at (ranked 0 slots.now.rows) place))) }
{
    if let Some(row) = slots.get(place) {
        if has_name(row, name) {
            places.push(rank_of(gaps, place) as u64)?;
        }
    }
    Ok(())
}

/// The places of the nodes of a name among those that stand, in the order of their making.
pub fn places_among(
    alloc: Global,
    slots: &Slots<NodeRow>,
    gaps: &[usize],
    named: &Chains,
    name: &Text,
) -> Result<Vec<u64>, Memory>
    requires gaps { gaps.now ≡ empties 0 slots.now.rows }
    requires marked { named.now.rows ≡ marked_by (name_digest slots.now.seed) slots.now.rows }
    ensures { IfOk result (λ places. places.items ≡ places_at name.now (standing slots.now.rows)) }
{
    let mut places = Vec::new(alloc);
    let mut at = named.first(text_digest(slots.seed(), name));
    while let Some(place) = at {
        add_place(&mut places, slots, gaps, place, name)?;
        at = named.next(place);
    }
    Ok(places)
}
