// The last rows that pass.
ghost use Rattle.std.specs.Prelude.{◌≡◌, ◌<◌, ◌≤◌, true, false, IfOk, filter, reverse};
ghost use Rattle.std.specs.List.{AllZip};
ghost use Rattle.ps_rows.specs.Newest.{newest_of};
ghost use Rattle.ps_rows.specs.Standing.{AsksBy, standing};

use crate::index::Index;
use crate::row::{Ask, Row};
use crate::slots::Slots;
use crate::walks::{copy_passing, sought};
use ps_base::Memory;
use std::alloc::Global;

fn is_enough(held: usize, most: usize) -> bool
    ensures yes { result ≡ true → most ≤ held }
    ensures no { result ≡ false → held < most }
{
    held >= most
}

// Copies of the last rows that pass, at most as many as given, the last first.
fn gather_back<R: Row + Clone, A: Ask<R>>(
    slots: &Slots<R>,
    index: Index,
    ask: &A,
    most: usize,
    alloc: Global,
) -> Result<Vec<R>, Memory>
    requires asks { AsksBy (A.passes ask.now) (λ seed. R.by seed index) (λ seed. A.seeks seed ask.now) }
    ensures rows { IfOk result (λ rows. AllZip R.is_clone
        (reverse (newest_of most (filter (A.passes ask.now) (standing slots.now.rows)))) rows.items) }
{
    let mut rows = Vec::new(alloc);
    let mut at = slots.last(index, sought(slots, ask));
    while let Some(place) = at {
        if is_enough(rows.len(), most) {
            return Ok(rows);
        }
        copy_passing(&mut rows, slots, place, ask)?;
        at = slots.prior(index, place);
    }
    Ok(rows)
}

/// Copies of the last rows that pass, at most as many as given, in their order. Of the rows of the digest it goes through these, and those
/// between them that do not pass.
pub fn gather_newest<R: Row + Clone, A: Ask<R>>(
    slots: &Slots<R>,
    index: Index,
    ask: &A,
    most: usize,
    alloc: Global,
) -> Result<Vec<R>, Memory>
    requires asks { AsksBy (A.passes ask.now) (λ seed. R.by seed index) (λ seed. A.seeks seed ask.now) }
    ensures rows { IfOk result
        (λ rows. AllZip R.is_clone (newest_of most (filter (A.passes ask.now) (standing slots.now.rows))) rows.items) }
{
    let mut rows = gather_back(slots, index, ask, most, alloc)?;
    rows.reverse();
    Ok(rows)
}
