// The rows that pass, with the last row that doesn't.
ghost use Rattle.std.specs.Prelude.{◌≡◌, ◌≤◌, true, List, IfSome, IfOk, OnOk, length};
ghost use Rattle.std.specs.List.{AllZip, list_all};
ghost use Rattle.ps_chains.specs.Marks.{mark_at};
ghost use Rattle.ps_rows.specs.Around.{around_at, fails_at, own_and_last};
ghost use Rattle.ps_rows.specs.Standing.{AsksBy, after, standing};

use crate::index::Index;
use crate::row::{Ask, Row};
use crate::slots::Slots;
use crate::walks::gather;
use ps_base::Memory;
use std::alloc::Global;

/// The place of the last row that doesn't pass, if there is one, and how many rows follow it.
#[derive(Clone, Copy)]
pub struct Ending {
    pub place: Option<usize>,
    pub tail: usize,
}

/// How the rows end. It goes back over the rows that pass, and over empty places.
pub fn end_of<R: Row, A: Ask<R>>(slots: &Slots<R>, ask: &A) -> Ending
    ensures here { IfSome result.place (λ place. fails_at (A.passes ask.now) (mark_at slots.now.rows place) ≡ true) }
    ensures all { list_all (A.passes ask.now) (standing (after result.place slots.now.rows)) ≡ true }
    ensures tail { result.tail ≡ length (standing (after result.place slots.now.rows)) }
{
    let mut at = slots.len();
    let mut tail = 0;
    while 0 < at {
        at -= 1;
        let Some(row) = slots.get(at) else {
            continue;
        };
        if !ask.passes(row) {
            return Ending {
                place: Some(at),
                tail,
            };
        }
        tail += 1;
    }
    Ending { place: None, tail }
}

// Puts a copy of the row of a place into a list.
fn put_in<R: Row + Clone>(
    rows: &mut Vec<R>,
    slots: &Slots<R>,
    place: usize,
    at: usize,
) -> Result<(), Memory>
    requires within { at ≤ length rows.old.items }
    ensures { (before : List R) → AllZip R.is_clone before rows.old.items
        → OnOk result (AllZip R.is_clone (around_at before at (mark_at slots.now.rows place)) rows.new.items) }
{
    match slots.get(place) {
        Some(row) => {
            rows.insert(at, row.clone()?)?;
            Ok(())
        }
        None => Ok(()),
    }
}

/// Copies of the rows that pass, and of the last row that doesn't, in their order.
pub fn gather_around<R: Row + Clone, A: Ask<R>>(
    slots: &Slots<R>,
    index: Index,
    ask: &A,
    alloc: Global,
) -> Result<Vec<R>, Memory>
    requires asks { AsksBy (A.passes ask.now) (λ seed. R.by seed index) (λ seed. A.seeks seed ask.now) }
    ensures rows { IfOk result
        (λ rows. AllZip R.is_clone (own_and_last (A.passes ask.now) (standing slots.now.rows)) rows.items) }
{
    let mut rows = gather(slots, index, ask, alloc)?;
    let end = end_of(slots, ask);
    match end.place {
        None => Ok(rows),
        Some(place) => {
            let at = rows.len() - end.tail;
            put_in(&mut rows, slots, place, at)?;
            Ok(rows)
        }
    }
}
