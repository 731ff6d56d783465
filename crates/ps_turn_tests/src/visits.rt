// Workers that each add one item, beside one another: afterwards the value stands for a list with the item of each.
ghost use Rattle.std.specs.Prelude.{◌≡◌, ◌<◌, ℕ, List, [], ◌∷◌, ◌++◌, length, IfOk, Some, slice_get};
ghost use Rattle.ps_turn.specs.History.{own};
ghost use Rattle.ps_turn.specs.Seats.{seen_of, number_of, IsSeatOf, IsFree, AreNew, AreAll};
ghost use Rattle.ps_turn.specs.declared.turn.Seat.{Seat};
ghost use Rattle.ps_turn_tests.specs.declared.visits.Visit.{Visit};
ghost use Rattle.ps_turn_tests.specs.declared.visits.Visits.{Visits};

use ps_turn::{Annals, Seat, Turn};
use std::alloc::{AllocError, Global};
use std::sync::Wait;
use std::thread;
use std::thread::Threads;

/// A visit, and the seat that made it.
#[derive(Clone, Copy)]
pub struct Visit {
    pub by: u64,
}

/// How many visits there were.
#[derive(Drop)]
pub struct Visits {
    pub count: u64,
}

impl Annals for Visits {
    ghost use Rattle.std.specs.Prelude.{◌≡◌, length};

    type Item = Visit;

    ghost stands = { λ visits log. visits.count ≡ length log };

    ghost maker = { λ visit. visit.by };

    ghost firm = { λ visits. 0 };

    ghost mark = { λ visits. (0, 0) };

    fn length(&self) -> u64 {
        self.count
    }

    fn firm(&self) -> u64 {
        0
    }

    fn mark(&self) -> (u64, u64) {
        (0, 0)
    }
}

// Enters, counts one more, and leaves.
fn visit_once<R: Wait>(rt: &R, turn: &Turn<Visits>, seat: &mut Seat<Visits>)
    requires { IsSeatOf turn.now seat.old × IsFree seat.old }
    ensures turn { IsSeatOf turn.now seat.new × IsFree seat.new }
    ensures number { number_of seat.new ≡ number_of seat.old }
    ensures once { own (λ (v : Visit). v.by) (number_of seat.old) (seen_of seat.new)
        ≡ own (λ (v : Visit). v.by) (number_of seat.old) (seen_of seat.old) ++ record { by = number_of seat.old } ∷ [] }
{
    let mut visits = turn.enter(rt, seat);
    visits.count += 1;
    turn.leave(seat, visits);
}

// Each seat by a worker of its own.
fn work_all<R: Threads + Wait + Sync>(rt: &R, turn: &Turn<Visits>, seats: &mut [Seat<Visits>])
    requires some { 0 < length seats.old }
    requires new { AreNew turn.now seats.old }
    ensures all { AreAll turn.now seats.new }
    ensures visited { (k : ℕ) (s : Seat Visits Visit) → slice_get seats.new k ≡ Some s → (number_of s ≡ k)
        × (own (λ (v : Visit). v.by) k (seen_of s) ≡ record { by = k } ∷ []) }
{
    let threads = seats.len();
    thread::for_each_mut(
        rt,
        seats,
        threads,
        &|_, seat: &mut Seat<Visits>|
            requires { IsSeatOf turn.now seat.old × IsFree seat.old }
            ensures { IsSeatOf turn.entry.now seat.new × IsFree seat.new × (number_of seat.new ≡ number_of seat.old)
                × (own (λ (v : Visit). v.by) (number_of seat.old) (seen_of seat.new) ≡ own (λ (v : Visit). v.by)
                (number_of seat.old) (seen_of seat.old) ++ record { by = number_of seat.old } ∷ []) }
        { visit_once(rt, turn, seat) },
    );
}

/// Each of so many workers visits once, beside the others.
pub fn visit_all<R: Threads + Wait + Sync>(
    rt: &R,
    alloc: Global,
    workers: u32,
) -> Result<Visits, AllocError>
    requires { 0 < workers }
    ensures { IfOk result (λ visits. (log : List Visit) × (visits.count ≡ length log)
        × ((k : ℕ) → k < workers → own (λ (v : Visit). v.by) k log ≡ record { by = k } ∷ [])) }
{
    let Ok((turn, seats)) = Turn::new(alloc, Visits { count: 0 }, workers) else {
        return Err(AllocError);
    };
    let mut seats = seats;
    work_all(rt, &turn, seats.as_mut_slice());
    Ok(turn.close(seats))
}
