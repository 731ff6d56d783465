// A value that keeps its list, for what is only tested: the items themselves, after many threads.
ghost use Rattle.std.specs.Prelude.{◌≡◌, ◌<◌, List, [], ◌∷◌, length, vec_len, vec_capacity};
ghost use Rattle.ps_turn.specs.Seats.{seen_of, number_of, IsSeatOf, IsFree, HasValue, AreNew, AreAll};
ghost use Rattle.ps_turn_tests.specs.declared.diary.Entry.{Entry};

use ps_turn::{Annals, Seat, Turn};
use std::alloc::{AllocError, Global};
use std::sync::Wait;
use std::thread;
use std::thread::Threads;

/// Which seat wrote it, and how many it had written before.
#[derive(Clone, Copy)]
pub struct Entry {
    pub by: u64,
    pub at: u64,
}

#[derive(Drop)]
pub struct Diary {
    pub entries: Vec<Entry>,
}

impl Annals for Diary {
    ghost use Rattle.std.specs.Prelude.{◌≡◌};

    type Item = Entry;

    ghost stands = { λ diary log. diary.entries.items ≡ log };

    ghost maker = { λ entry. entry.by };

    ghost firm = { λ diary. 0 };

    ghost mark = { λ diary. (0, 0) };

    fn length(&self) -> u64 {
        self.entries.len() as u64
    }

    fn firm(&self) -> u64 {
        0
    }

    fn mark(&self) -> (u64, u64) {
        (0, 0)
    }
}

// Writes the entry, and leaves.
fn leave_with(turn: &Turn<Diary>, seat: &mut Seat<Diary>, mut diary: Diary, entry: Entry)
    ghost added: { List Entry }
    requires { (added ≡ entry ∷ []) × IsSeatOf turn.now seat.old × HasValue seat.old × (entry.by ≡ number_of seat.old)
        × (diary.entries.items ≡ seen_of seat.old) × (vec_len diary.entries < vec_capacity diary.entries) }
    ensures turn { IsSeatOf turn.now seat.new × IsFree seat.new }
    ensures number { number_of seat.new ≡ number_of seat.old }
{
    diary.entries.push_reserved(entry);
    turn.leave(seat, diary);
}

/// Enters, writes one entry where there is memory for it, and leaves.
pub fn add<R: Wait>(rt: &R, turn: &Turn<Diary>, seat: &mut Seat<Diary>, entry: Entry)
    requires turn { IsSeatOf turn.now seat.old × IsFree seat.old }
    requires number { number_of seat.old ≡ entry.by }
    ensures turn { IsSeatOf turn.now seat.new × IsFree seat.new }
    ensures number { number_of seat.new ≡ entry.by }
{
    let mut diary = turn.enter(rt, seat);
    match diary.entries.reserve(1) {
        Ok(()) => leave_with(turn, seat, diary, entry),
        Err(_) => turn.leave(seat, diary),
    }
}

// So many entries, one after the other.
fn add_times<R: Wait>(rt: &R, turn: &Turn<Diary>, seat: &mut Seat<Diary>, by: u64, times: u64)
    requires turn { IsSeatOf turn.now seat.old × IsFree seat.old }
    requires number { number_of seat.old ≡ by }
    ensures turn { IsSeatOf turn.now seat.new × IsFree seat.new }
    ensures number { number_of seat.new ≡ by }
{
    for at in 0..times {
        add(rt, turn, seat, Entry { by, at });
    }
}

// Each seat by a thread of its own.
fn work_all<R: Threads + Wait + Sync>(
    rt: &R,
    turn: &Turn<Diary>,
    seats: &mut [Seat<Diary>],
    times: u64,
)
    requires some { 0 < length seats.old }
    requires new { AreNew turn.now seats.old }
    ensures { AreAll turn.now seats.new }
{
    let threads = seats.len();
    thread::for_each_mut(
        rt,
        seats,
        threads,
        &|by, seat: &mut Seat<Diary>|
            requires { IsSeatOf turn.now seat.old × IsFree seat.old × (number_of seat.old ≡ by) }
            ensures { IsSeatOf turn.entry.now seat.new × IsFree seat.new × (number_of seat.new ≡ number_of seat.old) }
        { add_times(rt, turn, seat, by as u64, times) },
    );
}

/// Each of so many seats writes so many entries, beside the others.
pub fn write_all<R: Threads + Wait + Sync>(
    rt: &R,
    alloc: Global,
    seats: u32,
    times: u64,
) -> Result<Diary, AllocError>
    requires { 0 < seats }
{
    let diary = Diary {
        entries: Vec::new(alloc),
    };
    let Ok((turn, seats)) = Turn::new(alloc, diary, seats) else {
        return Err(AllocError);
    };
    let mut seats = seats;
    work_all(rt, &turn, seats.as_mut_slice(), times);
    Ok(turn.close(seats))
}
