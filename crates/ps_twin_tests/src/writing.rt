// Seats that write and flush.
ghost use Rattle.std.specs.Prelude.{◌≡◌, ◌<◌, ◌≤◌, List, [], ◌∷◌, length, vec_len, vec_capacity, IfOk};
ghost use Rattle.ps_twin.specs.Twins.{Prefix};
ghost use Rattle.ps_twin.specs.Seats.{seen_of, number_of, list_of, firm_of, mark_of, known_of, IsSeatOf, IsFree, IsOut, GaveState, HasJournal, AreNew, AreAll};
ghost use Rattle.ps_twin_tests.specs.declared.diary.Entry.{Entry};
ghost use Rattle.ps_twin_tests.specs.Writing.{MayWrite, IsReady};

use crate::diary::{Diary, Entry, Journal};
use ps_twin::{Twin, TwinSeat};
use std::alloc::{AllocError, Global};
use std::sync::Wait;
use std::thread;
use std::thread::Threads;

// How many entries a seat writes before it flushes.
const EACH: u64 = 8;

// Writes the entry, and leaves.
fn leave_with(
    twin: &Twin<Diary, Journal>,
    seat: &mut TwinSeat<Diary, Journal>,
    mut diary: Diary,
    entry: Entry,
)
    ghost added: { List Entry }
    requires { MayWrite twin.now seat.old diary entry added }
    ensures twin { IsSeatOf twin.now seat.new }
    ensures number { number_of seat.new ≡ number_of seat.old }
    ensures out { IsOut seat.new × GaveState seat.old seat.new }
{
    diary.entries.push_reserved(entry);
    twin.leave(seat, diary);
}

/// Enters, writes one entry where there is memory for it, and leaves.
pub fn write<R: Wait>(
    rt: &R,
    twin: &Twin<Diary, Journal>,
    seat: &mut TwinSeat<Diary, Journal>,
    entry: Entry,
)
    requires { IsReady twin.now entry.by seat.old }
    ensures { IsReady twin.now entry.by seat.new }
{
    let mut diary = twin.enter(rt, seat);
    match diary.entries.reserve(1) {
        Ok(()) => leave_with(twin, seat, diary, entry),
        Err(_) => twin.leave(seat, diary),
    }
}

// Notes in the diary that the journal will have all of it, and answers how many entries that are.
fn begin<R: Wait>(rt: &R, twin: &Twin<Diary, Journal>, seat: &mut TwinSeat<Diary, Journal>) -> u64
    requires { IsSeatOf twin.now seat.old × HasJournal seat.old }
    ensures seat { IsSeatOf twin.now seat.new × HasJournal seat.new }
    ensures number { number_of seat.new ≡ number_of seat.old }
    ensures count { result ≡ length (seen_of seat.new) }
    ensures mark { mark_of seat.new ≡ (result, 0) }
    ensures firm { firm_of seat.new ≡ firm_of seat.old }
    ensures list { (list_of seat.new ≡ list_of seat.old) × Prefix (list_of seat.new) (seen_of seat.new) }
{
    let mut diary = twin.enter(rt, seat);
    let upto = diary.entries.len() as u64;
    diary.begun = upto;
    twin.leave(seat, diary);
    upto
}

// Says in the diary that so many entries are firm.
fn settle<R: Wait>(
    rt: &R,
    twin: &Twin<Diary, Journal>,
    seat: &mut TwinSeat<Diary, Journal>,
    upto: u64,
)
    requires { IsSeatOf twin.now seat.old × IsFree seat.old × (upto ≤ known_of seat.old) }
    ensures { IsReady twin.now (number_of seat.old) seat.new }
{
    let mut diary = twin.enter(rt, seat);
    if diary.flushed < upto {
        diary.flushed = upto;
    }
    twin.leave(seat, diary);
}

/// All entries that the diary has by now go to the journal.
pub fn flush<R: Wait>(rt: &R, twin: &Twin<Diary, Journal>, seat: &mut TwinSeat<Diary, Journal>)
    requires { IsSeatOf twin.now seat.old × IsFree seat.old }
    ensures { IsReady twin.now (number_of seat.old) seat.new }
{
    let mut journal = twin.enter_journal(rt, seat);
    let upto = begin(rt, twin, seat);
    journal.count = upto;
    journal.begun = upto;
    twin.leave_journal(seat, journal);
    settle(rt, twin, seat, upto);
}

// So many entries, one after the other, and a flush after every eighth.
fn write_times<R: Wait>(
    rt: &R,
    twin: &Twin<Diary, Journal>,
    seat: &mut TwinSeat<Diary, Journal>,
    by: u64,
    times: u64,
)
    requires { IsReady twin.now by seat.old }
    ensures { IsReady twin.now by seat.new }
{
    for at in 0..times {
        write(rt, twin, seat, Entry { by, at });
        if at % EACH == EACH - 1 {
            flush(rt, twin, seat);
        }
    }
}

// Each seat by a thread of its own.
fn work_all<R: Threads + Wait + Sync>(
    rt: &R,
    twin: &Twin<Diary, Journal>,
    seats: &mut [TwinSeat<Diary, Journal>],
    times: u64,
)
    requires some { 0 < length seats.old }
    requires new { AreNew twin.now seats.old }
    ensures { AreAll twin.now seats.new }
{
    let threads = seats.len();
    thread::for_each_mut(
        rt,
        seats,
        threads,
        &|by, seat: &mut TwinSeat<Diary, Journal>|
            requires { IsReady twin.now by seat.old }
            ensures { IsReady twin.entry.now by seat.new }
        { write_times(rt, twin, seat, by as u64, times) },
    );
}

/// Each of so many seats writes so many entries, and flushes after every eighth, beside the others. Where memory runs out on the way, an entry
/// is left out.
///
/// The journal has no fewer entries than the diary counts on as flushed, and no more than the diary has.
pub fn write_all<R: Threads + Wait + Sync>(
    rt: &R,
    alloc: Global,
    seats: u32,
    times: u64,
) -> Result<(Diary, Journal), AllocError>
    requires { 0 < seats }
    ensures flushed { IfOk result (λ r. r.0.flushed ≤ r.1.count) }
    ensures begun { IfOk result (λ r. r.0.begun ≡ r.1.begun) }
    ensures whole { IfOk result (λ r. r.1.count ≤ length r.0.entries.items) }
{
    let diary = Diary {
        entries: Vec::new(alloc),
        begun: 0,
        flushed: 0,
    };
    let journal = Journal { count: 0, begun: 0 };
    let Ok((twin, seats)) = Twin::new(alloc, diary, journal, seats) else {
        return Err(AllocError);
    };
    let mut seats = seats;
    work_all(rt, &twin, seats.as_mut_slice(), times);
    Ok(twin.close(seats))
}
