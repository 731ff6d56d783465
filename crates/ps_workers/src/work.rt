// One worker, and all workers beside one another.
ghost use Rattle.std.specs.Prelude.{◌≡◌, ◌<◌, [], ℕ, List, Option, true, length, slice_index_or};
ghost use Rattle.std.specs.List.{All};
ghost use Rattle.ps_types.specs.declared.entry.Entry.{Entry};
ghost use Rattle.ps_trace.specs.Own.{AllDiffer};
ghost use Rattle.ps_twin.specs.Seats.{seen_of};
ghost use Rattle.ps_hall.specs.Calls.{FoundOver, IsReader};
ghost use Rattle.ps_streams.specs.Reading.{SeatStreamRead, says_gone};
ghost use Rattle.ps_streams.specs.Speaking.{FindsBroken, IsSamePass};
ghost use Rattle.ps_workers.specs.Working.{DidWork, IsReady, clocks, sinks};

use crate::muster::Muster;
use ps_disk::Disk;
use ps_hall::{EndCause, Hall, HandedRefusal, Opening, Pass};
use ps_io::Clock;
use ps_streams::{ReadEnd, read_stream, write_stream};
use ps_wire::{Lines, Sink, Source};
use std::alloc::Global;
use std::sync::Wait;
use std::thread;
use std::thread::Threads;

/// What a worker does, and how it ended: it reads lines and asks a clock for the moment of each, or it writes to a sink.
#[derive(Drop)]
pub enum Work<L, C, K> {
    Reader(L, C, ReadEnd),
    Writer(K, EndCause),
}

/// One worker, with its pass.
#[derive(Drop)]
pub struct Worker<P, L, C, K> {
    pub pass: P,
    pub work: Work<L, C, K>,
}

// The end of a reader that read nothing, where its own end was refused.
fn end_unread(refusal: HandedRefusal) -> ReadEnd
    ensures never { says_gone result ≡ true → ⊥ }
    ensures store { result ≡ ReadEnd.Store → refusal ≡ HandedRefusal.Store }
    ensures from_store { refusal ≡ HandedRefusal.Store → result ≡ ReadEnd.Store }
    ensures full { result ≡ ReadEnd.Full → refusal ≡ HandedRefusal.Full }
    ensures from_full { refusal ≡ HandedRefusal.Full → result ≡ ReadEnd.Full }
{
    match refusal {
        HandedRefusal::Store => ReadEnd::Store,
        HandedRefusal::Full => ReadEnd::Full,
        HandedRefusal::Memory => ReadEnd::Memory,
    }
}

// Ends a reader without a line.
fn leave_unread<B: Opening, D: Disk, R: Wait + Threads + Sync>(
    rt: &R,
    hall: &Hall<B, D>,
    pass: &mut Pass<B, D>,
) -> ReadEnd
    requires reader { IsReader B.origin hall.now.twin pass.old.at pass.old.host pass.old.seat }
    requires fresh { seen_of pass.old.seat ≡ [] }
    ensures reader { IsReader B.origin hall.now.twin pass.new.at pass.new.host pass.new.seat }
    ensures same { IsSamePass pass.old pass.new }
    ensures read { (before source : Option (List ℕ)) (told : Option (List (Option ℕ)))
        → SeatStreamRead B.origin pass.old.host pass.old.seat pass.new.seat before source told told result }
    ensures never { says_gone result ≡ true → ⊥ }
    ensures store { result ≡ ReadEnd.Store → FindsBroken B.origin pass.new.seat }
    ensures full { result ≡ ReadEnd.Full
        → FoundOver B.origin (Entry.Gone pass.old.host) (seen_of pass.new.seat) }
{
    match hall.gone(rt, pass) {
        Ok(()) => ReadEnd::Memory,
        Err(refusal) => end_unread(refusal),
    }
}

// Ends a worker that has done nothing.
fn leave<B: Opening, D: Disk, R: Wait + Threads + Sync, S: Source, C: Clock, K: Sink>(
    rt: &R,
    hall: &Hall<B, D>,
    worker: &mut Worker<Pass<B, D>, Lines<S>, C, K>,
)
    requires ready { IsReady B.origin hall.now.twin worker.old }
    ensures did { DidWork B.origin hall.now.twin (clocks (λ c. C.faults c) (λ c. C.told c))
        (sinks (λ k. K.faults k) (λ k. K.written k)) worker.old worker.new }
{
    match &mut worker.work {
        Work::Reader(_, _, end) => {
            *end = leave_unread(rt, hall, &mut worker.pass);
        }
        Work::Writer(_, why) => {
            hall.writer_ended(rt, &mut worker.pass, EndCause::Memory);
            *why = EndCause::Memory;
        }
    }
}

// Reads, or writes, to its end, once all workers have come.
fn do_work<B: Opening, D: Disk, R: Wait + Threads + Sync, S: Source, C: Clock, K: Sink>(
    rt: &R,
    alloc: Global,
    hall: &Hall<B, D>,
    muster: &Muster,
    worker: &mut Worker<Pass<B, D>, Lines<S>, C, K>,
)
    requires ready { IsReady B.origin hall.now.twin worker.old }
    requires differ { AllDiffer B.origin.hosts }
    ensures did { DidWork B.origin hall.now.twin (clocks (λ c. C.faults c) (λ c. C.told c))
        (sinks (λ k. K.faults k) (λ k. K.written k)) worker.old worker.new }
{
    if !muster.all_come(rt) {
        leave(rt, hall, worker);
        return;
    }
    match &mut worker.work {
        Work::Reader(lines, clock, end) => {
            *end = read_stream(rt, alloc, hall, &mut worker.pass, lines, clock);
        }
        Work::Writer(sink, why) => {
            *why = write_stream(rt, hall, &mut worker.pass, sink);
        }
    }
}

/// Each worker works, beside the others.
pub fn work_all<
    B: Opening + Send + Sync,
    D: Disk + Send,
    R: Threads + Wait + Sync,
    S: Source + Send,
    C: Clock + Send,
    K: Sink + Send,
>(rt: &R, alloc: Global, hall: &Hall<B, D>, workers: &mut [Worker<Pass<B, D>, Lines<S>, C, K>])
    requires some { 0 < length workers.old }
    requires differ { AllDiffer B.origin.hosts }
    requires ready { All (λ w. IsReady B.origin hall.now.twin w) workers.old }
    ensures { (i : ℕ) (d : _) → i < length workers.old
        → DidWork B.origin hall.now.twin (clocks (λ c. C.faults c) (λ c. C.told c))
        (sinks (λ k. K.faults k) (λ k. K.written k))
        (slice_index_or workers.old i d) (slice_index_or workers.new i d) }
{
    let threads = workers.len();
    let muster = Muster::new(threads);
    thread::for_each_mut(
        rt,
        workers,
        threads,
        &|_, worker: &mut Worker<Pass<B, D>, Lines<S>, C, K>|
            requires { IsReady B.origin hall.now.twin worker.old × AllDiffer B.origin.hosts }
            ensures { DidWork B.origin hall.entry.now.twin (clocks (λ c. C.faults c) (λ c. C.told c))
                (sinks (λ k. K.faults k) (λ k. K.written k)) worker.old worker.new }
        { do_work(rt, alloc, hall, &muster, worker) },
    );
}
