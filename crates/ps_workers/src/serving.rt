// The workers of all hosts, from their passes and their streams to the end.
ghost use Rattle.std.specs.Prelude.{◌≡◌, ◌≤◌, ◌+◌, ◌<◌, ◌^◌, ◌∷◌, [], ℕ, IfOk, length, slice_get, vec_capacity, vec_len};
ghost use Rattle.std.specs.List.{All};
ghost use Rattle.ps_trace.specs.Own.{AllDiffer};
ghost use Rattle.ps_hall.specs.Passes.{AreFresh};
ghost use Rattle.ps_wire.specs.Reading.{IsFresh};
ghost use Rattle.ps_workers.specs.Headline.{Serves};
ghost use Rattle.ps_workers.specs.Teams.{ArePaired, IsReading, IsRoomFor, IsWriting, ended_by, ended_in, passes_in, team, worked_of};
ghost use Rattle.ps_workers.specs.Working.{clocks, sinks};

use crate::closing::close;
use crate::work::{Work, Worker, work_all};
use ps_base::Memory;
use ps_disk::Disk;
use ps_endpoints::Port;
use ps_hall::{EndCause, Hall, HostPasses, Opening, Pass};
use ps_hall_state::State;
use ps_hall_store::Store;
use ps_io::Clock;
use ps_streams::ReadEnd;
use ps_wire::{Lines, Sink, Source};
use std::alloc::Global;
use std::sync::Wait;
use std::thread::Threads;

/// A stream whose workers have ended, and why each did.
#[derive(Drop)]
pub struct Ended<L, C, K> {
    pub port: Port<L, C, K>,
    pub read: ReadEnd,
    pub wrote: EndCause,
}

/// The memory that [`serve`] needs, reserved before a hall is made.
#[derive(Drop)]
pub struct WorkRoom<B: Opening, D: Disk, L, C, K> {
    workers: Vec<Worker<Pass<B, D>, L, C, K>>,
    passes: Vec<HostPasses<B, D>>,
    ended: Vec<Ended<L, C, K>>,
}

impl<B: Opening, D: Disk, L: Drop, C: Drop, K: Drop> WorkRoom<B, D, L, C, K> {
    /// WorkRoom for the workers of so many hosts.
    pub fn new(alloc: Global, hosts: usize) -> Result<WorkRoom<B, D, L, C, K>, Memory>
        requires few { hosts ≤ 2 ^ 30 }
        ensures { IfOk result (λ room. IsRoomFor hosts room) }
    {
        Ok(WorkRoom {
            workers: Vec::with_capacity(alloc, hosts * 2)?,
            passes: Vec::with_capacity(alloc, hosts)?,
            ended: Vec::with_capacity(alloc, hosts)?,
        })
    }
}

// The workers of all hosts: of each its reader and its writer.
fn gather<B: Opening, D: Disk, L: Drop, C: Drop, K: Drop>(
    passes: Vec<HostPasses<B, D>>,
    ports: Vec<Port<L, C, K>>,
    mut workers: Vec<Worker<Pass<B, D>, L, C, K>>,
) -> Vec<Worker<Pass<B, D>, L, C, K>>
    requires same { length ports.items ≡ length passes.items }
    requires empty { workers.items ≡ [] }
    requires room { length passes.items + length passes.items ≤ vec_capacity workers }
    ensures { result.items ≡ team passes.items ports.items }
{
    let mut ports = ports.into_iter();
    for both in passes {
        let (reader, writer) = both.into_passes();
        let Port { lines, clock, sink } = ports.next().unwrap();
        workers.push_reserved(Worker {
            pass: reader,
            work: Work::Reader(lines, clock, ReadEnd::Ended),
        });
        workers.push_reserved(Worker {
            pass: writer,
            work: Work::Writer(sink, EndCause::Finished),
        });
    }
    workers
}

// A stream, from its reader's work and its writer's.
fn ended_of<L: Drop, C: Drop, K: Drop>(
    reader: Work<L, C, K>,
    writer: Work<L, C, K>,
) -> Ended<L, C, K>
    requires reader { IsReading reader }
    requires writer { IsWriting writer }
    ensures { ended_by reader writer [] ≡ result ∷ [] }
{
    match (reader, writer) {
        (Work::Reader(lines, clock, read), Work::Writer(sink, wrote)) => Ended {
            port: Port { lines, clock, sink },
            read,
            wrote,
        },
        (Work::Writer(_, _), _) | (Work::Reader(_, _, _), Work::Reader(_, _, _)) => unreachable!(),
    }
}

// The passes of all hosts, and their streams.
fn part<B: Opening, D: Disk, L: Drop, C: Drop, K: Drop>(
    workers: Vec<Worker<Pass<B, D>, L, C, K>>,
    mut passes: Vec<HostPasses<B, D>>,
    mut ended: Vec<Ended<L, C, K>>,
) -> (Vec<HostPasses<B, D>>, Vec<Ended<L, C, K>>)
    requires paired { ArePaired workers.items }
    requires empty { (passes.items ≡ []) × (ended.items ≡ []) }
    requires passes { vec_len workers ≤ vec_capacity passes + vec_capacity passes }
    requires ended { vec_len workers ≤ vec_capacity ended + vec_capacity ended }
    ensures passes { result.0.items ≡ passes_in workers.items }
    ensures ended { result.1.items ≡ ended_in workers.items }
{
    let mut workers = workers.into_iter();
    while let Some(reader) = workers.next() {
        let writer = workers.next().unwrap();
        passes.push_reserved(HostPasses {
            reader: reader.pass,
            writer: writer.pass,
        });
        ended.push_reserved(ended_of(reader.work, writer.work));
    }
    (passes, ended)
}

/// Has a reader and a writer of each host work, beside one another, until all have ended; ends the hall then, and writes the entries that still wait unless the
/// disk has failed. The answer is the state, the store, and each stream with the causes of its two ends, in the order of the hosts.
pub fn serve<
    B: Opening + Send + Sync,
    D: Disk + Send,
    R: Threads + Wait + Sync,
    S: Source + Send + Drop,
    C: Clock + Send + Drop,
    K: Sink + Send + Drop,
>(
    rt: &R,
    alloc: Global,
    hall: Hall<B, D>,
    passes: Vec<HostPasses<B, D>>,
    ports: Vec<Port<Lines<S>, C, K>>,
    room: WorkRoom<B, D, Lines<S>, C, K>,
) -> (State, Store<D>, Vec<Ended<Lines<S>, C, K>>)
    requires passes { AreFresh B.origin hall.twin passes.items }
    requires ports { length ports.items ≡ length B.origin.hosts }
    requires fresh { All (λ p. IsFresh p.lines) ports.items }
    requires differ { AllDiffer B.origin.hosts }
    requires some { 0 < length B.origin.hosts }
    requires room { IsRoomFor (length B.origin.hosts) room }
    ensures size { length result.2.items ≡ length ports.items }
    ensures serves { Serves B.origin result.0 result.1 (worked_of (clocks (λ c. C.faults c) (λ c. C.told c))
        (sinks (λ k. K.faults k) (λ k. K.written k)) ports.items result.2.items) }
{
    let WorkRoom {
        workers,
        passes: back,
        ended,
    } = room;
    let mut workers = gather(passes, ports, workers);
    work_all(rt, alloc, &hall, workers.as_mut_slice());
    let (passes, ended) = part(workers, back, ended);
    let (state, store) = close(hall, passes);
    (state, store, ended)
}
