// A rehearsal, and its numbers.
ghost use Rattle.std.specs.Prelude.{◌≡◌, ◌+◌, ◌≤◌, ◌^◌, None, true, false, IfOk};
ghost use Rattle.ps_hall_store.specs.Stand.{broken_in};
ghost use Rattle.ps_rehearse_laws.specs.Rehearsal.{rehearsal};
ghost use Rattle.ps_rehearse.specs.Laws.{AreNumbers};
ghost use Rattle.ps_rehearse.specs.Rehearsed.{Rehearsed};
ghost use Rattle.ps_rehearse.specs.Streams.{AreDone, IsDone};

use crate::entries::{Made, count_entries};
use crate::laws::each_run_has_the_numbers;
use crate::numbers::Numbers;
use crate::running::{Ran, serve_empty};
use crate::streams::{hosts, ports};
use ps_base::Memory;
use ps_disk::{Disk, MemDisk};
use ps_hall_store::Store;
use ps_rehearse_lines::{Counts, count_lines, deal};
use ps_types::Text;
use ps_wire::MemSink;
use ps_workers::{EndCause, Ended, ReadEnd, State};
use std::alloc::Global;
use std::random::RandomSource;
use std::sync::Wait;
use std::thread::Threads;

const SERVICE: &str = "pubsub.example";

// A store that has more bytes at the end may have been full for a line. None comes near it.
const MOST: u64 = 1 << 29;

// Whether the disk has not failed, and no line found the store full.
fn is_sound<D: Disk>(state: &State, store: &Store<D>) -> bool
    ensures broken { result ≡ true → state.now.broken ≡ false }
    ensures store { result ≡ true → broken_in store.now ≡ None }
    ensures low { result ≡ true → state.now.length ≤ 2 ^ 29 }
{
    !(state.broken || store.is_broken()) && state.length <= MOST
}

fn is_done<L, C>(ended: &Ended<L, C, MemSink>) -> bool
    ensures { result ≡ true → IsDone ended.now }
{
    matches!(
        (ended.read, ended.wrote),
        (ReadEnd::Ended, EndCause::Finished)
    )
}

// The lines of both streams, which are done.
fn count_both<L, C>(alloc: Global, ended: &[Ended<L, C, MemSink>]) -> Result<Counts, Memory>
    ensures { IfOk result (AreDone ended.now) }
{
    let [one, two] = ended else {
        return Err(Memory);
    };
    if !is_done(one) {
        return Err(Memory);
    }
    if !is_done(two) {
        return Err(Memory);
    }
    let one = count_lines(alloc, one.port.sink.bytes())?;
    let two = count_lines(alloc, two.port.sink.bytes())?;
    Ok(Counts {
        results: one.results + two.results,
        errors: one.errors + two.errors,
        notices: one.notices + two.notices,
    })
}

// Whether each stanza has got a result or an error, and each notice is recorded.
fn agree(counts: Counts, count: u64, made: &Made) -> bool
    ensures replied { result ≡ true → counts.results + counts.errors ≡ count }
    ensures recorded { result ≡ true → counts.notices ≡ made.now.handed }
{
    match counts.results.checked_add(counts.errors) {
        Some(replies) => replies == count && counts.notices == made.handed,
        None => false,
    }
}

// Deals so many stanzas of the seed to two streams, serves both over an empty store, and answers the numbers of what came of it.
fn run_once<R: RandomSource + Wait + Threads + Sync>(
    rt: &R,
    alloc: Global,
    seed: u64,
    count: u64,
) -> Result<Numbers, Memory>
    requires { count ≤ 100000 }
    ensures { IfOk result (Rehearsed seed count) }
{
    let dealt = deal(alloc, seed, count)?;
    let ports = ports(alloc, &dealt)?;
    let hosts = hosts(alloc)?;
    let service = Text::of(alloc, SERVICE)?;
    let disk = MemDisk::new(alloc, &[], &[])?;
    let Ran {
        state,
        store,
        ended,
    } = serve_empty(rt, alloc, &service, &hosts, disk, ports)?;
    let sound = is_sound(&state, &store);
    let disk = store.close();
    if !sound {
        return Err(Memory);
    }
    let counts = count_both(alloc, &ended)?;
    let made = count_entries(alloc, disk)?;
    if !agree(counts, count, &made) {
        return Err(Memory);
    }
    Ok(Numbers {
        stanzas: count,
        commits: made.commits,
        results: counts.results,
        errors: counts.errors,
        notices: counts.notices,
    })
}

/// Deals so many stanzas of the seed to two streams, serves both over an empty store, and answers the numbers of what came of it: however the streams
/// interleaved, those of the stanzas one after the other at an empty service.
pub fn rehearse<R: RandomSource + Wait + Threads + Sync>(
    rt: &R,
    alloc: Global,
    seed: u64,
    count: u64,
) -> Result<Numbers, Memory>
    requires { count ≤ 100000 }
    ensures run { IfOk result (Rehearsed seed count) }
    ensures numbers { IfOk result (λ n. AreNumbers n (rehearsal seed count)) }
{
    each_run_has_the_numbers();
    run_once(rt, alloc, seed, count)
}
