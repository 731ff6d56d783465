// A store of a world, fed to a sink of it.
ghost use Rattle.std.specs.Prelude.{◌≡◌, ◌≢◌, ◌≤◌};
ghost use Rattle.ps_endpoints.specs.Ports.{FailedToOpen};
ghost use Rattle.ps_status.specs.Asking.{AsksInOrder};
ghost use Rattle.ps_status.specs.Leaving.{LeavesBut};
ghost use Rattle.ps_status.specs.Outside.{held_as, outside};
ghost use Rattle.ps_status.specs.Telling.{reported_from};
ghost use Rattle.ps_follow_run.specs.Following.{held_sink};
ghost use Rattle.ps_follow_command.specs.Feeding.{Collects, FedFrom, Feeds, end_status, feed_openings, feed_touches, why_status};

use ps_base::Memory;
use ps_commands::FeedWords;
use ps_core::Service;
use ps_disk::Disk;
use ps_follow_run::{FeedEnd, Records, run_feed};
use ps_hall_open::{Observed, Observer, ReadOnlyRefusal, ReadWhy, observe};
use ps_io::{Missing, World};
use ps_status::{Status, refused};
use ps_types::Entry;
use ps_wire::Sink;
use std::alloc::Global;
use std::random::RandomSource;
use std::thread::Threads;

fn not_read(why: ReadWhy) -> Status
    ensures { result ≡ why_status why }
{
    match why {
        ReadWhy::Damaged { at } => Status::StoreDamaged { at },
        ReadWhy::Store => Status::StoreFault,
        ReadWhy::Memory => Status::Memory,
    }
}

fn fed(end: FeedEnd) -> Status
    ensures { result ≡ end_status end }
{
    match end {
        FeedEnd::Done => Status::Done,
        FeedEnd::WriteFault => Status::StreamFault,
    }
}

// What makes records of the entries as they are taken.
#[derive(Drop)]
struct Feeding {
    records: Records,
}

impl Observer for Feeding {
    ghost saw = { Collects };

    fn see(&mut self, _service: &Service, entry: Entry) -> Result<(), Memory> {
        self.records.push(&entry)
    }
}

// Reads the store on a disk, and writes the records of its entries from a place on.
fn feed_disk<R: RandomSource + Threads + Sync, D: Disk, K: Sink>(
    rt: &R,
    alloc: Global,
    disk: D,
    from: u64,
    sink: &mut K,
) -> (Status, D)
    ensures { FedFrom D.tells from (held_as D.Disk disk) (held_as D.Disk result.1) (D.left_since result.1)
        (held_sink K.Sink sink.old) (held_sink K.Sink sink.new) result.0 }
{
    let feeding = Feeding {
        records: Records::new(alloc, from),
    };
    match observe(rt, alloc, disk, feeding) {
        Err(refusal) => {
            let ReadOnlyRefusal { disk, why } = refusal;
            (not_read(why), disk)
        }
        Ok(observed) => {
            let Observed {
                disk,
                service: _,
                observer,
                entries: _,
            } = observed;
            let end = run_feed(&observer.records, sink);
            (fed(end), disk)
        }
    }
}

/// Opens a store that is there and a sink, writes the records of the store's entries from a place on, and gives both back. From a place past the last
/// entry there are none.
///
/// `OpenFault`: the store isn't there, or an opening failed. `StoreDamaged`: the store's bytes have no list of entries. `StoreFault`: its disk failed.
/// `StreamFault`: the sink failed, and has a front of the records.
pub fn feed_store<R: RandomSource + Threads + Sync, W: World>(
    rt: &R,
    alloc: Global,
    words: &FeedWords,
    world: &mut W,
) -> Status
    ensures feeds { Feeds W.Store.tells words.now (outside W.World world.old) (outside W.World world.new)
        (W.lefts world.old) (W.lefts world.new) result }
    ensures never { result ≢ Status.Usage }
    ensures open { result ≡ Status.OpenFault → FailedToOpen W.World world.old world.new }
    ensures asked { AsksInOrder (feed_openings words.now) (W.asked world.old) (W.asked world.new) }
    ensures others { LeavesBut (feed_touches words.now) (outside W.World world.old) (outside W.World world.new)
        (W.lefts world.old) (W.lefts world.new) }
    ensures reported { W.reported world.new ≡ W.reported world.old }
    ensures since { reported_from result (W.faults world.old) (W.last_opening world.new) ≤ W.faults world.new }
{
    let disk = match world.open_disk(&words.store, Missing::Refuse) {
        Ok(disk) => disk,
        Err(why) => return refused(why),
    };
    match world.open_sink(&words.sink) {
        Err(why) => {
            world.give_back_disk(&words.store, disk);
            refused(why)
        }
        Ok(sink) => {
            let mut sink = sink;
            let (status, disk) = feed_disk(rt, alloc, disk, words.from, &mut sink);
            world.give_back_sink(&words.sink, sink);
            world.give_back_disk(&words.store, disk);
            status
        }
    }
}
