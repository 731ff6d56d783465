// Two stores of a world, compacted the one to the other.
ghost use Rattle.std.specs.Prelude.{◌≡◌, ◌≢◌, ◌≤◌, ◌∷◌, [], List, ℕ, Some};
ghost use Rattle.ps_io.specs.Held.{SameBut, SameLeftsBut};
ghost use Rattle.ps_io.specs.declared.world.Kind.{Kind};
ghost use Rattle.ps_endpoints.specs.Ports.{FailedToOpen};
ghost use Rattle.ps_args.specs.Well.{IsWellCompacted};
ghost use Rattle.ps_commands.specs.declared.command.Command.{Command};
ghost use Rattle.ps_serve.specs.Compacting.{Compacts, CompactsOver, LeavesOtherStores, status_by};
ghost use Rattle.ps_status.specs.Outside.{SameStreams, outside};
ghost use Rattle.ps_status.specs.Asking.{AsksInOrder};
ghost use Rattle.ps_serve.specs.Runs.{openings_of};
ghost use Rattle.ps_status.specs.Telling.{reported_from};

use ps_compact::{CompactOutcome, Compacted, compact};
use ps_io::{Missing, World};
use ps_status::{Status, refused};
use ps_types::Text;
use std::alloc::Global;
use std::random::RandomSource;
use std::thread::Threads;

fn status_of(outcome: CompactOutcome) -> Status
    ensures { result ≡ status_by outcome }
{
    match outcome {
        CompactOutcome::Done => Status::Done,
        CompactOutcome::Damaged { at } => Status::StoreDamaged { at },
        CompactOutcome::Store => Status::StoreFault,
        CompactOutcome::Occupied => Status::Occupied,
        CompactOutcome::Full => Status::StoreFull,
        CompactOutcome::Memory => Status::Memory,
    }
}

// Opens the new store, writes to it the rows of the one that is open, and gives it back.
fn compact_into<R: RandomSource + Threads + Sync, W: World>(
    rt: &R,
    alloc: Global,
    disk: W::Store,
    new: &Text,
    world: &mut W,
) -> (Status, W::Store)
    requires since { (W.last_opening world.old).1 ≤ W.faults world.old }
    ensures compacts { CompactsOver W.Store.Disk new.now (outside W.World world.old) (outside W.World world.new)
        (W.lefts world.old) (W.lefts world.new) disk result.1 result.0 }
    ensures never { result.0 ≢ Status.Usage }
    ensures open { result.0 ≡ Status.OpenFault → FailedToOpen W.World world.old world.new }
    ensures asked { AsksInOrder (record { kind = Kind.Store; name = new.now } ∷ []) (W.asked world.old)
        (W.asked world.new) }
    ensures same { SameStreams (outside W.World world.old) (outside W.World world.new) }
    ensures stores { SameBut new.now (W.stores world.old) (W.stores world.new) }
    ensures lefts { SameLeftsBut new.now (W.lefts world.old) (W.lefts world.new) }
    ensures stay { (n : List ℕ) → n ≢ new.now → W.is_open world.old Kind.Store n → W.is_open world.new Kind.Store n }
    ensures reported { W.reported world.new ≡ W.reported world.old }
    ensures later { W.faults world.old ≤ W.faults world.new }
    ensures since { (W.last_opening world.new).1 ≤ W.faults world.new }
{
    match world.open_disk(new, Missing::Make) {
        Err(why) => (refused(why), disk),
        Ok(other) => {
            let Compacted {
                store: disk,
                new: other,
                outcome,
            } = compact(rt, alloc, disk, other);
            world.give_back_disk(new, other);
            (status_of(outcome), disk)
        }
    }
}

/// Opens the store and the new one, writes the rows of the one to the other, and gives both back.
pub(crate) fn compact_stores<R: RandomSource + Threads + Sync, W: World>(
    rt: &R,
    alloc: Global,
    store: &Text,
    new: &Text,
    world: &mut W,
) -> Status
    requires well { IsWellCompacted store.now new.now }
    ensures compacts { Compacts W.Store.tells (outside W.World world.old) (outside W.World world.new)
        (W.lefts world.old) (W.lefts world.new) result (record { store = store.now; new = new.now }) }
    ensures never { result ≢ Status.Usage }
    ensures open { result ≡ Status.OpenFault → FailedToOpen W.World world.old world.new }
    ensures asked { AsksInOrder (openings_of (Some (Command.Compact store.now new.now))) (W.asked world.old)
        (W.asked world.new) }
    ensures others { LeavesOtherStores (record { store = store.now; new = new.now }) (outside W.World world.old)
        (outside W.World world.new) (W.lefts world.old) (W.lefts world.new) }
    ensures reported { W.reported world.new ≡ W.reported world.old }
    ensures since { reported_from result (W.faults world.old) (W.last_opening world.new) ≤ W.faults world.new }
{
    let disk = match world.open_disk(store, Missing::Refuse) {
        Ok(disk) => disk,
        Err(why) => return refused(why),
    };
    let (status, disk) = compact_into(rt, alloc, disk, new, world);
    world.give_back_disk(store, disk);
    status
}
