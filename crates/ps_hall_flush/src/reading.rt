// The entries of all frames, read again.
ghost use Rattle.std.specs.Prelude.{◌≡◌, IfErr, IfOk};
ghost use Rattle.ps_twin.specs.Seats.{number_of, seen_of};
ghost use Rattle.ps_hall_flush.specs.Doing.{Passes};
ghost use Rattle.ps_hall_flush.specs.Flush.{NoFrame};
ghost use Rattle.ps_hall_flush.specs.History.{SeatNotRead, SeatRead};
ghost use Rattle.ps_hall_flush.specs.Seat.{HoldsStore, MayCall};

use crate::flush::tell_fault;
use crate::home::{Archive, Home, Opening};
use crate::leaving::leave_as_was;
use ps_disk::Disk;
use ps_journal::EntriesRefusal;
use ps_twin::{Twin, TwinSeat};
use ps_types::Entry;
use std::alloc::Global;
use std::sync::Wait;

// A holding of the state, in which the seat sees all that the journal in its hand stands for.
fn look<B: Opening, D: Disk, R: Wait>(
    twin: &Twin<Home<B>, Archive<B, D>>,
    rt: &R,
    seat: &mut TwinSeat<Home<B>, Archive<B, D>>,
    archive: &Archive<B, D>,
)
    requires { HoldsStore B.origin twin.now seat.old archive.now.store }
    ensures number { number_of seat.new ≡ number_of seat.old }
    ensures passed { Passes B.origin (number_of seat.old) (seen_of seat.old) (seen_of seat.new) }
    ensures as_was { NoFrame B.origin twin.now seat.new archive.now.store }
{
    let home = twin.enter(rt, seat);
    leave_as_was(twin, seat, home);
}

/// The entries of all frames.
pub fn read_seat<B: Opening, D: Disk, R: Wait>(
    twin: &Twin<Home<B>, Archive<B, D>>,
    rt: &R,
    alloc: Global,
    seat: &mut TwinSeat<Home<B>, Archive<B, D>>,
) -> Result<Vec<Entry>, EntriesRefusal>
    requires { MayCall twin.now seat.old }
    ensures number { number_of seat.new ≡ number_of seat.old }
    ensures call { MayCall twin.now seat.new }
    ensures ok { IfOk result (λ v. SeatRead B.origin D.tells seat.old seat.new v.items) }
    ensures err { IfErr result (SeatNotRead B.origin seat.old seat.new) }
{
    let mut archive = twin.enter_journal(rt, seat);
    look(twin, rt, seat, &archive);
    if archive.store.is_broken() {
        twin.leave_journal(seat, archive);
        return Err(EntriesRefusal::Store);
    }
    match archive.store.entries(alloc) {
        Ok(entries) => {
            twin.leave_journal(seat, archive);
            Ok(entries)
        }
        Err(EntriesRefusal::Memory) => {
            twin.leave_journal(seat, archive);
            Err(EntriesRefusal::Memory)
        }
        Err(EntriesRefusal::Store) => {
            let steps = tell_fault(twin, rt, seat);
            archive.store.note(steps);
            twin.leave_journal(seat, archive);
            Err(EntriesRefusal::Store)
        }
    }
}
