// The notices in a writer's hand are recorded.
ghost use Rattle.std.specs.Prelude.{◌≡◌, ◌≢◌, ◌<◌, ◌≤◌, [], drop, IfErr, IfOk, IsErrOf, OnErr, OnOk, length};
ghost use Rattle.ps_types.specs.declared.entry.Entry.{Entry};
ghost use Rattle.ps_twin.specs.Seats.{seen_of, number_of};
ghost use Rattle.ps_trace.specs.Own.{AllDiffer};
ghost use Rattle.ps_hall_state.specs.declared.answers.HandedRefusal.{HandedRefusal};
ghost use Rattle.ps_hall.specs.Calls.{FoundOver, HandAt, IsWriter, KeepsHand, OfFirst, RecordDoes, RecordsSome, SeatHanded};
ghost use Rattle.ps_hall_flush.specs.Doing.{Makes};

use crate::ending::record_or_end;
use crate::hall::{Hall, Pass};
use crate::leaving::leave_recorded;
use ps_disk::Disk;
use ps_hall_flush::{Archive, FlushRefusal, Home, Opening, flush_seat};
use ps_hall_state::HandedRefusal;
use ps_twin::{Twin, TwinSeat};
use ps_types::{Jid, Text};
use std::sync::Wait;
use std::thread::Threads;

// In one holding the first notices that the writer of the host at a place has in hand are recorded, or the writer ends where there is no room for one. It
// answers how many were recorded.
fn record<B: Opening, D: Disk, R: Wait + Threads + Sync>(
    twin: &Twin<Home<B>, Archive<B, D>>,
    rt: &R,
    seat: &mut TwinSeat<Home<B>, Archive<B, D>>,
    at: usize,
    host: &Text,
    hand: &Vec<Jid>,
) -> Result<usize, HandedRefusal>
    requires writer { IsWriter B.origin twin.now at host.now seat.old }
    requires some { hand.now.items ≢ [] }
    requires hand { HandAt B.origin hand.now.items host.now seat.old }
    ensures writer { IsWriter B.origin twin.now at host.now seat.new }
    ensures number { number_of seat.new ≡ number_of seat.old }
    ensures differ { AllDiffer B.origin.hosts }
    ensures most { IfOk result (λ n. (0 < n) × (n ≤ length hand.now.items)) }
    ensures hand { OnErr result (HandAt B.origin hand.now.items host.now seat.new) }
    ensures does { Makes B.origin seat.old seat.new (RecordsSome B.origin host.now hand.now.items result) }
    ensures over { OfFirst hand.now.items (λ a. IsErrOf result HandedRefusal.Full
        → FoundOver B.origin (Entry.Handed a) (seen_of seat.new)) }
{
    let mut home = twin.enter(rt, seat);
    let outcome = record_or_end(&mut home.state, rt, at, hand);
    leave_recorded(twin, seat, home, host, hand, &outcome);
    outcome
}

// The first so many are no longer in hand.
fn let_go(hand: &mut Vec<Jid>, count: usize)
    requires most { count ≤ length hand.old.items }
    ensures { hand.new.items ≡ drop count hand.old.items }
{
    let left = hand.len() - count;
    hand.rotate_left(count);
    hand.truncate(left);
}

impl<B: Opening, D: Disk> Hall<B, D> {
    /// Records the first of the notices in hand as handed, at least one and as many as find room, in one holding, and makes that durable. The others are still
    /// in hand. After a refusal all are. After `Full`, and after no other, the writer has ended, in the holding that found no room for the first of them: that
    /// deed tells how long the store was, and behind so many bytes the Handed passes the limit.
    pub fn handed<R: Wait + Threads + Sync>(
        &self,
        rt: &R,
        pass: &mut Pass<B, D>,
    ) -> Result<(), HandedRefusal>
        requires writer { IsWriter B.origin self.now.twin pass.old.at pass.old.host pass.old.seat }
        requires some { pass.old.in_hand.items ≢ [] }
        requires hand { HandAt B.origin pass.old.in_hand.items pass.old.host pass.old.seat }
        ensures writer { IsWriter B.origin self.now.twin pass.new.at pass.new.host pass.new.seat }
        ensures same { (pass.new.at ≡ pass.old.at) × (pass.new.host ≡ pass.old.host) }
        ensures still { OnErr result (pass.new.in_hand.items ≡ pass.old.in_hand.items) }
        ensures hand { OnOk result (HandAt B.origin pass.new.in_hand.items pass.old.host pass.new.seat) }
        ensures kept { IfErr result (KeepsHand B.origin pass.new.in_hand.items pass.old.host pass.new.seat) }
        ensures handed { SeatHanded B.origin pass.old.host pass.old.in_hand.items pass.new.in_hand.items
            pass.old.seat pass.new.seat result }
        ensures over { OfFirst pass.old.in_hand.items (λ a. IsErrOf result HandedRefusal.Full
            → FoundOver B.origin (Entry.Handed a) (seen_of pass.new.seat)) }
    {
        let recorded = record(
            &self.twin,
            rt,
            &mut pass.seat,
            pass.at,
            &pass.host,
            &pass.in_hand,
        );
        if let Err(HandedRefusal::Full) = &recorded {
            self.bells.ring_all();
        }
        let count = recorded?;
        match flush_seat(&self.twin, rt, &mut pass.seat) {
            Ok(()) => {
                let_go(&mut pass.in_hand, count);
                Ok(())
            }
            Err(FlushRefusal::Store) => {
                self.bells.ring_all();
                Err(HandedRefusal::Store)
            }
        }
    }
}
