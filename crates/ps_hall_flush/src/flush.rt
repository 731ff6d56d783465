// A flush: the entries that wait are written as one frame, while others go on with the state.
ghost use Rattle.std.specs.Prelude.{◌≡◌, ℕ, ◌≤◌, length, IfNone, IfOk, IfSome, OnOk, OnErr};
ghost use Rattle.ps_model.specs.declared.steps.Step.{Step};
ghost use Rattle.ps_hall_state.specs.Stand.{IsStanding};
ghost use Rattle.ps_twin.specs.Seats.{seen_of, number_of, known_of, mark_of, HasJournal, IsSeatOf};
ghost use Rattle.ps_hall_flush.specs.Doing.{MakesOne, Passes};
ghost use Rattle.ps_hall_flush.specs.Flush.{FrameBegun, FrameRefused, FrameSpared, HasToldFault, IsBrokenAt, IsFrameOf, IsMeasuredBy, IsWritten, SeatFlushes, SeatNotFlushed};
ghost use Rattle.ps_hall_flush.specs.Seat.{HoldsStore, MayCall};

use crate::home::{Archive, Home, Opening};
use crate::leaving::{leave_as_was, leave_broken, leave_flushed};
use ps_disk::Disk;
use ps_hall_state::State;
use ps_hall_store::Frame;
use ps_twin::{Twin, TwinSeat};
use std::sync::Wait;

/// Why nothing was flushed: the disk failed, in this call or an earlier one.
#[derive(Clone, Copy, PartialEq, Eq, Debug)]
pub enum FlushRefusal {
    Store,
}

/// The entries that wait become those of a frame. They wait no more, so whoever calls it writes them.
pub fn frame_of(state: &mut State) -> Frame
    requires standing { IsStanding state.old }
    ensures { IsFrameOf state.old state.new result }
{
    let batch = state.hand_over();
    Frame {
        batch,
        count: state.count,
        length: state.length,
        steps: state.steps,
    }
}

// In a holding of the state a frame is begun, unless one has failed, or the first `upto` steps are flushed.
fn begin_frame<B: Opening, D: Disk, R: Wait>(
    twin: &Twin<Home<B>, Archive<B, D>>,
    rt: &R,
    seat: &mut TwinSeat<Home<B>, Archive<B, D>>,
    archive: &Archive<B, D>,
    upto: u64,
) -> Result<Option<Frame>, FlushRefusal>
    requires { HoldsStore B.origin twin.now seat.old archive.now.store }
    ensures number { number_of seat.new ≡ number_of seat.old }
    ensures passed { Passes B.origin (number_of seat.old) (seen_of seat.old) (seen_of seat.new) }
    ensures err { OnErr result (FrameRefused B.origin twin.now seat.new archive.now.store) }
    ensures none { IfOk result (λ begun. IfNone begun
        (FrameSpared B.origin twin.now seat.new archive.now.store upto)) }
    ensures some { IfOk result (λ begun. IfSome begun
        (λ f. FrameBegun B.origin twin.now seat.new archive.now.store f)) }
{
    let mut home = twin.enter(rt, seat);
    if home.state.broken {
        leave_as_was(twin, seat, home);
        return Err(FlushRefusal::Store);
    }
    if upto <= home.state.flushed {
        leave_as_was(twin, seat, home);
        return Ok(None);
    }
    let frame = frame_of(&mut home.state);
    leave_as_was(twin, seat, home);
    Ok(Some(frame))
}

// In a later holding of the state the Flush of the first `upto` steps is added, which made so many entries.
fn end_frame<B: Opening, D: Disk, R: Wait>(
    twin: &Twin<Home<B>, Archive<B, D>>,
    rt: &R,
    seat: &mut TwinSeat<Home<B>, Archive<B, D>>,
    upto: u64,
    count: u64,
)
    requires { IsWritten B.origin twin.now seat.old upto count }
    ensures number { number_of seat.new ≡ number_of seat.old }
    ensures call { MayCall twin.now seat.new }
    ensures known { known_of seat.old ≤ known_of seat.new }
    ensures added { MakesOne B.origin seat.old seat.new (Step.Flush upto) }
{
    let mut home = twin.enter(rt, seat);
    home.state.settle(upto, count);
    leave_flushed(twin, seat, home, upto);
}

/// In a later holding of the state it is told that a frame failed. The answer is the number of steps then.
pub(crate) fn tell_fault<B: Opening, D: Disk, R: Wait>(
    twin: &Twin<Home<B>, Archive<B, D>>,
    rt: &R,
    seat: &mut TwinSeat<Home<B>, Archive<B, D>>,
) -> u64
    requires twin { IsSeatOf twin.now seat.old }
    requires held { HasJournal seat.old }
    ensures twin { IsSeatOf twin.now seat.new }
    ensures held { HasJournal seat.new }
    ensures number { number_of seat.new ≡ number_of seat.old }
    ensures hand { HasToldFault seat.old seat.new }
    ensures steps { result ≡ length (seen_of seat.new) }
    ensures added { MakesOne B.origin seat.old seat.new Step.Broken }
    ensures broken { IsBrokenAt B.origin (seen_of seat.new) }
    ensures measured { IsMeasuredBy B.origin (mark_of seat.old) (seen_of seat.new) }
{
    let mut home = twin.enter(rt, seat);
    home.state.fault();
    let steps = home.state.steps;
    leave_broken(twin, seat, home);
    steps
}

// The frame is written, the journal given back, and the Flush added; or it is told that the frame failed, and the journal given back.
fn write_frame<B: Opening, D: Disk, R: Wait>(
    twin: &Twin<Home<B>, Archive<B, D>>,
    rt: &R,
    seat: &mut TwinSeat<Home<B>, Archive<B, D>>,
    mut archive: Archive<B, D>,
    frame: Frame,
) -> Result<(), FlushRefusal>
    requires { FrameBegun B.origin twin.now seat.old archive.store frame }
    ensures number { number_of seat.new ≡ number_of seat.old }
    ensures call { MayCall twin.now seat.new }
    ensures ok { OnOk result (MakesOne B.origin seat.old seat.new (Step.Flush (length (seen_of seat.old)))) }
    ensures known { OnOk result (length (seen_of seat.old) ≤ known_of seat.new) }
    ensures err { OnErr result (MakesOne B.origin seat.old seat.new Step.Broken) }
{
    match archive.store.append(&frame) {
        Ok(()) => {
            twin.leave_journal(seat, archive);
            end_frame(twin, rt, seat, frame.steps, frame.count);
            Ok(())
        }
        Err(_) => {
            let steps = tell_fault(twin, rt, seat);
            archive.store.note(steps);
            twin.leave_journal(seat, archive);
            Err(FlushRefusal::Store)
        }
    }
}

/// Makes durable all that the seat has seen, where others have not done so.
pub fn flush_seat<B: Opening, D: Disk, R: Wait>(
    twin: &Twin<Home<B>, Archive<B, D>>,
    rt: &R,
    seat: &mut TwinSeat<Home<B>, Archive<B, D>>,
) -> Result<(), FlushRefusal>
    requires { MayCall twin.now seat.old }
    ensures number { number_of seat.new ≡ number_of seat.old }
    ensures call { MayCall twin.now seat.new }
    ensures ok { OnOk result (SeatFlushes B.origin seat.old seat.new) }
    ensures known { OnOk result (length (seen_of seat.old) ≤ known_of seat.new) }
    ensures err { OnErr result (SeatNotFlushed B.origin seat.old seat.new) }
{
    let seen = twin.seen(seat);
    let archive = twin.enter_journal(rt, seat);
    match begin_frame(twin, rt, seat, &archive, seen) {
        Ok(Some(frame)) => write_frame(twin, rt, seat, archive, frame),
        Ok(None) => {
            twin.leave_journal(seat, archive);
            Ok(())
        }
        Err(refusal) => {
            twin.leave_journal(seat, archive);
            Err(refusal)
        }
    }
}
