// The writer of a stream.
ghost use Rattle.std.specs.Prelude.{◌≡◌, ◌≢◌, ◌≤◌, [], true, IfOk, IsErrOf, IsFalse, OnErr, OnOk};
ghost use Rattle.ps_base.specs.Causes.{Rose};
ghost use Rattle.ps_trace.specs.Own.{AllDiffer};
ghost use Rattle.ps_hall.specs.Calls.{IsWriter};
ghost use Rattle.ps_streams.specs.Speaking.{AreFewer, FindsBroken, FindsLanded, FindsOver, FoundNoRoom, IsSamePass, IsWriterDone, MaySpeak, MayTell, SeatEndsOnce, SeatGoesOn, SeatRecords, SeatSpeaks, SeatSpeaksOn, SeatSpokeWhole};

use crate::idle::{FOR_LINES, await_news};
use crate::put::put_line;
use ps_disk::Disk;
use ps_hall::{EndCause, Hall, Next, Opening, Pass};
use ps_hall_state::HandedRefusal;
use ps_wire::Sink;
use std::sync::Wait;
use std::thread::Threads;

fn end_of(refusal: HandedRefusal) -> EndCause
    ensures unfinished { result ≡ EndCause.Finished → ⊥ }
    ensures written { result ≡ EndCause.WriteFault → ⊥ }
    ensures store { result ≡ EndCause.Store → refusal ≡ HandedRefusal.Store }
    ensures full { result ≡ EndCause.Full → refusal ≡ HandedRefusal.Full }
    ensures from_full { refusal ≡ HandedRefusal.Full → result ≡ EndCause.Full }
    ensures other { (result ≡ EndCause.Store → ⊥) → refusal ≢ HandedRefusal.Store }
{
    match refusal {
        HandedRefusal::Store => EndCause::Store,
        HandedRefusal::Full => EndCause::Full,
        HandedRefusal::Memory => EndCause::Memory,
    }
}

// Whether the writer has ended with the call that answered so: a Record that found no room ended it.
fn has_ended(why: EndCause) -> bool
    ensures full { result ≡ true → why ≡ EndCause.Full }
    ensures other { IsFalse result → why ≢ EndCause.Full }
{
    match why {
        EndCause::Full => true,
        EndCause::WriteFault | EndCause::Store | EndCause::Memory | EndCause::Finished => false,
    }
}

// Once a writer has written so many lines, or at least so many bytes, it records what it has in hand and counts anew. Replies count too.
const MOST_LINES: u64 = 512;

const MOST_BYTES: u64 = 262_144;

// What a writer did.
#[derive(Clone, Copy)]
enum Said {
    // It wrote a line of so many bytes.
    Line(usize),
    // There was nothing to write.
    Nothing,
    // All is said.
    All,
}

// How much was written since what was in hand was recorded.
#[derive(Drop)]
struct Run {
    lines: u64,
    bytes: u64,
}

impl Run {
    fn new() -> Run {
        Run { lines: 0, bytes: 0 }
    }

    // Whether the writer goes on with its next line. If not, what it has in hand is to be recorded, and another run begins.
    fn goes_on(&mut self, said: Said) -> bool {
        if let Said::Line(bytes) = said {
            self.lines = self.lines.saturating_add(1);
            self.bytes = self.bytes.saturating_add(bytes as u64);
            if self.lines < MOST_LINES && self.bytes < MOST_BYTES {
                return true;
            }
        }
        *self = Run::new();
        false
    }
}

// Whether all is said.
fn is_all(said: Said) -> bool
    ensures { result ≡ true → said ≡ Said.All }
{
    match said {
        Said::All => true,
        Said::Line(_) | Said::Nothing => false,
    }
}

// Writes one line, if there is any now.
fn say_next<B: Opening, D: Disk, R: Wait, K: Sink>(
    rt: &R,
    hall: &Hall<B, D>,
    pass: &mut Pass<B, D>,
    sink: &mut K,
) -> Result<Said, EndCause>
    requires ready { MayTell B.origin hall.now.twin pass.old }
    ensures ready { MayTell B.origin hall.now.twin pass.new }
    ensures same { IsSamePass pass.old pass.new }
    ensures spoke { SeatSpeaksOn B.origin pass.old.in_hand.items pass.old.seat pass.new.seat
        (K.written sink.old) (K.written sink.new) (IsErrOf result EndCause.WriteFault) }
    ensures whole { OnOk result (SeatSpokeWhole B.origin pass.old.in_hand.items pass.new.in_hand.items
        pass.old.seat pass.new.seat (K.written sink.old) (K.written sink.new)) }
    ensures over { IfOk result (λ said. said ≡ Said.All → FindsOver B.origin pass.old.host pass.new.seat) }
    ensures unfinished { IsErrOf result EndCause.Finished → ⊥ }
    ensures store { IsErrOf result EndCause.Store → ⊥ }
    ensures full { IsErrOf result EndCause.Full → ⊥ }
    ensures later { K.faults sink.old ≤ K.faults sink.new }
    ensures cause { IsErrOf result EndCause.WriteFault → Rose (K.faults sink.old) (K.faults sink.new) }
    ensures memory { IsErrOf result EndCause.Memory → K.faults sink.new ≡ K.faults sink.old }
    ensures going { SeatGoesOn pass.old.seat pass.new.seat }
{
    match hall.next(rt, pass) {
        Ok(Next::Reply(line)) => {
            let bytes = line.len();
            match put_line(sink, line) {
                Ok(()) => Ok(Said::Line(bytes)),
                Err(_) => Err(EndCause::WriteFault),
            }
        }
        Ok(Next::Notice(line)) => {
            let bytes = line.len();
            match put_line(sink, line) {
                Ok(()) => Ok(Said::Line(bytes)),
                Err(_) => Err(EndCause::WriteFault),
            }
        }
        Ok(Next::NotYet) => Ok(Said::Nothing),
        Ok(Next::Over) => Ok(Said::All),
        Err(_) => Err(EndCause::Memory),
    }
}

// Waits for news, where there was nothing to write and nothing is in hand.
fn rest_if_free<B: Opening, D: Disk, R: Wait>(
    rt: &R,
    hall: &Hall<B, D>,
    pass: &Pass<B, D>,
    heard: u64,
    said: Said,
) {
    if let Said::Nothing = said {
        if hall.in_hand(pass) == 0 {
            await_news(rt, hall, pass, heard, FOR_LINES);
        }
    }
}

// Records what is in hand, if anything is. A Record that finds no room has ended the writer.
fn record_all<B: Opening, D: Disk, R: Wait + Threads + Sync>(
    rt: &R,
    hall: &Hall<B, D>,
    pass: &mut Pass<B, D>,
) -> Result<(), EndCause>
    requires ready { MayTell B.origin hall.now.twin pass.old }
    requires differ { AllDiffer B.origin.hosts }
    ensures writer { IsWriter B.origin hall.now.twin pass.new.at pass.new.host pass.new.seat }
    ensures same { IsSamePass pass.old pass.new }
    ensures ready { OnOk result (MayTell B.origin hall.now.twin pass.new) }
    ensures quiet { OnOk result (SeatRecords B.origin pass.old.in_hand.items pass.new.in_hand.items
        pass.old.seat pass.new.seat) }
    ensures fewer { OnOk result (AreFewer pass.old.in_hand.items pass.new.in_hand.items) }
    ensures refused { OnErr result (SeatRecords B.origin pass.old.in_hand.items [] pass.old.seat pass.new.seat) }
    ensures written { IsErrOf result EndCause.WriteFault → ⊥ }
    ensures unfinished { IsErrOf result EndCause.Finished → ⊥ }
    ensures store { IsErrOf result EndCause.Store → FindsBroken B.origin pass.new.seat }
    ensures full { IsErrOf result EndCause.Full → FoundNoRoom B.origin pass.old.host pass.new.seat }
    ensures going { (IsErrOf result EndCause.Full → ⊥) → SeatGoesOn pass.old.seat pass.new.seat }
    ensures ended { IsErrOf result EndCause.Full → SeatEndsOnce pass.old.host pass.old.seat pass.new.seat }
    ensures landed { (IsErrOf result EndCause.Store → ⊥) → FindsLanded B.origin pass.old.host pass.new.seat }
{
    let held = hall.in_hand(pass);
    if held == 0 {
        return Ok(());
    }
    match hall.handed(rt, pass) {
        Ok(()) => Ok(()),
        Err(refusal) => Err(end_of(refusal)),
    }
}

// Writes one line, or waits where there is nothing now; behind a run, and before it waits, it records what is in hand. False: all is said. A Record that finds
// no room has ended the writer.
fn write_next<B: Opening, D: Disk, R: Wait + Threads + Sync, K: Sink>(
    rt: &R,
    hall: &Hall<B, D>,
    pass: &mut Pass<B, D>,
    sink: &mut K,
    run: &mut Run,
) -> Result<bool, EndCause>
    requires ready { MayTell B.origin hall.now.twin pass.old }
    requires differ { AllDiffer B.origin.hosts }
    ensures writer { IsWriter B.origin hall.now.twin pass.new.at pass.new.host pass.new.seat }
    ensures same { IsSamePass pass.old pass.new }
    ensures spoke { SeatSpeaksOn B.origin pass.old.in_hand.items pass.old.seat pass.new.seat
        (K.written sink.old) (K.written sink.new) (IsErrOf result EndCause.WriteFault) }
    ensures whole { OnOk result (SeatSpokeWhole B.origin pass.old.in_hand.items pass.new.in_hand.items
        pass.old.seat pass.new.seat (K.written sink.old) (K.written sink.new)) }
    ensures ready { OnOk result (MayTell B.origin hall.now.twin pass.new) }
    ensures over { IfOk result (λ more. IsFalse more → FindsOver B.origin pass.old.host pass.new.seat) }
    ensures unfinished { IsErrOf result EndCause.Finished → ⊥ }
    ensures later { K.faults sink.old ≤ K.faults sink.new }
    ensures cause { IsErrOf result EndCause.WriteFault → Rose (K.faults sink.old) (K.faults sink.new) }
    ensures store { IsErrOf result EndCause.Store → FindsBroken B.origin pass.new.seat }
    ensures full { IsErrOf result EndCause.Full → FoundNoRoom B.origin pass.old.host pass.new.seat }
    ensures going { (IsErrOf result EndCause.Full → ⊥) → SeatGoesOn pass.old.seat pass.new.seat }
    ensures ended { IsErrOf result EndCause.Full → SeatEndsOnce pass.old.host pass.old.seat pass.new.seat }
    ensures landed { (IsErrOf result EndCause.Store → ⊥) → FindsLanded B.origin pass.old.host pass.new.seat }
{
    let heard = hall.news(pass);
    match say_next(rt, hall, pass, sink) {
        Ok(said) => {
            if is_all(said) {
                return Ok(false);
            }
            if run.goes_on(said) {
                return Ok(true);
            }
            rest_if_free(rt, hall, pass, heard, said);
            match record_all(rt, hall, pass) {
                Ok(()) => Ok(true),
                Err(why) => Err(why),
            }
        }
        Err(why) => Err(why),
    }
}

// Writes lines until all is said. Where a Record found no room the writer has ended.
fn write_lines<B: Opening, D: Disk, R: Wait + Threads + Sync, K: Sink>(
    rt: &R,
    hall: &Hall<B, D>,
    pass: &mut Pass<B, D>,
    sink: &mut K,
) -> EndCause
    requires ready { MaySpeak B.origin hall.now.twin pass.old }
    requires differ { AllDiffer B.origin.hosts }
    ensures writer { IsWriter B.origin hall.now.twin pass.new.at pass.new.host pass.new.seat }
    ensures same { IsSamePass pass.old pass.new }
    ensures spoke { SeatSpeaks B.origin pass.old.seat pass.new.seat (K.written sink.old) (K.written sink.new)
        (result ≡ EndCause.WriteFault) }
    ensures over { result ≡ EndCause.Finished → FindsOver B.origin pass.old.host pass.new.seat }
    ensures later { K.faults sink.old ≤ K.faults sink.new }
    ensures cause { result ≡ EndCause.WriteFault → Rose (K.faults sink.old) (K.faults sink.new) }
    ensures store { result ≡ EndCause.Store → FindsBroken B.origin pass.new.seat }
    ensures full { result ≡ EndCause.Full → FoundNoRoom B.origin pass.old.host pass.new.seat }
    ensures going { (result ≡ EndCause.Full → ⊥) → SeatGoesOn pass.old.seat pass.new.seat }
    ensures ended { result ≡ EndCause.Full → SeatEndsOnce pass.old.host pass.old.seat pass.new.seat }
    ensures landed { (result ≡ EndCause.Store → ⊥) → FindsLanded B.origin pass.old.host pass.new.seat }
{
    let mut run = Run::new();
    for _ in rt.forever() {
        match write_next(rt, hall, pass, sink, &mut run) {
            Ok(true) => {}
            Ok(false) => return EndCause::Finished,
            Err(why) => return why,
        }
    }
    unreachable!()
}

/// Writes each reply and each notice of the pass's host until all is said, and says then that its writer has ended. It ends before that where the sink or
/// the disk fails, where a Record finds no room, or without memory, and answers which. In any case its pass says last, and once, that the writer has ended.
pub fn write_stream<B: Opening, D: Disk, R: Wait + Threads + Sync, K: Sink>(
    rt: &R,
    hall: &Hall<B, D>,
    pass: &mut Pass<B, D>,
    sink: &mut K,
) -> EndCause
    requires ready { MaySpeak B.origin hall.now.twin pass.old }
    requires differ { AllDiffer B.origin.hosts }
    ensures writer { IsWriter B.origin hall.now.twin pass.new.at pass.new.host pass.new.seat }
    ensures same { IsSamePass pass.old pass.new }
    ensures spoke { SeatSpeaks B.origin pass.old.seat pass.new.seat (K.written sink.old) (K.written sink.new)
        (result ≡ EndCause.WriteFault) }
    ensures ended { SeatEndsOnce pass.old.host pass.old.seat pass.new.seat }
    ensures done { result ≡ EndCause.Finished → IsWriterDone B.origin pass.old.host pass.old.seat pass.new.seat }
    ensures later { K.faults sink.old ≤ K.faults sink.new }
    ensures cause { result ≡ EndCause.WriteFault → Rose (K.faults sink.old) (K.faults sink.new) }
    ensures store { result ≡ EndCause.Store → FindsBroken B.origin pass.new.seat }
    ensures full { result ≡ EndCause.Full → FoundNoRoom B.origin pass.old.host pass.new.seat }
    ensures landed { (result ≡ EndCause.Store → ⊥) → FindsLanded B.origin pass.old.host pass.new.seat }
{
    let why = write_lines(rt, hall, pass, sink);
    if has_ended(why) {
        return why;
    }
    hall.writer_ended(rt, pass, why);
    why
}
