// The end of a host's callers.
ghost use Rattle.std.specs.Prelude.{◌≡◌, IsErrOf, OnErr, OnOk};
ghost use Rattle.ps_types.specs.declared.entry.Entry.{Entry};
ghost use Rattle.ps_model.specs.declared.steps.Role.{Role};
ghost use Rattle.ps_model.specs.declared.steps.Step.{Step};
ghost use Rattle.ps_hall_state.specs.declared.answers.HandedRefusal.{HandedRefusal};
ghost use Rattle.ps_twin.specs.Seats.{seen_of};
ghost use Rattle.ps_hall.specs.Calls.{FoundOver, IsReader, IsWriter, LayGoneDoes, SeatFailsAndEnds, SeatGone};
ghost use Rattle.ps_hall.specs.Calls.{SeatFlushesAndEnds};
ghost use Rattle.ps_hall_flush.specs.Doing.{Makes, MakesOne};

use crate::answers::EndCause;
use crate::ending::gone_or_end;
use crate::hall::{Hall, Pass};
use crate::leaving::{leave_ended, leave_gone};
use ps_disk::Disk;
use ps_hall_flush::{FlushRefusal, Opening};
use ps_hall_state::HandedRefusal;
use ps_model::Role;
use std::sync::Wait;
use std::thread::Threads;

impl<B: Opening, D: Disk> Hall<B, D> {
    // In one holding a Gone of the pass's host is laid, or else the pass's reader has ended.
    fn lay_gone<R: Wait + Threads + Sync>(
        &self,
        rt: &R,
        pass: &mut Pass<B, D>,
    ) -> Result<(), HandedRefusal>
        requires reader { IsReader B.origin self.now.twin pass.old.at pass.old.host pass.old.seat }
        ensures reader { IsReader B.origin self.now.twin pass.new.at pass.new.host pass.new.seat }
        ensures same { (pass.new.at ≡ pass.old.at) × (pass.new.host ≡ pass.old.host) }
        ensures does { Makes B.origin pass.old.seat pass.new.seat
            (LayGoneDoes B.origin pass.old.host result) }
        ensures over { IsErrOf result HandedRefusal.Full
            → FoundOver B.origin (Entry.Gone pass.old.host) (seen_of pass.new.seat) }
    {
        let mut home = self.twin.enter(rt, &mut pass.seat);
        let outcome = gone_or_end(&mut home.state, rt, pass.at);
        leave_gone(&self.twin, &mut pass.seat, home, &pass.host, &outcome);
        outcome
    }

    // In one holding the end of the pass's reader is laid.
    fn end_reader<R: Wait>(&self, rt: &R, pass: &mut Pass<B, D>)
        requires reader { IsReader B.origin self.now.twin pass.old.at pass.old.host pass.old.seat }
        ensures reader { IsReader B.origin self.now.twin pass.new.at pass.new.host pass.new.seat }
        ensures same { (pass.new.at ≡ pass.old.at) × (pass.new.host ≡ pass.old.host) }
        ensures ended { MakesOne B.origin pass.old.seat pass.new.seat
            (Step.Ended pass.old.host Role.Reader) }
    {
        let mut home = self.twin.enter(rt, &mut pass.seat);
        home.state.reader_ended(pass.at);
        leave_ended(&self.twin, &mut pass.seat, home, &pass.host, Role::Reader);
    }

    // All that the pass has seen is made durable, and then its reader has ended.
    fn flush_and_end<R: Wait>(&self, rt: &R, pass: &mut Pass<B, D>) -> Result<(), FlushRefusal>
        requires reader { IsReader B.origin self.now.twin pass.old.at pass.old.host pass.old.seat }
        ensures reader { IsReader B.origin self.now.twin pass.new.at pass.new.host pass.new.seat }
        ensures same { (pass.new.at ≡ pass.old.at) × (pass.new.host ≡ pass.old.host) }
        ensures ok { OnOk result (SeatFlushesAndEnds B.origin pass.old.host pass.old.seat pass.new.seat) }
        ensures err { OnErr result (SeatFailsAndEnds B.origin pass.old.host pass.old.seat pass.new.seat) }
    {
        let flushed = self.flush(rt, pass);
        self.end_reader(rt, pass);
        self.bells.ring_all();
        flushed
    }

    /// Ends the reader of the pass's host: a Gone is recorded and made durable, and then the reader has ended. It has ended after a refusal too, and no
    /// Gone was made but before `Store`. After `Full` it ended in the holding that found no room: that deed tells how long the store was, and behind so
    /// many bytes the Gone passes the limit.
    pub fn gone<R: Wait + Threads + Sync>(
        &self,
        rt: &R,
        pass: &mut Pass<B, D>,
    ) -> Result<(), HandedRefusal>
        requires reader { IsReader B.origin self.now.twin pass.old.at pass.old.host pass.old.seat }
        ensures reader { IsReader B.origin self.now.twin pass.new.at pass.new.host pass.new.seat }
        ensures same { (pass.new.at ≡ pass.old.at) × (pass.new.host ≡ pass.old.host) }
        ensures gone { SeatGone B.origin pass.old.host pass.old.seat pass.new.seat result }
        ensures over { IsErrOf result HandedRefusal.Full
            → FoundOver B.origin (Entry.Gone pass.old.host) (seen_of pass.new.seat) }
    {
        match self.lay_gone(rt, pass) {
            Ok(()) => match self.flush_and_end(rt, pass) {
                Ok(()) => Ok(()),
                Err(FlushRefusal::Store) => Err(HandedRefusal::Store),
            },
            Err(refusal) => {
                self.bells.ring_all();
                Err(refusal)
            }
        }
    }

    /// Ends the writer of the pass's host. From then on no line of the host is taken.
    pub fn writer_ended<R: Wait>(&self, rt: &R, pass: &mut Pass<B, D>, _why: EndCause)
        requires writer { IsWriter B.origin self.now.twin pass.old.at pass.old.host pass.old.seat }
        ensures writer { IsWriter B.origin self.now.twin pass.new.at pass.new.host pass.new.seat }
        ensures same { (pass.new.at ≡ pass.old.at) × (pass.new.host ≡ pass.old.host) }
        ensures ended { MakesOne B.origin pass.old.seat pass.new.seat
            (Step.Ended pass.old.host Role.Writer) }
    {
        let mut home = self.twin.enter(rt, &mut pass.seat);
        home.state.writer_ended(pass.at);
        leave_ended(&self.twin, &mut pass.seat, home, &pass.host, Role::Writer);
        self.bells.ring_all();
    }
}
