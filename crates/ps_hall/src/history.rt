// The list of entries, read again.
ghost use Rattle.std.specs.Prelude.{◌≡◌, length, IfErr, IfOk};
ghost use Rattle.ps_twin.specs.Seats.{number_of, seen_of};
ghost use Rattle.ps_hall_flush.specs.History.{SeatHistory, SeatNoHistory};
ghost use Rattle.ps_hall.specs.Calls.{IsPass};

use crate::hall::{Hall, Pass};
use ps_disk::Disk;
use ps_hall_flush::{FlushRefusal, Opening, flush_seat, read_seat};
use ps_journal::EntriesRefusal;
use ps_types::Entry;
use std::alloc::Global;
use std::sync::Wait;

impl<B: Opening, D: Disk> Hall<B, D> {
    /// The list of entries, which begins with the entries of all that the pass had seen. That is made durable, and then the disk is read, while others go on
    /// with the state.
    ///
    /// It is refused without memory, and where the disk failed, in this call or an earlier one.
    pub fn history<R: Wait>(
        &self,
        rt: &R,
        alloc: Global,
        pass: &mut Pass<B, D>,
    ) -> Result<Vec<Entry>, EntriesRefusal>
        requires pass { IsPass B.origin self.now.twin pass.old.at pass.old.host pass.old.seat }
        ensures pass { IsPass B.origin self.now.twin pass.new.at pass.new.host pass.new.seat }
        ensures same { (pass.new.at ≡ pass.old.at) × (pass.new.host ≡ pass.old.host) }
        ensures number { number_of pass.new.seat ≡ number_of pass.old.seat }
        ensures ok { IfOk result (λ v. SeatHistory B.origin D.tells pass.old.seat pass.new.seat v.items) }
        ensures err { IfErr result (SeatNoHistory B.origin pass.old.seat pass.new.seat) }
    {
        let flushed = flush_seat(&self.twin, rt, &mut pass.seat);
        self.ring_for(pass, flushed.is_err());
        pass.concerns_others = false;
        match flushed {
            Ok(()) => read_seat(&self.twin, rt, alloc, &mut pass.seat),
            Err(FlushRefusal::Store) => Err(EntriesRefusal::Store),
        }
    }

    /// How many steps since the opening the pass has seen. It waits for nobody.
    pub fn seen(&self, pass: &Pass<B, D>) -> u64
        requires { IsPass B.origin self.now.twin pass.now.at pass.now.host pass.now.seat }
        ensures { result ≡ length (seen_of pass.now.seat) }
    {
        self.twin.seen(&pass.seat)
    }
}
