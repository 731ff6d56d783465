// A notice in a writer's hand is recorded.
ghost use Rattle.std.specs.Prelude.{◌≡◌, ◌<◌, ◌^◌, [], true, false, IfErr, IfOk, OnOk, length};
ghost use Rattle.ps_types.specs.declared.entry.Entry.{Entry};
ghost use Rattle.ps_types.specs.declared.jid.Jid.{Jid};
ghost use Rattle.ps_outbox.specs.Boxes.{is_known};
ghost use Rattle.ps_hall_state.specs.Gone.{IsHeldFor, IsRecordingOf, NotRecordsHanded, RecordsHanded};
ghost use Rattle.ps_hall_state.specs.Stand.{IsStanding};
ghost use Rattle.ps_hall_state.specs.Steps.{KeepsNumbers};
ghost use Rattle.ps_hall_state.specs.Rows.{AtRow};

use crate::adding::take_entry;
use crate::answers::HandedRefusal;
use crate::rows::land_at;
use crate::state::{HostRow, State};
use ps_base::Memory;
use ps_outbox::Outboxes;
use ps_types::{Entry, Jid};
use std::thread::Threads;

// What is to be recorded: the address, twice, and the entry that says that its first notice was handed.
#[derive(Drop)]
pub(crate) struct Recording {
    to: Jid,
    held: Jid,
    entry: Entry,
}

fn recording_of(to: &Jid) -> Result<Recording, Memory>
    ensures { IfOk result (λ r. IsRecordingOf to.now r) }
{
    Ok(Recording {
        to: to.clone()?,
        held: to.clone()?,
        entry: Entry::Handed { to: to.clone()? },
    })
}

// Whether this is a bare address of the row's host that is held.
fn is_held_for(queues: &Outboxes, row: &HostRow, to: &Jid) -> bool
    ensures bare { result ≡ true → to.now.resource ≡ [] }
    ensures here { result ≡ true → to.now.host ≡ row.now.host }
    ensures held { result ≡ true → is_known to.now queues.now.held ≡ true }
{
    to.resource.is_empty() && to.host == row.host && queues.is_held(to)
}

impl State {
    // The Handed of a notice in hand waits to be written, if it fits.
    fn lay_handed<R: Threads + Sync>(
        &mut self,
        rt: &R,
        at: usize,
        recording: Recording,
        _a: &Jid,
    ) -> Result<(), HandedRefusal>
        requires here { at < length self.old.rows.items }
        requires few { self.old.steps < 2 ^ 63 }
        requires standing { IsStanding self.old }
        requires unbroken { self.old.broken ≡ false }
        requires held { AtRow self.old at (IsHeldFor self.old _a.now) }
        requires is { IsRecordingOf _a.now recording }
        ensures ok { OnOk result (RecordsHanded self.old self.new _a.now) }
        ensures err { IfErr result (NotRecordsHanded self.old self.new _a.now) }
        ensures kept { KeepsNumbers self.old self.new }
    {
        let Recording { to, held, entry } = recording;
        match self.ready_within(rt, entry) {
            Err(refusal) => Err(refusal),
            Ok(notices) => {
                take_entry(&mut self.service, &mut self.queues, notices);
                self.queues.drop_first(&to);
                self.queues.release(held);
                self.steps += 1;
                let step = self.steps;
                land_at(&mut self.rows, at, to, step);
                Ok(())
            }
        }
    }

    /// Whether the writer at a place has a notice to this bare address in hand, which no step has recorded.
    pub fn has_in_hand(&self, at: usize, to: &Jid) -> bool
        requires here { at < length self.now.rows.items }
        ensures yes { AtRow self.now at (λ row. result ≡ true → IsHeldFor self.now to.now row) }
    {
        let row = &self.rows[at];
        is_held_for(&self.queues, row, to)
    }

    /// A notice in hand is recorded: its Handed waits to be written, and once that step is flushed nothing to its address is in flight. After a refusal the
    /// state stands for the same world.
    pub fn record<R: Threads + Sync>(
        &mut self,
        rt: &R,
        at: usize,
        to: &Jid,
    ) -> Result<(), HandedRefusal>
        requires here { at < length self.old.rows.items }
        requires few { self.old.steps < 2 ^ 63 }
        requires standing { IsStanding self.old }
        requires held { AtRow self.old at (IsHeldFor self.old to.now) }
        ensures ok { OnOk result (RecordsHanded self.old self.new to.now) }
        ensures err { IfErr result (NotRecordsHanded self.old self.new to.now) }
        ensures kept { KeepsNumbers self.old self.new }
    {
        if self.broken {
            return Err(HandedRefusal::Store);
        }
        match recording_of(to) {
            Err(Memory) => Err(HandedRefusal::Memory),
            Ok(recording) => self.lay_handed(rt, at, recording, to),
        }
    }
}
