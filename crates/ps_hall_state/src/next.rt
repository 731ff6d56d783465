// What a writer is to do next.
ghost use Rattle.std.specs.Prelude.{◌≡◌, ◌<◌, ◌^◌, [], IfOk, IfSome, IfNone, OnErr, OnOk, length};
ghost use Rattle.std.specs.List.{list_any};
ghost use Rattle.ps_model.specs.declared.steps.Step.{Step};
ghost use Rattle.ps_outbox.specs.Boxes.{NoneReady, is_of};
ghost use Rattle.ps_hall_state.specs.Next.{HasLanded, HasNone, HasReply, IsNext, IsShown, Shows, ShowsNone};
ghost use Rattle.ps_hall_state.specs.Steps.{Goes, GoesBy, KeepsNumbers};
ghost use Rattle.ps_hall_state.specs.Rows.{AtRow, HasFirst};

use crate::answers::NextLine;
use crate::rows::{has_landed_at, may_take_at, some_reads, take_at};
use crate::state::State;
use ps_base::{Bytes, Memory};
use ps_outbox::Outboxes;
use ps_types::{Jid, Text};

// A notice that is to be handed: its bare address, twice, and its line.
#[derive(Drop)]
pub(crate) struct Telling {
    to: Jid,
    held: Jid,
    line: Bytes,
}

// The first notice of an address of the host, where its entry is durable, if any address has one.
fn telling_for(queues: &Outboxes, host: &Text, durable: u64) -> Result<Option<Telling>, Memory>
    ensures some { IfOk result
        (λ o. IfSome o (λ t. IsShown queues.now.waiting queues.now.held host.now durable t.to t.line)) }
    ensures held { IfOk result (λ o. IfSome o (λ t. t.held ≡ t.to)) }
    ensures none { IfOk result (λ o. IfNone o (NoneReady host.now durable queues.now.waiting queues.now.held)) }
{
    match queues.ready(host, durable) {
        None => Ok(None),
        Some(to) => match queues.peek(to, durable) {
            None => unreachable!(),
            Some(notice) => Ok(Some(Telling {
                to: to.clone()?,
                held: to.clone()?,
                line: notice.line.clone()?,
            })),
        },
    }
}

impl State {
    // The same for the host of the row at a place.
    fn telling_at(&self, at: usize) -> Result<Option<Telling>, Memory>
        requires here { at < length self.now.rows.items }
        ensures some { AtRow self.now at (λ row. IfOk result (λ o. IfSome o (λ t. Shows self.now row t.to t.line))) }
        ensures held { IfOk result (λ o. IfSome o (λ t. t.held ≡ t.to)) }
        ensures none { AtRow self.now at (λ row. IfOk result (λ o. IfNone o (ShowsNone self.now row))) }
    {
        let row = &self.rows[at];
        telling_for(&self.queues, &row.host, self.durable)
    }

    // The first reply of a host is taken.
    fn take_reply(&mut self, at: usize) -> Bytes
        requires here { at < length self.old.rows.items }
        requires few { self.old.steps < 2 ^ 63 }
        requires has { AtRow self.old at (λ row. HasReply row self.old.flushed) }
        ensures kept { KeepsNumbers self.old self.new }
        ensures first { AtRow self.old at (λ row. HasFirst row result) }
        ensures goes { AtRow self.old at (λ row. GoesBy self.old self.new (Step.Take row.host)) }
    {
        let reply = take_at(&mut self.rows, at);
        self.steps += 1;
        reply
    }

    // The first notice of an address is taken in hand. Where memory runs out nothing is.
    fn tell(&mut self, _at: usize, to: Jid, _line: &Bytes) -> Result<(), Memory>
        requires here { _at < length self.old.rows.items }
        requires few { self.old.steps < 2 ^ 63 }
        requires landed { AtRow self.old _at (λ row. HasLanded row self.old.flushed) }
        requires shown { AtRow self.old _at (λ row. Shows self.old row to _line.now) }
        ensures kept { KeepsNumbers self.old self.new }
        ensures ok { OnOk result (GoesBy self.old self.new (Step.Emit to)) }
        ensures err { OnErr result (Goes self.old self.new []) }
    {
        self.queues.hold(to)?;
        self.steps += 1;
        Ok(())
    }

    // Whether the writer of the row at a place has notices in hand.
    fn holds_at(&self, at: usize) -> bool
        requires here { at < length self.now.rows.items }
        ensures { AtRow self.now at (λ row. result ≡ list_any (is_of row.host) self.now.queues.held) }
    {
        let row = &self.rows[at];
        self.queues.holds(&row.host)
    }

    // What is told where there is neither a reply nor a notice.
    fn none_now(&self, at: usize) -> NextLine
        requires here { at < length self.now.rows.items }
        requires landed { AtRow self.now at (λ row. HasLanded row self.now.flushed) }
        requires waits { AtRow self.now at (λ row. HasNone row.waiting.items self.now.flushed) }
        requires none { AtRow self.now at (ShowsNone self.now) }
        ensures is { AtRow self.now at (λ row. IsNext self.now self.now row.host result) }
    {
        if some_reads(&self.rows) {
            return NextLine::NotYet;
        }
        if self.holds_at(at) {
            return NextLine::NotYet;
        }
        NextLine::Over
    }

    // What is told where no reply is released.
    fn next_of(&mut self, at: usize, told: Option<Telling>) -> Result<NextLine, Memory>
        requires here { at < length self.old.rows.items }
        requires few { self.old.steps < 2 ^ 63 }
        requires landed { AtRow self.old at (λ row. HasLanded row self.old.flushed) }
        requires waits { AtRow self.old at (λ row. HasNone row.waiting.items self.old.flushed) }
        requires shown { AtRow self.old at (λ row. IfSome told (λ t. Shows self.old row t.to t.line)) }
        requires held { IfSome told (λ t. t.held ≡ t.to) }
        requires none { AtRow self.old at (λ row. IfNone told (ShowsNone self.old row)) }
        ensures ok { AtRow self.old at (λ row. IfOk result (IsNext self.old self.new row.host)) }
        ensures err { OnErr result (Goes self.old self.new []) }
        ensures kept { KeepsNumbers self.old self.new }
    {
        match told {
            Some(telling) => {
                let Telling { to, held, line } = telling;
                self.tell(at, held, &line)?;
                Ok(NextLine::Notice(to, line))
            }
            None => Ok(self.none_now(at)),
        }
    }

    // What there is where no reply is released.
    fn next_notice(&mut self, at: usize) -> Result<NextLine, Memory>
        requires here { at < length self.old.rows.items }
        requires few { self.old.steps < 2 ^ 63 }
        requires landed { AtRow self.old at (λ row. HasLanded row self.old.flushed) }
        requires waits { AtRow self.old at (λ row. HasNone row.waiting.items self.old.flushed) }
        ensures ok { AtRow self.old at (λ row. IfOk result (IsNext self.old self.new row.host)) }
        ensures err { OnErr result (Goes self.old self.new []) }
        ensures kept { KeepsNumbers self.old self.new }
    {
        match self.telling_at(at) {
            Err(Memory) => Err(Memory),
            Ok(told) => self.next_of(at, told),
        }
    }

    /// The next line for the writer of the host at a place: its first reply that is released and not taken, or else the first notice of an address of which
    /// none is in flight, which is then in hand. Where there is none, or memory runs out, the state stands for the same world.
    pub fn next(&mut self, at: usize) -> Result<NextLine, Memory>
        requires here { at < length self.old.rows.items }
        requires few { self.old.steps < 2 ^ 63 }
        ensures ok { AtRow self.old at (λ row. IfOk result (IsNext self.old self.new row.host)) }
        ensures err { OnErr result (Goes self.old self.new []) }
        ensures kept { KeepsNumbers self.old self.new }
    {
        if may_take_at(&self.rows, at, self.flushed) {
            return Ok(NextLine::Reply(self.take_reply(at)));
        }
        if has_landed_at(&self.rows, at, self.flushed) {
            self.next_notice(at)
        } else {
            Ok(NextLine::NotYet)
        }
    }
}
