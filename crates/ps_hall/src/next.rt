// What a writer is to do next.
ghost use Rattle.std.specs.Prelude.{◌≡◌, ◌<◌, ◌^◌, [], IfOk, OnErr, OnOk, length, vec_capacity, vec_len};
ghost use Rattle.ps_hall_state.specs.Next.{IsNext};
ghost use Rattle.ps_hall_state.specs.Rows.{AtRow};
ghost use Rattle.ps_hall_state.specs.Steps.{Goes, KeepsNumbers};
ghost use Rattle.ps_hall.specs.Calls.{HandAt, IsWriter, NextDoes};
ghost use Rattle.ps_hall_flush.specs.Doing.{Makes};
ghost use Rattle.ps_hall.specs.Told.{IsToldAs};

use crate::answers::Next;
use crate::hall::{Hall, Pass};
use crate::leaving::leave_told;
use ps_base::Memory;
use ps_disk::Disk;
use ps_hall_flush::Opening;
use ps_hall_state::State;
use ps_types::Jid;
use std::sync::Wait;

// The next line for the writer of the host at a place, whose hand has room for one more notice.
fn next_with_room(
    state: &mut State,
    hand: &mut Vec<Jid>,
    at: usize,
) -> Result<ps_hall_state::NextLine, Memory>
    requires here { at < length state.old.rows.items }
    requires few { state.old.steps < 2 ^ 63 }
    ensures ok { AtRow state.old at (λ row. IfOk result (IsNext state.old state.new row.host)) }
    ensures err { OnErr result (Goes state.old state.new []) }
    ensures kept { KeepsNumbers state.old state.new }
    ensures hand { hand.new.items ≡ hand.old.items }
    ensures room { OnOk result (vec_len hand.new < vec_capacity hand.new) }
{
    match hand.reserve(1) {
        Ok(()) => state.next(at),
        Err(_) => Err(Memory),
    }
}

// The address of a notice goes into the writer's hand.
fn told(hand: &mut Vec<Jid>, next: Result<ps_hall_state::NextLine, Memory>) -> Result<Next, Memory>
    requires { OnOk next (vec_len hand.old < vec_capacity hand.old) }
    ensures { IsToldAs next result hand.old.items hand.new.items }
{
    match next {
        Ok(ps_hall_state::NextLine::Reply(line)) => Ok(Next::Reply(line)),
        Ok(ps_hall_state::NextLine::Notice(to, line)) => {
            hand.push_reserved(to);
            Ok(Next::Notice(line))
        }
        Ok(ps_hall_state::NextLine::NotYet) => Ok(Next::NotYet),
        Ok(ps_hall_state::NextLine::Over) => Ok(Next::Over),
        Err(Memory) => Err(Memory),
    }
}

impl<B: Opening, D: Disk> Hall<B, D> {
    /// The next line for the writer of the pass's host: its first reply that is released and not taken, or else the first notice that is durable and not
    /// handed of an address of which none is in flight. The pass then has it in hand, behind what it has in hand already.
    pub fn next<R: Wait>(&self, rt: &R, pass: &mut Pass<B, D>) -> Result<Next, Memory>
        requires writer { IsWriter B.origin self.now.twin pass.old.at pass.old.host pass.old.seat }
        requires hand { HandAt B.origin pass.old.in_hand.items pass.old.host pass.old.seat }
        ensures writer { IsWriter B.origin self.now.twin pass.new.at pass.new.host pass.new.seat }
        ensures same { (pass.new.at ≡ pass.old.at) × (pass.new.host ≡ pass.old.host) }
        ensures hand { HandAt B.origin pass.new.in_hand.items pass.old.host pass.new.seat }
        ensures does { Makes B.origin pass.old.seat pass.new.seat
            (NextDoes B.origin pass.old.host pass.old.in_hand.items result pass.new.in_hand.items) }
    {
        let mut home = self.twin.enter(rt, &mut pass.seat);
        let next = next_with_room(&mut home.state, &mut pass.in_hand, pass.at);
        leave_told(&self.twin, &mut pass.seat, home, &pass.host, &next);
        told(&mut pass.in_hand, next)
    }

    /// How many notices the pass has in hand.
    pub fn in_hand(&self, pass: &Pass<B, D>) -> usize
        ensures { result ≡ length pass.now.in_hand.items }
    {
        pass.in_hand.len()
    }
}
