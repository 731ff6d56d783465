// Calls on the state behind whose refusal the caller has ended.
ghost use Rattle.std.specs.Prelude.{◌≢◌, ◌<◌, ◌^◌, [], IfErr, OnOk, length};
ghost use Rattle.ps_hall_state.specs.Gone.{IsHeldFor, RecordsHanded};
ghost use Rattle.ps_hall_state.specs.Rows.{AtRow};
ghost use Rattle.ps_hall_state.specs.Stand.{IsStanding};
ghost use Rattle.ps_hall_state.specs.Steps.{KeepsNumbers};
ghost use Rattle.ps_hall.specs.Ending.{EndsFor, IsHolding, LaysOrEnds, RecordsOrEnds};

use ps_hall_state::{HandedRefusal, State};
use ps_types::Jid;
use std::thread::Threads;

// A state makes no more steps than this.
const MOST_STEPS: u64 = 1 << 63;

// And no more in one holding.
const MOST_AT_ONCE: usize = 1 << 20;

/// A Gone of the host at a place waits to be written, or else its reader has ended.
pub(crate) fn gone_or_end<R: Threads + Sync>(
    state: &mut State,
    rt: &R,
    at: usize,
) -> Result<(), HandedRefusal>
    requires here { at < length state.old.rows.items }
    requires few { state.old.steps < 2 ^ 63 }
    requires standing { IsStanding state.old }
    ensures does { AtRow state.old at (λ row. LaysOrEnds state.old state.new row.host result) }
    ensures kept { KeepsNumbers state.old state.new }
{
    match state.gone(rt, at) {
        Ok(()) => Ok(()),
        Err(refusal) => {
            state.reader_ended(at);
            Err(refusal)
        }
    }
}

// The first notice in hand is recorded; where there is no room the writer has ended.
fn record_first<R: Threads + Sync>(
    state: &mut State,
    rt: &R,
    at: usize,
    to: &Jid,
) -> Result<(), HandedRefusal>
    requires here { at < length state.old.rows.items }
    requires few { state.old.steps < 2 ^ 63 }
    requires standing { IsStanding state.old }
    requires held { AtRow state.old at (IsHeldFor state.old to.now) }
    ensures ok { OnOk result (RecordsHanded state.old state.new to.now) }
    ensures err { AtRow state.old at (λ row. IfErr result (EndsFor state.old state.new row.host to.now)) }
    ensures kept { KeepsNumbers state.old state.new }
{
    match state.record(rt, at, to) {
        Ok(()) => Ok(()),
        Err(HandedRefusal::Full) => {
            state.writer_ended(at);
            Err(HandedRefusal::Full)
        }
        Err(HandedRefusal::Store) => Err(HandedRefusal::Store),
        Err(HandedRefusal::Memory) => Err(HandedRefusal::Memory),
    }
}

/// The first notices in the hand of the writer at a place are recorded, at least one; where there is no room for that the writer has ended. It answers how
/// many are recorded.
pub(crate) fn record_or_end<R: Threads + Sync>(
    state: &mut State,
    rt: &R,
    at: usize,
    hand: &Vec<Jid>,
) -> Result<usize, HandedRefusal>
    requires here { at < length state.old.rows.items }
    requires few { state.old.steps < 2 ^ 63 }
    requires some { hand.now.items ≢ [] }
    requires holding { AtRow state.old at (IsHolding state.old hand.now.items) }
    ensures does { AtRow state.old at (λ row. RecordsOrEnds state.old state.new row.host hand.now.items result) }
    ensures kept { KeepsNumbers state.old state.new }
{
    match record_first(state, rt, at, &hand[0]) {
        Ok(()) => {
            let mut done = 1;
            'others: while done < hand.len() && done < MOST_AT_ONCE && state.steps < MOST_STEPS {
                match state.record(rt, at, &hand[done]) {
                    Ok(()) => done += 1,
                    Err(_) => return Ok(done),
                }
            }
            Ok(done)
        }
        Err(refusal) => Err(refusal),
    }
}
