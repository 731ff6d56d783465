// The calls of a state on its one host, which leave it standing.
ghost use Rattle.std.specs.Prelude.{◌<◌, ◌^◌, IfOk, length};
ghost use Rattle.ps_hall_state.specs.Gone.{IsHeldFor};
ghost use Rattle.ps_hall_state.specs.Rows.{OfRow};
ghost use Rattle.ps_hall_state.specs.Shape.{IsArrival};
ghost use Rattle.ps_hall_state.specs.Stand.{IsStanding};

use ps_base::Memory;
use ps_hall_state::{ArriveRefusal, HandedRefusal, NextLine, Receipt, State};
use ps_types::{Arrival, Bytes, Jid};
use std::alloc::Global;
use std::process::Abort;
use std::test::Fail;
use std::thread::Threads;

fn arrived(alloc: Global, line: &str) -> Result<Arrival, Fail>
    ensures { IfOk result (λ a. IsArrival a) }
{
    let bytes = line.as_bytes().to_vec(alloc)?;
    Ok(Arrival::Line {
        bytes: Bytes::from_vec(bytes),
        moment: None,
    })
}

// The calls on the row at the first place.
fn lay_first<R: Threads + Sync>(
    rt: &R,
    state: &mut State,
    arrival: &Arrival,
) -> Result<Receipt, ArriveRefusal>
    requires here { 0 < length state.old.rows.items }
    requires few { state.old.steps < 2 ^ 63 }
    requires standing { IsStanding state.old }
    requires arrival { IsArrival arrival.now }
    ensures standing { IsStanding state.new }
{
    state.lay(rt, 0, arrival)
}

fn next_first(state: &mut State) -> Result<NextLine, Memory>
    requires here { 0 < length state.old.rows.items }
    requires few { state.old.steps < 2 ^ 63 }
    requires standing { IsStanding state.old }
    ensures standing { IsStanding state.new }
{
    state.next(0)
}

fn record_first<R: Threads + Sync>(rt: &R, state: &mut State, to: &Jid) -> Result<(), HandedRefusal>
    requires here { 0 < length state.old.rows.items }
    requires few { state.old.steps < 2 ^ 63 }
    requires standing { IsStanding state.old }
    requires held { OfRow state.old.rows.items 0 (IsHeldFor state.old to.now) }
    ensures standing { IsStanding state.new }
{
    state.record(rt, 0, to)
}

fn gone_first<R: Threads + Sync>(rt: &R, state: &mut State) -> Result<(), HandedRefusal>
    requires here { 0 < length state.old.rows.items }
    requires few { state.old.steps < 2 ^ 63 }
    requires standing { IsStanding state.old }
    ensures standing { IsStanding state.new }
{
    state.gone(rt, 0)
}

fn end_reader(state: &mut State)
    requires here { 0 < length state.old.rows.items }
    requires few { state.old.steps < 2 ^ 63 }
    requires standing { IsStanding state.old }
    ensures standing { IsStanding state.new }
{
    state.reader_ended(0);
}

fn end_writer(state: &mut State)
    requires here { 0 < length state.old.rows.items }
    requires few { state.old.steps < 2 ^ 63 }
    requires standing { IsStanding state.old }
    ensures standing { IsStanding state.new }
{
    state.writer_ended(0);
}

fn fault(state: &mut State)
    requires few { state.old.steps < 2 ^ 63 }
    requires standing { IsStanding state.old }
    ensures standing { IsStanding state.new }
{
    state.fault();
}

// How many bytes the entries have of the frame that is begun, if one is.
fn hand_over(state: &mut State) -> Option<u64>
    requires standing { IsStanding state.old }
    ensures standing { IsStanding state.new }
{
    match state.hand_over() {
        Some(batch) => Some(batch.len()),
        None => None,
    }
}

// All steps are flushed.
fn settle_all(state: &mut State)
    requires few { state.old.steps < 2 ^ 63 }
    requires standing { IsStanding state.old }
    ensures standing { IsStanding state.new }
{
    let upto = state.steps;
    let count = state.service.count();
    state.settle(upto, count);
}

/// A line comes.
pub fn lays(
    rt: &(impl Abort + Threads + Sync),
    alloc: Global,
    state: &mut State,
    line: &str,
) -> Result<Result<Receipt, ArriveRefusal>, Fail>
    requires standing { IsStanding state.old }
    ensures standing { IsStanding state.new }
{
    let arrival = arrived(alloc, line)?;
    assert!(rt; !state.rows.is_empty());
    assert!(rt; state.steps < 1000);
    Ok(lay_first(rt, state, &arrival))
}

/// What the writer is to do next.
pub fn next(rt: &impl Abort, state: &mut State) -> Result<NextLine, Fail>
    requires standing { IsStanding state.old }
    ensures standing { IsStanding state.new }
{
    assert!(rt; !state.rows.is_empty());
    assert!(rt; state.steps < 1000);
    Ok(next_first(state)?)
}

/// The notice in hand to this address is recorded.
pub fn records(
    rt: &(impl Abort + Threads + Sync),
    state: &mut State,
    to: &Jid,
) -> Result<(), HandedRefusal>
    requires standing { IsStanding state.old }
    ensures standing { IsStanding state.new }
{
    assert!(rt; !state.rows.is_empty());
    assert!(rt; state.steps < 1000);
    let held = state.has_in_hand(0, to);
    assert!(rt; held);
    record_first(rt, state, to)
}

/// A Gone of the host is to be written.
pub fn goes(rt: &(impl Abort + Threads + Sync), state: &mut State) -> Result<(), HandedRefusal>
    requires standing { IsStanding state.old }
    ensures standing { IsStanding state.new }
{
    assert!(rt; !state.rows.is_empty());
    assert!(rt; state.steps < 1000);
    gone_first(rt, state)
}

/// The host's reader ends.
pub fn ends_reader(rt: &impl Abort, state: &mut State)
    requires standing { IsStanding state.old }
    ensures standing { IsStanding state.new }
{
    assert!(rt; !state.rows.is_empty());
    assert!(rt; state.steps < 1000);
    end_reader(state);
}

/// The host's writer ends.
pub fn ends_writer(rt: &impl Abort, state: &mut State)
    requires standing { IsStanding state.old }
    ensures standing { IsStanding state.new }
{
    assert!(rt; !state.rows.is_empty());
    assert!(rt; state.steps < 1000);
    end_writer(state);
}

/// A frame fails.
pub fn fails(rt: &impl Abort, state: &mut State)
    requires standing { IsStanding state.old }
    ensures standing { IsStanding state.new }
{
    assert!(rt; state.steps < 1000);
    fault(state);
}

/// How many bytes the entries have that are handed over as a frame, if any wait. Then all steps are flushed.
pub fn flushes(rt: &impl Abort, state: &mut State) -> Option<u64>
    requires standing { IsStanding state.old }
    ensures standing { IsStanding state.new }
{
    assert!(rt; state.steps < 1000);
    let len = hand_over(state);
    assert!(rt; state.steps < 1000);
    settle_all(state);
    len
}
