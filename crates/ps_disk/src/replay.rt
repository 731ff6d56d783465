// The calls of a disk in memory, and what a crash after some of them may leave.
ghost use Rattle.std.specs.Prelude.{◌≡◌, nat_le, filter, IfOk};
ghost use Rattle.ps_disk.specs.Calls.{State, start_of, step, over, after_calls};
ghost use Rattle.ps_disk.specs.Outcomes.{AreOutcomes};

use ps_base::{Bytes, Memory};
use std::alloc::Global;

/// Which of its outcomes a crash takes: each write since the last sync is lost, or is there whole, or has this byte in its whole range.
#[derive(Clone, Copy, Debug, PartialEq, Eq)]
pub enum Torn {
    Lost,
    Whole,
    Filled(u8),
}

// A call that changed something: a write at an offset, a write of so many bytes at an offset that failed, or a sync.
#[derive(Drop)]
pub(crate) enum Call {
    Wrote(u64, Bytes),
    Failed(u64, usize),
    Synced,
}

// A call with its number among all calls.
#[derive(Drop)]
pub(crate) struct Kept {
    pub number: u64,
    pub call: Call,
}

// What a crash leaves where the writes since the last sync are lost, are whole, or have a byte in their whole range.
#[derive(Drop)]
pub(crate) struct Outcomes {
    pub lost: Vec<u8>,
    pub whole: Vec<u8>,
    pub filled: Vec<u8>,
}

// The bytes with a piece over them, or behind them.
pub(crate) fn written_over(
    alloc: Global,
    old: &[u8],
    at: u64,
    piece: &[u8],
) -> Result<Vec<u8>, Memory>
    ensures { IfOk result (λ v. v.items ≡ over old.now at piece.now) }
{
    let at = (at as usize).min(old.len());
    let mut next = old[..at].to_vec(alloc)?;
    next.extend_from_slice(piece)?;
    if piece.len() < old.len() - at {
        next.extend_from_slice(&old[at + piece.len()..])?;
    }
    Ok(next)
}

// The outcomes with one call more.
fn after_call(alloc: Global, before: Outcomes, call: &Call, byte: u8) -> Result<Outcomes, Memory>
    ensures { IfOk result (λ o. (s : State) → AreOutcomes byte s before → AreOutcomes byte (step s call.now) o) }
{
    let Outcomes {
        lost,
        whole,
        filled,
    } = before;
    match call {
        Call::Wrote(at, bytes) => {
            let fill = vec![in alloc; byte; bytes.len()]?;
            let whole = written_over(alloc, &whole, *at, bytes.as_slice())?;
            let filled = written_over(alloc, &filled, *at, &fill)?;
            Ok(Outcomes {
                lost,
                whole,
                filled,
            })
        }
        Call::Failed(at, count) => {
            let fill = vec![in alloc; byte; *count]?;
            let filled = written_over(alloc, &filled, *at, &fill)?;
            Ok(Outcomes {
                lost,
                whole,
                filled,
            })
        }
        Call::Synced => {
            let lost = whole.to_vec(alloc)?;
            let filled = whole.to_vec(alloc)?;
            Ok(Outcomes {
                lost,
                whole,
                filled,
            })
        }
    }
}

// The outcomes of a crash after the calls of these numbers.
pub(crate) fn replay(
    alloc: Global,
    start: &[u8],
    kept: &Vec<Kept>,
    calls: u64,
    byte: u8,
) -> Result<Outcomes, Memory>
    ensures { IfOk result
        (AreOutcomes byte (after_calls (start_of start.now) (filter (λ one. nat_le one.number calls) kept.now.items))) }
{
    let lost = start.to_vec(alloc)?;
    let whole = start.to_vec(alloc)?;
    let filled = start.to_vec(alloc)?;
    let mut outcomes = Outcomes {
        lost,
        whole,
        filled,
    };
    'calls: for one in kept {
        if one.number <= calls {
            outcomes = after_call(alloc, outcomes, &one.call, byte)?;
        }
    }
    Ok(outcomes)
}
