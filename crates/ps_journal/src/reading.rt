// Reading a store in pieces, and giving its entries to a taker.
ghost use Rattle.std.specs.Prelude.{◌≡◌, ◌≤◌, ◌<◌, ◌+◌, ◌^◌, [], List, ℕ, true, length, take, slice_index, IfOk, IfErr, IsErrOf};
ghost use Rattle.ps_base.specs.Causes.{Rose};
ghost use Rattle.ps_model.specs.Store.{is_header};
ghost use Rattle.ps_journal.specs.Judged.{Follows, FramesRead, IsJudgement, Stands, stride, stride_at};
ghost use Rattle.ps_journal.specs.Pieces.{AreSound, IfBegun, IsHaltAt, IsSound, OnlyReads, front_of};

use crate::frames::{Step, step_of};
use crate::judging::{Judgement, has_header, is_second, is_unbegun, more_entries};
use crate::loading::{LoadRefusal, fetch, size};
use crate::pieces::{Piece, hold};
use crate::taker::Taker;
use crate::trail::Trail;
use ps_base::{Failed, Memory};
use ps_disk::Disk;
use std::alloc::Global;

// Why the frames were not read.
enum Halt {
    Frame(u64),
    Load(LoadRefusal),
}

// What stands at a gate of which these are the bytes, which are bytes indeed.
fn step_on(rest: &[u8]) -> Step<'_>
    ensures value { stride result ≡ stride_at rest.now }
    ensures fits { (i : ℕ) → slice_index rest.now i < 256 }
{
    step_of(rest)
}

// Goes through the frames up to the closed gate, a piece at a time, and reads their entries for the taker.
fn frames_on<D: Disk, T: Taker>(
    alloc: Global,
    disk: &mut D,
    second: bool,
    total: u64,
    taker: &mut T,
) -> Result<(Trail, Option<u64>, u64), Halt>
    requires long { 8 ≤ total }
    requires total { D.tells → total ≡ length (D.seen disk.old) }
    requires header { D.tells → is_header (take 8 (D.seen disk.old)) ≡ true }
    requires second { D.tells → second ≡ Rattle.ps_model.specs.Store.is_second (D.seen disk.old) }
    requires stands { Stands T.stands taker.old [] }
    ensures read { D.tells → IfOk result (λ r. FramesRead T.refused (D.seen disk.old) r.0.items r.1 r.2) }
    ensures sound { IfOk result (λ r. AreSound T.refused second r.0.items r.1) }
    ensures within { IfOk result (λ r. r.2 < total) }
    ensures stands { IfOk result (λ r. Follows T.stands taker.old [] taker.new r.0.items) }
    ensures bad { D.tells → IfErr result (IsHaltAt (D.seen disk.old)) }
    ensures reads { OnlyReads D.tells D.seen D.synced D.written D.moment D.left_since D.faults disk.old disk.new }
    ensures failed { IsErrOf result (Halt.Load LoadRefusal.Store) → Rose (D.faults disk.old) (D.faults disk.new) }
{
    let mut trail = Trail::new();
    let mut stop = None;
    let mut at = 8;
    let mut piece = Piece {
        from: 8,
        bytes: Vec::new(alloc),
    };
    'frames: loop {
        piece = match hold(alloc, disk, piece, total, at) {
            Ok(piece) => piece,
            Err(refusal) => return Err(Halt::Load(refusal)),
        };
        match step_on(piece.behind(at)) {
            Step::Bad => return Err(Halt::Frame(at)),
            Step::Frame(body, _) => {
                let next = more_entries(alloc, second, body, at + 5, taker, &mut trail, stop);
                stop = match next {
                    Ok(next) => next,
                    Err(Memory) => return Err(Halt::Load(LoadRefusal::Memory)),
                };
                at += 5 + body.len() as u64;
            }
            Step::Shut => return Ok((trail, stop, at)),
        }
    }
}

// Judges a store of so many bytes, of which these are the first.
fn judge_on<D: Disk, T: Taker>(
    alloc: Global,
    disk: &mut D,
    front: &[u8],
    total: u64,
    taker: &mut T,
) -> Result<Judgement, LoadRefusal>
    requires front { D.tells → front.now ≡ front_of (D.seen disk.old) }
    requires total { D.tells → total ≡ length (D.seen disk.old) }
    requires within { length front.now ≤ total }
    requires stands { T.stands taker.old taker.old [] }
    ensures found { D.tells
        → IfOk result (IsJudgement (T.stands taker.old taker.new) T.refused (D.seen disk.old)) }
    ensures header { IfOk result (IfBegun (is_header (take 8 front.now) ≡ true)) }
    ensures sound { IfOk result (IsSound (T.stands taker.old taker.new)) }
    ensures reads { OnlyReads D.tells D.seen D.synced D.written D.moment D.left_since D.faults disk.old disk.new }
    ensures failed { IsErrOf result LoadRefusal.Store → Rose (D.faults disk.old) (D.faults disk.new) }
{
    if !has_header(front) {
        if is_unbegun(front) {
            return Ok(Judgement::Unbegun);
        }
        return Ok(Judgement::Bad(0));
    }
    match frames_on(alloc, disk, is_second(front), total, taker) {
        Ok((trail, stop, gate)) => match stop {
            None => Ok(Judgement::Begun(trail, gate)),
            Some(at) => Ok(Judgement::Stopped(at, trail)),
        },
        Err(Halt::Frame(at)) => Ok(Judgement::Bad(at)),
        Err(Halt::Load(refusal)) => Err(refusal),
    }
}

/// Judges the store on a disk, and answers its first bytes as well.
pub(crate) fn read_store<D: Disk, T: Taker>(
    alloc: Global,
    disk: &mut D,
    taker: &mut T,
) -> Result<(Judgement, Vec<u8>), LoadRefusal>
    requires stands { T.stands taker.old taker.old [] }
    ensures front { D.tells → IfOk result (λ r. r.1.items ≡ front_of (D.seen disk.old)) }
    ensures found { D.tells
        → IfOk result (λ r. IsJudgement (T.stands taker.old taker.new) T.refused (D.seen disk.old) r.0) }
    ensures header { IfOk result (λ r. IfBegun (is_header (take 8 r.1.items) ≡ true) r.0) }
    ensures sound { IfOk result (λ r. IsSound (T.stands taker.old taker.new) r.0) }
    ensures reads { OnlyReads D.tells D.seen D.synced D.written D.moment D.left_since D.faults disk.old disk.new }
    ensures failed { IsErrOf result LoadRefusal.Store → Rose (D.faults disk.old) (D.faults disk.new) }
{
    let total = match size(disk) {
        Ok(total) => total,
        Err(Failed) => return Err(LoadRefusal::Store),
    };
    let front = match fetch(alloc, disk, 0, total.min(10)) {
        Ok(front) => front,
        Err(refusal) => return Err(refusal),
    };
    match judge_on(alloc, disk, &front, total, taker) {
        Ok(judgement) => Ok((judgement, front)),
        Err(refusal) => Err(refusal),
    }
}
