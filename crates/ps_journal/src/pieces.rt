// A store's bytes, of which one piece is at hand.
ghost use Rattle.std.specs.Prelude.{◌≡◌, ◌≤◌, ◌+◌, List, ℕ, length, IfOk, IsErrOf};
ghost use Rattle.ps_base.specs.Causes.{Rose};
ghost use Rattle.ps_journal.specs.Pieces.{extent_at, IsHeld, Reaches, StrideStands, OnlyReads, behind_in};

use crate::loading::{LoadRefusal, fetch};
use ps_disk::Disk;
use ps_record::u32_at;
use std::alloc::Global;

/// How many bytes a piece has, unless a frame is longer, or the store ends.
const PIECE: u64 = 1 << 20;

/// Bytes of a store, from an offset on.
#[derive(Drop)]
pub(crate) struct Piece {
    pub from: u64,
    pub bytes: Vec<u8>,
}

impl Piece {
    /// The bytes from the offset on.
    pub(crate) fn behind(&self, at: u64) -> &[u8]
        requires from { self.now.from ≤ at }
        requires within { at ≤ self.now.from + length self.now.bytes.items }
        ensures { result.now ≡ behind_in self.now at }
    {
        &self.bytes[(at - self.from) as usize..]
    }
}

// How many bytes tell what stands at a gate of which these are the first.
fn extent(rest: &[u8]) -> u64
    ensures { result ≡ extent_at rest.now }
{
    match rest {
        [] => 5,
        [1, tail @ ..] => match u32_at(tail) {
            None => 5,
            Some((len, _)) => len as u64 + 6,
        },
        [_, ..] => 1,
    }
}

// Reads on where the piece has less than so many bytes from the offset on, and the store has more.
fn reach<D: Disk>(
    alloc: Global,
    disk: &mut D,
    piece: Piece,
    total: u64,
    at: u64,
    count: u64,
) -> Result<Piece, LoadRefusal>
    requires total { D.tells → total ≡ length (D.seen disk.old) }
    requires held { IsHeld D.tells (D.seen disk.old) total at piece }
    ensures held { IfOk result (IsHeld D.tells (D.seen disk.old) total at) }
    ensures reaches { D.tells → IfOk result (Reaches total at count) }
    ensures reads { OnlyReads D.tells D.seen D.synced D.written D.moment D.left_since D.faults disk.old disk.new }
    ensures failed { IsErrOf result LoadRefusal.Store → Rose (D.faults disk.old) (D.faults disk.new) }
{
    let left = total - at;
    let need = count.min(left);
    if need <= piece.from + piece.bytes.len() as u64 - at {
        return Ok(piece);
    }
    match fetch(alloc, disk, at, need.max(PIECE).min(left)) {
        Ok(bytes) => Ok(Piece { from: at, bytes }),
        Err(refusal) => Err(refusal),
    }
}

/// Reads on until the piece tells what stands at the gate, and has all of a frame that stands there.
pub(crate) fn hold<D: Disk>(
    alloc: Global,
    disk: &mut D,
    piece: Piece,
    total: u64,
    at: u64,
) -> Result<Piece, LoadRefusal>
    requires total { D.tells → total ≡ length (D.seen disk.old) }
    requires held { IsHeld D.tells (D.seen disk.old) total at piece }
    ensures held { IfOk result (IsHeld D.tells (D.seen disk.old) total at) }
    ensures tells { D.tells → IfOk result (λ p. StrideStands (D.seen disk.old) at (behind_in p at)) }
    ensures reads { OnlyReads D.tells D.seen D.synced D.written D.moment D.left_since D.faults disk.old disk.new }
    ensures failed { IsErrOf result LoadRefusal.Store → Rose (D.faults disk.old) (D.faults disk.new) }
{
    match reach(alloc, disk, piece, total, at, 5) {
        Err(refusal) => Err(refusal),
        Ok(piece) => {
            let count = extent(piece.behind(at));
            match reach(alloc, disk, piece, total, at, count) {
                Err(refusal) => Err(refusal),
                Ok(piece) => Ok(piece),
            }
        }
    }
}
