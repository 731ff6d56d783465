// The room of a read.
ghost use Rattle.std.specs.Prelude.{◌≡◌, ◌<◌, ◌≤◌, length, take, IfOk, MatchResult};
ghost use Rattle.std.specs.Io.KnownBytes.{Consumes, IsAtEnd, Keeps};
ghost use Rattle.ps_base.specs.Causes.{HasCause};

use ps_base::Memory;
use ps_wire::{Failed, Source};
use std::alloc::Global;
use std::marker::Model;

/// The most bytes that one read takes.
const ROOM: usize = 65_536;

/// A room of 65,536 bytes. A contract sees what stands in it.
#[derive(Drop)]
pub(crate) struct ReadBuffer {
    bytes: Vec<u8>,
}

impl Model for ReadBuffer {
    ghost use Rattle.std.specs.Prelude.{List, ℕ, ◌<◌, length};

    ghost Value = { List ℕ };

    ghost view = { λ r. r.bytes.items };

    ghost invariant = { λ r. 0 < length r.bytes.items };
}

// Reads into the front of the room, at most so many bytes.
fn read_front<F: Source>(feed: &mut F, room: &mut [u8], most: usize) -> Result<usize, Failed>
    requires some { 0 < most }
    requires fits { most ≤ length room.old }
    ensures count { IfOk result (λ n. n ≤ most) }
    ensures bytes { MatchResult result
        (λ n. Consumes (F.left feed.old) (F.left feed.new) (take n room.new)
        × (n ≡ 0 → IsAtEnd (F.left feed.new)))
        (λ _. Keeps (F.left feed.old) (F.left feed.new)) }
    ensures cause { HasCause (F.faults feed.old) (F.faults feed.new) result }
{
    feed.read(&mut room[..most])
}

impl ReadBuffer {
    /// A room.
    pub(crate) fn new(alloc: Global) -> Result<ReadBuffer, Memory> {
        Ok(ReadBuffer {
            bytes: vec![in alloc; 0u8; ROOM]?,
        })
    }

    /// Makes one read of at most so many bytes, which stand at its front then.
    pub(crate) fn read<F: Source>(&mut self, feed: &mut F, most: u64) -> Result<usize, Failed>
        requires { 0 < most }
        ensures count { IfOk result (λ n. (n ≤ length self.new) × (n ≤ most)) }
        ensures bytes { MatchResult result
            (λ n. Consumes (F.left feed.old) (F.left feed.new) (take n self.new)
            × (n ≡ 0 → IsAtEnd (F.left feed.new)))
            (λ _. Keeps (F.left feed.old) (F.left feed.new)) }
        ensures cause { HasCause (F.faults feed.old) (F.faults feed.new) result }
    {
        let length = self.bytes.len();
        let most = usize::try_from(most).unwrap_or(length).min(length);
        read_front(feed, &mut self.bytes, most)
    }

    /// What stands in its first so many bytes.
    pub(crate) fn front(&self, count: usize) -> &[u8]
        requires { count ≤ length self.now }
        ensures { result.now ≡ take count self.now }
    {
        &self.bytes[..count]
    }
}
