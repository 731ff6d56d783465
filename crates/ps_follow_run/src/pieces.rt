// A follower's feed, which is taken a piece at a time.
ghost use Rattle.std.specs.Prelude.{◌≡◌, ◌≤◌, List, ℕ, [], false, IfOk, IsErrOf, IsTrue, OnOk};
ghost use Rattle.std.specs.declared.option.Option.{Option};
ghost use Rattle.ps_base.specs.Causes.{Rose};
ghost use Rattle.ps_follow_run.specs.Pieces.{HasBegun, HasTaken, Piece};

use crate::ends::{FollowEnd, end_of};
use crate::room::ReadBuffer;
use ps_base::Memory;
use ps_follow::Follower;
use ps_wire::Source;
use std::alloc::Global;
use std::thread::Threads;

/// The most bytes that are taken of a feed.
const LIMIT: u64 = 1 << 40;

/// A follower, how many bytes its feed gave, and whether that has ended.
#[derive(Drop)]
pub(crate) struct Taking {
    pub(crate) follower: Follower,
    room: ReadBuffer,
    given: u64,
    pub(crate) ended: bool,
}

impl Taking {
    /// A follower without entries, of whose feed nothing was read.
    pub(crate) fn new(alloc: Global) -> Result<Taking, Memory>
        ensures taken { (left : Option (List ℕ)) → IfOk result (λ t. HasTaken t [] left) }
        ensures begun { IfOk result (λ t. t.ended ≡ false) }
    {
        Ok(Taking {
            follower: Follower::new(alloc)?,
            room: ReadBuffer::new(alloc)?,
            given: 0,
            ended: false,
        })
    }

    /// Makes one read of the feed, unless that has ended, and takes what it gives.
    pub(crate) fn take_piece<R: Threads + Sync, F: Source>(
        &mut self,
        rt: &R,
        feed: &mut F,
    ) -> Result<(), FollowEnd>
        requires begun { HasBegun self.old (F.left feed.old) }
        ensures piece { (bytes : List ℕ) → HasTaken self.old bytes (F.left feed.old)
            → Piece self.old self.new bytes (F.left feed.old) (F.left feed.new) result }
        ensures later { F.faults feed.old ≤ F.faults feed.new }
        ensures fault { IsErrOf result FollowEnd.Fault → Rose (F.faults feed.old) (F.faults feed.new) }
    {
        if self.ended {
            return Ok(());
        }
        if self.given >= LIMIT {
            return Err(FollowEnd::Long);
        }
        let Ok(count) = self.room.read(feed, LIMIT - self.given) else {
            return Err(FollowEnd::Fault);
        };
        if count == 0 {
            self.ended = true;
            return Ok(());
        }
        self.given += count as u64;
        match self.follower.feed(rt, self.room.front(count)) {
            Ok(_) => Ok(()),
            Err(why) => Err(end_of(why)),
        }
    }
}

/// Takes the rest of the feed.
pub(crate) fn take_rest<R: Threads + Sync, F: Source>(
    rt: &R,
    taking: &mut Taking,
    feed: &mut F,
) -> Result<(), FollowEnd>
    requires begun { HasBegun taking.old (F.left feed.old) }
    ensures piece { (bytes : List ℕ) → HasTaken taking.old bytes (F.left feed.old)
        → Piece taking.old taking.new bytes (F.left feed.old) (F.left feed.new) result }
    ensures ended { OnOk result (IsTrue taking.new.ended) }
    ensures later { F.faults feed.old ≤ F.faults feed.new }
    ensures fault { IsErrOf result FollowEnd.Fault → Rose (F.faults feed.old) (F.faults feed.new) }
{
    'rest: while !taking.ended {
        if let Err(why) = taking.take_piece(rt, feed) {
            return Err(why);
        }
    }
    Ok(())
}
