// How a run of a follower ended.
ghost use Rattle.std.specs.Prelude.{◌≡◌};
ghost use Rattle.ps_follow_run.specs.Ends.{end_by};

use ps_follow::FeedRefusal;

/// How a run of a follower ended.
#[derive(Clone, Copy, PartialEq, Eq, Debug)]
pub enum FollowEnd {
    /// The feed and the input were read to their end, and all lines answered.
    Done,
    /// The record at that offset of the feed is bad, leaves a gap, or holds another entry than the one at its place.
    Bad { at: u64 },
    /// The feed, the input or the sink failed.
    Fault,
    /// The feed or the input gave 2^40 bytes.
    Long,
    Memory,
}

/// The end that a refusal of the feed makes.
pub(crate) fn end_of(why: FeedRefusal) -> FollowEnd
    ensures { result ≡ end_by why }
{
    match why {
        FeedRefusal::Bad { at }
        | FeedRefusal::Gap { at, expected: _ }
        | FeedRefusal::Differs { at } => FollowEnd::Bad { at },
        FeedRefusal::Memory => FollowEnd::Memory,
    }
}
