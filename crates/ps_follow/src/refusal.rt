// Why a stream is refused.
ghost use Rattle.std.specs.Prelude.{◌≡◌};
ghost use Rattle.ps_follow.specs.Refused.{refused_by};

use crate::feeding::End;

/// Why a stream is refused. The offsets count its bytes from its begin.
#[derive(Clone, Copy, PartialEq, Eq, Debug)]
pub enum FeedRefusal {
    /// The record there is longer than 2^30 bytes and its head, holds no entry, or one that isn't accepted behind the entries before it.
    Bad { at: u64 },
    /// The record there has a place past the count of entries, which is the place that was expected.
    Gap { at: u64, expected: u64 },
    /// The record there holds another entry than the one that stands at its place.
    Differs { at: u64 },
    Memory,
}

/// Why nothing more is taken, where something stopped it.
pub(crate) fn stop_of(end: End, at: u64, expected: u64) -> Option<FeedRefusal>
    ensures { result ≡ refused_by end at expected }
{
    match end {
        End::Part => None,
        End::Bad => Some(FeedRefusal::Bad { at }),
        End::Gap => Some(FeedRefusal::Gap { at, expected }),
        End::Differs => Some(FeedRefusal::Differs { at }),
        End::Memory => Some(FeedRefusal::Memory),
    }
}
