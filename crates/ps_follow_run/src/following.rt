// A follower that answers an input while it takes a feed.
ghost use Rattle.std.specs.Prelude.{◌≡◌, []};
ghost use Rattle.ps_follow_run.specs.Following.{Follows, end_in, worked};
ghost use Rattle.ps_follow_run.specs.Pieces.{HasTaken};

use crate::ends::FollowEnd;
use crate::lines::follow_all;
use crate::pieces::Taking;
use ps_types::Text;
use ps_wire::{Lines, LinesRefusal, Sink, Source};
use std::alloc::Global;
use std::thread::Threads;

/// The input, behind the bytes that it gave, and how the run ended.
pub struct Followed<S> {
    pub input: S,
    pub end: FollowEnd,
}

fn end_of(followed: Result<(), FollowEnd>) -> FollowEnd
    ensures { result ≡ end_in followed }
{
    match followed {
        Ok(()) => FollowEnd::Done,
        Err(why) => why,
    }
}

// The same, by a follower without entries, of whose feed nothing was read.
fn follow_input<R: Threads + Sync, F: Source, S: Source, K: Sink>(
    rt: &R,
    alloc: Global,
    host: &Text,
    taking: &mut Taking,
    feed: &mut F,
    input: S,
    sink: &mut K,
) -> Followed<S>
    requires taken { HasTaken taking.old [] (F.left feed.old) }
    ensures { Follows host.now (worked F.Source S.Source K.Sink feed.old feed.new input result.input sink.old sink.new)
        result.end }
{
    let mut lines = match Lines::new(alloc, input) {
        Ok(lines) => lines,
        Err(LinesRefusal { source }) => {
            return Followed {
                input: source,
                end: FollowEnd::Memory,
            };
        }
    };
    let end = end_of(follow_all(rt, alloc, host, taking, feed, &mut lines, sink));
    Followed {
        input: lines.close(),
        end,
    }
}

/// Answers the lines of the input, which is a stream of that host, by a follower of the feed: before each line it makes one read of at most 65,536 bytes of the feed, while that hasn't
/// ended, and behind the last line it takes the rest of it. A record that is bad, leaves a gap or holds another entry than the one at its place ends the run; so do a fault
/// of the feed, the input or the sink, and 2^40 bytes of the feed or the input.
pub fn run_follow<R: Threads + Sync, F: Source, S: Source, K: Sink>(
    rt: &R,
    alloc: Global,
    host: &Text,
    feed: &mut F,
    input: S,
    sink: &mut K,
) -> Followed<S>
    ensures { Follows host.now (worked F.Source S.Source K.Sink feed.old feed.new input result.input sink.old sink.new)
        result.end }
{
    match Taking::new(alloc) {
        Ok(mut taking) => follow_input(rt, alloc, host, &mut taking, feed, input, sink),
        Err(_) => Followed {
            input,
            end: FollowEnd::Memory,
        },
    }
}
