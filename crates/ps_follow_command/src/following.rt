// A feed of a world, followed.
ghost use Rattle.std.specs.Prelude.{◌≡◌, ◌≢◌, ◌≤◌, ◌∷◌, [], List, ℕ};
ghost use Rattle.ps_io.specs.declared.world.Kind.{Kind};
ghost use Rattle.ps_io.specs.declared.world.OpenCall.{OpenCall};
ghost use Rattle.ps_endpoints.specs.Ports.{FailedToOpen};
ghost use Rattle.ps_commands.specs.Well.{IsWellFollowed};
ghost use Rattle.ps_status.specs.Asking.{AsksInOrder};
ghost use Rattle.ps_status.specs.Leaving.{LeavesBut};
ghost use Rattle.ps_status.specs.Outside.{outside};
ghost use Rattle.ps_status.specs.Telling.{reported_from};
ghost use Rattle.ps_follow_run.specs.Following.{held_source};
ghost use Rattle.ps_follow_command.specs.Following.{FollowsIn, FollowsOver, end_status, follow_openings, follow_touches, line_openings, line_touches};

use ps_commands::FollowWords;
use ps_follow_run::{FollowEnd, Followed, run_follow};
use ps_io::World;
use ps_status::{Status, refused};
use std::alloc::Global;
use std::thread::Threads;

fn status_of(end: FollowEnd) -> Status
    ensures { result ≡ end_status end }
{
    match end {
        FollowEnd::Done => Status::Done,
        FollowEnd::Bad { at } => Status::FeedBad { at },
        FollowEnd::Fault => Status::StreamFault,
        FollowEnd::Long => Status::StreamLong,
        FollowEnd::Memory => Status::Memory,
    }
}

// Opens the source of lines and the sink, answers the lines at the entries of the feed that is open, and gives both back.
fn follow_over<R: Threads + Sync, W: World>(
    rt: &R,
    alloc: Global,
    words: &FollowWords,
    feed: &mut W::Reading,
    world: &mut W,
) -> Status
    requires since { (W.last_opening world.old).1 ≤ W.faults world.old }
    ensures follows { FollowsOver words.now (held_source W.Reading.Source feed.old)
        (held_source W.Reading.Source feed.new) (outside W.World world.old) (outside W.World world.new)
        (W.lefts world.old) (W.lefts world.new) result }
    ensures never { result ≢ Status.Usage }
    ensures open { result ≡ Status.OpenFault → FailedToOpen W.World world.old world.new }
    ensures asked { AsksInOrder (line_openings words.now) (W.asked world.old) (W.asked world.new) }
    ensures others { LeavesBut (line_touches words.now) (outside W.World world.old) (outside W.World world.new)
        (W.lefts world.old) (W.lefts world.new) }
    ensures stay { (n : List ℕ) → n ≢ words.now.source → W.is_open world.old Kind.Source n
        → W.is_open world.new Kind.Source n }
    ensures reported { W.reported world.new ≡ W.reported world.old }
    ensures later { W.faults world.old ≤ W.faults world.new }
    ensures since { (W.last_opening world.new).1 ≤ W.faults world.new }
{
    let input = match world.open_source(&words.source) {
        Ok(input) => input,
        Err(why) => return refused(why),
    };
    match world.open_sink(&words.sink) {
        Err(why) => {
            world.give_back(&words.source, input);
            refused(why)
        }
        Ok(sink) => {
            let mut sink = sink;
            let Followed { input, end } = run_follow(
                rt,
                alloc,
                &words.host,
                feed,
                input,
                &mut sink,
            );
            world.give_back_sink(&words.sink, sink);
            world.give_back(&words.source, input);
            status_of(end)
        }
    }
}

/// Opens a feed, a source of lines and a sink, answers the lines at the entries of the feed as they come, and gives all three back.
///
/// `OpenFault`: an opening failed. `FeedBad`: the feed has a record that can't be taken, at this byte. `StreamFault`: the feed, the source or the sink failed.
/// `StreamLong`: the feed or the source gave 2^40 bytes.
pub fn follow_feed<R: Threads + Sync, W: World>(
    rt: &R,
    alloc: Global,
    words: &FollowWords,
    world: &mut W,
) -> Status
    requires well { IsWellFollowed words.now }
    ensures follows { FollowsIn words.now (outside W.World world.old) (outside W.World world.new)
        (W.lefts world.old) (W.lefts world.new) result }
    ensures never { result ≢ Status.Usage }
    ensures open { result ≡ Status.OpenFault → FailedToOpen W.World world.old world.new }
    ensures asked { AsksInOrder (follow_openings words.now) (W.asked world.old) (W.asked world.new) }
    ensures others { LeavesBut (follow_touches words.now) (outside W.World world.old) (outside W.World world.new)
        (W.lefts world.old) (W.lefts world.new) }
    ensures reported { W.reported world.new ≡ W.reported world.old }
    ensures since { reported_from result (W.faults world.old) (W.last_opening world.new) ≤ W.faults world.new }
{
    let feed = match world.open_source(&words.feed) {
        Ok(feed) => feed,
        Err(why) => return refused(why),
    };
    let mut feed = feed;
    let status = follow_over(rt, alloc, words, &mut feed, world);
    world.give_back(&words.feed, feed);
    status
}
