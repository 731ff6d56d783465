// The words of the commands that feed a follower, and of the follower's.
ghost use Rattle.std.specs.Prelude.{◌≡◌, Some, None, IfOk, IsErrOf};
ghost use Rattle.ps_commands.specs.Words.{are_three as are_three_by, fed_by, followed_by};

use crate::command::{Command, FeedWords, FollowWords};
use ps_args::{WordsRefusal, are_two, number_between, read_host};
use ps_types::Text;
use std::alloc::Global;

// Whether all three are names, and differ.
fn are_three(one: &Text, other: &Text, third: &Text) -> bool
    ensures { result ≡ are_three_by one.now other.now third.now }
{
    (are_two(one, other) && are_two(one, third)) && are_two(other, third)
}

/// The words after `feed`.
pub(crate) fn read_feed(store: &Text, from: &Text, sink: &Text) -> Result<Command, WordsRefusal>
    ensures ok { IfOk result (λ c. fed_by store.now from.now sink.now ≡ Some c) }
    ensures usage { IsErrOf result WordsRefusal.Usage → fed_by store.now from.now sink.now ≡ None }
{
    let Some(from) = number_between(0, u64::MAX, from.as_str()) else {
        return Err(WordsRefusal::Usage);
    };
    if !are_two(store, sink) {
        return Err(WordsRefusal::Usage);
    }
    let store = store.clone()?;
    let sink = sink.clone()?;
    Ok(Command::Feed(FeedWords { store, from, sink }))
}

/// The words after `follow`.
pub(crate) fn read_follow(
    alloc: Global,
    host: &Text,
    feed: &Text,
    source: &Text,
    sink: &Text,
) -> Result<Command, WordsRefusal>
    ensures ok { IfOk result (λ c. followed_by host.now feed.now source.now sink.now ≡ Some c) }
    ensures usage { IsErrOf result WordsRefusal.Usage
        → followed_by host.now feed.now source.now sink.now ≡ None }
{
    let host = read_host(alloc, host)?;
    if !are_three(feed, source, sink) {
        return Err(WordsRefusal::Usage);
    }
    let feed = feed.clone()?;
    let source = source.clone()?;
    let sink = sink.clone()?;
    Ok(Command::Follow(FollowWords {
        host,
        feed,
        source,
        sink,
    }))
}
