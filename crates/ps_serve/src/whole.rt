// The whole run of a command.
ghost use Rattle.std.specs.Prelude.{◌≡◌, ◌≢◌, ◌⊎◌, ◌≤◌, Some, None, IfSome};
ghost use Rattle.ps_endpoints.specs.Ports.{FailedToOpen};
ghost use Rattle.ps_commands.specs.Well.{IsWell};
ghost use Rattle.ps_commands.specs.Words.{command_of};
ghost use Rattle.ps_commands.specs.declared.command.Command.{Command};
ghost use Rattle.ps_status.specs.Asking.{AsksInOrder};
ghost use Rattle.ps_status.specs.Outside.{outside};
ghost use Rattle.ps_status.specs.Telling.{told_from};
ghost use Rattle.ps_serve.specs.Came.{IsCame, IsTold, MayRehearse, came_by, outcome_in, status_in};
ghost use Rattle.ps_serve.specs.Compacting.{Compacts, compacted_by};
ghost use Rattle.ps_serve.specs.Did.{Did};
ghost use Rattle.ps_serve.specs.Runs.{Leaves, Runs, openings_of, served_by};

use crate::compacting::compact_stores;
use crate::serving::serve;
use crate::telling::tell_numbers;
use ps_args::WordsRefusal;
use ps_audit_command::{explain_store, list_readers};
use ps_base::{Bytes, Listed, Memory};
use ps_commands::{Command, read_command};
use ps_follow_command::{feed_store, follow_feed};
use ps_io::World;
use ps_mirror_command::mirror_source;
use ps_rehearse::{Numbers, rehearse};
use ps_status::{Status, tell, tell_lines};
use ps_types::Text;
use std::alloc::Global;
use std::random::RandomSource;
use std::sync::Wait;
use std::thread::Threads;

// What came of a command, before it is told: how it ended, the numbers of a rehearsal, or lines.
#[derive(Drop)]
pub(crate) enum Came {
    Ended(Status),
    Rehearsed(Numbers),
    Lines(Listed<Bytes>),
}

fn rehearsed<R: RandomSource + Wait + Threads + Sync>(
    rt: &R,
    alloc: Global,
    seed: u64,
    count: u64,
) -> Came
    requires { count ≤ 100000 }
    ensures { MayRehearse seed count result }
{
    match rehearse(rt, alloc, seed, count) {
        Ok(numbers) => Came::Rehearsed(numbers),
        Err(Memory) => Came::Ended(Status::Memory),
    }
}

fn came_of(came: Result<Listed<Bytes>, Status>) -> Came
    ensures { result ≡ came_by came }
{
    match came {
        Ok(lines) => Came::Lines(lines),
        Err(status) => Came::Ended(status),
    }
}

// Does what a command asks for.
fn run_command<R: RandomSource + Wait + Threads + Sync, W: World>(
    rt: &R,
    alloc: Global,
    command: Command,
    world: &mut W,
) -> Came
    requires well { IsWell command }
    ensures usage { status_in result ≢ Status.Usage }
    ensures runs { IfSome (served_by (Some command)) (Runs W.Store.tells (outside W.World world.old)
        (outside W.World world.new) (W.lefts world.old) (W.lefts world.new) (status_in result)) }
    ensures compacts { IfSome (compacted_by (Some command)) (Compacts W.Store.tells (outside W.World world.old)
        (outside W.World world.new) (W.lefts world.old) (W.lefts world.new) (status_in result)) }
    ensures came { IsCame W.Store.tells (Some command) (outside W.World world.old) (outside W.World world.new)
        (W.lefts world.old) (W.lefts world.new) result }
    ensures open { status_in result ≡ Status.OpenFault → FailedToOpen W.World world.old world.new }
    ensures asked { AsksInOrder (openings_of (Some command)) (W.asked world.old) (W.asked world.new) }
    ensures others { Leaves (Some command) (outside W.World world.old)
        (outside W.World world.new) (W.lefts world.old) (W.lefts world.new) }
    ensures reported { W.reported world.new ≡ W.reported world.old }
    ensures since { told_from (outcome_in result) (W.faults world.old) (W.last_opening world.new)
        ≤ W.faults world.new }
{
    match command {
        Command::Serve {
            service,
            store,
            streams,
        } => Came::Ended(serve(rt, alloc, &service, &store, streams.as_slice(), world)),
        Command::Rehearse { seed, count } => rehearsed(rt, alloc, seed, count),
        Command::Compact { store, new } => {
            Came::Ended(compact_stores(rt, alloc, &store, &new, world))
        }
        Command::Explain(words) => came_of(explain_store(rt, alloc, &words, world)),
        Command::Readers(words) => came_of(list_readers(rt, alloc, &words, world)),
        Command::Feed(words) => Came::Ended(feed_store(rt, alloc, &words, world)),
        Command::Follow(words) => Came::Ended(follow_feed(rt, alloc, &words, world)),
        Command::Mirror(words) => came_of(mirror_source(alloc, &words, world)),
    }
}

fn run_words<R: RandomSource + Wait + Threads + Sync, W: World>(
    rt: &R,
    alloc: Global,
    words: &[Text],
    world: &mut W,
) -> Came
    ensures usage_only { status_in result ≡ Status.Usage → command_of words.now ≡ None }
    ensures usage { command_of words.now ≡ None
        → (status_in result ≡ Status.Usage) ⊎ (status_in result ≡ Status.Memory) }
    ensures runs { IfSome (served_by (command_of words.now)) (Runs W.Store.tells (outside W.World world.old)
        (outside W.World world.new) (W.lefts world.old) (W.lefts world.new) (status_in result)) }
    ensures compacts { IfSome (compacted_by (command_of words.now)) (Compacts W.Store.tells (outside W.World world.old)
        (outside W.World world.new) (W.lefts world.old) (W.lefts world.new) (status_in result)) }
    ensures came { IsCame W.Store.tells (command_of words.now) (outside W.World world.old) (outside W.World world.new)
        (W.lefts world.old) (W.lefts world.new) result }
    ensures open { status_in result ≡ Status.OpenFault → FailedToOpen W.World world.old world.new }
    ensures asked { AsksInOrder (openings_of (command_of words.now)) (W.asked world.old) (W.asked world.new) }
    ensures others { Leaves (command_of words.now) (outside W.World world.old)
        (outside W.World world.new) (W.lefts world.old) (W.lefts world.new) }
    ensures reported { W.reported world.new ≡ W.reported world.old }
    ensures since { told_from (outcome_in result) (W.faults world.old) (W.last_opening world.new)
        ≤ W.faults world.new }
{
    match read_command(alloc, words) {
        Ok(command) => run_command(rt, alloc, command, world),
        Err(WordsRefusal::Usage) => Came::Ended(Status::Usage),
        Err(WordsRefusal::Memory) => Came::Ended(Status::Memory),
    }
}

/// Runs the command that the words after the program's name are, and reports how it ended.
///
/// The store is opened, then each stream's source, sink and clock, and a Boot is appended to the entries that the store has. Each stream has a reader and a
/// writer of its own, and all work beside one another. However they interleave, the store holds one list of entries; each reply is the access rules' answer
/// at a prefix of it, no older than its stream's earlier replies; each address is handed, in the order of the entries, exactly the notices that the rules
/// grant, after a stop at most one of them again (`Runs`, `Headline`, `ServesStream`). A crash at any moment of the run leaves a prefix that holds all entries
/// that the store had at its start, or what one before could have left; one at its end leaves a prefix that holds every entry on which something rests that was
/// written (`HasOneList`, `IsAcknowledged`). Each other answer than [`Status::Done`] and [`Status::Memory`] has its cause.
///
/// A store is compacted to a new one where its bytes have a list of entries and the new one's are those of an empty store: the new store spells the rows of the
/// list, which serve on as the list would, and a crash leaves of it no entries or all (`Compacts`, `ComesOf`). The store's own list stays.
///
/// A rehearsal touches nothing of the world but its reports: the five lines of its numbers, which are those of a run of two streams in memory and, however
/// they interleaved, those of the seed's stanzas one after the other (`IsTold`, `IsRehearsal`, `rehearsal` of ps_rehearse_laws).
///
/// An audit reports which verdicts an address had on a node after each entry of a store, or who may read the node at its end; the store keeps its entries
/// (`Did`: `Explains` and `Lists` of ps_audit_command). A feed writes the records of a store's entries to a sink (`Feeds` of ps_follow_command). A follower
/// takes such records, and answers each line at the entries that it has taken (`FollowsIn` of ps_follow_command). A mirror reports the items that an
/// address has of a node by the notices in a source (`Mirrors` of ps_mirror_command).
///
/// Where a report of numbers or lines fails nothing is reported after it, and the answer is [`Status::StreamFault`].
pub fn run<R: RandomSource + Wait + Threads + Sync, W: World>(
    rt: &R,
    alloc: Global,
    words: &[Text],
    world: &mut W,
) -> Status
    ensures usage_only { result ≡ Status.Usage → command_of words.now ≡ None }
    ensures usage { command_of words.now ≡ None → (result ≡ Status.Usage) ⊎ (result ≡ Status.Memory) }
    ensures runs { IfSome (served_by (command_of words.now)) (Runs W.Store.tells (outside W.World world.old)
        (outside W.World world.new) (W.lefts world.old) (W.lefts world.new) result) }
    ensures compacts { IfSome (compacted_by (command_of words.now)) (Compacts W.Store.tells (outside W.World world.old)
        (outside W.World world.new) (W.lefts world.old) (W.lefts world.new) result) }
    ensures open { result ≡ Status.OpenFault → FailedToOpen W.World world.old world.new }
    ensures asked { AsksInOrder (openings_of (command_of words.now)) (W.asked world.old) (W.asked world.new) }
    ensures others { Leaves (command_of words.now) (outside W.World world.old)
        (outside W.World world.new) (W.lefts world.old) (W.lefts world.new) }
    ensures reported { IsTold (Did W.Store.tells (command_of words.now) (outside W.World world.old)
        (outside W.World world.new) (W.lefts world.old) (W.lefts world.new)) (command_of words.now)
        (W.reported world.old) (W.reported world.new) (W.faults world.old) (W.last_opening world.new)
        (W.faults world.new) result }
{
    match run_words(rt, alloc, words, world) {
        Came::Ended(status) => {
            tell(status, world);
            status
        }
        Came::Rehearsed(numbers) => tell_numbers(&numbers, world),
        Came::Lines(lines) => tell_lines(lines.as_slice(), world),
    }
}
