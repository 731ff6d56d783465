// Lives of a hall, from its opening to its end.
ghost use Rattle.std.specs.Prelude.{◌≡◌, ◌<◌, ◌≤◌, ◌^◌, codes, length, OnOk};
ghost use Rattle.ps_trace.specs.Own.{AllDiffer};
ghost use Rattle.ps_disk.specs.declared.memory.MemDisk.{MemDisk};
ghost use Rattle.ps_hall.specs.Passes.{AreFresh, ArePasses};
ghost use Rattle.ps_hall.specs.Start.{MayStart};
ghost use Rattle.ps_hall_tests.specs.Begun.{are_one};
ghost use Rattle.ps_hall_tests.specs.Passes.{IsFree, Reads, Writes};

use crate::calls::{
    commits, ends, finds_no_room, goes, is_over, recalls, refuses, replies, tells, waits,
};
use crate::lines::{
    CREATE, MADE, NO_ROOM, PUBLISH, PUBLISHED, SUBSCRIBE, SUBSCRIBED, TOLD, TOLD_NEXT,
};
use crate::opened::{ample, host_names, opens, opens_again, service_name};
use ps_disk::{Disk, MemDisk};
use ps_hall::{ArriveRefusal, EndCause, Hall, HostPasses, NoHall, Opening, Pass};
use ps_hall_open::Opened;
use ps_hall_state::{Limits, State};
use ps_hall_store::Store;
use ps_io::ConstClock;
use ps_journal::Trail;
use ps_streams::{ReadEnd, read_stream, write_stream};
use ps_types::{Memory, Text};
use ps_wire::{Lines, LinesRefusal, MemSink, MemSource};
use std::alloc::Global;
use std::marker::Brand;
use std::process::Abort;
use std::random::RandomSource;
use std::sync::Wait;
use std::test::Fail;
use std::thread::Threads;
use std::time::Duration;

// A node with a subscriber, and an item.
fn publishes<B: Opening, D: Disk>(
    rt: &(impl Abort + Wait + Threads + Sync),
    alloc: Global,
    hall: &Hall<B, D>,
    pass: &mut Pass<B, D>,
) -> Result<(), Fail>
    requires { Reads B.origin hall.now.twin pass.old }
    ensures { Reads B.origin hall.now.twin pass.new }
{
    commits(rt, alloc, hall, pass, CREATE, 1)?;
    commits(rt, alloc, hall, pass, SUBSCRIBE, 2)?;
    commits(rt, alloc, hall, pass, PUBLISH, 3)
}

// Replies come first, and then the notice.
fn hears<B: Opening, D: Disk>(
    rt: &(impl Abort + Wait + Threads + Sync),
    hall: &Hall<B, D>,
    pass: &mut Pass<B, D>,
) -> Result<(), Fail>
    requires { IsFree B.origin hall.now.twin pass.old }
    ensures writes { Writes B.origin hall.now.twin pass.new }
    ensures free { OnOk result (IsFree B.origin hall.now.twin pass.new) }
{
    replies(rt, hall, pass, MADE)?;
    replies(rt, hall, pass, SUBSCRIBED)?;
    replies(rt, hall, pass, PUBLISHED)?;
    tells(rt, hall, pass, TOLD)?;
    waits(rt, hall, pass)
}

fn serves<B: Opening, D: Disk>(
    rt: &(impl Abort + Wait + Threads + Sync),
    alloc: Global,
    hall: &Hall<B, D>,
    passes: &mut HostPasses<B, D>,
) -> Result<(), Fail>
    requires reader { Reads B.origin hall.now.twin passes.old.reader }
    requires writer { IsFree B.origin hall.now.twin passes.old.writer }
    ensures reader { Reads B.origin hall.now.twin passes.new.reader }
    ensures writer { Writes B.origin hall.now.twin passes.new.writer }
{
    publishes(rt, alloc, hall, &mut passes.reader)?;
    hears(rt, hall, &mut passes.writer)?;
    // The Boot, the three lines and what was handed. Each line has two steps, each reply one, and the notice three.
    recalls(rt, alloc, hall, &mut passes.reader, 5, 12)?;
    goes(rt, hall, &mut passes.reader);
    is_over(rt, hall, &mut passes.writer)?;
    ends(rt, hall, &mut passes.writer);
    let reader = &mut passes.reader;
    refuses(rt, alloc, hall, reader, CREATE, ArriveRefusal::Closed)
}

// The bell of the host rings at the end of each call after which its writer may find something, so a rest that begins behind it ends at once.
fn rings<B: Opening, D: Disk>(
    rt: &(impl Abort + Wait + Threads + Sync),
    alloc: Global,
    hall: &Hall<B, D>,
    passes: &mut HostPasses<B, D>,
) -> Result<(), Fail>
    requires reader { Reads B.origin hall.now.twin passes.old.reader }
    requires writer { IsFree B.origin hall.now.twin passes.old.writer }
    ensures reader { Reads B.origin hall.now.twin passes.new.reader }
    ensures writer { Writes B.origin hall.now.twin passes.new.writer }
{
    let opened = hall.news(&passes.writer);
    publishes(rt, alloc, hall, &mut passes.reader)?;
    hall.rest(rt, &passes.writer, opened, Duration::from_secs(60));
    let published = hall.news(&passes.writer);
    hears(rt, hall, &mut passes.writer)?;
    assert_eq!(rt; hall.news(&passes.writer), published);
    goes(rt, hall, &mut passes.reader);
    let gone = hall.news(&passes.writer);
    ends(rt, hall, &mut passes.writer);
    let ended = hall.news(&passes.writer);
    assert!(rt; opened != published && published != gone && gone != ended);
    Ok(())
}

// The disk fails as the first frame is written: its line isn't answered, and no other is taken.
fn fails<B: Opening, D: Disk>(
    rt: &(impl Abort + Wait + Threads + Sync),
    alloc: Global,
    hall: &Hall<B, D>,
    passes: &mut HostPasses<B, D>,
) -> Result<(), Fail>
    requires reader { Reads B.origin hall.now.twin passes.old.reader }
    requires writer { IsFree B.origin hall.now.twin passes.old.writer }
    ensures reader { Reads B.origin hall.now.twin passes.new.reader }
    ensures writer { Writes B.origin hall.now.twin passes.new.writer }
{
    let reader = &mut passes.reader;
    refuses(rt, alloc, hall, reader, CREATE, ArriveRefusal::Store)?;
    refuses(rt, alloc, hall, reader, SUBSCRIBE, ArriveRefusal::Store)?;
    waits(rt, hall, &mut passes.writer)
}

// The entry of the line would pass the limit by a byte: its sender is told so, and the list stays as it is.
fn is_full<B: Opening, D: Disk>(
    rt: &(impl Abort + Wait + Threads + Sync),
    alloc: Global,
    hall: &Hall<B, D>,
    passes: &mut HostPasses<B, D>,
) -> Result<(), Fail>
    requires reader { Reads B.origin hall.now.twin passes.old.reader }
    requires writer { IsFree B.origin hall.now.twin passes.old.writer }
    ensures reader { Reads B.origin hall.now.twin passes.new.reader }
    ensures writer { Writes B.origin hall.now.twin passes.new.writer }
{
    let reader = &mut passes.reader;
    finds_no_room(rt, alloc, hall, reader, CREATE, 1)?;
    // The Boot alone. The line has two steps, and the flush before the entries are read one.
    recalls(rt, alloc, hall, reader, 1, 3)?;
    let writer = &mut passes.writer;
    replies(rt, hall, writer, NO_ROOM)?;
    waits(rt, hall, writer)
}

// The store was served before: its node and its subscription stand, and the notices are numbered on.
fn goes_on<B: Opening, D: Disk>(
    rt: &(impl Abort + Wait + Threads + Sync),
    alloc: Global,
    hall: &Hall<B, D>,
    passes: &mut HostPasses<B, D>,
) -> Result<(), Fail>
    requires reader { Reads B.origin hall.now.twin passes.old.reader }
    requires writer { IsFree B.origin hall.now.twin passes.old.writer }
    ensures reader { Reads B.origin hall.now.twin passes.new.reader }
    ensures writer { Writes B.origin hall.now.twin passes.new.writer }
{
    commits(rt, alloc, hall, &mut passes.reader, PUBLISH, 7)?;
    let writer = &mut passes.writer;
    replies(rt, hall, writer, PUBLISHED)?;
    tells(rt, hall, writer, TOLD_NEXT)?;
    waits(rt, hall, writer)
}

// The reader's worker answers all lines of its source, and ends.
fn is_read<B: Opening, D: Disk>(
    rt: &(impl Abort + Wait + Threads + Sync),
    alloc: Global,
    hall: &Hall<B, D>,
    pass: &mut Pass<B, D>,
) -> Result<(), Fail>
    requires { Reads B.origin hall.now.twin pass.old }
    ensures { Reads B.origin hall.now.twin pass.new }
{
    let input = format!(in alloc; "{CREATE}\n{SUBSCRIBE}\n{PUBLISH}\n")?;
    let source = MemSource::new(alloc, input.as_bytes(), &[])?;
    match Lines::new(alloc, source) {
        Ok(mut lines) => {
            let mut clock = ConstClock { moment: 0 };
            let end = read_stream(rt, alloc, hall, pass, &mut lines, &mut clock);
            let _ = lines.close();
            assert_eq!(rt; end, ReadEnd::Ended);
            Ok(())
        }
        Err(LinesRefusal { source: _ }) => Err(Fail::from(Memory)),
    }
}

// The writer's worker writes all lines to its sink, once the reader has ended.
fn is_written<B: Opening, D: Disk>(
    rt: &(impl Abort + Wait + Threads + Sync),
    alloc: Global,
    hall: &Hall<B, D>,
    pass: &mut Pass<B, D>,
) -> Result<(), Fail>
    requires ready { IsFree B.origin hall.now.twin pass.old }
    requires differ { AllDiffer B.origin.hosts }
    ensures { Writes B.origin hall.now.twin pass.new }
{
    let mut sink = MemSink::new(alloc, &[])?;
    let why = write_stream(rt, hall, pass, &mut sink);
    assert_eq!(rt; why, EndCause::Finished);
    let lines = format!(in alloc; "{MADE}\n{SUBSCRIBED}\n{PUBLISHED}\n{TOLD}\n")?;
    assert!(rt; sink.bytes() == lines.as_bytes());
    Ok(())
}

fn writes<B: Opening, D: Disk>(
    rt: &(impl Abort + Wait + Threads + Sync),
    alloc: Global,
    hall: &Hall<B, D>,
    passes: &mut HostPasses<B, D>,
) -> Result<(), Fail>
    requires reader { Reads B.origin hall.now.twin passes.old.reader }
    requires writer { IsFree B.origin hall.now.twin passes.old.writer }
    requires differ { AllDiffer B.origin.hosts }
    ensures reader { Reads B.origin hall.now.twin passes.new.reader }
    ensures writer { Writes B.origin hall.now.twin passes.new.writer }
{
    is_read(rt, alloc, hall, &mut passes.reader)?;
    is_written(rt, alloc, hall, &mut passes.writer)
}

// What a host does in its life.
#[derive(Clone, Copy)]
enum Life {
    Whole,
    Failing,
    Full,
    Second,
    Written,
    Ringing,
}

fn lives<B: Opening, D: Disk>(
    rt: &(impl Abort + Wait + Threads + Sync),
    alloc: Global,
    hall: &Hall<B, D>,
    passes: &mut Vec<HostPasses<B, D>>,
    life: Life,
) -> Result<(), Fail>
    requires some { 0 < length passes.old.items }
    requires fresh { AreFresh B.origin hall.now.twin passes.old.items }
    requires differ { AllDiffer B.origin.hosts }
    ensures { ArePasses B.origin hall.now.twin passes.new.items }
{
    let first = &mut passes[0];
    match life {
        Life::Whole => serves(rt, alloc, hall, first),
        Life::Failing => fails(rt, alloc, hall, first),
        Life::Full => is_full(rt, alloc, hall, first),
        Life::Second => goes_on(rt, alloc, hall, first),
        Life::Written => writes(rt, alloc, hall, first),
        Life::Ringing => rings(rt, alloc, hall, first),
    }
}

fn let_go(_entries: Trail) {}

// What was opened is named by the arguments. Where memory is refused to the hall, the disk is opened again.
fn live<B: Opening>(
    rt: &(impl Abort + Wait + Threads + Sync + RandomSource),
    alloc: Global,
    state: State,
    store: Store<MemDisk>,
    entries: Trail,
    hosts: &[Text],
    _service: &Text,
    life: Life,
) -> Result<MemDisk, Fail>
    requires start { MayStart B.origin state store hosts.now }
    requires hosts { hosts.now ≡ are_one }
{
    let_go(entries);
    match Hall::<B, MemDisk>::new(alloc, state, store, hosts) {
        Ok((hall, mut passes)) => {
            let came = lives(rt, alloc, &hall, &mut passes, life);
            let (_, store) = hall.close(passes);
            let disk = store.close();
            came?;
            Ok(disk)
        }
        Err(NoHall { state: _, store }) => {
            opens_again(rt, alloc, &store.close())?;
            Err(Fail::from(Memory))
        }
    }
}

// The header, the Boot and the closed gate take 31 bytes. A frame adds its gate, four bytes of length and its entries. That of the first line has 188 bytes
// behind 24 of its own.
const FIRST_MADE: u64 = 31 + (5 + 24 + 188);

fn limits_of(life: Life) -> Limits
    ensures { (result.changes ≤ 2 ^ 30) × (result.whole ≤ 2 ^ 30) }
{
    match life {
        Life::Full => Limits {
            changes: FIRST_MADE - 1,
            whole: FIRST_MADE,
        },
        Life::Whole | Life::Failing | Life::Second | Life::Written | Life::Ringing => ample(),
    }
}

// The disk is opened, and its host lives. The disk as it was is named apart, since the hall begins with what stood on it.
fn opened(
    rt: &(impl Abort + Wait + Threads + Sync + RandomSource),
    alloc: Global,
    disk: MemDisk,
    service: &Text,
    hosts: &[Text],
    life: Life,
) -> Result<MemDisk, Fail>
    ghost from: { MemDisk }
    requires given { disk ≡ from }
    requires service { service.now ≡ codes "pubsub.example" }
    requires hosts { hosts.now ≡ are_one }
{
    let opened = opens(rt, alloc, disk, service, hosts, limits_of(life))?;
    let Opened {
        state,
        store,
        entries,
    } = opened;
    live::<Brand>(rt, alloc, state, store, entries, hosts, service, life)
}

// The disk of a store that served one host and was closed.
fn served(
    rt: &(impl Abort + Wait + Threads + Sync + RandomSource),
    alloc: Global,
    disk: MemDisk,
    life: Life,
) -> Result<MemDisk, Fail> {
    let service = service_name(alloc)?;
    let hosts = host_names(alloc)?;
    opened(rt, alloc, disk, &service, &hosts, life)
}

// The frames of the three lines, of 188, 213 and 257 bytes, that of the notice that was handed, with its address in 16, and that of the end of the host, in 12.
const LEFT: usize = FIRST_MADE as usize + (5 + 24 + 213) + (5 + 24 + 257) + (5 + 16) + (5 + 12);

#[test]
fn a_host_is_served_from_the_opening_to_the_end(rt: HostRuntime) -> Result<(), Fail> {
    let disk = MemDisk::new(rt.alloc(), b"", &[])?;
    let disk = served(&rt, rt.alloc(), disk, Life::Whole)?;
    assert_eq!(rt; disk.bytes().len(), LEFT);
    Ok(())
}

// The workers have the clock's moment of each line in eight bytes. Their source gives the three lines at once, so that these share a frame: two gates and two
// lengths less.
const SHARED: usize = LEFT + 3 * 8 - 2 * 5;

#[test]
fn the_workers_of_a_stream_answer_all_lines(rt: HostRuntime) -> Result<(), Fail> {
    let disk = MemDisk::new(rt.alloc(), b"", &[])?;
    let disk = served(&rt, rt.alloc(), disk, Life::Written)?;
    assert_eq!(rt; disk.bytes().len(), SHARED);
    Ok(())
}

#[test]
fn the_calls_that_may_give_a_writer_something_ring(rt: HostRuntime) -> Result<(), Fail> {
    let disk = MemDisk::new(rt.alloc(), b"", &[])?;
    let _ = served(&rt, rt.alloc(), disk, Life::Ringing)?;
    Ok(())
}

#[test]
fn a_store_that_was_served_goes_on(rt: HostRuntime) -> Result<(), Fail> {
    let disk = MemDisk::new(rt.alloc(), b"", &[])?;
    let disk = served(&rt, rt.alloc(), disk, Life::Whole)?;
    let _ = served(&rt, rt.alloc(), disk, Life::Second)?;
    Ok(())
}

#[test]
fn a_line_whose_entry_finds_no_room_is_told_so(rt: HostRuntime) -> Result<(), Fail> {
    let disk = MemDisk::new(rt.alloc(), b"", &[])?;
    let disk = served(&rt, rt.alloc(), disk, Life::Full)?;
    assert_eq!(rt; disk.bytes().len(), 31);
    Ok(())
}

// The opening of an empty disk takes this many calls of it, and then the first frame begins.
const FIRST: u64 = 14;

#[test]
fn no_line_is_taken_once_the_disk_failed(rt: HostRuntime) -> Result<(), Fail> {
    let disk = MemDisk::new(rt.alloc(), b"", &[FIRST])?;
    let _ = served(&rt, rt.alloc(), disk, Life::Failing)?;
    Ok(())
}
