// A store over a disk in memory: a frame of two entries, one of none, and a fault at each call of the disk.
ghost use Rattle.std.specs.Prelude.{◌≢◌, [], IfOk, OnOk};

use crate::{Frame, Store};
use ps_base::Memory;
use ps_disk::{MemDisk, Torn};
use ps_journal::{EntriesRefusal, Journal, JournalRefusal};
use ps_record::{Batch, read_entry};
use std::alloc::Global;
use std::test::Fail;

// A store with one Boot, and its closed gate.
const BOOTED: &[u8] = b"PUBSUBJ2\x01\0\0\0\x11\0\0\x0epubsub.example\0";

const FIRST: &[u8] = b"\x03\0\x09a.example";

const SECOND: &[u8] = b"\x03\0\x09b.example";

// The same with one frame of both.
const BOTH: &[u8] =
    b"PUBSUBJ2\x01\0\0\0\x11\0\0\x0epubsub.example\x01\0\0\0\x18\x03\0\x09a.example\x03\0\x09b.example\0";

// Adds the entry that the bytes spell.
fn push(alloc: Global, batch: &mut Batch, bytes: &[u8]) -> Result<(), Memory>
    ensures { OnOk result (batch.new ≢ []) }
{
    match read_entry(alloc, bytes, 0) {
        Ok((entry, next)) => {
            if next > 1000 || batch.len() > 1000 {
                return Err(Memory);
            }
            batch.push(&entry)
        }
        Err(_) => Err(Memory),
    }
}

// A batch of the two entries.
fn both(alloc: Global) -> Result<Batch, Memory>
    ensures { IfOk result (λ b. b ≢ []) }
{
    let mut batch = Batch::new(alloc)?;
    push(alloc, &mut batch, FIRST)?;
    push(alloc, &mut batch, SECOND)?;
    Ok(batch)
}

// The store of a disk that opens.
fn opened(alloc: Global, disk: MemDisk) -> Option<Store<MemDisk>> {
    match Journal::open(alloc, disk) {
        Ok((journal, placed)) => Some(Store::new(journal, placed.len() as u64)),
        Err(refusal) => {
            let JournalRefusal { disk: _, why: _ } = refusal;
            None
        }
    }
}

// How many entries the list has that is read again.
fn read(alloc: Global, store: &mut Store<MemDisk>) -> Result<usize, EntriesRefusal> {
    match store.entries(alloc) {
        Ok(entries) => Ok(entries.len()),
        Err(refusal) => Err(refusal),
    }
}

// How many entries a store has after a crash.
fn after_crash(alloc: Global, disk: &MemDisk, calls: u64, torn: Torn) -> Option<usize> {
    if calls > disk.calls() {
        return None;
    }
    let crashed = disk.crashed(alloc, calls, torn).ok()?;
    let mut store = opened(alloc, crashed)?;
    let count = read(alloc, &mut store);
    let _ = store.close();
    count.ok()
}

#[test]
fn a_frame_has_the_entries_of_many_steps_or_none(rt: HostRuntime) -> Result<(), Fail> {
    let alloc = rt.alloc();
    let batch = Some(both(alloc)?);
    let disk = MemDisk::new(alloc, BOOTED, &[])?;
    let mut store = opened(alloc, disk).ok_or("not opened")?;
    let before = (store.mark(), store.steps(), store.firm());
    let first = store.append(&Frame {
        batch,
        count: 3,
        length: 60,
        steps: 2,
    });
    let after = (store.mark(), store.steps(), store.firm());
    let second = store.append(&Frame {
        batch: None,
        count: 3,
        length: 60,
        steps: 5,
    });
    let last = (store.mark(), store.steps(), store.firm());
    let count = read(alloc, &mut store);
    let disk = store.close();
    assert!(rt; first.is_ok() && second.is_ok());
    assert_eq!(rt; before, ((1, 31), 0, 0));
    assert_eq!(rt; (after, last), (((3, 60), 2, 2), ((3, 60), 5, 5)));
    assert_eq!(rt; (count, disk.bytes()), (Ok(3), BOTH));
    Ok(())
}

// The calls of a frame are the four behind those of the opening. After a crash both entries are there, or neither.
#[test]
fn a_frame_that_fails_is_noted_and_leaves_both_or_neither(rt: HostRuntime) -> Result<(), Fail> {
    let alloc = rt.alloc();
    let store = opened(alloc, MemDisk::new(alloc, BOOTED, &[])?).ok_or("not opened")?;
    let opening = store.close().calls();
    assert!(rt; opening < 100);
    for call in 1..=4 {
        let failing = opening + call;
        let batch = Some(both(alloc)?);
        let disk = MemDisk::new(alloc, BOOTED, &[failing])?;
        let mut store = opened(alloc, disk).ok_or("not opened")?;
        let torn = store.append(&Frame {
            batch,
            count: 3,
            length: 60,
            steps: 2,
        });
        store.note(3);
        let after = (store.mark(), store.steps(), store.firm());
        let again = read(alloc, &mut store);
        let disk = store.close();
        assert!(rt; torn.is_err());
        assert_eq!(rt;
            (after, again),
            (((3, 60), 3, 0), Err(EntriesRefusal::Store))
        );
        for torn in [Torn::Lost, Torn::Whole, Torn::Filled(1)] {
            let held = after_crash(alloc, &disk, failing, torn);
            assert!(rt; held == Some(1) || (call >= 3 && held == Some(3)));
        }
    }
    Ok(())
}
