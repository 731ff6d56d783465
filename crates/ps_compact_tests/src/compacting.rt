// Stores in memory, compacted: what the new store begins with, who is refused, and what a stop after each call of the disk leaves.
use crate::trees::{AFFILIATION, COUNTER, ITEM, NODE, SUBSCRIPTION};
use ps_compact::{CompactOutcome, Compacted, compact};
use ps_disk::{MemDisk, Torn};
use std::alloc::Global;
use std::process::Abort;
use std::random::RandomSource;
use std::test::Fail;
use std::thread::Threads;

// A store of no entries.
const EMPTY: &[u8] = b"PUBSUBJ2\0";

// The notice of an item to bob, which isn't handed.
const NOTICE: &str =
    r#"{"a":{"jid":"bob@b.example"},"c":["{\"a\":{\"id\":\"n-1\",\"to\":\"bob@b.example\"},\"n\":\"message\"}"],"n":"notice","ns":"urn:pubsubd:base"}"#;

// The first entry behind the rows, and what says that a notice was handed to bob.
const BOOT: &[u8] = b"\0\0\x0epubsub.example";

const HANDED: &[u8] = b"\x02\0\x0dbob@b.example";

// A node with its owner, a subscriber and an item, and what is told of notices.
fn rows_and(last: &'static str) -> [&'static str; 5] {
    [NODE, AFFILIATION, SUBSCRIPTION, ITEM, last]
}

// A length in four octets.
fn size_of(bytes: &[u8]) -> [u8; 4] {
    u32::try_from(bytes.len()).unwrap_or(u32::MAX).to_be_bytes()
}

// A store whose only frame has these rows, and then these entries.
fn store_of(alloc: Global, rows: &[&str], entries: &[&[u8]]) -> Result<Vec<u8>, Fail> {
    let mut body = Vec::new(alloc);
    for row in rows {
        body.push(5)?;
        body.extend_from_slice(&size_of(row.as_bytes()))?;
        body.extend_from_slice(row.as_bytes())?;
    }
    for entry in entries {
        body.extend_from_slice(entry)?;
    }
    let mut store = b"PUBSUBJ2\x01".to_vec(alloc)?;
    store.extend_from_slice(&size_of(&body))?;
    store.extend_from_slice(&body)?;
    store.push(0)?;
    Ok(store)
}

// The two disks behind the compaction of a store into a new one, with the numbers of the calls that fail, and how it ended.
fn compacted(
    rt: &(impl RandomSource + Threads + Sync),
    alloc: Global,
    store: (&[u8], &[u64]),
    new: (&[u8], &[u64]),
) -> Result<(MemDisk, MemDisk, CompactOutcome), Fail> {
    let old = MemDisk::new(alloc, store.0, store.1)?;
    let disk = MemDisk::new(alloc, new.0, new.1)?;
    let Compacted {
        store,
        new,
        outcome,
    } = compact(rt, alloc, old, disk);
    Ok((store, new, outcome))
}

// Whether the store is compacted to that one, and stays.
fn becomes(
    rt: &(impl RandomSource + Threads + Sync),
    alloc: Global,
    store: &[u8],
    wanted: &[u8],
) -> Result<bool, Fail> {
    let (old, new, outcome) = compacted(rt, alloc, (store, &[]), (b"", &[]))?;
    Ok(outcome == CompactOutcome::Done && new.bytes() == wanted && old.bytes() == store)
}

#[test]
fn rows_and_a_notice_that_waits_go_along(rt: HostRuntime) -> Result<(), Fail> {
    let alloc = rt.alloc();
    let rows = rows_and(NOTICE);
    let store = store_of(alloc, &rows, &[BOOT])?;
    let wanted = store_of(alloc, &rows, &[])?;
    assert!(rt; becomes(&rt, alloc, &store, &wanted)?);
    assert!(rt; becomes(&rt, alloc, &wanted, &wanted)?);
    Ok(())
}

#[test]
fn a_notice_that_was_handed_is_a_number(rt: HostRuntime) -> Result<(), Fail> {
    let alloc = rt.alloc();
    let store = store_of(alloc, &rows_and(NOTICE), &[BOOT, HANDED])?;
    let wanted = store_of(alloc, &rows_and(COUNTER), &[])?;
    assert!(rt; becomes(&rt, alloc, &store, &wanted)?);
    Ok(())
}

#[test]
fn a_store_without_rows_is_empty_afterwards(rt: HostRuntime) -> Result<(), Fail> {
    let alloc = rt.alloc();
    let booted = store_of(alloc, &[], &[BOOT])?;
    assert!(rt; becomes(&rt, alloc, &booted, EMPTY)?);
    assert!(rt; becomes(&rt, alloc, EMPTY, EMPTY)?);
    Ok(())
}

#[test]
fn an_occupied_store_stays(rt: HostRuntime) -> Result<(), Fail> {
    let alloc = rt.alloc();
    let store = store_of(alloc, &rows_and(NOTICE), &[BOOT])?;
    let booted = store_of(alloc, &[], &[BOOT])?;
    for taken in [booted.as_slice(), store.as_slice(), b"no store".as_slice()] {
        let (old, new, outcome) = compacted(&rt, alloc, (&store, &[]), (taken, &[]))?;
        assert!(rt; outcome == CompactOutcome::Occupied);
        assert!(rt; new.bytes() == taken && old.bytes() == store.as_slice());
    }
    Ok(())
}

#[test]
fn a_damaged_store_is_told_with_its_place(rt: HostRuntime) -> Result<(), Fail> {
    let alloc = rt.alloc();
    let store = store_of(alloc, &rows_and(NOTICE), &[BOOT, BOOT, HANDED, HANDED])?;
    let (old, new, outcome) = compacted(&rt, alloc, (&store, &[]), (b"taken", &[]))?;
    // The second notice was never made: its entry is the last one before the gate.
    let place = (store.len() as u64).saturating_sub(1 + HANDED.len() as u64);
    assert!(rt; outcome == CompactOutcome::Damaged { at: place });
    assert!(rt; new.bytes() == b"taken".as_slice() && new.calls() == 0);
    assert!(rt; old.bytes() == store.as_slice());
    Ok(())
}

#[test]
fn a_disk_that_fails_is_told(rt: HostRuntime) -> Result<(), Fail> {
    let alloc = rt.alloc();
    let store = store_of(alloc, &rows_and(NOTICE), &[BOOT])?;
    let (_, new, outcome) = compacted(&rt, alloc, (&store, &[1]), (b"", &[]))?;
    assert!(rt; outcome == CompactOutcome::Store && new.calls() == 0);
    for call in 1..9 {
        let (old, _, outcome) = compacted(&rt, alloc, (&store, &[]), (b"", &[call]))?;
        assert!(rt; outcome == CompactOutcome::Store);
        assert!(rt; old.bytes() == store.as_slice());
    }
    Ok(())
}

#[test]
fn a_stop_leaves_no_entries_or_all(rt: HostRuntime) -> Result<(), Fail> {
    let alloc = rt.alloc();
    let whole = store_of(alloc, &rows_and(NOTICE), &[])?;
    let (_, new, outcome) = compacted(&rt, alloc, (&whole, &[]), (b"", &[]))?;
    assert!(rt; outcome == CompactOutcome::Done && 8 < new.calls());
    for calls in 0..64 {
        if calls > new.calls() {
            return Ok(());
        }
        for torn in [Torn::Lost, Torn::Filled(0), Torn::Filled(0xff)] {
            let left = new.crashed(alloc, calls, torn)?;
            let opens = becomes(&rt, alloc, left.bytes(), EMPTY)?
                || becomes(&rt, alloc, left.bytes(), &whole)?;
            assert!(rt; opens);
        }
    }
    assert!(rt; false);
    Ok(())
}
