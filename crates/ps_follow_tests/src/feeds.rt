// Records in pieces, with repeats and cuts, and records that are refused.
use crate::made::{BOOT, GONE, NOBODY, record};
use ps_follow::{FeedRefusal, Follower};
use ps_wire::Bytes;
use std::alloc::Global;
use std::process::Abort;
use std::test::Fail;
use std::thread::Threads;

// The record of a boot of `pubsub.example` at the first place.
const BOOT_RECORD: [u8; 29] = [
    0, 0, 0, 0, 0, 0, 0, 0, 0, 0, 0, 17, 0, 0, 14, b'p', b'u', b'b', b's', b'u', b'b', b'.', b'e',
    b'x', b'a', b'm', b'p', b'l', b'e',
];

// The record at a place: of a boot, and then of ends of callers.
fn record_at(alloc: Global, place: u64) -> Result<Bytes, Fail> {
    if place == 0 {
        record(alloc, place, BOOT)
    } else {
        record(alloc, place, GONE)
    }
}

// The first three of them.
fn three(alloc: Global) -> Result<Vec<u8>, Fail> {
    let mut feed = Vec::new(alloc);
    for place in 0..3 {
        feed.extend_from_slice(record_at(alloc, place)?.as_slice())?;
    }
    Ok(feed)
}

#[test]
fn pieces_repeats_and_cuts_add_nothing(rt: HostRuntime) -> Result<(), Fail> {
    let alloc = rt.alloc();
    let feed = three(alloc)?;
    for cut in 0..feed.len() {
        let mut follower = Follower::new(alloc)?;
        let (front, back) = feed.split_at(cut);
        let _ = follower.feed(&rt, front);
        let before = follower.count();
        assert_eq!(rt; follower.feed(&rt, back), Ok(3));
        assert!(rt; before <= 3);
        follower.cut();
        let _ = follower.feed(&rt, front);
        follower.cut();
        assert_eq!(rt; follower.count(), 3);
        assert_eq!(rt; follower.feed(&rt, &feed), Ok(3));
    }
    Ok(())
}

#[test]
fn one_record_in_pieces_and_again_and_a_gap(rt: HostRuntime) -> Result<(), Fail> {
    let alloc = rt.alloc();
    let mut follower = Follower::new(alloc)?;
    let (front, back) = BOOT_RECORD.split_at(5);
    assert_eq!(rt; follower.feed(&rt, front), Ok(0));
    assert_eq!(rt; follower.feed(&rt, back), Ok(1));
    follower.cut();
    assert_eq!(rt; follower.feed(&rt, &BOOT_RECORD), Ok(1));
    let past = record_at(alloc, 2)?;
    let gap = FeedRefusal::Gap {
        at: 29,
        expected: 1,
    };
    assert_eq!(rt; follower.feed(&rt, past.as_slice()), Err(gap));
    assert_eq!(rt; follower.count(), 1);
    Ok(())
}

#[test]
fn records_that_are_there_come_again_in_any_number(rt: HostRuntime) -> Result<(), Fail> {
    let alloc = rt.alloc();
    let feed = three(alloc)?;
    for first in 0..3 {
        for last in first..3 {
            let mut follower = Follower::new(alloc)?;
            assert_eq!(rt; follower.feed(&rt, &feed), Ok(3));
            for place in first..=last {
                let again = record_at(alloc, place)?;
                assert_eq!(rt; follower.feed(&rt, again.as_slice()), Ok(3));
            }
            assert_eq!(rt; follower.feed(&rt, &feed), Ok(3));
        }
    }
    Ok(())
}

// What comes of a feed whose bytes come one by one.
fn by_bytes<R: Threads + Sync>(
    rt: &R,
    alloc: Global,
    feed: &[u8],
) -> Result<Result<u64, FeedRefusal>, Fail> {
    let mut follower = Follower::new(alloc)?;
    let mut came = Ok(0);
    for byte in feed {
        came = follower.feed(rt, &[*byte]);
    }
    Ok(came)
}

// What comes of the bytes behind the three records, at once and one by one; it stays so until a cut, and the records stay taken.
fn refused<R: Abort + Threads + Sync>(
    rt: &R,
    alloc: Global,
    bytes: &[u8],
    why: FeedRefusal,
) -> Result<(), Fail> {
    let mut follower = Follower::new(alloc)?;
    let mut feed = three(alloc)?;
    feed.extend_from_slice(bytes)?;
    assert_eq!(rt; follower.feed(rt, &feed), Err(why));
    assert_eq!(rt; by_bytes(rt, alloc, &feed)?, Err(why));
    assert_eq!(rt; follower.feed(rt, &BOOT_RECORD), Err(why));
    assert_eq!(rt; follower.count(), 3);
    follower.cut();
    assert_eq!(rt; follower.feed(rt, &BOOT_RECORD), Ok(3));
    Ok(())
}

#[test]
fn a_record_that_is_not_taken_is_named_at_its_offset(rt: HostRuntime) -> Result<(), Fail> {
    let alloc = rt.alloc();
    let at = three(alloc)?.len() as u64;
    // A length over 2^30, as soon as its head is there; one of 2^30 might still come.
    refused(
        &rt,
        alloc,
        &[0, 0, 0, 0, 0, 0, 0, 3, 0x40, 0, 0, 1],
        FeedRefusal::Bad { at },
    )?;
    // No entry; an entry and a byte more; one that isn't accepted.
    refused(
        &rt,
        alloc,
        &[0, 0, 0, 0, 0, 0, 0, 3, 0, 0, 0, 1, 9],
        FeedRefusal::Bad { at },
    )?;
    refused(
        &rt,
        alloc,
        record(alloc, 3, NOBODY)?.as_slice(),
        FeedRefusal::Bad { at },
    )?;
    // A place past the next; another entry at a place that is there, and bytes that are none.
    refused(
        &rt,
        alloc,
        record(alloc, 4, GONE)?.as_slice(),
        FeedRefusal::Gap { at, expected: 3 },
    )?;
    refused(
        &rt,
        alloc,
        record(alloc, 0, GONE)?.as_slice(),
        FeedRefusal::Differs { at },
    )?;
    refused(
        &rt,
        alloc,
        &[0, 0, 0, 0, 0, 0, 0, 0, 0, 0, 0, 1, 9],
        FeedRefusal::Bad { at },
    )
}
