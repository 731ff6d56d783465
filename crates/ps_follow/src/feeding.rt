// The records of a piece are taken, one after the other.
ghost use Rattle.std.specs.Prelude.{◌≡◌, ◌<◌, ◌≤◌, List, length, drop, IfOk, IfErr};
ghost use Rattle.ps_types.specs.declared.entry.Entry.{Entry};
ghost use Rattle.ps_follow.specs.Feeding.{Stopped, TookOne, Went};
ghost use Rattle.ps_follow.specs.Following.{HasEntries, Stands};
ghost use Rattle.ps_follow.specs.Next.{IsRecord, sent};

use crate::records::{FeedFront, next_record};
use crate::taking::{Took, take_record};
use ps_base::{Bytes, Memory};
use ps_core::Service;
use ps_types::Entry;
use std::alloc::Global;
use std::thread::Threads;

/// Why no more records are taken.
#[derive(Clone, Copy)]
pub(crate) enum End {
    /// No whole record is left.
    Part,
    /// The next one is too long, holds no entry, or one that isn't accepted.
    Bad,
    /// The place of the next one is past the count.
    Gap,
    /// Another entry stands at the place of the next one.
    Differs,
    Memory,
}

// Takes a record that is read.
fn take_read<R: Threads + Sync>(
    rt: &R,
    alloc: Global,
    service: &mut Service,
    log: &mut Vec<Bytes>,
    bytes: &[u8],
    place: u64,
    entry: &Entry,
    size: usize,
) -> Result<usize, End>
    requires stands { HasEntries service.old.state log.old.items }
    requires record { IsRecord bytes.now (sent place entry.now) size }
    ensures one { (E : List Entry) → Stands service.old.state log.old.items E
        → IfOk result (TookOne E bytes.now service.new.state log.new.items) }
    ensures stopped { (E : List Entry) → Stands service.old.state log.old.items E
        → IfErr result (Stopped E bytes.now service.new.state log.new.items) }
{
    match take_record(rt, alloc, service, log, place, entry, &bytes[12..size]) {
        Err(Memory) => Err(End::Memory),
        Ok(Took::Taken) => Ok(size),
        Ok(Took::Bad) => Err(End::Bad),
        Ok(Took::Gap) => Err(End::Gap),
        Ok(Took::Differs) => Err(End::Differs),
    }
}

// Takes the record at the front of the bytes, and answers how long it is.
fn take_next<R: Threads + Sync>(
    rt: &R,
    alloc: Global,
    service: &mut Service,
    log: &mut Vec<Bytes>,
    bytes: &[u8],
) -> Result<usize, End>
    requires stands { HasEntries service.old.state log.old.items }
    ensures one { (E : List Entry) → Stands service.old.state log.old.items E
        → IfOk result (TookOne E bytes.now service.new.state log.new.items) }
    ensures stopped { (E : List Entry) → Stands service.old.state log.old.items E
        → IfErr result (Stopped E bytes.now service.new.state log.new.items) }
{
    match next_record(alloc, bytes) {
        Err(Memory) => Err(End::Memory),
        Ok(FeedFront::Part) => Err(End::Part),
        Ok(FeedFront::Long) => Err(End::Bad),
        Ok(FeedFront::NoEntry) => Err(End::Bad),
        Ok(FeedFront::Record { place, entry, size }) => {
            take_read(rt, alloc, service, log, bytes, place, &entry, size)
        }
    }
}

/// Takes the whole records of the bytes, up to the first that isn't taken, and answers where that is.
pub(crate) fn take_all<R: Threads + Sync>(
    rt: &R,
    alloc: Global,
    service: &mut Service,
    log: &mut Vec<Bytes>,
    bytes: &[u8],
) -> (usize, End)
    requires stands { HasEntries service.old.state log.old.items }
    ensures went { (E : List Entry) → Stands service.old.state log.old.items E
        → Went E bytes.now service.new.state log.new.items result.0 result.1 }
    ensures within { result.0 ≤ length bytes.now }
{
    let mut from = 0;
    while from < bytes.len() {
        match take_next(rt, alloc, service, log, &bytes[from..]) {
            Ok(size) => from += size,
            Err(why) => return (from, why),
        }
    }
    (from, End::Part)
}
