// Entries and records of the tests.
use ps_follow::put_record;
use ps_record::read_entry;
use ps_wire::Bytes;
use std::alloc::Global;
use std::test::Fail;

/// A boot of `pubsub.example`, as an entry's bytes.
pub const BOOT: &[u8] = b"\x00\x00\x0epubsub.example";

/// That the callers of `a.example` are gone.
pub const GONE: &[u8] = b"\x03\x00\x09a.example";

/// That a notice was handed to an address that has none.
pub const NOBODY: &[u8] = b"\x02\x00\x0bx@a.example";

/// The record of the entry of these bytes at a place; nothing where they are no entry.
pub fn record(alloc: Global, place: u64, bytes: &[u8]) -> Result<Bytes, Fail> {
    match read_entry(alloc, bytes, 0) {
        Ok((entry, next)) if next < 1 << 32 => Ok(put_record(alloc, place, &entry)?),
        _ => Ok(Bytes::from_vec(Vec::new(alloc))),
    }
}
