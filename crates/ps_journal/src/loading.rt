// Bytes of a disk.
ghost use Rattle.std.specs.Prelude.{◌≡◌, ◌≤◌, length, take, drop, IfOk, OnOk, OnErr, IsErr, IsErrOf};
ghost use Rattle.ps_base.specs.Causes.{Rose};
ghost use Rattle.ps_journal.specs.Pieces.{OnlyReads};

use ps_base::{Failed, Memory};
use ps_disk::Disk;
use std::alloc::Global;

/// Why the bytes were not read.
#[derive(Clone, Copy)]
pub enum LoadRefusal {
    Store,
    Memory,
}

fn zeros(alloc: Global, count: u64) -> Result<Vec<u8>, Memory>
    ensures { IfOk result (λ v. length v.items ≡ count) }
{
    let mut room = Vec::new(alloc);
    room.resize(count as usize, 0)?;
    Ok(room)
}

// Reads from the offset on, and leaves of the room what was read.
fn fill<D: Disk>(disk: &mut D, at: u64, room: &mut Vec<u8>) -> Result<(), Failed>
    ensures bytes { D.tells → OnOk result
        (room.new.items ≡ take (length room.old.items) (drop at (D.seen disk.old))) }
    ensures size { OnOk result (length room.new.items ≤ length room.old.items) }
    ensures reads { OnlyReads D.tells D.seen D.synced D.written D.moment D.left_since D.faults disk.old disk.new }
    ensures failed { OnErr result (Rose (D.faults disk.old) (D.faults disk.new)) }
{
    match disk.read_at(at, room) {
        Ok(count) => {
            room.truncate(count);
            Ok(())
        }
        Err(Failed) => Err(Failed),
    }
}

/// So many bytes from the offset on, or all up to the end.
pub(crate) fn fetch<D: Disk>(
    alloc: Global,
    disk: &mut D,
    at: u64,
    count: u64,
) -> Result<Vec<u8>, LoadRefusal>
    ensures bytes { D.tells → IfOk result (λ v. v.items ≡ take count (drop at (D.seen disk.old))) }
    ensures size { IfOk result (λ v. length v.items ≤ count) }
    ensures reads { OnlyReads D.tells D.seen D.synced D.written D.moment D.left_since D.faults disk.old disk.new }
    ensures failed { IsErrOf result LoadRefusal.Store → Rose (D.faults disk.old) (D.faults disk.new) }
{
    let mut room = match zeros(alloc, count) {
        Ok(room) => room,
        Err(Memory) => return Err(LoadRefusal::Memory),
    };
    match fill(disk, at, &mut room) {
        Ok(()) => Ok(room),
        Err(Failed) => Err(LoadRefusal::Store),
    }
}

/// How many bytes there are.
pub(crate) fn size<D: Disk>(disk: &mut D) -> Result<u64, Failed>
    ensures total { D.tells → IfOk result (λ n. n ≡ length (D.seen disk.old)) }
    ensures reads { OnlyReads D.tells D.seen D.synced D.written D.moment D.left_since D.faults disk.old disk.new }
    ensures failed { IsErr result → Rose (D.faults disk.old) (D.faults disk.new) }
{
    match disk.len() {
        Ok(count) => Ok(count),
        Err(Failed) => Err(Failed),
    }
}

/// All the bytes.
pub(crate) fn load<D: Disk>(alloc: Global, disk: &mut D) -> Result<Vec<u8>, LoadRefusal>
    ensures bytes { D.tells → IfOk result (λ v. v.items ≡ D.seen disk.old) }
    ensures reads { OnlyReads D.tells D.seen D.synced D.written D.moment D.left_since D.faults disk.old disk.new }
    ensures failed { IsErrOf result LoadRefusal.Store → Rose (D.faults disk.old) (D.faults disk.new) }
{
    match size(disk) {
        Err(Failed) => Err(LoadRefusal::Store),
        Ok(count) => match fetch(alloc, disk, 0, count) {
            Ok(bytes) => Ok(bytes),
            Err(refusal) => Err(refusal),
        },
    }
}
