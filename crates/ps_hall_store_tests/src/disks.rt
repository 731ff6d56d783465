// A disk in memory beside the model's words. The one that is a file is under each run of the program.
use ps_base::{Failed, Memory};
use ps_disk::{Disk, MemDisk, Torn, write_kept};
use std::alloc::Global;
use std::process::Abort;
use std::test::Fail;

// Whether a call went well, unless memory was refused to the disk.
fn is_ok(disk: &MemDisk, came: Result<(), Failed>) -> Result<bool, Memory> {
    if disk.refused() > 0 {
        return Err(Memory);
    }
    Ok(came.is_ok())
}

// Writes where the offset isn't past the end.
fn write(rt: &impl Abort, disk: &mut MemDisk, at: u64, piece: &[u8]) -> Result<bool, Memory> {
    assert!(rt; at <= disk.bytes().len() as u64);
    let came = disk.write_at(at, piece);
    is_ok(disk, came)
}

fn sync(disk: &mut MemDisk) -> Result<bool, Memory> {
    let came = disk.sync();
    is_ok(disk, came)
}

// Whether a crash after so many calls leaves these bytes.
fn leaves(
    rt: &impl Abort,
    alloc: Global,
    disk: &MemDisk,
    calls: u64,
    torn: Torn,
    bytes: &[u8],
) -> Result<bool, Memory> {
    assert!(rt; calls <= disk.calls());
    let left = disk.crashed(alloc, calls, torn)?;
    Ok(left.bytes() == bytes)
}

// Each write is lost, or whole, or filled.
fn tears(rt: &impl Abort, alloc: Global, disk: &mut MemDisk) -> Result<(), Memory> {
    assert!(rt; write(rt, disk, 1, b"xyz")?);
    assert!(rt; sync(disk)?);
    assert!(rt; write(rt, disk, 0, b"Q")?);
    assert_eq!(rt; disk.len().ok(), Some(4));
    assert!(rt; !write(rt, disk, 4, b"no")?);
    let rows = [
        (0, b"abc".as_slice(), b"abc".as_slice(), b"abc".as_slice()),
        (1, b"abc", b"axyz", b"a---"),
        (2, b"axyz", b"axyz", b"axyz"),
        (4, b"axyz", b"Qxyz", b"-xyz"),
        (5, b"axyz", b"Qxyz", b"-xyz--"),
    ];
    for (calls, lost, whole, filled) in rows {
        assert!(rt; leaves(rt, alloc, disk, calls, Torn::Lost, lost)?);
        assert!(rt; leaves(rt, alloc, disk, calls, Torn::Whole, whole)?);
        assert!(rt; leaves(rt, alloc, disk, calls, Torn::Filled(b'-'), filled)?);
    }
    Ok(())
}

// It fails at its numbers, and counts.
fn fails(rt: &impl Abort, disk: &mut MemDisk) -> Result<(), Memory> {
    let mut room = [0; 3];
    assert!(rt; disk.len().is_err());
    assert_eq!(rt; disk.len().ok(), Some(4));
    assert!(rt; disk.read_at(0, &mut room).is_err());
    assert_eq!(rt; disk.read_at(2, &mut room).ok(), Some(2));
    assert_eq!(rt; room, *b"cd\0");
    assert!(rt; !sync(disk)?);
    assert!(rt; sync(disk)?);
    let first = write_kept(disk, 0, b"A");
    assert!(rt; !is_ok(disk, first)?);
    let second = write_kept(disk, 0, b"A");
    assert!(rt; is_ok(disk, second)?);
    assert_eq!(rt; disk.bytes(), b"Abcd".as_slice());
    assert_eq!(rt;
        (disk.calls(), disk.fault_count(), disk.refused()),
        (9, 4, 0)
    );
    Ok(())
}

#[test]
fn a_disk_tears_what_it_kept_not_and_fails_when_told(rt: HostRuntime) -> Result<(), Fail> {
    let mut torn = MemDisk::new(rt.alloc(), b"abc", &[5])?;
    tears(&rt, rt.alloc(), &mut torn)?;
    let mut failing = MemDisk::new(rt.alloc(), b"abcd", &[1, 3, 5, 7])?;
    fails(&rt, &mut failing)?;
    Ok(())
}
