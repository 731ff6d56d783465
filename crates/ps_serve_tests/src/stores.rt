// Disks that crash in a run.
use crate::lines::{AGAIN, CONFLICT, CREATE, MADE};
use crate::worlds::{
    ALONE, FIRST, Side, code_of, put_side, reading, report, stored, world_over, written,
};
use ps_disk::{MemDisk, Torn};
use ps_io::MemWorld;
use std::alloc::Global;
use std::process::Abort;
use std::random::RandomSource;
use std::sync::Wait;
use std::test::Fail;
use std::thread::Threads;

// The world of a stream alone, over a disk, after its run; and how that ended.
fn alone(
    rt: &(impl RandomSource + Wait + Threads + Sync),
    alloc: Global,
    disk: MemDisk,
    side: Side<'_>,
) -> Result<(MemWorld, String), Fail> {
    let mut world = world_over(alloc, disk, &[])?;
    put_side(alloc, &mut world, side)?;
    let code = code_of(rt, alloc, ALONE, &mut world)?;
    let ended = report(alloc, &world, code)?;
    Ok((world, ended))
}

// Whether the node is there when a disk is opened again: to make it is a conflict then.
fn has_node(
    rt: &(impl Abort + RandomSource + Wait + Threads + Sync),
    alloc: Global,
    disk: MemDisk,
) -> Result<bool, Fail> {
    let (world, ended) = alone(rt, alloc, disk, reading(FIRST, AGAIN))?;
    assert_eq!(rt; ended.as_str(), "0");
    Ok(written(alloc, &world, "o1")? == CONFLICT)
}

// How many calls a run takes that makes the node: thirteen of them open the store, and the frames of the node and of the Gone take four each.
const CALLS: u64 = 21;

// Before the third call of a frame nothing of it is there, before its fourth it may be there, and from then on it is.
#[test]
fn a_crash_leaves_what_was_answered(rt: HostRuntime) -> Result<(), Fail> {
    let alloc = rt.alloc();
    let disk = MemDisk::new(alloc, b"", &[])?;
    let (world, ended) = alone(&rt, alloc, disk, reading(FIRST, CREATE))?;
    assert_eq!(rt; ended.as_str(), "0");
    assert_eq!(rt; written(alloc, &world, "o1")?, MADE);
    let disk = stored(alloc, &world)?;
    assert_eq!(rt; disk.calls(), CALLS);
    let made = CALLS - 4;
    for torn in [Torn::Lost, Torn::Whole, Torn::Filled(0), Torn::Filled(1)] {
        for calls in 0..disk.calls() {
            let left = disk.crashed(alloc, calls, torn)?;
            let there = has_node(&rt, alloc, left)?;
            assert!(rt; calls + 1 == made || there == (made <= calls), "{calls}");
        }
    }
    Ok(())
}
