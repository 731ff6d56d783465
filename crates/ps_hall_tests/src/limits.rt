// The limits within which a store is opened. A header and a closed gate take 9 bytes, and the frame of a Boot 22.
ghost use Rattle.std.specs.Prelude.{◌≤◌};

use crate::opened::{close, host_names, opens_within, service_name, why_not};
use ps_disk::MemDisk;
use ps_hall_open::OpenWhy;
use ps_hall_state::Limits;
use std::alloc::Global;
use std::process::Abort;
use std::random::RandomSource;
use std::test::Fail;
use std::thread::Threads;

const BEGUN: &[u8] = b"PUBSUBJ2\0";

// The disk of a store with these bytes once it was to be opened within so many, and why that was refused.
fn within<R: RandomSource + Threads + Sync>(
    rt: &R,
    alloc: Global,
    bytes: &[u8],
    whole: u64,
) -> Result<(MemDisk, Option<OpenWhy>), Fail>
    requires { whole ≤ 1000 }
{
    let service = service_name(alloc)?;
    let hosts = host_names(alloc)?;
    let disk = MemDisk::new(alloc, bytes, &[])?;
    let limits = Limits {
        changes: 1000,
        whole,
    };
    match opens_within(rt, alloc, disk, &service, &hosts, limits) {
        Ok(opened) => Ok((close(opened), None)),
        Err(refusal) => {
            let (disk, why) = why_not(rt, alloc, refusal)?;
            Ok((disk, Some(why)))
        }
    }
}

// No Boot fits, and the store keeps what it has.
fn is_full(
    rt: &(impl Abort + RandomSource + Threads + Sync),
    alloc: Global,
    bytes: &[u8],
    whole: u64,
    left: &[u8],
) -> Result<(), Fail>
    requires { whole ≤ 1000 }
{
    let (disk, why) = within(rt, alloc, bytes, whole)?;
    assert_eq!(rt; why, Some(OpenWhy::Full), "{whole}");
    assert_eq!(rt; disk.bytes(), left, "{whole}");
    Ok(())
}

// A Boot fits, and is there: the bytes of the store.
fn has_room(
    rt: &(impl Abort + RandomSource + Threads + Sync),
    alloc: Global,
    bytes: &[u8],
    whole: u64,
) -> Result<Vec<u8>, Fail>
    requires { whole ≤ 1000 }
{
    let (disk, why) = within(rt, alloc, bytes, whole)?;
    assert_eq!(rt; (why, disk.bytes().len() as u64), (None, whole));
    let left = disk.bytes().to_vec(alloc)?;
    Ok(left)
}

#[test]
fn a_store_opens_where_its_boot_fits(rt: HostRuntime) -> Result<(), Fail> {
    let alloc = rt.alloc();
    is_full(&rt, alloc, b"", 0, BEGUN)?;
    is_full(&rt, alloc, b"", 30, BEGUN)?;
    let one = has_room(&rt, alloc, b"", 31)?;
    for whole in [0, 30, 31, 52] {
        is_full(&rt, alloc, &one, whole, &one)?;
    }
    let two = has_room(&rt, alloc, &one, 53)?;
    is_full(&rt, alloc, &two, 74, &two)?;
    let _ = has_room(&rt, alloc, &two, 75)?;
    Ok(())
}
