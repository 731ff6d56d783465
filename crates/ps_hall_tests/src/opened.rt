// A store in memory is opened.
ghost use Rattle.std.specs.Prelude.{◌≡◌, ◌≤◌, ◌^◌, codes, IfOk};
ghost use Rattle.ps_journal.specs.Places.{entries_in};
ghost use Rattle.ps_hall.specs.Start.{MayStart};
ghost use Rattle.ps_hall_tests.specs.Begun.{are_one, origin_of};

use ps_disk::{MemDisk, Torn};
use ps_hall_open::{OpenRefusal, OpenWhy, Opened, open};
use ps_hall_state::Limits;
use ps_types::{Memory, Text};
use std::alloc::Global;
use std::random::RandomSource;
use std::test::Fail;
use std::thread::Threads;

/// The service's name.
pub fn service_name(alloc: Global) -> Result<Text, Fail>
    ensures { IfOk result (λ t. t ≡ codes "pubsub.example") }
{
    Ok(Text::of(alloc, "pubsub.example")?)
}

fn host_name(alloc: Global) -> Result<Text, Fail>
    ensures { IfOk result (λ t. t ≡ codes "a.example") }
{
    Ok(Text::of(alloc, "a.example")?)
}

/// The one host that is served.
pub fn host_names(alloc: Global) -> Result<Vec<Text>, Fail>
    ensures { IfOk result (λ hosts. hosts.items ≡ are_one) }
{
    let host = host_name(alloc)?;
    let mut hosts = Vec::new(alloc);
    hosts.push(host)?;
    Ok(hosts)
}

/// Limits that no test comes to.
pub fn ample() -> Limits
    ensures { (result.changes ≤ 2 ^ 30) × (result.whole ≤ 2 ^ 30) }
{
    Limits {
        changes: 10_000,
        whole: 10_000,
    }
}

/// A disk is opened within these limits, or not.
pub fn opens_within<R: RandomSource + Threads + Sync>(
    rt: &R,
    alloc: Global,
    disk: MemDisk,
    service: &Text,
    hosts: &[Text],
    limits: Limits,
) -> Result<Opened<MemDisk>, OpenRefusal<MemDisk>>
    requires service { service.now ≡ codes "pubsub.example" }
    requires hosts { hosts.now ≡ are_one }
    requires bounded { (limits.changes ≤ 2 ^ 30) × (limits.whole ≤ 2 ^ 30) }
    ensures { IfOk result (λ r. MayStart
        (origin_of disk hosts.now service.now (entries_in r.entries.items) r.state r.store) r.state r.store hosts.now) }
{
    match open(rt, alloc, disk, service, hosts, limits) {
        Ok(opened) => Ok(opened),
        Err(refusal) => Err(refusal),
    }
}

/// What was opened is let go, and its disk comes back.
pub fn close(opened: Opened<MemDisk>) -> MemDisk {
    let Opened {
        state: _,
        store,
        entries: _,
    } = opened;
    store.close()
}

// Memory was refused to the opening, or to the disk, which fails then.
fn is_short(disk: &MemDisk, why: OpenWhy) -> bool {
    why == OpenWhy::Memory || (why == OpenWhy::Store && disk.refused() > 0)
}

// After this crash the disk is opened.
fn opens_after<R: RandomSource + Threads + Sync>(
    rt: &R,
    alloc: Global,
    disk: &MemDisk,
    torn: Torn,
) -> Result<(), Fail> {
    let service = service_name(alloc)?;
    let hosts = host_names(alloc)?;
    let left = disk.crashed(alloc, disk.calls(), torn)?;
    match opens_within(rt, alloc, left, &service, &hosts, ample()) {
        Ok(opened) => {
            let _ = close(opened);
            Ok(())
        }
        Err(OpenRefusal { disk: _, why: _ }) => Err(Fail::new("not opened after a crash")),
    }
}

/// After any crash the disk is opened.
pub fn opens_again<R: RandomSource + Threads + Sync>(
    rt: &R,
    alloc: Global,
    disk: &MemDisk,
) -> Result<(), Fail> {
    for torn in [Torn::Lost, Torn::Whole, Torn::Filled(1)] {
        opens_after(rt, alloc, disk, torn)?;
    }
    Ok(())
}

/// Why a disk wasn't opened, and the disk. If memory was refused, the failure is that, and the disk is opened after any crash.
pub fn why_not<R: RandomSource + Threads + Sync>(
    rt: &R,
    alloc: Global,
    refusal: OpenRefusal<MemDisk>,
) -> Result<(MemDisk, OpenWhy), Fail> {
    let OpenRefusal { disk, why } = refusal;
    if is_short(&disk, why) {
        opens_again(rt, alloc, &disk)?;
        return Err(Fail::from(Memory));
    }
    Ok((disk, why))
}

/// A disk is opened.
pub fn opens<R: RandomSource + Threads + Sync>(
    rt: &R,
    alloc: Global,
    disk: MemDisk,
    service: &Text,
    hosts: &[Text],
    limits: Limits,
) -> Result<Opened<MemDisk>, Fail>
    requires service { service.now ≡ codes "pubsub.example" }
    requires hosts { hosts.now ≡ are_one }
    requires bounded { (limits.changes ≤ 2 ^ 30) × (limits.whole ≤ 2 ^ 30) }
    ensures { IfOk result (λ r. MayStart
        (origin_of disk hosts.now service.now (entries_in r.entries.items) r.state r.store) r.state r.store hosts.now) }
{
    match opens_within(rt, alloc, disk, service, hosts, limits) {
        Ok(opened) => Ok(opened),
        Err(refusal) => {
            let _ = why_not(rt, alloc, refusal)?;
            Err(Fail::new("not opened"))
        }
    }
}
