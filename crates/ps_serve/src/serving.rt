// Streams of a world, served over a store of it.
ghost use Rattle.std.specs.Prelude.{◌≡◌, ◌≤◌, [], List, ℕ, Some, IfOk, length};
ghost use Rattle.std.specs.Vec.{vec_capacity};
ghost use Rattle.ps_io.specs.declared.world.Kind.{Kind};
ghost use Rattle.ps_endpoints.specs.Ports.{FailedToOpen, LeavesOthers as LeavesOtherPorts, port_openings};
ghost use Rattle.ps_args.specs.Well.{IsWellServed};
ghost use Rattle.ps_args.specs.Words.{hosts_of};
ghost use Rattle.ps_commands.specs.declared.command.Command.{Command};
ghost use Rattle.ps_status.specs.Asking.{AsksInOrder};
ghost use Rattle.ps_status.specs.Outside.{outside};
ghost use Rattle.ps_status.specs.Telling.{reported_from};
ghost use Rattle.ps_serve.specs.Runs.{LeavesOthers, RanOver, Runs, openings_of};

use crate::storing::{Run, serve_store};
use ps_args::Stream;
use ps_base::Memory;
use ps_endpoints::{give_back_ports, open_ports};
use ps_io::{Missing, World};
use ps_status::{Status, refused};
use ps_types::Text;
use std::alloc::Global;
use std::random::RandomSource;
use std::sync::Wait;
use std::thread::Threads;

// The hosts of the streams, and room for these.
struct Ready<P> {
    hosts: Vec<Text>,
    back: Vec<P>,
}

fn names_of(alloc: Global, streams: &[Stream]) -> Result<Vec<Text>, Memory>
    ensures { IfOk result (λ hosts. hosts.items ≡ hosts_of streams.now) }
{
    let mut hosts = Vec::new(alloc);
    for stream in streams {
        hosts.push(stream.host.clone()?)?;
    }
    Ok(hosts)
}

fn make_ready<P: Drop>(alloc: Global, streams: &[Stream]) -> Result<Ready<P>, Memory>
    ensures hosts { IfOk result (λ ready. ready.hosts.items ≡ hosts_of streams.now) }
    ensures empty { IfOk result (λ ready. ready.back.items ≡ []) }
    ensures room { IfOk result (λ ready. length streams.now ≤ vec_capacity ready.back) }
{
    Ok(Ready {
        hosts: names_of(alloc, streams)?,
        back: Vec::with_capacity(alloc, streams.len())?,
    })
}

// Opens the streams, serves them over the store on a disk, and gives them back; the disk is handed back.
fn serve_over<R: RandomSource + Wait + Threads + Sync, W: World>(
    rt: &R,
    alloc: Global,
    service: &Text,
    streams: &[Stream],
    disk: W::Store,
    world: &mut W,
) -> (Status, W::Store)
    requires well { (over : List ℕ) × IsWellServed service.now over streams.now }
    requires since { (W.last_opening world.old).1 ≤ W.faults world.old }
    ensures ran { RanOver W.Store.Disk service.now streams.now (outside W.World world.old)
        (outside W.World world.new) disk result.1 result.0 }
    ensures open { result.0 ≡ Status.OpenFault → FailedToOpen W.World world.old world.new }
    ensures asked { AsksInOrder (port_openings streams.now) (W.asked world.old) (W.asked world.new) }
    ensures others { LeavesOtherPorts W.World streams.now world.old world.new }
    ensures stay { (n : List ℕ) → W.is_open world.old Kind.Store n → W.is_open world.new Kind.Store n }
    ensures since { (W.last_opening world.new).1 ≤ W.faults world.new }
{
    let Ok(Ready { hosts, back }) = make_ready(alloc, streams) else {
        return (Status::Memory, disk);
    };
    match open_ports(alloc, streams, world) {
        Err(why) => (refused(why), disk),
        Ok(ports) => {
            let Run {
                status,
                disk,
                ports,
            } = serve_store(rt, alloc, service, &hosts, disk, ports, back);
            give_back_ports(streams, ports, world);
            (status, disk)
        }
    }
}

/// Opens the store and the streams, serves them, and gives all back.
pub(crate) fn serve<R: RandomSource + Wait + Threads + Sync, W: World>(
    rt: &R,
    alloc: Global,
    service: &Text,
    store: &Text,
    streams: &[Stream],
    world: &mut W,
) -> Status
    requires well { IsWellServed service.now store.now streams.now }
    ensures runs { Runs W.Store.tells (outside W.World world.old) (outside W.World world.new)
        (W.lefts world.old) (W.lefts world.new) result
        (record { service = service.now; store = store.now; streams = streams.now }) }
    ensures open { result ≡ Status.OpenFault → FailedToOpen W.World world.old world.new }
    ensures asked { AsksInOrder (openings_of (Some (Command.Serve service.now store.now streams.now)))
        (W.asked world.old) (W.asked world.new) }
    ensures others { LeavesOthers (record { service = service.now; store = store.now; streams = streams.now })
        (outside W.World world.old) (outside W.World world.new) (W.lefts world.old) (W.lefts world.new) }
    ensures reported { W.reported world.new ≡ W.reported world.old }
    ensures since { reported_from result (W.faults world.old) (W.last_opening world.new) ≤ W.faults world.new }
{
    let disk = match world.open_disk(store, Missing::Make) {
        Ok(disk) => disk,
        Err(why) => return refused(why),
    };
    let (status, disk) = serve_over(rt, alloc, service, streams, disk, world);
    world.give_back_disk(store, disk);
    status
}
