// The streams of a command, opened and given back.
ghost use Rattle.std.specs.Prelude.{◌≡◌, ◌≤◌, ◌+◌, ◌++◌, List, ℕ, IfOk, OnOk, OnErr, IsErrOf, length};
ghost use Rattle.std.specs.Vec.{vec_len, vec_capacity};
ghost use Rattle.std.specs.Vec.Iter.{into_iter_items};
ghost use Rattle.ps_io.specs.declared.world.Kind.{Kind};
ghost use Rattle.ps_endpoints.specs.Ports.{AddsOpened, AllBack, AreApart, AreHeld, AreOpen, AreOpened, AsksAll, AsksInOrder, FailedToOpen, LeavesOthers, OpensNothing, port_openings};

use crate::port::{PortOf, give_back_port, open_port};
use ps_args::Stream;
use ps_io::{World, WorldRefusal};
use std::alloc::Global;
use std::vec::IntoIter;

// Opens each stream, and puts its port at the end of those that stand there.
fn open_each<W: World>(
    alloc: Global,
    streams: &[Stream],
    ports: &mut Vec<PortOf<W>>,
    world: &mut W,
) -> Result<(), WorldRefusal>
    requires apart { AreApart streams.now }
    requires room { vec_len ports.old + length streams.now ≤ vec_capacity ports.old }
    ensures opened { OnOk result (AddsOpened W.World W.Writing.Sink W.Ticking.Clock world.old streams.now
        ports.old.items ports.new.items) }
    ensures same { OnErr result (ports.new.items ≡ ports.old.items) }
    ensures open { OnOk result (AreOpen W.World world.new streams.now) }
    ensures refused { OnErr result (AllBack W.World world.old world.new) }
    ensures others { LeavesOthers W.World streams.now world.old world.new }
    ensures asked { AsksInOrder W.World (port_openings streams.now) world.old world.new }
    ensures all { OnOk result (AsksAll W.World (port_openings streams.now) world.old world.new) }
    ensures failed { IsErrOf result WorldRefusal.Failed → FailedToOpen W.World world.old world.new }
{
    let Some((stream, others)) = streams.split_first() else {
        return Ok(());
    };
    let port = open_port(alloc, stream, world)?;
    ports.push_reserved(port);
    match open_each(alloc, others, ports, world) {
        Ok(()) => Ok(()),
        Err(why) => {
            give_back_port(stream, ports.pop().unwrap(), world);
            Err(why)
        }
    }
}

/// Opens the source, the sink and the clock of each stream, in this order, and begins to read lines of each source. Where
/// one is refused, all that were opened are given back. `Failed`: the world's count of faults rose in an opening.
pub fn open_ports<W: World>(
    alloc: Global,
    streams: &[Stream],
    world: &mut W,
) -> Result<Vec<PortOf<W>>, WorldRefusal>
    requires { AreApart streams.now }
    ensures opened { IfOk result (λ ports.
        AreOpened W.World W.Writing.Sink W.Ticking.Clock world.old streams.now ports.items) }
    ensures many { IfOk result (λ ports. length ports.items ≡ length streams.now) }
    ensures open { OnOk result (AreOpen W.World world.new streams.now) }
    ensures refused { OnErr result (AllBack W.World world.old world.new) }
    ensures others { LeavesOthers W.World streams.now world.old world.new }
    ensures stay { (n : List ℕ) → W.is_open world.old Kind.Store n → W.is_open world.new Kind.Store n }
    ensures asked { AsksInOrder W.World (port_openings streams.now) world.old world.new }
    ensures all { OnOk result (AsksAll W.World (port_openings streams.now) world.old world.new) }
    ensures failed { IsErrOf result WorldRefusal.Failed → FailedToOpen W.World world.old world.new }
{
    let Ok(mut ports) = Vec::with_capacity(alloc, streams.len()) else {
        return Err(WorldRefusal::Memory);
    };
    open_each(alloc, streams, &mut ports, world)?;
    Ok(ports)
}

// Gives back the port of each stream.
fn give_back_each<W: World>(
    streams: &[Stream],
    ports: &mut IntoIter<PortOf<W>, Global>,
    world: &mut W,
)
    requires apart { AreApart streams.now }
    requires many { length (into_iter_items ports.old) ≡ length streams.now }
    requires open { AreOpen W.World world.old streams.now }
    ensures held { AreHeld W.World W.Writing.Sink W.Ticking.Clock world.new streams.now (into_iter_items ports.old) }
    ensures others { LeavesOthers W.World streams.now world.old world.new }
    ensures nothing { OpensNothing W.World world.old world.new }
{
    let Some((stream, others)) = streams.split_first() else {
        return;
    };
    give_back_port(stream, ports.next().unwrap(), world);
    give_back_each(others, ports, world);
}

/// Gives back all that was opened. It takes no memory.
pub fn give_back_ports<W: World>(streams: &[Stream], ports: Vec<PortOf<W>>, world: &mut W)
    requires apart { AreApart streams.now }
    requires many { length ports.items ≡ length streams.now }
    requires open { AreOpen W.World world.old streams.now }
    ensures held { AreHeld W.World W.Writing.Sink W.Ticking.Clock world.new streams.now ports.items }
    ensures others { LeavesOthers W.World streams.now world.old world.new }
    ensures stay { (n : List ℕ) → W.is_open world.old Kind.Store n → W.is_open world.new Kind.Store n }
    ensures nothing { OpensNothing W.World world.old world.new }
{
    let mut ports = ports.into_iter();
    give_back_each(streams, &mut ports, world);
}
