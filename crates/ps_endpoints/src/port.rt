// A stream that is open.
ghost use Rattle.std.specs.Prelude.{◌≡◌, ◌∷◌, [], ℕ, List, IfOk, OnOk, OnErr, IsErrOf};
ghost use Rattle.ps_io.specs.Held.{IsHeld, Same};
ghost use Rattle.ps_io.specs.declared.world.Kind.{Kind};
ghost use Rattle.ps_wire.specs.Reading.{IsFresh, source_of};
ghost use Rattle.ps_endpoints.specs.Ports.{AllBack, AsksAll, AsksInOrder, FailedToOpen, IsOpenPort, IsPortHeld, IsPortOpened, LeavesOthers, OpensNothing, port_openings, source_openings};

use ps_args::Stream;
use ps_io::{World, WorldRefusal};
use ps_wire::{Lines, LinesRefusal};
use std::alloc::Global;

/// A stream that is open: the lines of its source, the clock of its host, and its sink.
#[derive(Drop)]
pub struct Port<L, C, K> {
    pub lines: L,
    pub clock: C,
    pub sink: K,
}

/// The port of a stream of a world.
pub type PortOf<W> = Port<
    Lines<<W as World>::Reading>,
    <W as World>::Ticking,
    <W as World>::Writing,
>;

// Opens the stream's source and begins to read its lines. Where it is refused the source is given back.
fn open_lines<W: World>(
    alloc: Global,
    stream: &Stream,
    world: &mut W,
) -> Result<Lines<W::Reading>, WorldRefusal>
    ensures opened { IfOk result (λ lines. IsFresh lines) }
    ensures held { IfOk result (λ lines. IsHeld (W.sources world.old stream.now.source)
        (W.Reading.faults (source_of lines)) (W.Reading.left (source_of lines))) }
    ensures open { OnOk result (W.is_open world.new Kind.Source stream.now.source) }
    ensures refused { OnErr result (Same (W.sources world.old) (W.sources world.new)) }
    ensures sinks { Same (W.sinks world.old) (W.sinks world.new) }
    ensures clocks { Same (W.clocks world.old) (W.clocks world.new) }
    ensures others { LeavesOthers W.World (stream.now ∷ []) world.old world.new }
    ensures asked { AsksInOrder W.World (source_openings stream.now) world.old world.new }
    ensures all { OnOk result (AsksAll W.World (source_openings stream.now) world.old world.new) }
    ensures failed { IsErrOf result WorldRefusal.Failed → FailedToOpen W.World world.old world.new }
{
    let source = world.open_source(&stream.source)?;
    match Lines::new(alloc, source) {
        Ok(lines) => Ok(lines),
        Err(LinesRefusal { source }) => {
            world.give_back(&stream.source, source);
            Err(WorldRefusal::Memory)
        }
    }
}

/// Opens the stream's source, its sink and the clock of its host, and begins to read its lines. Where one is refused, all
/// that were opened are given back.
pub(crate) fn open_port<W: World>(
    alloc: Global,
    stream: &Stream,
    world: &mut W,
) -> Result<PortOf<W>, WorldRefusal>
    ensures opened { IfOk result (λ port.
        IsPortOpened W.World W.Writing.Sink W.Ticking.Clock world.old stream.now port) }
    ensures open { OnOk result (IsOpenPort W.World world.new stream.now) }
    ensures refused { OnErr result (AllBack W.World world.old world.new) }
    ensures others { LeavesOthers W.World (stream.now ∷ []) world.old world.new }
    ensures asked { AsksInOrder W.World (port_openings (stream.now ∷ [])) world.old world.new }
    ensures all { OnOk result (AsksAll W.World (port_openings (stream.now ∷ [])) world.old world.new) }
    ensures failed { IsErrOf result WorldRefusal.Failed → FailedToOpen W.World world.old world.new }
{
    let lines = open_lines(alloc, stream, world)?;
    let sink = match world.open_sink(&stream.sink) {
        Ok(sink) => sink,
        Err(why) => {
            world.give_back(&stream.source, lines.close());
            return Err(why);
        }
    };
    match world.open_clock(&stream.host) {
        Ok(clock) => Ok(Port { lines, clock, sink }),
        Err(why) => {
            world.give_back_sink(&stream.sink, sink);
            world.give_back(&stream.source, lines.close());
            Err(why)
        }
    }
}

/// Gives back the source, the sink and the clock of the stream.
pub(crate) fn give_back_port<W: World>(stream: &Stream, port: PortOf<W>, world: &mut W)
    requires { IsOpenPort W.World world.old stream.now }
    ensures held { IsPortHeld W.World W.Writing.Sink W.Ticking.Clock world.new stream.now port }
    ensures others { LeavesOthers W.World (stream.now ∷ []) world.old world.new }
    ensures nothing { OpensNothing W.World world.old world.new }
{
    let Port { lines, clock, sink } = port;
    world.give_back_clock(&stream.host, clock);
    world.give_back_sink(&stream.sink, sink);
    world.give_back(&stream.source, lines.close());
}
