// Two streams over a world in memory.
ghost use Rattle.std.specs.Prelude.{◌≡◌, ◌∷◌, [], length, None, IfOk};
ghost use Rattle.ps_io.specs.MemWorld.{sink_at};
ghost use Rattle.ps_endpoints.specs.Ports.{AreApart};

use ps_args::Stream;
use ps_endpoints::{give_back_ports, open_ports};
use ps_io::{Clock, MemWorld, WorldRefusal};
use ps_types::Text;
use ps_wire::{MemSink, MemSource, NextLine, Sink};
use std::alloc::Global;
use std::process::Abort;
use std::test::Fail;

fn stream(alloc: Global, host: &str, source: &str, sink: &str) -> Result<Stream, Fail>
    ensures host { IfOk result (λ s. s.host ≡ host.now) }
    ensures source { IfOk result (λ s. s.source ≡ source.now) }
    ensures sink { IfOk result (λ s. s.sink ≡ sink.now) }
{
    Ok(Stream {
        host: Text::of(alloc, host)?,
        source: Text::of(alloc, source)?,
        sink: Text::of(alloc, sink)?,
    })
}

fn two_streams(alloc: Global) -> Result<(Stream, Stream), Fail>
    ensures { IfOk result (λ two. AreApart (two.0 ∷ two.1 ∷ [])) }
{
    Ok((
        stream(alloc, "a.example", "i1", "o1")?,
        stream(alloc, "b.example", "i2", "o2")?,
    ))
}

// A world with a source for each, a sink for the first, and a clock for the second.
fn world_of(alloc: Global, first: &Stream, second: &Stream) -> Result<MemWorld, Fail>
    requires { AreApart (first.now ∷ second.now ∷ []) }
    ensures { IfOk result (λ w. sink_at w second.now.sink ≡ None) }
{
    let mut world = MemWorld::new(alloc, &[])?;
    world.put_source(&first.source, MemSource::new(alloc, b"one\nmore", &[])?)?;
    world.put_source(&second.source, MemSource::new(alloc, b"two\n", &[])?)?;
    world.put_sink(&first.sink, MemSink::new(alloc, &[])?)?;
    world.put_clock(&second.host, &[7])?;
    Ok(world)
}

fn is_line(next: Option<NextLine>, bytes: &[u8]) -> bool {
    match next {
        Some(NextLine::Line(line)) => line.as_slice() == bytes,
        Some(NextLine::TooLong | NextLine::End) | None => false,
    }
}

#[test]
fn two_streams_are_opened_and_given_back(rt: HostRuntime) -> Result<(), Fail> {
    let alloc = rt.alloc();
    let (first, second) = two_streams(alloc)?;
    let mut world = world_of(alloc, &first, &second)?;
    world.put_sink(&second.sink, MemSink::new(alloc, &[])?)?;
    serves(&rt, alloc, &[first, second], &mut world)
}

// Takes a line of each stream, writes to the second and asks its clock.
fn serves(
    rt: &impl Abort,
    alloc: Global,
    streams: &[Stream],
    world: &mut MemWorld,
) -> Result<(), Fail>
    requires apart { AreApart streams.now }
    requires two { length streams.now ≡ 2 }
{
    let mut ports = open_ports(alloc, streams, world).ok().ok_or("refused")?;
    assert!(rt; world.source(&streams[0].source).is_none());
    assert!(rt; is_line(ports[0].lines.next(alloc).ok(), b"one"));
    assert!(rt; is_line(ports[1].lines.next(alloc).ok(), b"two"));
    assert_eq!(rt; ports[1].sink.write(b"done").ok(), Some(4));
    assert_eq!(rt; ports[1].clock.now().ok(), Some(7));
    give_back_ports(streams, ports, world);
    assert!(rt; world.source(&streams[0].source).is_some());
    assert!(rt; world.source(&streams[1].source).is_some());
    assert_eq!(rt;
        world.sink(&streams[0].sink).map(|sink| sink.bytes().len()),
        Some(0)
    );
    assert_eq!(rt;
        world.sink(&streams[1].sink).map(|sink| sink.bytes().len()),
        Some(4)
    );
    Ok(())
}

#[test]
fn where_a_sink_is_missing_all_is_given_back(rt: HostRuntime) -> Result<(), Fail> {
    let alloc = rt.alloc();
    let (first, second) = two_streams(alloc)?;
    let mut world = world_of(alloc, &first, &second)?;
    let streams = [first, second];
    assert!(&rt;
        matches!(
            open_ports(alloc, &streams, &mut world),
            Err(WorldRefusal::Failed)
        )
    );
    assert!(&rt; world.source(&streams[0].source).is_some());
    assert!(&rt; world.source(&streams[1].source).is_some());
    assert!(&rt; world.sink(&streams[0].sink).is_some());
    Ok(())
}
