// The two streams, in memory.
ghost use Rattle.std.specs.Prelude.{◌≡◌, IfOk};
ghost use Rattle.ps_wire.specs.Reading.{IsFresh, source_of};
ghost use Rattle.ps_rehearse.specs.Entries.{the_hosts};
ghost use Rattle.ps_rehearse.specs.Streams.{ArePorts, IsPort};

use crate::clock::StillClock;
use ps_base::Memory;
use ps_endpoints::Port;
use ps_rehearse_lines::Dealt;
use ps_types::Text;
use ps_wire::{Lines, LinesRefusal, MemSink, MemSource};
use std::alloc::Global;

/// The hosts of the two streams.
pub(crate) const FIRST: &str = "a.example";

pub(crate) const SECOND: &str = "b.example";

/// A stream in memory.
pub(crate) type MemPort = Port<Lines<MemSource>, StillClock, MemSink>;

/// The names of the hosts, in order.
pub(crate) fn hosts(alloc: Global) -> Result<Vec<Text>, Memory>
    ensures { IfOk result (λ hosts. hosts.items ≡ the_hosts) }
{
    let mut hosts = Vec::new(alloc);
    hosts.push(Text::of(alloc, FIRST)?)?;
    hosts.push(Text::of(alloc, SECOND)?)?;
    Ok(hosts)
}

fn lines_of(alloc: Global, bytes: &[u8]) -> Result<Lines<MemSource>, Memory>
    ensures fresh { IfOk result (λ lines. IsFresh lines) }
    ensures source { IfOk result (λ lines. (source_of lines).left ≡ bytes.now) }
{
    match Lines::new(alloc, MemSource::new(alloc, bytes, &[])?) {
        Ok(lines) => Ok(lines),
        Err(LinesRefusal { source: _ }) => Err(Memory),
    }
}

// A stream that reads these bytes.
fn port(alloc: Global, bytes: &[u8]) -> Result<MemPort, Memory>
    ensures { IfOk result (IsPort bytes.now) }
{
    Ok(Port {
        lines: lines_of(alloc, bytes)?,
        clock: StillClock { asked: 0 },
        sink: MemSink::new(alloc, &[])?,
    })
}

/// The streams of the two hosts, in order.
pub(crate) fn ports(alloc: Global, dealt: &Dealt) -> Result<Vec<MemPort>, Memory>
    ensures { IfOk result (λ ports. ArePorts dealt.now.first.items dealt.now.second.items ports.items) }
{
    let first = port(alloc, &dealt.first)?;
    let second = port(alloc, &dealt.second)?;
    let mut ports = Vec::new(alloc);
    ports.push(first)?;
    ports.push(second)?;
    Ok(ports)
}
