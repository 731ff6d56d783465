// Worlds in memory, runs of words over them, and what these leave.
ghost use Rattle.std.specs.Prelude.{IfOk, OnOk};
ghost use Rattle.ps_serve_tests.specs.Fresh.{NoneOpen};

use ps_disk::MemDisk;
use ps_io::MemWorld;
use ps_serve::run;
use ps_types::Text;
use ps_wire::{MemSink, MemSource};
use std::alloc::Global;
use std::random::RandomSource;
use std::sync::Wait;
use std::test::Fail;
use std::thread::Threads;

/// The words of two streams.
pub const SERVE: &str = "serve --service pubsub.example --store s a.example i1 o1 b.example i2 o2";

/// The words of the first of them alone.
pub const ALONE: &str = "serve --service pubsub.example --store s a.example i1 o1";

/// A stream of a world: its host, the names of its ends, what it reads, what its clock answers, and the calls of its source and of its sink
/// that fail.
#[derive(Clone, Copy)]
pub struct Side<'a> {
    pub host: &'a str,
    pub source: &'a str,
    pub sink: &'a str,
    pub input: &'a str,
    pub moments: &'a [u64],
    pub reads: &'a [u64],
    pub writes: &'a [u64],
}

/// The first stream, whose input is empty.
pub const FIRST: Side<'static> = Side {
    host: "a.example",
    source: "i1",
    sink: "o1",
    input: "",
    moments: &[],
    reads: &[],
    writes: &[],
};

/// The second, likewise.
pub const SECOND: Side<'static> = Side {
    host: "b.example",
    source: "i2",
    sink: "o2",
    input: "",
    moments: &[],
    reads: &[],
    writes: &[],
};

/// The stream with that input.
pub fn reading<'a>(side: Side<'a>, input: &'a str) -> Side<'a> {
    Side { input, ..side }
}

/// Puts the ends and the clock of a stream.
pub fn put_side(alloc: Global, world: &mut MemWorld, side: Side<'_>) -> Result<(), Fail>
    requires { NoneOpen world.old }
    ensures { OnOk result (NoneOpen world.new) }
{
    let source = MemSource::new(alloc, side.input.as_bytes(), side.reads)?;
    world.put_source(&Text::of(alloc, side.source)?, source)?;
    let sink = MemSink::new(alloc, side.writes)?;
    world.put_sink(&Text::of(alloc, side.sink)?, sink)?;
    world.put_clock(&Text::of(alloc, side.host)?, side.moments)?;
    Ok(())
}

/// A world with that disk, without streams, whose calls of these numbers fail.
pub fn world_over(alloc: Global, disk: MemDisk, failing: &[u64]) -> Result<MemWorld, Fail>
    ensures { IfOk result NoneOpen }
{
    let mut world = MemWorld::new(alloc, failing)?;
    world.put_disk(&Text::of(alloc, "s")?, disk)?;
    Ok(world)
}

/// The words of a line.
pub fn texts_of(alloc: Global, words: &str) -> Result<Vec<Text>, Fail> {
    let mut texts = Vec::new(alloc);
    for word in words.split(' ') {
        texts.push(Text::of(alloc, word)?)?;
    }
    Ok(texts)
}

/// Runs the words, and answers the status's code.
pub fn code_of(
    rt: &(impl RandomSource + Wait + Threads + Sync),
    alloc: Global,
    words: &str,
    world: &mut MemWorld,
) -> Result<u8, Fail> {
    let texts = texts_of(alloc, words)?;
    Ok(run(rt, alloc, &texts, world).code())
}

/// What the sink of that name holds.
pub fn written<'a>(alloc: Global, world: &'a MemWorld, name: &str) -> Result<&'a str, Fail> {
    let name = Text::of(alloc, name)?;
    let sink = world.sink(&name).ok_or("no sink")?;
    Ok(str::from_utf8(sink.bytes())?)
}

/// What the store holds.
pub fn stored(alloc: Global, world: &MemWorld) -> Result<&MemDisk, Fail> {
    let name = Text::of(alloc, "s")?;
    Ok(world.disk(&name).ok_or("no store")?)
}

/// What was reported, and the code.
pub fn report(alloc: Global, world: &MemWorld, code: u8) -> Result<String, Fail> {
    let reported = str::from_utf8(world.reported())?;
    Ok(format!(in alloc; "{reported}{code}")?)
}
