// What a world in memory gives by names. That of the machine is under each run of the program.
ghost use Rattle.std.specs.Prelude.{◌∷◌, []};
ghost use Rattle.ps_io.specs.MemWorld.{IsNewWorld};

use ps_disk::{Disk, MemDisk};
use ps_io::{
    Clock, ConstClock, MemClock, MemWorld, Missing, RealClock, RealWorld, World, WorldRefusal,
};
use ps_types::Text;
use ps_wire::{MemSink, MemSource, Sink, Source};
use std::alloc::Global;
use std::process::Abort;
use std::test::Fail;

// The first source of a new world, whose third opening or report fails, and a sink that isn't there.
fn opens_once(rt: &impl Abort, alloc: Global, world: &mut MemWorld) -> Result<(), Fail>
    requires { IsNewWorld (3 ∷ []) world.old }
{
    let name = Text::of(alloc, "in")?;
    world.put_source(&name, MemSource::new(alloc, b"abc", &[])?)?;
    let mut source = world.open_source(&name)?;
    let mut room = [0; 2];
    assert_eq!(rt; source.read(&mut room).ok(), Some(2));
    world.give_back(&name, source);
    assert!(rt; world.source(&name).is_some());
    let other = Text::of(alloc, "out")?;
    assert!(rt; matches!(world.open_sink(&other), Err(WorldRefusal::Failed)));
    reports(rt, world);
    gives_again(rt, world, &name)
}

fn reports(rt: &impl Abort, world: &mut MemWorld) {
    assert!(rt; world.report(b"lost").is_err());
    assert!(rt; world.report(b"told").is_ok());
    assert_eq!(rt; world.reported(), b"told".as_slice());
    assert_eq!(rt; world.refused(), 0);
}

fn gives_again(rt: &impl Abort, world: &mut MemWorld, name: &Text) -> Result<(), Fail> {
    let _source = world.open_source(name)?;
    assert!(rt; world.source(name).is_none());
    assert!(rt; matches!(world.open_source(name), Err(WorldRefusal::Failed)));
    Ok(())
}

fn gives_stores(rt: &impl Abort, alloc: Global, world: &mut MemWorld) -> Result<(), Fail>
    requires { IsNewWorld [] world.old }
{
    let store = Text::of(alloc, "s")?;
    world.put_disk(&store, MemDisk::new(alloc, b"abcd", &[])?)?;
    let mut disk = world.open_disk(&store, Missing::Make)?;
    assert_eq!(rt; disk.len().ok(), Some(4));
    world.give_back_disk(&store, disk);
    assert!(rt; world.disk(&store).is_some());
    Ok(())
}

fn gives_sinks(rt: &impl Abort, alloc: Global, world: &mut MemWorld) -> Result<(), Fail>
    requires { IsNewWorld [] world.old }
{
    let name = Text::of(alloc, "out")?;
    world.put_sink(&name, MemSink::new(alloc, &[])?)?;
    let mut sink = world.open_sink(&name)?;
    assert_eq!(rt; sink.write(b"xy").ok(), Some(2));
    world.give_back_sink(&name, sink);
    let written = world.sink(&name).ok_or("no sink")?.bytes();
    assert_eq!(rt; written, b"xy".as_slice());
    Ok(())
}

// A host whose clock has one answer, and one whose clock wasn't put.
fn gives_clocks(rt: &impl Abort, alloc: Global, world: &mut MemWorld) -> Result<(), Fail>
    requires { IsNewWorld [] world.old }
{
    let host = Text::of(alloc, "a.example")?;
    world.put_clock(&host, &[7])?;
    let mut clock = world.open_clock(&host)?;
    assert_eq!(rt; clock.now().ok(), Some(7));
    assert!(rt; clock.now().is_err());
    world.give_back_clock(&host, clock);
    let other = Text::of(alloc, "b.example")?;
    let mut unset = world.open_clock(&other)?;
    assert!(rt; unset.now().is_err());
    world.give_back_clock(&other, unset);
    Ok(())
}

// Clocks tell what they were given.
fn tells(rt: &impl Abort, alloc: Global) -> Result<(), Fail> {
    let mut constant = ConstClock { moment: 3 };
    assert_eq!(rt; constant.now().ok(), Some(3));
    assert!(rt; MemClock::new(alloc, &[])?.now().is_err());
    Ok(())
}

// A new world, in which something was put.
fn gives(rt: &impl Abort, alloc: Global, what: u8) -> Result<(), Fail> {
    if what == 0 {
        let mut world = MemWorld::new(alloc, &[3])?;
        return opens_once(rt, alloc, &mut world);
    }
    let mut world = MemWorld::new(alloc, &[])?;
    match what {
        1 => gives_stores(rt, alloc, &mut world),
        2 => gives_sinks(rt, alloc, &mut world),
        _ => gives_clocks(rt, alloc, &mut world),
    }
}

#[test]
fn what_was_put_is_opened_and_given_back(rt: HostRuntime) -> Result<(), Fail> {
    for what in 0..4 {
        gives(&rt, rt.alloc(), what)?;
    }
    tells(&rt, rt.alloc())
}
