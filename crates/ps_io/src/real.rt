// The real outside: files by their paths, the clock of the system, and the standard output for reports. It tells nothing of content; what failed, and why
// the system says so, stands on the standard error.
ghost use Rattle.std.specs.Prelude.{◌≡◌, ◌∷◌, ◌++◌, [], List, ℕ, OnOk, OnErr, Some, None};
ghost use Rattle.ps_io.specs.Shelf.{at};
ghost use Rattle.ps_io.specs.Real.{count_at, held_count, held_clock, held_store, IsLent};

use crate::named::{HoldAlone, Named, tell};
use crate::shelf::Shelf;
use crate::{Kind, Missing, OpenCall, RealClock, World, WorldRefusal};
use ps_base::{Failed, Memory};
use ps_disk::{Disk, FileDisk};
use ps_types::Text;
use ps_wire::{FileSink, FileSource};
use std::alloc::Global;
use std::fs::{OpenFile, OpenOptions};
use std::io::{Eprint, Read, Seek, Write};
use std::rt::Files;
use std::time::Clock;
use std::{fs, io};

/// The files of a runtime, its clock, its standard output and its standard error.
pub struct RealWorld<R: Files + Print + Eprint + Clock + Copy + Drop> {
    rt: R,
    alloc: Global,
    sources: Shelf<u64>,
    sinks: Shelf<u64>,
    disks: Shelf<u64>,
    clocks: Shelf<u64>,
    asked: Vec<OpenCall>,
    faults: u64,
    opening: (u64, u64),
}

// By hand, so that a world is let go by one call wherever a function ends.
impl<R: Files + Print + Eprint + Clock + Copy + Drop> Drop for RealWorld<R> {
    fn drop(self) {
        let RealWorld {
            rt: _,
            alloc: _,
            sources: _,
            sinks: _,
            disks: _,
            clocks: _,
            asked: _,
            faults: _,
            opening: _,
        } = self;
    }
}

impl<R: Files + Print + Eprint + Clock + Copy + Drop> RealWorld<R> {
    /// The outside of this runtime, of which nothing was opened yet.
    pub fn new(alloc: Global, rt: R) -> RealWorld<R> {
        RealWorld {
            rt,
            alloc,
            sources: Shelf::new(alloc),
            sinks: Shelf::new(alloc),
            disks: Shelf::new(alloc),
            clocks: Shelf::new(alloc),
            asked: Vec::new(alloc),
            faults: 0,
            opening: (0, 0),
        }
    }
}

// A place for the count of the name's object, which begins at 0.
fn make_place(alloc: Global, counts: &mut Shelf<u64>, name: &Text) -> Result<(), Memory>
    ensures same { (n : List ℕ) → count_at (at counts.new.slots.items n) ≡ count_at (at counts.old.slots.items n) }
    ensures lent { (n : List ℕ) → at counts.old.slots.items n ≡ Some None → at counts.new.slots.items n ≡ Some None }
{
    if !counts.has(name) {
        counts.put(alloc, name, 0)?;
    }
    Ok(())
}

fn note(alloc: Global, asked: &mut Vec<OpenCall>, kind: Kind, name: &Text) -> Result<(), Memory>
    ensures ok { OnOk result (asked.new.items ≡ asked.old.items ++ record { kind = kind; name = name.now } ∷ []) }
    ensures err { OnErr result (asked.new.items ≡ asked.old.items) }
{
    let name = name.clone()?;
    asked.push(OpenCall { kind, name })?;
    Ok(())
}

// Opens a store for reading and writing, and holds it alone. It keeps its bytes, and is made where it is missing and that is asked.
fn open_store<R: Files>(rt: &R, name: &str, missing: Missing) -> io::Result<R::File>
where
    R::File: HoldAlone,
{
    let file = OpenOptions::new()
        .read(true)
        .write(true)
        .create(matches!(missing, Missing::Make))
        .open(rt, name)?;
    file.hold_alone()?;
    Ok(file)
}

impl<R: Files + Print + Eprint + Clock + Copy + Drop + Send> World for RealWorld<R>
where
    R::File: HoldAlone + Send,
{
    type Reading = FileSource<Named<R::File, R>>;

    type Writing = FileSink<Named<R::File, R>>;

    type Store = FileDisk<Named<R::File, R>>;

    type Ticking = RealClock<R>;

    ghost use Rattle.ps_disk.specs.Disk.{MayLeave};

    ghost sources = { λ w n. held_count (at w.sources.slots.items n) };

    ghost sinks = { λ w n. held_count (at w.sinks.slots.items n) };

    ghost stores = { λ w n. held_store (at w.disks.slots.items n) };

    ghost lefts = { λ _ _ _ c. MayLeave [] [] c };

    ghost clocks = { λ w n. held_clock (at w.clocks.slots.items n) };

    ghost is_open = { λ w k n. IsLent k (at w.sources.slots.items n) (at w.sinks.slots.items n)
        (at w.disks.slots.items n) (at w.clocks.slots.items n) };

    ghost asked = { λ w. w.asked.items };

    ghost reported = { λ _. None };

    ghost last_opening = { λ w. w.opening };

    ghost faults = { λ w. w.faults };

    fn open_source(&mut self, name: &Text) -> Result<FileSource<Named<R::File, R>>, WorldRefusal> {
        if make_place(self.alloc, &mut self.sources, name).is_err() {
            return Err(WorldRefusal::Memory);
        }
        let Ok(its) = name.clone() else {
            return Err(WorldRefusal::Memory);
        };
        if note(self.alloc, &mut self.asked, Kind::Source, name).is_err() {
            return Err(WorldRefusal::Memory);
        }
        let before = self.faults;
        self.opening = (before, before);
        match fs::open(&self.rt, name.as_str()) {
            Ok(file) => {
                if let Some(faults) = self.sources.take(name) {
                    let file = Named::new(self.rt, Kind::Source, its, file);
                    return Ok(FileSource::new(file, faults));
                }
            }
            Err(why) => tell(&self.rt, Kind::Source, name, &why),
        }
        self.faults = self.faults.saturating_add(1);
        self.opening = (before, self.faults);
        Err(WorldRefusal::Failed)
    }

    fn open_sink(&mut self, name: &Text) -> Result<FileSink<Named<R::File, R>>, WorldRefusal> {
        if make_place(self.alloc, &mut self.sinks, name).is_err() {
            return Err(WorldRefusal::Memory);
        }
        let Ok(its) = name.clone() else {
            return Err(WorldRefusal::Memory);
        };
        if note(self.alloc, &mut self.asked, Kind::Sink, name).is_err() {
            return Err(WorldRefusal::Memory);
        }
        let before = self.faults;
        self.opening = (before, before);
        match fs::create(&self.rt, name.as_str()) {
            Ok(file) => {
                if let Some(faults) = self.sinks.take(name) {
                    let file = Named::new(self.rt, Kind::Sink, its, file);
                    return Ok(FileSink::new(file, faults));
                }
            }
            Err(why) => tell(&self.rt, Kind::Sink, name, &why),
        }
        self.faults = self.faults.saturating_add(1);
        self.opening = (before, self.faults);
        Err(WorldRefusal::Failed)
    }

    fn open_disk(
        &mut self,
        name: &Text,
        missing: Missing,
    ) -> Result<FileDisk<Named<R::File, R>>, WorldRefusal> {
        if make_place(self.alloc, &mut self.disks, name).is_err() {
            return Err(WorldRefusal::Memory);
        }
        let Ok(its) = name.clone() else {
            return Err(WorldRefusal::Memory);
        };
        if note(self.alloc, &mut self.asked, Kind::Store, name).is_err() {
            return Err(WorldRefusal::Memory);
        }
        let before = self.faults;
        self.opening = (before, before);
        match open_store(&self.rt, name.as_str(), missing) {
            Ok(file) => {
                if let Some(faults) = self.disks.take(name) {
                    let file = Named::new(self.rt, Kind::Store, its, file);
                    return Ok(FileDisk::new(file, faults));
                }
            }
            Err(why) => tell(&self.rt, Kind::Store, name, &why),
        }
        self.faults = self.faults.saturating_add(1);
        self.opening = (before, self.faults);
        Err(WorldRefusal::Failed)
    }

    fn open_clock(&mut self, name: &Text) -> Result<RealClock<R>, WorldRefusal> {
        if make_place(self.alloc, &mut self.clocks, name).is_err() {
            return Err(WorldRefusal::Memory);
        }
        if note(self.alloc, &mut self.asked, Kind::Clock, name).is_err() {
            return Err(WorldRefusal::Memory);
        }
        let before = self.faults;
        self.opening = (before, before);
        if let Some(faults) = self.clocks.take(name) {
            return Ok(RealClock::new(self.rt, faults));
        }
        self.faults = self.faults.saturating_add(1);
        self.opening = (before, self.faults);
        Err(WorldRefusal::Failed)
    }

    fn give_back(&mut self, name: &Text, source: FileSource<Named<R::File, R>>) {
        self.sources.give_back(name, source.faults());
    }

    fn give_back_sink(&mut self, name: &Text, sink: FileSink<Named<R::File, R>>) {
        self.sinks.give_back(name, sink.faults());
    }

    fn give_back_disk(&mut self, name: &Text, disk: FileDisk<Named<R::File, R>>) {
        self.disks.give_back(name, disk.fault_count());
    }

    fn give_back_clock(&mut self, name: &Text, clock: RealClock<R>) {
        self.clocks.give_back(name, clock.faults());
    }

    fn report(&mut self, bytes: &[u8]) -> Result<(), Failed> {
        match self.rt.write_all(bytes) {
            Ok(()) => Ok(()),
            Err(_) => {
                self.faults = self.faults.saturating_add(1);
                Err(Failed)
            }
        }
    }
}
