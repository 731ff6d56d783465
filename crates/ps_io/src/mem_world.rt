// A world in memory, which fails at the calls that it is given.
ghost use Rattle.std.specs.Prelude.{◌≡◌, ◌≢◌, ◌⊎◌, ◌≤◌, ◌∷◌, ◌++◌, [], List, ℕ, Some, None, OnOk, OnErr, IfOk, IfSome, IfNone};
ghost use Rattle.ps_base.specs.Causes.{HasCause, next_count};

use crate::shelf::Shelf;
use crate::{Kind, MemClock, Missing, OpenCall, World, WorldRefusal};
use ps_base::{Failed, Memory};
use ps_disk::MemDisk;
use ps_types::Text;
use ps_wire::{MemSink, MemSource};
use std::alloc::Global;

/// A world of objects in memory, whose openings and reports of the given numbers fail, counted from 1.
pub struct MemWorld {
    alloc: Global,
    sources: Shelf<MemSource>,
    sinks: Shelf<MemSink>,
    disks: Shelf<MemDisk>,
    clocks: Shelf<MemClock>,
    asked: Vec<OpenCall>,
    reported: Vec<u8>,
    failing: Vec<u64>,
    calls: u64,
    faults: u64,
    opening: (u64, u64),
    refused: u64,
}

// By hand, so that a world is let go by one call wherever a function ends.
impl Drop for MemWorld {
    fn drop(self) {
        let MemWorld {
            alloc: _,
            sources: _,
            sinks: _,
            disks: _,
            clocks: _,
            asked: _,
            reported: _,
            failing: _,
            calls: _,
            faults: _,
            opening: _,
            refused: _,
        } = self;
    }
}

impl MemWorld {
    ghost use Rattle.ps_io.specs.MemWorld.{StartsOpening, PlacesClock, IsNewWorld, source_at, sink_at, disk_at, clock_at, reported_of, refused_of};

    /// A world without objects, whose openings and reports of these numbers fail. The first has number 1.
    pub fn new(alloc: Global, failing: &[u64]) -> Result<MemWorld, Memory>
        ensures { IfOk result (IsNewWorld failing.now) }
    {
        let failing = failing.to_vec(alloc)?;
        Ok(MemWorld {
            alloc,
            sources: Shelf::new(alloc),
            sinks: Shelf::new(alloc),
            disks: Shelf::new(alloc),
            clocks: Shelf::new(alloc),
            asked: Vec::new(alloc),
            reported: Vec::new(alloc),
            failing,
            calls: 0,
            faults: 0,
            opening: (0, 0),
            refused: 0,
        })
    }

    /// Puts a source under the name, in the place of one that is there. None is open there.
    pub fn put_source(&mut self, name: &Text, source: MemSource) -> Result<(), Memory>
        requires { source_at self.old name.now ≢ Some None }
        ensures here { OnOk result (source_at self.new name.now ≡ Some (Some source)) }
        ensures refused { OnErr result ((n : List ℕ) → source_at self.new n ≡ source_at self.old n) }
        ensures others { (n : List ℕ) → n ≢ name.now → source_at self.new n ≡ source_at self.old n }
        ensures rest { self.new ≡ record self.old { sources = self.new.sources } }
    {
        self.sources.put(self.alloc, name, source)
    }

    /// Puts a sink under the name, in the place of one that is there. None is open there.
    pub fn put_sink(&mut self, name: &Text, sink: MemSink) -> Result<(), Memory>
        requires { sink_at self.old name.now ≢ Some None }
        ensures here { OnOk result (sink_at self.new name.now ≡ Some (Some sink)) }
        ensures refused { OnErr result ((n : List ℕ) → sink_at self.new n ≡ sink_at self.old n) }
        ensures others { (n : List ℕ) → n ≢ name.now → sink_at self.new n ≡ sink_at self.old n }
        ensures rest { self.new ≡ record self.old { sinks = self.new.sinks } }
    {
        self.sinks.put(self.alloc, name, sink)
    }

    /// Puts a store under the name, in the place of one that is there. None is open there.
    pub fn put_disk(&mut self, name: &Text, disk: MemDisk) -> Result<(), Memory>
        requires { disk_at self.old name.now ≢ Some None }
        ensures here { OnOk result (disk_at self.new name.now ≡ Some (Some disk)) }
        ensures refused { OnErr result ((n : List ℕ) → disk_at self.new n ≡ disk_at self.old n) }
        ensures others { (n : List ℕ) → n ≢ name.now → disk_at self.new n ≡ disk_at self.old n }
        ensures rest { self.new ≡ record self.old { disks = self.new.disks } }
    {
        self.disks.put(self.alloc, name, disk)
    }

    /// Puts a clock of these answers under the host, in the place of one that is there. None is open there.
    pub fn put_clock(&mut self, host: &Text, answers: &[u64]) -> Result<(), Memory>
        requires { clock_at self.old host.now ≢ Some None }
        ensures here { OnOk result
            (clock_at self.new host.now ≡ Some (Some (record { answers = answers.now; calls = 0; faults = 0 }))) }
        ensures refused { OnErr result ((n : List ℕ) → clock_at self.new n ≡ clock_at self.old n) }
        ensures others { (n : List ℕ) → n ≢ host.now → clock_at self.new n ≡ clock_at self.old n }
        ensures rest { self.new ≡ record self.old { clocks = self.new.clocks } }
    {
        let clock = MemClock::new(self.alloc, answers)?;
        self.clocks.put(self.alloc, host, clock)
    }

    /// The source under the name, unless it is open.
    pub fn source(&self, name: &Text) -> Option<&MemSource>
        ensures some { IfSome result (λ x. source_at self.now name.now ≡ Some (Some x.now)) }
        ensures none { IfNone result
            ((source_at self.now name.now ≡ None) ⊎ (source_at self.now name.now ≡ Some None)) }
    {
        self.sources.get(name)
    }

    /// The sink under the name, unless it is open.
    pub fn sink(&self, name: &Text) -> Option<&MemSink>
        ensures some { IfSome result (λ x. sink_at self.now name.now ≡ Some (Some x.now)) }
        ensures none { IfNone result ((sink_at self.now name.now ≡ None) ⊎ (sink_at self.now name.now ≡ Some None)) }
    {
        self.sinks.get(name)
    }

    /// The store under the name, unless it is open.
    pub fn disk(&self, name: &Text) -> Option<&MemDisk>
        ensures some { IfSome result (λ x. disk_at self.now name.now ≡ Some (Some x.now)) }
        ensures none { IfNone result ((disk_at self.now name.now ≡ None) ⊎ (disk_at self.now name.now ≡ Some None)) }
    {
        self.disks.get(name)
    }

    /// What was reported so far.
    pub fn reported(&self) -> &[u8]
        ensures { result.now ≡ reported_of self.now }
    {
        &self.reported
    }

    /// How often an opening or a report gave up because memory ran out. The number stands still at its type's end.
    pub fn refused(&self) -> u64
        ensures { result ≡ refused_of self.now }
    {
        self.refused
    }

    fn try_ask(&mut self, kind: Kind, name: &Text) -> Result<(), Memory>
        ensures ok { OnOk result (self.new ≡ record self.old { asked = self.new.asked }) }
        ensures asked { OnOk result
            (self.new.asked.items ≡ self.old.asked.items ++ record { kind = kind; name = name.now } ∷ []) }
        ensures err { OnErr result (self.new ≡ record self.old { asked = self.new.asked }) }
        ensures not_asked { OnErr result (self.new.asked.items ≡ self.old.asked.items) }
    {
        let name = name.clone()?;
        self.asked.push(OpenCall { kind, name })?;
        Ok(())
    }

    // Counts the call, and notes what is asked for.
    fn start_opening(&mut self, kind: Kind, name: &Text) -> Result<(), WorldRefusal>
        ensures { StartsOpening self.old self.new kind name.now result }
    {
        self.calls = self.calls.saturating_add(1);
        if self.try_ask(kind, name).is_err() {
            self.refused = self.refused.saturating_add(1);
            return Err(WorldRefusal::Memory);
        }
        let before = self.faults;
        self.opening = (before, before);
        if self.failing.contains(&self.calls) {
            self.faults = self.faults.saturating_add(1);
            self.opening = (before, self.faults);
            return Err(WorldRefusal::Failed);
        }
        Ok(())
    }

    // Counts that the object isn't there.
    fn fail_opening(&mut self) -> WorldRefusal
        ensures failed { result ≡ WorldRefusal.Failed }
        ensures later { self.old.faults ≤ self.new.faults }
        ensures counts { self.new ≡ record self.old
            { faults = next_count self.old.faults; opening = (self.old.opening.0, next_count self.old.faults) } }
    {
        self.faults = self.faults.saturating_add(1);
        self.opening = (self.opening.0, self.faults);
        WorldRefusal::Failed
    }

    // A place for the clock of that host, empty where none was put.
    fn place_clock(&mut self, host: &Text) -> Result<(), WorldRefusal>
        ensures { PlacesClock self.old self.new host.now result }
    {
        if self.clocks.has(host) {
            return Ok(());
        }
        match MemClock::new(self.alloc, &[]) {
            Ok(clock) => {
                if self.clocks.put(self.alloc, host, clock).is_ok() {
                    return Ok(());
                }
            }
            Err(_) => {}
        }
        self.calls = self.calls.saturating_add(1);
        self.refused = self.refused.saturating_add(1);
        Err(WorldRefusal::Memory)
    }
}

impl World for MemWorld {
    ghost use Rattle.std.specs.Prelude.{length, IsErr, Contains, ◌<◌};
    ghost use Rattle.ps_base.specs.Causes.{Rose};
    ghost use Rattle.ps_disk.specs.Calls.{state_of, syncs_in, LeftSince};
    ghost use Rattle.ps_io.specs.Held.{IsHeld, IsHeldClock, IsHeldStore, Same, SameBut, SameLeft, SameLefts, SameLeftsBut};
    ghost use Rattle.ps_io.specs.World.{Asks, LastOpening, OpeningHasCause, Reports, Stay};
    ghost use Rattle.ps_io.specs.MemClock.{told_by};
    ghost use Rattle.ps_io.specs.MemWorld.{sources_of, sinks_of, stores_of, lefts_of, clocks_of, source_at, sink_at, disk_at, clock_at, IsLent, asked_of, reported_of, failing_of, calls_of, refused_of, IsBad, IsBadClock, OpensExactly};

    type Reading = MemSource;

    type Writing = MemSink;

    type Store = MemDisk;

    type Ticking = MemClock;

    ghost sources = { sources_of };

    ghost sinks = { sinks_of };

    ghost stores = { stores_of };

    ghost lefts = { lefts_of };

    ghost clocks = { clocks_of };

    ghost is_open = { IsLent };

    ghost asked = { asked_of };

    ghost reported = { λ w. Some (reported_of w) };

    ghost last_opening = { λ w. w.opening };

    ghost faults = { λ w. w.faults };

    fn open_source(&mut self, name: &Text) -> Result<MemSource, WorldRefusal>
        ensures object { IfOk result (λ s. IsHeld (sources_of self.old name.now) s.faults (Some s.left)) }
        ensures open { OnOk result (IsLent self.new Kind.Source name.now) }
        ensures refused_sources { OnErr result (Same (sources_of self.old) (sources_of self.new)) }
        ensures sources { SameBut name.now (sources_of self.old) (sources_of self.new) }
        ensures sinks { Same (sinks_of self.old) (sinks_of self.new) }
        ensures stores { Same (stores_of self.old) (stores_of self.new) }
        ensures lefts { SameLefts (lefts_of self.old) (lefts_of self.new) }
        ensures clocks { Same (clocks_of self.old) (clocks_of self.new) }
        ensures stay { Stay (IsLent self.old) (IsLent self.new) }
        ensures asked { Asks result (asked_of self.old) (record { kind = Kind.Source; name = name.now })
            (asked_of self.new) }
        ensures reported { Some (reported_of self.new) ≡ Some (reported_of self.old) }
        ensures last { LastOpening result self.old.faults self.new.faults self.old.opening self.new.opening }
        ensures cause { OpeningHasCause self.old.faults self.new.faults result }
        ensures exact { OpensExactly self.old self.new (IsBad self.old (source_at self.old name.now)) result }
    {
        self.start_opening(Kind::Source, name)?;
        match self.sources.take(name) {
            Some(source) => Ok(source),
            None => Err(self.fail_opening()),
        }
    }

    fn open_sink(&mut self, name: &Text) -> Result<MemSink, WorldRefusal>
        ensures object { IfOk result (λ s. IsHeld (sinks_of self.old name.now) s.faults (Some s.written)) }
        ensures open { OnOk result (IsLent self.new Kind.Sink name.now) }
        ensures refused_sinks { OnErr result (Same (sinks_of self.old) (sinks_of self.new)) }
        ensures sources { Same (sources_of self.old) (sources_of self.new) }
        ensures sinks { SameBut name.now (sinks_of self.old) (sinks_of self.new) }
        ensures stores { Same (stores_of self.old) (stores_of self.new) }
        ensures lefts { SameLefts (lefts_of self.old) (lefts_of self.new) }
        ensures clocks { Same (clocks_of self.old) (clocks_of self.new) }
        ensures stay { Stay (IsLent self.old) (IsLent self.new) }
        ensures asked { Asks result (asked_of self.old) (record { kind = Kind.Sink; name = name.now })
            (asked_of self.new) }
        ensures reported { Some (reported_of self.new) ≡ Some (reported_of self.old) }
        ensures last { LastOpening result self.old.faults self.new.faults self.old.opening self.new.opening }
        ensures cause { OpeningHasCause self.old.faults self.new.faults result }
        ensures exact { OpensExactly self.old self.new (IsBad self.old (sink_at self.old name.now)) result }
    {
        self.start_opening(Kind::Sink, name)?;
        match self.sinks.take(name) {
            Some(sink) => Ok(sink),
            None => Err(self.fail_opening()),
        }
    }

    // A store that wasn't put isn't made: its opening fails, whatever is asked.
    fn open_disk(&mut self, name: &Text, _: Missing) -> Result<MemDisk, WorldRefusal>
        ensures object { IfOk result (λ d. IsHeldStore (stores_of self.old name.now) d.faults (state_of d).seen
            (state_of d).synced (state_of d).written (length d.kept) (syncs_in d.kept)) }
        ensures left { IfOk result (λ d. SameLeft (lefts_of self.old name.now) (LeftSince d)) }
        ensures open { OnOk result (IsLent self.new Kind.Store name.now) }
        ensures refused_stores { OnErr result (Same (stores_of self.old) (stores_of self.new)) }
        ensures refused_lefts { OnErr result (SameLefts (lefts_of self.old) (lefts_of self.new)) }
        ensures sources { Same (sources_of self.old) (sources_of self.new) }
        ensures sinks { Same (sinks_of self.old) (sinks_of self.new) }
        ensures stores { SameBut name.now (stores_of self.old) (stores_of self.new) }
        ensures lefts { SameLeftsBut name.now (lefts_of self.old) (lefts_of self.new) }
        ensures clocks { Same (clocks_of self.old) (clocks_of self.new) }
        ensures stay { Stay (IsLent self.old) (IsLent self.new) }
        ensures asked { Asks result (asked_of self.old) (record { kind = Kind.Store; name = name.now })
            (asked_of self.new) }
        ensures reported { Some (reported_of self.new) ≡ Some (reported_of self.old) }
        ensures last { LastOpening result self.old.faults self.new.faults self.old.opening self.new.opening }
        ensures cause { OpeningHasCause self.old.faults self.new.faults result }
        ensures exact { OpensExactly self.old self.new (IsBad self.old (disk_at self.old name.now)) result }
    {
        self.start_opening(Kind::Store, name)?;
        match self.disks.take(name) {
            Some(disk) => Ok(disk),
            None => Err(self.fail_opening()),
        }
    }

    fn open_clock(&mut self, name: &Text) -> Result<MemClock, WorldRefusal>
        ensures object { IfOk result
            (λ c. IsHeldClock (clocks_of self.old name.now) c.faults (Some (told_by c.answers c.calls))) }
        ensures open { OnOk result (IsLent self.new Kind.Clock name.now) }
        ensures refused_clocks { OnErr result (Same (clocks_of self.old) (clocks_of self.new)) }
        ensures sources { Same (sources_of self.old) (sources_of self.new) }
        ensures sinks { Same (sinks_of self.old) (sinks_of self.new) }
        ensures stores { Same (stores_of self.old) (stores_of self.new) }
        ensures lefts { SameLefts (lefts_of self.old) (lefts_of self.new) }
        ensures clocks { SameBut name.now (clocks_of self.old) (clocks_of self.new) }
        ensures stay { Stay (IsLent self.old) (IsLent self.new) }
        ensures asked { Asks result (asked_of self.old) (record { kind = Kind.Clock; name = name.now })
            (asked_of self.new) }
        ensures reported { Some (reported_of self.new) ≡ Some (reported_of self.old) }
        ensures last { LastOpening result self.old.faults self.new.faults self.old.opening self.new.opening }
        ensures cause { OpeningHasCause self.old.faults self.new.faults result }
        ensures exact { OpensExactly self.old self.new (IsBadClock self.old (clock_at self.old name.now)) result }
    {
        self.place_clock(name)?;
        self.start_opening(Kind::Clock, name)?;
        match self.clocks.take(name) {
            Some(clock) => Ok(clock),
            None => Err(self.fail_opening()),
        }
    }

    fn give_back(&mut self, name: &Text, source: MemSource) {
        self.sources.give_back(name, source);
    }

    fn give_back_sink(&mut self, name: &Text, sink: MemSink) {
        self.sinks.give_back(name, sink);
    }

    fn give_back_disk(&mut self, name: &Text, disk: MemDisk) {
        self.disks.give_back(name, disk);
    }

    fn give_back_clock(&mut self, name: &Text, clock: MemClock) {
        self.clocks.give_back(name, clock);
    }

    fn report(&mut self, bytes: &[u8]) -> Result<(), Failed>
        ensures reported { Reports (Some (reported_of self.old)) (Some (reported_of self.new)) result bytes.now }
        ensures sources { Same (sources_of self.old) (sources_of self.new) }
        ensures sinks { Same (sinks_of self.old) (sinks_of self.new) }
        ensures stores { Same (stores_of self.old) (stores_of self.new) }
        ensures lefts { SameLefts (lefts_of self.old) (lefts_of self.new) }
        ensures clocks { Same (clocks_of self.old) (clocks_of self.new) }
        ensures stay { Stay (IsLent self.old) (IsLent self.new) }
        ensures asked { asked_of self.new ≡ asked_of self.old }
        ensures last { self.new.opening ≡ self.old.opening }
        ensures cause { HasCause self.old.faults self.new.faults result }
        ensures failing { Contains (failing_of self.old) (next_count (calls_of self.old)) → IsErr result }
        ensures gave_up { refused_of self.old < refused_of self.new → IsErr result }
        ensures only { IsErr result → Contains (failing_of self.old) (next_count (calls_of self.old))
            ⊎ Rose (refused_of self.old) (refused_of self.new) }
    {
        self.calls = self.calls.saturating_add(1);
        if self.failing.contains(&self.calls) {
            self.faults = self.faults.saturating_add(1);
            return Err(Failed);
        }
        if self.reported.extend_from_slice(bytes).is_err() {
            self.refused = self.refused.saturating_add(1);
            self.faults = self.faults.saturating_add(1);
            return Err(Failed);
        }
        Ok(())
    }
}
