// The outside by names: what it holds under each name while no one has it open.
ghost use Rattle.std.specs.Prelude.{◌≡◌, ◌++◌, ◌∷◌, [], List, ℕ, IfOk, OnOk, OnErr};
ghost use Rattle.std.specs.declared.option.Option.{Option};
ghost use Rattle.ps_base.specs.Causes.{HasCause};
ghost use Rattle.ps_io.specs.declared.world.Kind.{Kind};
ghost use Rattle.ps_io.specs.declared.world.OpenCall.{OpenCall};
ghost use Rattle.ps_io.specs.Held.{Held, HeldClock, HeldStore, IsHeld, IsHeldClock, IsHeldStore, Same, SameBut, SameLeft, SameLefts, SameLeftsBut};
ghost use Rattle.ps_io.specs.World.{Asks, LastOpening, OpeningHasCause, Reports, Stay, StayBut};

use crate::Clock;
use ps_base::Failed;
use ps_disk::Disk;
use ps_types::Text;
use ps_wire::{Sink, Source};

/// What a name is opened as.
#[derive(Clone, Copy, Debug, PartialEq, Eq)]
pub enum Kind {
    Source,
    Sink,
    Store,
    Clock,
}

/// An opening that was asked for.
#[derive(Drop)]
pub struct OpenCall {
    pub kind: Kind,
    pub name: Text,
}

/// Why an opening was refused.
#[derive(Clone, Copy, Debug, PartialEq, Eq)]
pub enum WorldRefusal {
    /// The world's count of faults rose.
    Failed,
    Memory,
}

/// What becomes of a store that isn't there when it is opened.
#[derive(Clone, Copy, Debug, PartialEq, Eq)]
pub enum Missing {
    /// It is made, empty, where the world makes stores.
    Make,
    /// The opening fails, and nothing is made.
    Refuse,
}

/// The outside, which opens objects by name and takes reports.
pub trait World {
    type Reading: Source + Send + Drop;

    type Writing: Sink + Send + Drop;

    type Store: Disk + Send + Drop;

    type Ticking: Clock + Send + Drop;

    /// What is held under each name as a source, while it isn't open.
    ghost sources: { Self → List ℕ → Held };

    /// What is held under each name as a sink, while it isn't open.
    ghost sinks: { Self → List ℕ → Held };

    /// What is held under each name as a store, while it isn't open.
    ghost stores: { Self → List ℕ → HeldStore };

    /// What a crash at some moment from the given one on might have left of the store of that name.
    ghost lefts: { Self → List ℕ → ℕ → List ℕ → Type 0 };

    /// What is held under each name as a clock, while it isn't open.
    ghost clocks: { Self → List ℕ → HeldClock };

    /// Whether an object of this kind is open under the name.
    ghost is_open: { Self → Kind → List ℕ → Type 0 };

    /// The openings so far, in order.
    ghost asked: { Self → List OpenCall };

    /// What was reported, where the world tells it.
    ghost reported: { Self → Option (List ℕ) };

    /// The count of faults before and after the last opening that didn't want for memory.
    ghost last_opening: { Self → ℕ × ℕ };

    /// How often the world has failed. It never falls, and stands still at its type's end.
    ghost faults: { Self → ℕ };

    /// Opens a source.
    fn open_source(&mut self, name: &Text) -> Result<Self::Reading, WorldRefusal>
        ensures object { IfOk result
            (λ s. IsHeld (sources self.old name.now) (Self.Reading.faults s) (Self.Reading.left s)) }
        ensures open { OnOk result (is_open self.new Kind.Source name.now) }
        ensures refused_sources { OnErr result (Same (sources self.old) (sources self.new)) }
        ensures sources { SameBut name.now (sources self.old) (sources self.new) }
        ensures sinks { Same (sinks self.old) (sinks self.new) }
        ensures stores { Same (stores self.old) (stores self.new) }
        ensures lefts { SameLefts (lefts self.old) (lefts self.new) }
        ensures clocks { Same (clocks self.old) (clocks self.new) }
        ensures stay { Stay (is_open self.old) (is_open self.new) }
        ensures asked { Asks result (asked self.old) (record { kind = Kind.Source; name = name.now }) (asked self.new) }
        ensures reported { reported self.new ≡ reported self.old }
        ensures last { LastOpening result (faults self.old) (faults self.new) (last_opening self.old)
            (last_opening self.new) }
        ensures cause { OpeningHasCause (faults self.old) (faults self.new) result };

    /// Opens a sink.
    fn open_sink(&mut self, name: &Text) -> Result<Self::Writing, WorldRefusal>
        ensures object { IfOk result
            (λ s. IsHeld (sinks self.old name.now) (Self.Writing.faults s) (Self.Writing.written s)) }
        ensures open { OnOk result (is_open self.new Kind.Sink name.now) }
        ensures refused_sinks { OnErr result (Same (sinks self.old) (sinks self.new)) }
        ensures sources { Same (sources self.old) (sources self.new) }
        ensures sinks { SameBut name.now (sinks self.old) (sinks self.new) }
        ensures stores { Same (stores self.old) (stores self.new) }
        ensures lefts { SameLefts (lefts self.old) (lefts self.new) }
        ensures clocks { Same (clocks self.old) (clocks self.new) }
        ensures stay { Stay (is_open self.old) (is_open self.new) }
        ensures asked { Asks result (asked self.old) (record { kind = Kind.Sink; name = name.now }) (asked self.new) }
        ensures reported { reported self.new ≡ reported self.old }
        ensures last { LastOpening result (faults self.old) (faults self.new) (last_opening self.old)
            (last_opening self.new) }
        ensures cause { OpeningHasCause (faults self.old) (faults self.new) result };

    /// Opens a store. One that isn't there is made, or the opening fails, as it is asked. No clause tells a store that was just made from an empty one.
    fn open_disk(&mut self, name: &Text, missing: Missing) -> Result<Self::Store, WorldRefusal>
        ensures object { IfOk result
            (λ d. IsHeldStore (stores self.old name.now) (Self.Store.faults d) (Self.Store.seen d) (Self.Store.synced d)
            (Self.Store.written d) (Self.Store.moment d) (Self.Store.syncs d)) }
        ensures left { IfOk result (λ d. SameLeft (lefts self.old name.now) (Self.Store.left_since d)) }
        ensures open { OnOk result (is_open self.new Kind.Store name.now) }
        ensures refused_stores { OnErr result (Same (stores self.old) (stores self.new)) }
        ensures refused_lefts { OnErr result (SameLefts (lefts self.old) (lefts self.new)) }
        ensures sources { Same (sources self.old) (sources self.new) }
        ensures sinks { Same (sinks self.old) (sinks self.new) }
        ensures stores { SameBut name.now (stores self.old) (stores self.new) }
        ensures lefts { SameLeftsBut name.now (lefts self.old) (lefts self.new) }
        ensures clocks { Same (clocks self.old) (clocks self.new) }
        ensures stay { Stay (is_open self.old) (is_open self.new) }
        ensures asked { Asks result (asked self.old) (record { kind = Kind.Store; name = name.now }) (asked self.new) }
        ensures reported { reported self.new ≡ reported self.old }
        ensures last { LastOpening result (faults self.old) (faults self.new) (last_opening self.old)
            (last_opening self.new) }
        ensures cause { OpeningHasCause (faults self.old) (faults self.new) result };

    /// Opens the clock of a host.
    fn open_clock(&mut self, name: &Text) -> Result<Self::Ticking, WorldRefusal>
        ensures object { IfOk result
            (λ c. IsHeldClock (clocks self.old name.now) (Self.Ticking.faults c) (Self.Ticking.told c)) }
        ensures open { OnOk result (is_open self.new Kind.Clock name.now) }
        ensures refused_clocks { OnErr result (Same (clocks self.old) (clocks self.new)) }
        ensures sources { Same (sources self.old) (sources self.new) }
        ensures sinks { Same (sinks self.old) (sinks self.new) }
        ensures stores { Same (stores self.old) (stores self.new) }
        ensures lefts { SameLefts (lefts self.old) (lefts self.new) }
        ensures clocks { SameBut name.now (clocks self.old) (clocks self.new) }
        ensures stay { Stay (is_open self.old) (is_open self.new) }
        ensures asked { Asks result (asked self.old) (record { kind = Kind.Clock; name = name.now }) (asked self.new) }
        ensures reported { reported self.new ≡ reported self.old }
        ensures last { LastOpening result (faults self.old) (faults self.new) (last_opening self.old)
            (last_opening self.new) }
        ensures cause { OpeningHasCause (faults self.old) (faults self.new) result };

    /// Takes back a source that was opened under the name.
    fn give_back(&mut self, name: &Text, source: Self::Reading)
        requires { is_open self.old Kind.Source name.now }
        ensures held { IsHeld (sources self.new name.now) (Self.Reading.faults source) (Self.Reading.left source) }
        ensures sources { SameBut name.now (sources self.old) (sources self.new) }
        ensures sinks { Same (sinks self.old) (sinks self.new) }
        ensures stores { Same (stores self.old) (stores self.new) }
        ensures lefts { SameLefts (lefts self.old) (lefts self.new) }
        ensures clocks { Same (clocks self.old) (clocks self.new) }
        ensures stay { StayBut Kind.Source name.now (is_open self.old) (is_open self.new) }
        ensures asked { asked self.new ≡ asked self.old }
        ensures reported { reported self.new ≡ reported self.old }
        ensures last { last_opening self.new ≡ last_opening self.old }
        ensures faults { faults self.new ≡ faults self.old };

    /// Takes back a sink that was opened under the name.
    fn give_back_sink(&mut self, name: &Text, sink: Self::Writing)
        requires { is_open self.old Kind.Sink name.now }
        ensures held { IsHeld (sinks self.new name.now) (Self.Writing.faults sink) (Self.Writing.written sink) }
        ensures sources { Same (sources self.old) (sources self.new) }
        ensures sinks { SameBut name.now (sinks self.old) (sinks self.new) }
        ensures stores { Same (stores self.old) (stores self.new) }
        ensures lefts { SameLefts (lefts self.old) (lefts self.new) }
        ensures clocks { Same (clocks self.old) (clocks self.new) }
        ensures stay { StayBut Kind.Sink name.now (is_open self.old) (is_open self.new) }
        ensures asked { asked self.new ≡ asked self.old }
        ensures reported { reported self.new ≡ reported self.old }
        ensures last { last_opening self.new ≡ last_opening self.old }
        ensures faults { faults self.new ≡ faults self.old };

    /// Takes back a store that was opened under the name.
    fn give_back_disk(&mut self, name: &Text, disk: Self::Store)
        requires { is_open self.old Kind.Store name.now }
        ensures held { IsHeldStore (stores self.new name.now) (Self.Store.faults disk) (Self.Store.seen disk)
            (Self.Store.synced disk) (Self.Store.written disk) (Self.Store.moment disk) (Self.Store.syncs disk) }
        ensures left { SameLeft (Self.Store.left_since disk) (lefts self.new name.now) }
        ensures sources { Same (sources self.old) (sources self.new) }
        ensures sinks { Same (sinks self.old) (sinks self.new) }
        ensures stores { SameBut name.now (stores self.old) (stores self.new) }
        ensures lefts { SameLeftsBut name.now (lefts self.old) (lefts self.new) }
        ensures clocks { Same (clocks self.old) (clocks self.new) }
        ensures stay { StayBut Kind.Store name.now (is_open self.old) (is_open self.new) }
        ensures asked { asked self.new ≡ asked self.old }
        ensures reported { reported self.new ≡ reported self.old }
        ensures last { last_opening self.new ≡ last_opening self.old }
        ensures faults { faults self.new ≡ faults self.old };

    /// Takes back the clock of a host.
    fn give_back_clock(&mut self, name: &Text, clock: Self::Ticking)
        requires { is_open self.old Kind.Clock name.now }
        ensures held { IsHeldClock (clocks self.new name.now) (Self.Ticking.faults clock) (Self.Ticking.told clock) }
        ensures sources { Same (sources self.old) (sources self.new) }
        ensures sinks { Same (sinks self.old) (sinks self.new) }
        ensures stores { Same (stores self.old) (stores self.new) }
        ensures lefts { SameLefts (lefts self.old) (lefts self.new) }
        ensures clocks { SameBut name.now (clocks self.old) (clocks self.new) }
        ensures stay { StayBut Kind.Clock name.now (is_open self.old) (is_open self.new) }
        ensures asked { asked self.new ≡ asked self.old }
        ensures reported { reported self.new ≡ reported self.old }
        ensures last { last_opening self.new ≡ last_opening self.old }
        ensures faults { faults self.new ≡ faults self.old };

    /// Tells the bytes to whoever started the program.
    fn report(&mut self, bytes: &[u8]) -> Result<(), Failed>
        ensures reported { Reports (reported self.old) (reported self.new) result bytes.now }
        ensures sources { Same (sources self.old) (sources self.new) }
        ensures sinks { Same (sinks self.old) (sinks self.new) }
        ensures stores { Same (stores self.old) (stores self.new) }
        ensures lefts { SameLefts (lefts self.old) (lefts self.new) }
        ensures clocks { Same (clocks self.old) (clocks self.new) }
        ensures stay { Stay (is_open self.old) (is_open self.new) }
        ensures asked { asked self.new ≡ asked self.old }
        ensures last { last_opening self.new ≡ last_opening self.old }
        ensures cause { HasCause (faults self.old) (faults self.new) result };
}
