// The journal on a disk.
ghost use Rattle.std.specs.Prelude.{◌≡◌, ◌<◌, List, ℕ, None};
ghost use Rattle.ps_journal.specs.Settled.{IsSettled};
ghost use Rattle.ps_journal.specs.Left.{LeavesAtLeast};

use crate::judging::Placed;
use crate::listing::entries_of;
use crate::loading::{LoadRefusal, load};
use crate::opening::{JournalWhy, Opening, open_store};
use crate::taker::Taker;
use crate::trail::Trail;
use crate::writing::write_frame;
use ps_base::{Failed, Memory};
use ps_disk::Disk;
use ps_record::Batch;
use ps_types::Entry;
use std::alloc::Global;

/// Why a batch was not appended.
#[derive(Clone, Copy, Debug, PartialEq, Eq)]
pub enum AppendRefusal {
    /// The store would pass the limit.
    Full,
    /// The disk failed, in this call or an earlier one.
    Store,
}

/// A list of entries on a disk. A contract sees its disk as `disk_of`, its length as `length_of` and its first fault as `broken_of`.
pub struct Journal<D: Disk> {
    disk: D,
    length: u64,
    broken: Option<u64>,
    ghost some: { 0 < length },
    ghost settled: { broken ≡ None → D.tells → IsSettled (D.seen disk) (D.synced disk) (D.written disk) length },
    ghost floor: { D.tells → LeavesAtLeast (D.synced disk) (D.written disk) length },
}

/// A store that was not opened, and why.
pub struct JournalRefusal<D: Disk> {
    pub disk: D,
    pub why: JournalWhy,
}

/// Why the entries were not read.
#[derive(Clone, Copy, Debug, PartialEq, Eq)]
pub enum EntriesRefusal {
    /// The disk failed, in this call or an earlier one.
    Store,
    Memory,
}

impl<D: Disk> Journal<D> {
    ghost use Rattle.std.specs.Prelude.{◌≡◌, ◌≢◌, ◌++◌, ◌+◌, ◌≤◌, ◌↔◌, [], List, ℕ, None};
    ghost use Rattle.std.specs.Prelude.{true, IfOk, IfErr, OnErr, OnOk, IsErrOf, MatchResult};
    ghost use Rattle.ps_base.specs.Causes.{Rose};
    ghost use Rattle.ps_types.specs.declared.entry.Entry.{Entry};
    ghost use Rattle.ps_disk.specs.Disk.{LeavesOnly};
    ghost use Rattle.ps_model.specs.store.Store.{is_second, spelled};
    ghost use Rattle.ps_journal.specs.Places.{entries_in};
    ghost use Rattle.ps_journal.specs.Opened.{IsOpened, ArePlaced, HasLength, HasHeader, HasNoHeader, Upgrades, IfWhyDamaged};
    ghost use Rattle.ps_model.specs.store.Entries.{AreEntries};
    ghost use Rattle.ps_journal.specs.Opened.{IsWhyDamaged, IsWhyStopped, StaysIfDamaged, IsShortIfUnbegun, LeftOrHas};
    ghost use Rattle.ps_journal.specs.Journal.{disk_of, length_of, broken_of, seen_in, synced_in, written_in, faults_in};
    ghost use Rattle.ps_journal.specs.Journal.{IsBroken, IsWhole, Has, StaysBroken, IsUntouched, HasFault, KeepsFirstFault};
    ghost use Rattle.ps_journal.specs.Journal.{IsAsLongAs, IsLongerBy, IsBegunIn, WouldPass, CrashLeaves, Keeps, Leaves, IsFrontIn};
    ghost use Rattle.ps_journal.specs.Journal.{IsTornBy, KeepsAtLeast};
    ghost use Rattle.ps_journal.specs.Left.{IsWithOrWithout};

    /// Opens the store on a disk, begins an unbegun one, and upgrades one of version 1. It gives the entries with their offsets to a taker, one
    /// after the other, and keeps none. Where one is refused it writes nothing. It begins with a sync.
    pub fn open_giving<T: Taker>(
        alloc: Global,
        disk: D,
        taker: &mut T,
    ) -> Result<(Journal<D>, Trail), JournalRefusal<D>>
        requires stands { T.stands taker.old taker.old [] }
        ensures taken { IfOk result (λ r. T.stands taker.old taker.new r.1.items) }
        // The bytes spell the entries, and still do, as a store of version 2.
        ensures entries { D.tells → IfOk result (λ r. IsOpened (D.seen disk) r.1.items) }
        ensures same { D.tells → IfOk result (λ r. Has r.0 (entries_in r.1.items)) }
        ensures second { D.tells → IfOk result (λ r. is_second (seen_in r.0) ≡ true) }
        // Of a store with a header, the eighth byte becomes the digit 2, and all others are as before.
        ensures upgraded { D.tells → HasHeader (D.seen disk) → IfOk result (λ r. Upgrades (D.seen disk) (seen_in r.0)) }
        // A store without a header is the nine bytes of a begun one, and what it had behind its first nine.
        ensures begun { D.tells → HasNoHeader (D.seen disk) → IfOk result (λ r. IsBegunIn (D.seen disk) r.1.items r.0) }
        // Each entry has a spelling of fewer than 2^32 bytes.
        ensures each { IfOk result (λ r. ArePlaced r.1.items) }
        // The length is that of the bytes up to the closed gate and with it, as before, and a crash now leaves the entries.
        ensures long { D.tells → IfOk result (λ r. HasLength (D.seen disk) (length_of r.0)) }
        ensures stands { D.tells → IfOk result (λ r. IsAsLongAs r.0 (length_of r.0)) }
        ensures durable { D.tells → IfOk result (λ r. Keeps r.0 (entries_in r.1.items)) }
        ensures whole { IfOk result (λ r. IsWhole r.0) }
        // A damaged store is as before, and one of which an entry is refused.
        ensures stopped { D.tells → IfErr result (λ e. IsWhyStopped (T.stands taker.old taker.new) T.refused (D.seen disk) e.why) }
        // The entries before are such as a store may hold.
        ensures before { IfErr result (λ e. IfWhyDamaged e.why (λ at before. AreEntries (entries_in before))) }
        ensures untouched { D.tells → IfErr result (λ e. StaysIfDamaged e.why (D.seen disk) (D.seen e.disk)) }
        ensures store { IfErr result (λ e. e.why ≡ JournalWhy.Store → Rose (D.faults disk) (D.faults e.disk)) }
        ensures later { MatchResult result (λ r. D.faults disk ≤ faults_in r.0) (λ e. D.faults disk ≤ D.faults e.disk) }
        // A crash at any moment of the call leaves what it might have left before, or the same entries.
        ensures any_moment { D.tells → (E : List Entry) → spelled (D.seen disk) E → IsShortIfUnbegun (D.seen disk)
            → MatchResult result
            (λ r. LeavesOnly D.moment D.left_since disk (disk_of r.0) (LeftOrHas (D.synced disk) (D.written disk) E))
            (λ e. LeavesOnly D.moment D.left_since disk e.disk (LeftOrHas (D.synced disk) (D.written disk) E)) }
    {
        let mut disk = disk;
        match open_store(alloc, &mut disk, taker) {
            Opening::Opened(trail, length) => Ok((
                Journal {
                    disk,
                    length,
                    broken: None,
                },
                trail,
            )),
            Opening::Refused(why) => Err(JournalRefusal { disk, why }),
        }
    }

    /// Opens the store on a disk, begins an unbegun one, and upgrades one of version 1. It answers the entries with their offsets.
    /// It begins with a sync.
    pub fn open(alloc: Global, disk: D) -> Result<(Journal<D>, Vec<Placed>), JournalRefusal<D>>
        // The bytes spell the entries, and still do, as a store of version 2.
        ensures entries { D.tells → IfOk result (λ r. IsOpened (D.seen disk) r.1.items) }
        ensures same { D.tells → IfOk result (λ r. Has r.0 (entries_in r.1.items)) }
        ensures second { D.tells → IfOk result (λ r. is_second (seen_in r.0) ≡ true) }
        // Of a store with a header, the eighth byte becomes the digit 2, and all others are as before.
        ensures upgraded { D.tells → HasHeader (D.seen disk) → IfOk result (λ r. Upgrades (D.seen disk) (seen_in r.0)) }
        // A store without a header is the nine bytes of a begun one, and what it had behind its first nine.
        ensures begun { D.tells → HasNoHeader (D.seen disk) → IfOk result (λ r. IsBegunIn (D.seen disk) r.1.items r.0) }
        // Each entry has a spelling of fewer than 2^32 bytes.
        ensures each { IfOk result (λ r. ArePlaced r.1.items) }
        // The length is that of the bytes up to the closed gate and with it, as before, and a crash now leaves the entries.
        ensures long { D.tells → IfOk result (λ r. HasLength (D.seen disk) (length_of r.0)) }
        ensures stands { D.tells → IfOk result (λ r. IsAsLongAs r.0 (length_of r.0)) }
        ensures durable { D.tells → IfOk result (λ r. Keeps r.0 (entries_in r.1.items)) }
        ensures whole { IfOk result (λ r. IsWhole r.0) }
        // A damaged store is as before. The law `damaged_spells_nothing` says that it spells no list.
        ensures damaged { D.tells → IfErr result (λ e. IsWhyDamaged (D.seen disk) e.why) }
        // The entries before the damage are such as a store may hold.
        ensures before { IfErr result (λ e. IfWhyDamaged e.why (λ at before. AreEntries (entries_in before))) }
        ensures untouched { D.tells → IfErr result (λ e. StaysIfDamaged e.why (D.seen disk) (D.seen e.disk)) }
        ensures store { IfErr result (λ e. e.why ≡ JournalWhy.Store → Rose (D.faults disk) (D.faults e.disk)) }
        ensures later { MatchResult result (λ r. D.faults disk ≤ faults_in r.0) (λ e. D.faults disk ≤ D.faults e.disk) }
        // A crash at any moment of the call leaves what it might have left before, or the same entries.
        ensures any_moment { D.tells → (E : List Entry) → spelled (D.seen disk) E → IsShortIfUnbegun (D.seen disk)
            → MatchResult result
            (λ r. LeavesOnly D.moment D.left_since disk (disk_of r.0) (LeftOrHas (D.synced disk) (D.written disk) E))
            (λ e. LeavesOnly D.moment D.left_since disk e.disk (LeftOrHas (D.synced disk) (D.written disk) E)) }
    {
        let mut placed = Vec::new(alloc);
        match Journal::open_giving(alloc, disk, &mut placed) {
            Ok((journal, _)) => Ok((journal, placed)),
            Err(refusal) => Err(refusal),
        }
    }

    /// How many bytes the store has, up to and including the closed gate.
    pub fn length(&self) -> u64
        ensures value { result ≡ length_of self.now }
        ensures bytes { D.tells → IsWhole self.now → IsAsLongAs self.now result }
        // Whether or not the disk has failed, no crash leaves a shorter store.
        ensures floor { D.tells → KeepsAtLeast self.now (length_of self.now) }
    {
        self.length
    }

    /// The disk's count of faults at the first fault, after which the journal answers `Store` for good.
    pub fn broken(&self) -> Option<u64>
        ensures { result ≡ broken_of self.now }
    {
        self.broken
    }

    /// The disk.
    pub fn close(self) -> D
        ensures { result ≡ disk_of self }
    {
        let Journal {
            disk,
            length: _,
            broken: _,
        } = self;
        disk
    }

    /// Adds the entries of a batch. Once it succeeds, no crash takes them away.
    pub fn append(&mut self, batch: &Batch, limit: u64) -> Result<(), AppendRefusal>
        requires { batch.now ≢ [] }
        // The answers, and what they leave of the journal.
        ensures full { IsErrOf result AppendRefusal.Full ↔ WouldPass limit self.old batch.now }
        ensures full_writes_nothing { IsErrOf result AppendRefusal.Full → IsUntouched self.old self.new }
        ensures store { IsErrOf result AppendRefusal.Store → HasFault self.old self.new }
        ensures for_good { IsBroken self.old → StaysBroken result AppendRefusal.Store self.old self.new }
        ensures first_fault { IsWhole self.old → IsErrOf result AppendRefusal.Store → KeepsFirstFault self.new }
        ensures length { OnOk result (IsLongerBy batch.now self.old self.new) }
        ensures grows { length_of self.old ≤ length_of self.new }
        ensures syncs { D.tells → OnOk result (D.syncs (disk_of self.new) ≡ D.syncs (disk_of self.old) + 2) }
        ensures later { faults_in self.old ≤ faults_in self.new }
        // Then the bytes spell the entries before and those of the batch, and so does what a crash leaves.
        ensures entries { D.tells → (E : List Entry) → Has self.old E → OnOk result (Has self.new (E ++ batch.now)) }
        ensures durable { D.tells → (E : List Entry) → Has self.old E → OnOk result (Keeps self.new (E ++ batch.now)) }
        // No crash leaves a store that is shorter than the length; after a fault one may leave a longer one, with the batch.
        ensures floor { D.tells → KeepsAtLeast self.new (length_of self.new) }
        ensures torn { D.tells → IsWhole self.old → (E : List Entry) → Has self.old E
            → OnErr result (IsTornBy self.old E batch.now self.new) }
        // A crash at any moment of the call leaves the entries before, or those and the whole batch.
        ensures any_moment { D.tells → IsWhole self.old → (E : List Entry) → Has self.old E
            → Leaves self.old self.new (IsWithOrWithout E batch.now) }
        // What it so leaves is the front of a list that a crash now may leave.
        ensures front { D.tells → IsWhole self.old → (E : List Entry) → Has self.old E
            → Leaves self.old self.new (IsFrontIn self.new) }
    {
        if self.broken.is_some() {
            return Err(AppendRefusal::Store);
        }
        let more = batch.len() + 5;
        if limit < more || limit - more < self.length {
            return Err(AppendRefusal::Full);
        }
        match write_frame(&mut self.disk, self.length, batch.frame()) {
            Ok(()) => {
                self.length += more;
                Ok(())
            }
            Err(Failed) => {
                self.broken = Some(self.disk.fault_count());
                Err(AppendRefusal::Store)
            }
        }
    }

    /// The entries, read again.
    pub fn entries(&mut self, alloc: Global) -> Result<Vec<Entry>, EntriesRefusal>
        ensures entries { D.tells → (E : List Entry) → Has self.old E → IfOk result (λ v. v.items ≡ E) }
        ensures store { IsErrOf result EntriesRefusal.Store → HasFault self.old self.new }
        ensures for_good { IsBroken self.old → StaysBroken result EntriesRefusal.Store self.old self.new }
        ensures first_fault { IsWhole self.old → IsErrOf result EntriesRefusal.Store → KeepsFirstFault self.new }
        ensures still_whole { IsWhole self.old → (result ≢ Err EntriesRefusal.Store) → IsWhole self.new }
        ensures length { length_of self.new ≡ length_of self.old }
        ensures later { faults_in self.old ≤ faults_in self.new }
        // Nothing is written, and a crash at any moment of the call leaves what it might have left before.
        ensures seen { seen_in self.new ≡ seen_in self.old }
        ensures synced { synced_in self.new ≡ synced_in self.old }
        ensures written { written_in self.new ≡ written_in self.old }
        ensures any_moment { D.tells → Leaves self.old self.new (CrashLeaves self.old) }
    {
        if self.broken.is_some() {
            return Err(EntriesRefusal::Store);
        }
        match load(alloc, &mut self.disk) {
            Err(LoadRefusal::Store) => {
                let count = self.disk.fault_count();
                self.broken = Some(count);
                Err(EntriesRefusal::Store)
            }
            Err(LoadRefusal::Memory) => Err(EntriesRefusal::Memory),
            Ok(bytes) => match entries_of(alloc, &bytes) {
                Ok(entries) => Ok(entries),
                Err(Memory) => Err(EntriesRefusal::Memory),
            },
        }
    }
}
