// A Boot is appended to a store that was read.
ghost use Rattle.std.specs.Prelude.{◌∷◌, ◌++◌, ◌≡◌, ◌≢◌, ◌+◌, ◌≤◌, [], List, IfErr, OnOk};
ghost use Rattle.ps_journal.specs.Journal.{Has, IsWhole, Keeps, Leaves, disk_of, faults_in, length_of};
ghost use Rattle.ps_journal.specs.Left.{IsWithOrWithout};
ghost use Rattle.ps_journal.specs.Places.{entries_in};
ghost use Rattle.ps_types.specs.declared.entry.Entry.{Entry};
ghost use Rattle.ps_hall_open.specs.Begun.{IsBoot, frame_of};
ghost use Rattle.ps_hall_open.specs.Left.{FrontsIn};
ghost use Rattle.ps_hall_open.specs.Opens.{IsRestored, NotRestored};
ghost use Rattle.ps_hall_open.specs.Replayed.{HasTaken};

use crate::beginning::begin;
use crate::opened::{OpenWhy, Rebuilt};
use ps_disk::Disk;
use ps_journal::{Journal, Trail};
use ps_types::Entry;
use std::alloc::Global;
use std::thread::Threads;

/// Takes a Boot behind the entries of a store, and appends it.
pub(crate) fn restore<R: Threads + Sync, D: Disk>(
    rt: &R,
    alloc: Global,
    journal: &mut Journal<D>,
    rebuilt: &mut Rebuilt,
    boot: &Entry,
    _placed: &Trail,
    whole: u64,
) -> Result<(), OpenWhy>
    requires taken { HasTaken _placed.now.items rebuilt.old }
    requires boot { IsBoot boot.now }
    requires unbroken { IsWhole journal.old }
    ensures restored { OnOk result (IsRestored (entries_in _placed.now.items) boot.now rebuilt.new) }
    ensures unbroken { OnOk result (IsWhole journal.new) }
    ensures length { OnOk result (length_of journal.new ≡ length_of journal.old + frame_of boot.now) }
    ensures room { OnOk result (length_of journal.old + frame_of boot.now ≤ whole) }
    ensures err { IfErr result (NotRestored journal.old journal.new _placed.now.items boot.now whole) }
    // Unless the disk failed nothing is written then.
    ensures untouched { IfErr result (λ why. why ≢ OpenWhy.Store → disk_of journal.new ≡ disk_of journal.old) }
    ensures later { faults_in journal.old ≤ faults_in journal.new }
    ensures entries { D.tells → Has journal.old (entries_in _placed.now.items)
        → OnOk result (Has journal.new (entries_in _placed.now.items ++ boot.now ∷ [])) }
    ensures durable { D.tells → Has journal.old (entries_in _placed.now.items)
        → OnOk result (Keeps journal.new (entries_in _placed.now.items ++ boot.now ∷ [])) }
    // A crash at any moment leaves the entries, or those and the Boot, where it would leave the entries before.
    ensures any_moment { D.tells → (E : List Entry) → Has journal.old E → Keeps journal.old E
        → Leaves journal.old journal.new (IsWithOrWithout E (boot.now ∷ [])) }
    // What it so leaves, or might have left before, is a front of a list that a crash now may leave.
    ensures fronts { D.tells → (E : List Entry) → Has journal.old E → Keeps journal.old E
        → FrontsIn journal.old journal.new }
{
    begin(rt, alloc, journal, &mut rebuilt.service, boot, whole)
}
