// The Boot with which the two values begin.
ghost use Rattle.std.specs.Prelude.{◌≡◌, ◌≢◌, ◌∷◌, ◌++◌, ◌+◌, ◌<◌, ◌≤◌, ◌^◌, [], List, ℕ, Some, true, IfErr, IfOk, IsErrOf, OnOk};
ghost use Rattle.ps_model.specs.After.{after};
ghost use Rattle.ps_model.specs.Replay.{accepted};
ghost use Rattle.ps_journal.specs.Journal.{Has, IsWhole, Keeps, Leaves, disk_of, faults_in, length_of};
ghost use Rattle.ps_journal.specs.Left.{IsWithOrWithout};
ghost use Rattle.ps_types.specs.declared.entry.Entry.{Entry};
ghost use Rattle.ps_hall_open.specs.Begun.{IsBoot, NotBegun, frame_of};
ghost use Rattle.ps_hall_open.specs.Left.{FrontsIn};

use crate::opened::OpenWhy;
use ps_base::Memory;
use ps_disk::Disk;
use ps_hall_state::Service;
use ps_journal::{AppendRefusal, Journal};
use ps_record::Batch;
use ps_types::Entry;
use std::alloc::Global;
use std::thread::Threads;

// The Boot alone.
fn batch_of(alloc: Global, boot: &Entry) -> Result<Batch, Memory>
    requires boot { IsBoot boot.now }
    ensures { IfOk result (λ b. b ≡ boot.now ∷ []) }
{
    let mut batch = Batch::new(alloc)?;
    batch.push(boot)?;
    Ok(batch)
}

// Appends the batch of the prepared entry, and takes the entry.
fn append_boot<D: Disk>(
    journal: &mut Journal<D>,
    service: &mut Service,
    boot: &Entry,
    batch: &Batch,
    whole: u64,
) -> Result<(), OpenWhy>
    requires unbroken { IsWhole journal.old }
    requires prepared { service.old.prepared ≡ Some boot.now }
    requires batch { batch.now ≡ boot.now ∷ [] }
    ensures state { OnOk result (service.new.state ≡ after service.old.state boot.now) }
    ensures unbroken { OnOk result (IsWhole journal.new) }
    ensures length { OnOk result (length_of journal.new ≡ length_of journal.old + frame_of boot.now) }
    ensures room { OnOk result (length_of journal.old + frame_of boot.now ≤ whole) }
    ensures err { IfErr result (NotBegun journal.old journal.new boot.now whole) }
    // It takes no memory.
    ensures memory { IsErrOf result OpenWhy.Memory → ⊥ }
    ensures untouched { IfErr result (λ why. why ≢ OpenWhy.Store → disk_of journal.new ≡ disk_of journal.old) }
    ensures later { faults_in journal.old ≤ faults_in journal.new }
    ensures entries { D.tells → (E : List Entry) → Has journal.old E
        → OnOk result (Has journal.new (E ++ boot.now ∷ [])) }
    ensures durable { D.tells → (E : List Entry) → Has journal.old E
        → OnOk result (Keeps journal.new (E ++ boot.now ∷ [])) }
    ensures any_moment { D.tells → (E : List Entry) → Has journal.old E
        → Leaves journal.old journal.new (IsWithOrWithout E (boot.now ∷ [])) }
    ensures fronts { D.tells → (E : List Entry) → Has journal.old E → Keeps journal.old E
        → FrontsIn journal.old journal.new }
{
    match journal.append(batch, whole) {
        Ok(()) => {
            service.commit();
            Ok(())
        }
        Err(AppendRefusal::Full) => Err(OpenWhy::Full),
        Err(AppendRefusal::Store) => Err(OpenWhy::Store),
    }
}

/// Appends the Boot, if it fits, and takes it. It makes no notices.
pub(crate) fn begin<R: Threads + Sync, D: Disk>(
    rt: &R,
    alloc: Global,
    journal: &mut Journal<D>,
    service: &mut Service,
    boot: &Entry,
    whole: u64,
) -> Result<(), OpenWhy>
    requires boot { IsBoot boot.now }
    requires unbroken { IsWhole journal.old }
    requires accepted { accepted service.old.state boot.now ≡ true }
    requires few { service.old.state.count < 2 ^ 62 }
    ensures state { OnOk result (service.new.state ≡ after service.old.state boot.now) }
    ensures unbroken { OnOk result (IsWhole journal.new) }
    ensures length { OnOk result (length_of journal.new ≡ length_of journal.old + frame_of boot.now) }
    ensures room { OnOk result (length_of journal.old + frame_of boot.now ≤ whole) }
    ensures err { IfErr result (NotBegun journal.old journal.new boot.now whole) }
    ensures untouched { IfErr result (λ why. why ≢ OpenWhy.Store → disk_of journal.new ≡ disk_of journal.old) }
    ensures later { faults_in journal.old ≤ faults_in journal.new }
    ensures entries { D.tells → (E : List Entry) → Has journal.old E
        → OnOk result (Has journal.new (E ++ boot.now ∷ [])) }
    ensures durable { D.tells → (E : List Entry) → Has journal.old E
        → OnOk result (Keeps journal.new (E ++ boot.now ∷ [])) }
    // A crash at any moment leaves the entries, or those and the Boot, where it would leave the entries before.
    ensures any_moment { D.tells → (E : List Entry) → Has journal.old E → Keeps journal.old E
        → Leaves journal.old journal.new (IsWithOrWithout E (boot.now ∷ [])) }
    // What it so leaves, or might have left before, is a front of a list that a crash now may leave.
    ensures fronts { D.tells → (E : List Entry) → Has journal.old E → Keeps journal.old E
        → FrontsIn journal.old journal.new }
{
    match batch_of(alloc, boot) {
        Err(Memory) => Err(OpenWhy::Memory),
        Ok(batch) => match service.prepare(rt, boot) {
            Err(Memory) => Err(OpenWhy::Memory),
            Ok(_) => append_boot(journal, service, boot, &batch, whole),
        },
    }
}
