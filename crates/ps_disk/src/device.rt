// A disk: what a read gives, what stood at the last sync, and the ranges written since.
ghost use Rattle.std.specs.Prelude.{◌≡◌, ◌⊎◌, ◌∷◌, ◌++◌, ◌+◌, ◌≤◌, [], List, ℕ, length, take, drop, IfOk, OnOk, OnErr};
ghost use Rattle.ps_base.specs.Causes.{HasCause};
ghost use Rattle.ps_disk.specs.Disk.{Holds, TornAt, MayLeave, GoesOn, MayHaveOneMore, StaysPending};

use ps_base::Failed;

/// A device that is read and written at byte offsets, and synced.
pub trait Disk {
    /// Holds where the disk tells its content.
    ghost tells: { Type 0 };

    /// The bytes that a read gives.
    ghost seen: { Self → List ℕ };

    /// The bytes as they were at the last sync that succeeded.
    ghost synced: { Self → List ℕ };

    /// The ranges written since, by offset and length, the newest first.
    ghost written: { Self → List (ℕ × ℕ) };

    /// The moment, as a number that doesn't fall.
    ghost moment: { Self → ℕ };

    /// What a crash at some moment from that one on might have left.
    ghost left_since: { Self → ℕ → List ℕ → Type 0 };

    /// How often a sync has succeeded.
    ghost syncs: { Self → ℕ };

    /// How often the disk has failed. The count stands still at its type's end.
    ghost faults: { Self → ℕ };

    /// How many bytes the disk has.
    fn len(&mut self) -> Result<u64, Failed>
        ensures length { tells → IfOk result (λ n. n ≡ length (seen self.old)) }
        ensures seen { seen self.new ≡ seen self.old }
        ensures synced { synced self.new ≡ synced self.old }
        ensures written { written self.new ≡ written self.old }
        ensures syncs { tells → syncs self.new ≡ syncs self.old }
        ensures time { tells → GoesOn moment left_since synced written self.old self.new }
        ensures cause { HasCause (faults self.old) (faults self.new) result };

    /// Reads the bytes from the offset on. Fewer than the room has come only at the end of the disk.
    fn read_at(&mut self, at: u64, room: &mut [u8]) -> Result<usize, Failed>
        ensures bound { IfOk result (λ n. n ≤ length room.new) }
        ensures bytes { tells → IfOk result (λ n. take n room.new ≡ take (length room.new) (drop at (seen self.old))) }
        ensures seen { seen self.new ≡ seen self.old }
        ensures synced { synced self.new ≡ synced self.old }
        ensures written { written self.new ≡ written self.old }
        ensures syncs { tells → syncs self.new ≡ syncs self.old }
        ensures time { tells → GoesOn moment left_since synced written self.old self.new }
        ensures cause { HasCause (faults self.old) (faults self.new) result };

    /// Writes over what is there, and past the end. A write that fails may have written any part.
    fn write_at(&mut self, at: u64, piece: &[u8]) -> Result<(), Failed>
        requires { tells → at ≤ length (seen self.old) }
        ensures ok { tells → OnOk result (Holds (seen self.old) at piece.now (seen self.new)) }
        ensures failed { tells → OnErr result (TornAt at (length piece.now) (seen self.old) (seen self.new)) }
        ensures synced { tells → synced self.new ≡ synced self.old }
        ensures counted { tells → OnOk result (written self.new ≡ (at, length piece.now) ∷ written self.old) }
        ensures maybe { tells → MayHaveOneMore (at, length piece.now) (written self.old) (written self.new) }
        ensures syncs { tells → syncs self.new ≡ syncs self.old }
        ensures time { tells → GoesOn moment left_since synced written self.old self.new }
        ensures cause { HasCause (faults self.old) (faults self.new) result };

    /// Once it succeeds, a crash leaves what a read gives.
    fn sync(&mut self) -> Result<(), Failed>
        ensures seen { tells → seen self.new ≡ seen self.old }
        ensures ok { tells → OnOk result ((synced self.new ≡ seen self.old) × (written self.new ≡ [])) }
        ensures failed { tells → OnErr result (StaysPending synced written self.old self.new) }
        ensures counted { tells → OnOk result (syncs self.new ≡ syncs self.old + 1) }
        ensures time { tells → GoesOn moment left_since synced written self.old self.new }
        ensures cause { HasCause (faults self.old) (faults self.new) result };

    /// How often the disk has failed.
    fn fault_count(&self) -> u64
        ensures { result ≡ faults self.now };

    /// What is seen is one of the contents that a crash may leave.
    ghost seen_left: { (d : Self) → MayLeave (synced d) (written d) (seen d) };

    /// This moment is one of those since an earlier one.
    ghost counts_now: { (d : Self) (t : ℕ) (c : List ℕ) → t ≤ moment d
        → MayLeave (synced d) (written d) c → left_since d t c };

    /// Since this moment there is no other.
    ghost only_now: { (d : Self) (c : List ℕ) → left_since d (moment d) c → MayLeave (synced d) (written d) c };
}
