// A piece written and kept.
ghost use Rattle.std.specs.Prelude.{◌≡◌, ◌⊎◌, ◌∷◌, ◌+◌, ◌≤◌, [], length, OnOk, OnErr};
ghost use Rattle.ps_base.specs.Causes.{HasCause};
ghost use Rattle.ps_disk.specs.Disk.{Holds, MayLeave, LeavesOnly};

use crate::Disk;
use ps_base::Failed;

/// Writes a piece and syncs. Once it succeeds, a crash leaves what is seen then.
pub fn write_kept<D: Disk>(disk: &mut D, at: u64, piece: &[u8]) -> Result<(), Failed>
    requires { D.tells → at ≤ length (D.seen disk.old) }
    ensures ok { D.tells → OnOk result (Holds (D.seen disk.old) at piece.now (D.seen disk.new)) }
    ensures kept { D.tells → OnOk result ((D.synced disk.new ≡ D.seen disk.new) × (D.written disk.new ≡ [])) }
    // Meanwhile a crash leaves what it might have left, with the range in any state, or what is seen in the end.
    ensures during { D.tells → OnOk result (LeavesOnly D.moment D.left_since disk.old disk.new
        (λ c. MayLeave (D.synced disk.old) ((at, length piece.now) ∷ D.written disk.old) c ⊎ (c ≡ D.seen disk.new))) }
    // Where it fails, the range may be written or not, and a crash may still leave all that it might have left meanwhile.
    ensures failed { D.tells → OnErr result ((D.synced disk.new ≡ D.synced disk.old)
        × ((D.written disk.new ≡ D.written disk.old)
        ⊎ (D.written disk.new ≡ (at, length piece.now) ∷ D.written disk.old))) }
    ensures grows { D.tells → OnErr result (LeavesOnly D.moment D.left_since disk.old disk.new
        (λ c. MayLeave (D.synced disk.new) (D.written disk.new) c)) }
    ensures syncs { D.tells → OnOk result (D.syncs disk.new ≡ D.syncs disk.old + 1) }
    ensures cause { HasCause (D.faults disk.old) (D.faults disk.new) result }
{
    match disk.write_at(at, piece) {
        Err(Failed) => Err(Failed),
        Ok(()) => match disk.sync() {
            Err(Failed) => Err(Failed),
            Ok(()) => Ok(()),
        },
    }
}
