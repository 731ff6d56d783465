// A store of a world, audited.
ghost use Rattle.std.specs.Prelude.{◌≡◌, ◌≢◌, ◌≤◌, Err, IsErrOf};
ghost use Rattle.ps_endpoints.specs.Ports.{FailedToOpen};
ghost use Rattle.ps_status.specs.Asking.{AsksInOrder};
ghost use Rattle.ps_status.specs.Leaving.{LeavesBut};
ghost use Rattle.ps_status.specs.Outside.{outside};
ghost use Rattle.ps_status.specs.Telling.{told_from};
ghost use Rattle.ps_audit_command.specs.Auditing.{Explains, Lists, came_by, store_openings, store_touches};

use ps_audit_run::{AuditRun, run_explain, run_readers};
use ps_base::{Bytes, Listed};
use ps_commands::{ExplainWords, ReadersWords};
use ps_hall_open::ReadWhy;
use ps_io::{Missing, World};
use ps_status::{Status, refused};
use std::alloc::Global;
use std::random::RandomSource;
use std::thread::Threads;

fn came_of(report: Result<Listed<Bytes>, ReadWhy>) -> Result<Listed<Bytes>, Status>
    ensures { result ≡ came_by report }
{
    match report {
        Ok(lines) => Ok(lines),
        Err(ReadWhy::Damaged { at }) => Err(Status::StoreDamaged { at }),
        Err(ReadWhy::Store) => Err(Status::StoreFault),
        Err(ReadWhy::Memory) => Err(Status::Memory),
    }
}

/// Opens a store that is there, has it told how the verdicts for an address on a node came about, and gives it back.
///
/// `OpenFault`: the store isn't there, or could not be opened. `StoreDamaged`: its bytes have no list of entries. `StoreFault`: its disk failed.
pub fn explain_store<R: RandomSource + Threads + Sync, W: World>(
    rt: &R,
    alloc: Global,
    words: &ExplainWords,
    world: &mut W,
) -> Result<Listed<Bytes>, Status>
    ensures explains { Explains W.Store.tells words.now (outside W.World world.old) (outside W.World world.new)
        (W.lefts world.old) (W.lefts world.new) result }
    ensures never { result ≢ Err Status.Usage }
    ensures open { IsErrOf result Status.OpenFault → FailedToOpen W.World world.old world.new }
    ensures asked { AsksInOrder (store_openings words.now.store) (W.asked world.old) (W.asked world.new) }
    ensures others { LeavesBut (store_touches words.now.store) (outside W.World world.old)
        (outside W.World world.new) (W.lefts world.old) (W.lefts world.new) }
    ensures reported { W.reported world.new ≡ W.reported world.old }
    ensures since { told_from result (W.faults world.old) (W.last_opening world.new) ≤ W.faults world.new }
{
    let disk = match world.open_disk(&words.store, Missing::Refuse) {
        Ok(disk) => disk,
        Err(why) => return Err(refused(why)),
    };
    let AuditRun { disk, report } = run_explain(rt, alloc, &words.who, &words.node, disk);
    world.give_back_disk(&words.store, disk);
    came_of(report)
}

/// Opens a store that is there, has it told who may read a node, and gives it back. The causes are those of [`explain_store`].
pub fn list_readers<R: RandomSource + Threads + Sync, W: World>(
    rt: &R,
    alloc: Global,
    words: &ReadersWords,
    world: &mut W,
) -> Result<Listed<Bytes>, Status>
    ensures lists { Lists W.Store.tells words.now (outside W.World world.old) (outside W.World world.new)
        (W.lefts world.old) (W.lefts world.new) result }
    ensures never { result ≢ Err Status.Usage }
    ensures open { IsErrOf result Status.OpenFault → FailedToOpen W.World world.old world.new }
    ensures asked { AsksInOrder (store_openings words.now.store) (W.asked world.old) (W.asked world.new) }
    ensures others { LeavesBut (store_touches words.now.store) (outside W.World world.old)
        (outside W.World world.new) (W.lefts world.old) (W.lefts world.new) }
    ensures reported { W.reported world.new ≡ W.reported world.old }
    ensures since { told_from result (W.faults world.old) (W.last_opening world.new) ≤ W.faults world.new }
{
    let disk = match world.open_disk(&words.store, Missing::Refuse) {
        Ok(disk) => disk,
        Err(why) => return Err(refused(why)),
    };
    let AuditRun { disk, report } = run_readers(rt, alloc, &words.node, disk);
    world.give_back_disk(&words.store, disk);
    came_of(report)
}
