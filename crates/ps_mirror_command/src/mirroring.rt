// A source of a world, mirrored.
ghost use Rattle.std.specs.Prelude.{◌≡◌, ◌≢◌, ◌≤◌, Err, IsErrOf};
ghost use Rattle.ps_endpoints.specs.Ports.{FailedToOpen};
ghost use Rattle.ps_commands.specs.Well.{IsWellMirrored};
ghost use Rattle.ps_status.specs.Asking.{AsksInOrder};
ghost use Rattle.ps_status.specs.Leaving.{LeavesBut};
ghost use Rattle.ps_status.specs.Outside.{outside};
ghost use Rattle.ps_status.specs.Telling.{told_from};
ghost use Rattle.ps_mirror_command.specs.Mirroring.{Mirrors, came_by, mirror_openings, mirror_touches};

use ps_base::{Bytes, Listed};
use ps_commands::MirrorWords;
use ps_io::World;
use ps_mirror::{MirrorRun, run_mirror};
use ps_status::{Status, refused};
use ps_wire::NextLineRefusal;
use std::alloc::Global;

fn came_of(report: Result<Listed<Bytes>, NextLineRefusal>) -> Result<Listed<Bytes>, Status>
    ensures { result ≡ came_by report }
{
    match report {
        Ok(lines) => Ok(lines),
        Err(NextLineRefusal::ReadFault) => Err(Status::StreamFault),
        Err(NextLineRefusal::Long) => Err(Status::StreamLong),
        Err(NextLineRefusal::Memory) => Err(Status::Memory),
    }
}

/// Opens the source, takes its lines as what an address was told of a node, and gives it back. The lines tell the items that the address has then.
///
/// `OpenFault`: the source could not be opened. `StreamFault`: it failed. `StreamLong`: it gave 2^40 bytes.
pub fn mirror_source<W: World>(
    alloc: Global,
    words: &MirrorWords,
    world: &mut W,
) -> Result<Listed<Bytes>, Status>
    requires well { IsWellMirrored words.now }
    ensures mirrors { Mirrors words.now (outside W.World world.old) (outside W.World world.new)
        (W.lefts world.old) (W.lefts world.new) result }
    ensures never { result ≢ Err Status.Usage }
    ensures open { IsErrOf result Status.OpenFault → FailedToOpen W.World world.old world.new }
    ensures asked { AsksInOrder (mirror_openings words.now) (W.asked world.old) (W.asked world.new) }
    ensures others { LeavesBut (mirror_touches words.now) (outside W.World world.old) (outside W.World world.new)
        (W.lefts world.old) (W.lefts world.new) }
    ensures reported { W.reported world.new ≡ W.reported world.old }
    ensures since { told_from result (W.faults world.old) (W.last_opening world.new) ≤ W.faults world.new }
{
    let source = match world.open_source(&words.source) {
        Ok(source) => source,
        Err(why) => return Err(refused(why)),
    };
    let MirrorRun { source, report } = run_mirror(
        alloc,
        &words.node.service,
        &words.node.name,
        &words.who,
        words.most,
        source,
    );
    world.give_back(&words.source, source);
    came_of(report)
}
