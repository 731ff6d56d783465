// What is reported.
ghost use Rattle.std.specs.Prelude.{◌≡◌, ◌⊎◌, ◌≤◌, OnOk};
ghost use Rattle.std.specs.Io.KnownBytes.{Appends};
ghost use Rattle.ps_base.specs.Causes.{HasCause};
ghost use Rattle.ps_io.specs.World.{ReportsFront};
ghost use Rattle.ps_status.specs.Statuses.{report_of};
ghost use Rattle.ps_status.specs.Telling.{IsReported, OnlyTells, TellsText, text_of};

use crate::status::Status;
use ps_base::{Bytes, Failed};
use ps_io::{World, WorldRefusal};

/// How a run ends that could not open an object.
pub fn refused(why: WorldRefusal) -> Status
    ensures open { result ≡ Status.OpenFault → why ≡ WorldRefusal.Failed }
    ensures failed { why ≡ WorldRefusal.Failed → result ≡ Status.OpenFault }
    ensures only { (result ≡ Status.OpenFault) ⊎ (result ≡ Status.Memory) }
{
    match why {
        WorldRefusal::Failed => Status::OpenFault,
        WorldRefusal::Memory => Status::Memory,
    }
}

/// Reports how the run ended. A report that fails changes nothing of that.
pub fn tell<W: World>(status: Status, world: &mut W)
    ensures reported { IsReported (W.reported world.old) (W.reported world.new) (report_of status)
        (W.faults world.old) (W.faults world.new) }
    ensures only { OnlyTells W.World world.old world.new }
    ensures later { W.faults world.old ≤ W.faults world.new }
{
    let line = status.report();
    if line.is_empty() {
        return;
    }
    let _ = world.report(line.as_str().as_bytes());
}

// Reports each line, up to a report that fails.
fn report_lines<W: World>(lines: &[Bytes], world: &mut W) -> Result<(), Failed>
    ensures whole { OnOk result (Appends (W.reported world.old) (W.reported world.new) (text_of lines.now)) }
    ensures part { ReportsFront (W.reported world.old) (W.reported world.new) (text_of lines.now) }
    ensures only { OnlyTells W.World world.old world.new }
    ensures cause { HasCause (W.faults world.old) (W.faults world.new) result }
{
    let mut rest = lines;
    while let Some((line, others)) = rest.split_first() {
        world.report(line.as_slice())?;
        rest = others;
    }
    Ok(())
}

/// Reports the lines, each of which ends in its newline. Where a report fails that is how the run ended, and nothing is reported after it.
pub fn tell_lines<W: World>(lines: &[Bytes], world: &mut W) -> Status
    ensures told { TellsText (text_of lines.now) (W.reported world.old) (W.reported world.new)
        (W.faults world.old) (W.faults world.new) result }
    ensures only { OnlyTells W.World world.old world.new }
    ensures later { W.faults world.old ≤ W.faults world.new }
{
    match report_lines(lines, world) {
        Ok(()) => Status::Done,
        Err(Failed) => Status::StreamFault,
    }
}
