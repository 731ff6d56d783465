// The numbers of a rehearsal, reported.
ghost use Rattle.std.specs.Prelude.{◌≡◌, ◌≤◌, length, OnOk};
ghost use Rattle.std.specs.Io.KnownBytes.{Appends};
ghost use Rattle.ps_base.specs.Causes.{HasCause};
ghost use Rattle.ps_io.specs.World.{Reports, ReportsFront};
ghost use Rattle.ps_status.specs.Telling.{OnlyTells};
ghost use Rattle.ps_serve.specs.Numbers.{TellsNumbers, number_line as line_by, numbers_report};

use arrayvec::ArrayString;
use itoa::Buffer;
use ps_base::Failed;
use ps_io::World;
use ps_rehearse::Numbers;
use ps_status::Status;

fn number_line(name: &str, number: u64) -> ArrayString<32>
    requires { length name.now ≤ 8 }
    ensures { result.bytes ≡ line_by name.now number }
{
    let mut line = ArrayString::<32>::new();
    line.push_str(name);
    let mut digits = Buffer::new();
    line.push_str(digits.format(number));
    line.push_str("\n");
    line
}

fn report_number<W: World>(name: &str, number: u64, world: &mut W) -> Result<(), Failed>
    requires { length name.now ≤ 8 }
    ensures reported { Reports (W.reported world.old) (W.reported world.new) result (line_by name.now number) }
    ensures only { OnlyTells W.World world.old world.new }
    ensures cause { HasCause (W.faults world.old) (W.faults world.new) result }
{
    let line = number_line(name, number);
    world.report(line.as_str().as_bytes())
}

// A line for each number, up to a report that fails.
fn report_numbers<W: World>(numbers: &Numbers, world: &mut W) -> Result<(), Failed>
    ensures whole { OnOk result (Appends (W.reported world.old) (W.reported world.new) (numbers_report numbers.now)) }
    ensures part { ReportsFront (W.reported world.old) (W.reported world.new) (numbers_report numbers.now) }
    ensures only { OnlyTells W.World world.old world.new }
    ensures cause { HasCause (W.faults world.old) (W.faults world.new) result }
{
    report_number("stanzas ", numbers.stanzas, world)?;
    report_number("commits ", numbers.commits, world)?;
    report_number("results ", numbers.results, world)?;
    report_number("errors ", numbers.errors, world)?;
    report_number("notices ", numbers.notices, world)
}

/// Reports the numbers. Where a report fails that is how the run ended, and nothing is reported after it.
pub(crate) fn tell_numbers<W: World>(numbers: &Numbers, world: &mut W) -> Status
    ensures told { TellsNumbers numbers.now (W.reported world.old) (W.reported world.new)
        (W.faults world.old) (W.faults world.new) result }
    ensures only { OnlyTells W.World world.old world.new }
    ensures later { W.faults world.old ≤ W.faults world.new }
{
    match report_numbers(numbers, world) {
        Ok(()) => Status::Done,
        Err(Failed) => Status::StreamFault,
    }
}
