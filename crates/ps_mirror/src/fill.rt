// All lines of a source.
ghost use Rattle.std.specs.Prelude.{◌≡◌, ◌≤◌, ◌<◌, ◌^◌, Some, None, true, false, IfErr, IfOk, OnOk, IsErrOf};
ghost use Rattle.ps_base.specs.Causes.{Rose};
ghost use Rattle.ps_wire.specs.Reading.{Gave, budget_of, given_of, rest_of, source_of, stopped_of};
ghost use Rattle.ps_wire.specs.declared.lines.NextLineRefusal.TheVariants.{ReadFault, Long};
ghost use Rattle.ps_mirror.specs.Filled.{HasTaken, IsCause, IsOnTheWay, IsReadWhole};

use crate::mirror::Mirror;
use ps_wire::{Lines, NextLine, NextLineRefusal, Source};
use std::alloc::Global;

// Takes the next line, if there is one.
fn take_next<S: Source>(
    alloc: Global,
    mirror: &mut Mirror,
    lines: &mut Lines<S>,
) -> Result<bool, NextLineRefusal>
    requires going { stopped_of lines.old ≡ None }
    ensures more { IfOk result (λ more. more ≡ true
        → IsOnTheWay (rest_of lines.old) mirror.old (rest_of lines.new) mirror.new) }
    ensures done { IfOk result (λ more. more ≡ false
        → HasTaken (rest_of lines.old) mirror.old mirror.new) }
    ensures falls { IfOk result (λ more. more ≡ true → budget_of lines.new < budget_of lines.old) }
    ensures going { OnOk result (stopped_of lines.new ≡ None) }
    ensures gave { Gave (S.left (source_of lines.old)) (S.left (source_of lines.new)) (given_of lines.old)
        (given_of lines.new) }
    ensures whole { IfOk result (λ more. more ≡ false
        → IsReadWhole (rest_of lines.old) (S.left (source_of lines.new))) }
    ensures later { S.faults (source_of lines.old) ≤ S.faults (source_of lines.new) }
    ensures fault { IsErrOf result ReadFault
        → Rose (S.faults (source_of lines.old)) (S.faults (source_of lines.new)) }
    ensures long { IsErrOf result Long → given_of lines.new ≡ 2 ^ 40 }
    ensures cause { IfErr result (IsCause (stopped_of lines.new)) }
{
    match lines.next(alloc)? {
        NextLine::Line(line) => {
            mirror.take(alloc, line.as_slice())?;
            Ok(true)
        }
        NextLine::TooLong => Ok(true),
        NextLine::End => Ok(false),
    }
}

/// Takes the lines of a source to its end. Those that are too long tell nothing.
pub(crate) fn take_lines<S: Source>(
    alloc: Global,
    mirror: &mut Mirror,
    lines: &mut Lines<S>,
) -> Result<(), NextLineRefusal>
    requires going { stopped_of lines.old ≡ None }
    ensures taken { OnOk result (HasTaken (rest_of lines.old) mirror.old mirror.new) }
    ensures going { OnOk result (stopped_of lines.new ≡ None) }
    ensures gave { Gave (S.left (source_of lines.old)) (S.left (source_of lines.new)) (given_of lines.old)
        (given_of lines.new) }
    ensures whole { OnOk result (IsReadWhole (rest_of lines.old) (S.left (source_of lines.new))) }
    ensures later { S.faults (source_of lines.old) ≤ S.faults (source_of lines.new) }
    ensures fault { IsErrOf result ReadFault
        → Rose (S.faults (source_of lines.old)) (S.faults (source_of lines.new)) }
    ensures long { IsErrOf result Long → given_of lines.new ≡ 2 ^ 40 }
    ensures cause { IfErr result (IsCause (stopped_of lines.new)) }
{
    while take_next(alloc, mirror, lines)? {}
    Ok(())
}
