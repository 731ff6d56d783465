// A source, mirrored and reported.
ghost use Rattle.std.specs.Prelude.{◌≡◌, ◌≤◌, IfErr, IfOk};
ghost use Rattle.ps_wire.specs.Reading.{IsFresh, source_of, stopped_of};
ghost use Rattle.ps_mirror.specs.Filled.{IsCause};
ghost use Rattle.ps_mirror.specs.Report.{RanMirror, reported_line, reported_lines};

use crate::copied::Copied;
use crate::fill::take_lines;
use crate::mirror::Mirror;
use crate::report::item_line;
use ps_base::{Bytes, Listed, Memory};
use ps_types::{Jid, Text};
use ps_wire::{Lines, LinesRefusal, NextLineRefusal, Source};
use std::alloc::Global;

/// A source that was mirrored: it comes back, behind the bytes that it gave, and beside it stands the report.
pub struct MirrorRun<S> {
    pub source: S,
    /// A line for each item of the copy, in order, each with its newline; or why there is none: the source failed, or gave
    /// 2^40 bytes, or memory ran out.
    pub report: Result<Listed<Bytes>, NextLineRefusal>,
}

fn reported_line_of(alloc: Global, item: &Copied) -> Result<Bytes, Memory>
    ensures { IfOk result (λ line. line ≡ reported_line item.now) }
{
    let mut line = item_line(alloc, item)?.into_vec();
    line.push(b'\n')?;
    Ok(Bytes::from_vec(line))
}

// A line for each item.
fn report_of(alloc: Global, items: &[Copied]) -> Result<Listed<Bytes>, Memory>
    ensures { IfOk result (λ lines. lines ≡ reported_lines items.now) }
{
    let mut lines = Listed::new(alloc);
    for item in items {
        lines.push(reported_line_of(alloc, item)?)?;
    }
    Ok(lines)
}

// Takes all lines, and reports the items.
fn mirror_lines<S: Source>(
    alloc: Global,
    service: &Jid,
    node: &Text,
    who: &Jid,
    max: u64,
    lines: &mut Lines<S>,
) -> Result<Listed<Bytes>, NextLineRefusal>
    requires some { 1 ≤ max }
    requires most { max ≤ 1000 }
    requires fresh { IsFresh lines.old }
    ensures ran { RanMirror (record { service = service.now; name = node.now }) who.now max
        (S.left (source_of lines.old)) (S.left (source_of lines.new)) (S.faults (source_of lines.old))
        (S.faults (source_of lines.new)) result }
    ensures cause { IfErr result (IsCause (stopped_of lines.new)) }
{
    let mut mirror = Mirror::new(alloc, service, node, who, max)?;
    take_lines(alloc, &mut mirror, lines)?;
    Ok(report_of(alloc, mirror.items())?)
}

/// Takes the lines of a source to its end, as what an address was handed of a node, and reports the copy that they make of its items, of which at most so many
/// stay. Lines of more than 262,144 bytes tell the copy nothing.
pub fn run_mirror<S: Source>(
    alloc: Global,
    service: &Jid,
    node: &Text,
    who: &Jid,
    max: u64,
    source: S,
) -> MirrorRun<S>
    requires some { 1 ≤ max }
    requires most { max ≤ 1000 }
    ensures ran { RanMirror (record { service = service.now; name = node.now }) who.now max (S.left source)
        (S.left result.source) (S.faults source) (S.faults result.source) result.report }
{
    match Lines::new(alloc, source) {
        Ok(mut lines) => {
            let report = mirror_lines(alloc, service, node, who, max, &mut lines);
            MirrorRun {
                source: lines.close(),
                report,
            }
        }
        Err(LinesRefusal { source }) => MirrorRun {
            source,
            report: Err(NextLineRefusal::Memory),
        },
    }
}
