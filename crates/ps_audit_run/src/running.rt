// The store is opened, and its entries are audited.
ghost use Rattle.std.specs.Prelude.{◌≡◌, [], List, Err, IfOk};
ghost use Rattle.ps_audit.specs.Told.{TellsOn};
ghost use Rattle.ps_model.specs.Replay.{lawful, replay};
ghost use Rattle.ps_types.specs.declared.entry.Entry.{Entry};
ghost use Rattle.ps_audit_run.specs.Audited.{Audited, held_on, told_by};
ghost use Rattle.ps_audit_run.specs.Report.{explain_report, history_report, list_report, readers_in, readers_report};

use crate::lines::{explain_line, known_line, no_node_line, others_line};
use ps_audit::{
    ExplainLine, Explaining, Nobody, Observed, ReadOnlyRefusal, ReadWhy, observe, readers,
};
use ps_base::{Bytes, Listed, Memory};
use ps_core::Service;
use ps_disk::Disk;
use ps_types::{Jid, NodeKey, Verdict};
use std::alloc::Global;
use std::random::RandomSource;
use std::thread::Threads;

/// The disk of a store that was audited, and the lines of the report, each with its newline, or why there is none.
pub struct AuditRun<D: Disk> {
    pub disk: D,
    pub report: Result<Listed<Bytes>, ReadWhy>,
}

// The lines of a history.
fn history_lines(alloc: Global, history: &[ExplainLine]) -> Result<Listed<Bytes>, Memory>
    ensures { IfOk result (λ lines. lines ≡ history_report history.now) }
{
    let mut lines = Listed::new(alloc);
    'history: for line in history {
        lines.push(explain_line(alloc, line)?)?;
    }
    Ok(lines)
}

// The lines of a list of readers.
fn listed(alloc: Global, known: &[(Jid, Verdict)], others: Verdict) -> Result<Listed<Bytes>, Memory>
    ensures { IfOk result (λ lines. lines ≡ list_report known.now others) }
{
    let mut lines = Listed::new(alloc);
    'known: for line in known {
        lines.push(known_line(alloc, &line.0, line.1)?)?;
    }
    lines.push(others_line(alloc, others)?)?;
    Ok(lines)
}

// The lines of those who may read a node.
fn read_by(alloc: Global, service: &Service, node: &NodeKey) -> Result<Listed<Bytes>, Memory>
    requires replayed { (E : List Entry) × lawful E × (service.now.state ≡ replay E) }
    ensures { IfOk result (λ lines. lines ≡ readers_in service.now.state.book node.now) }
{
    match readers(alloc, service, node)? {
        None => {
            let mut lines = Listed::new(alloc);
            lines.push(no_node_line(alloc)?)?;
            Ok(lines)
        }
        Some(list) => listed(alloc, &list.known, list.others),
    }
}

// The report of a store whose disk this is.
fn told<D: Disk>(disk: D, lines: Result<Listed<Bytes>, Memory>) -> AuditRun<D>
    ensures disk { result.disk ≡ disk }
    ensures report { result.report ≡ told_by lines }
{
    match lines {
        Ok(lines) => AuditRun {
            disk,
            report: Ok(lines),
        },
        Err(Memory) => AuditRun {
            disk,
            report: Err(ReadWhy::Memory),
        },
    }
}

// There is no report of a store that wasn't opened.
fn refused<D: Disk>(refusal: ReadOnlyRefusal<D>) -> AuditRun<D>
    ensures disk { result.disk ≡ refusal.disk }
    ensures report { result.report ≡ Err refusal.why }
{
    let ReadOnlyRefusal { disk, why } = refusal;
    AuditRun {
        disk,
        report: Err(why),
    }
}

// The same of a store whose entries this sees.
fn explain_by<R: RandomSource + Threads + Sync, D: Disk>(
    rt: &R,
    alloc: Global,
    explaining: Explaining<'_>,
    disk: D,
) -> AuditRun<D>
    requires none { TellsOn explaining explaining [] }
    ensures { Audited D.tells (explain_report explaining.entry.who.now explaining.entry.node.now) (held_on D.Disk disk)
        (held_on D.Disk result.disk) (D.left_since result.disk) result.report }
{
    match observe(rt, alloc, disk, explaining) {
        Err(refusal) => refused(refusal),
        Ok(observed) => {
            let Observed {
                disk,
                service: _,
                observer,
                entries: _,
            } = observed;
            let history = observer.into_lines();
            let lines = history_lines(alloc, &history);
            told(disk, lines)
        }
    }
}

/// Reports how the verdicts for an address at a node of the store on a disk came about. The runtime gives the secret by which rows are found; no answer rests
/// on it.
pub fn run_explain<R: RandomSource + Threads + Sync, D: Disk>(
    rt: &R,
    alloc: Global,
    who: &Jid,
    node: &NodeKey,
    disk: D,
) -> AuditRun<D>
    ensures { Audited D.tells (explain_report who.now node.now) (held_on D.Disk disk) (held_on D.Disk result.disk)
        (D.left_since result.disk) result.report }
{
    match Explaining::new(alloc, who, node) {
        Err(Memory) => told(disk, Err(Memory)),
        Ok(explaining) => explain_by(rt, alloc, explaining, disk),
    }
}

/// Reports who may read a node of the store on a disk. The runtime gives the secret by which rows are found; no answer rests on it.
pub fn run_readers<R: RandomSource + Threads + Sync, D: Disk>(
    rt: &R,
    alloc: Global,
    node: &NodeKey,
    disk: D,
) -> AuditRun<D>
    ensures { Audited D.tells (readers_report node.now) (held_on D.Disk disk) (held_on D.Disk result.disk)
        (D.left_since result.disk) result.report }
{
    match observe(rt, alloc, disk, Nobody {}) {
        Err(refusal) => refused(refusal),
        Ok(observed) => {
            let Observed {
                disk,
                service,
                observer: _,
                entries: _,
            } = observed;
            let lines = read_by(alloc, &service, node);
            told(disk, lines)
        }
    }
}
