// A state whose service was booted, with one host that has no line yet.
ghost use Rattle.std.specs.Prelude.{◌≡◌, ◌≤◌, ◌^◌, [], codes, IfOk};
ghost use Rattle.ps_types.specs.declared.entry.Entry.{Entry};
ghost use Rattle.ps_model.specs.After.{after};
ghost use Rattle.ps_model.specs.Book.{empty_state};
ghost use Rattle.ps_hall_state.specs.Stand.{IsStanding};
ghost use Rattle.ps_hall_state_tests.specs.Fresh.{AreFresh, IsFresh};

use ps_hall_state::{HostRow, Limits, Service, State};
use ps_outbox::Outboxes;
use ps_types::{Entry, Text};
use std::alloc::Global;
use std::process::Abort;
use std::test::Fail;
use std::thread::Threads;

fn fresh_row(alloc: Global) -> Result<HostRow, Fail>
    ensures { IfOk result IsFresh }
{
    Ok(HostRow {
        host: Text::of(alloc, "a.example")?,
        line: 0,
        waiting: Vec::with_capacity(alloc, 64)?,
        landing: None,
        reader_ended: false,
        writer_ended: false,
    })
}

fn fresh_rows(alloc: Global) -> Result<Vec<HostRow>, Fail>
    ensures { IfOk result (λ rows. AreFresh rows.items) }
{
    let row = fresh_row(alloc)?;
    let mut rows = Vec::new(alloc);
    rows.push(row)?;
    Ok(rows)
}

// The store has a closed gate behind the frame of a Boot: 31 bytes.
fn state_of(
    alloc: Global,
    service: Service,
    queues: Outboxes,
    rows: Vec<HostRow>,
    limits: Limits,
) -> State
    requires booted { service.state ≡ after empty_state (Entry.Boot (codes "pubsub.example")) }
    requires queues { queues.waiting ≡ [] }
    requires held { queues.held ≡ [] }
    requires rows { AreFresh rows.items }
    requires limits { (limits.changes ≤ 2 ^ 30) × (limits.whole ≤ 2 ^ 30) }
    ensures { IsStanding result }
{
    State {
        service,
        queues,
        rows,
        batch: None,
        count: 1,
        length: 31,
        broken: false,
        steps: 0,
        flushed: 0,
        durable: 1,
        limits,
        alloc,
    }
}

fn booted(rt: &(impl Abort + Threads + Sync), alloc: Global) -> Result<Service, Fail>
    ensures { IfOk result (λ s. s.state ≡ after empty_state (Entry.Boot (codes "pubsub.example"))) }
{
    let boot = Entry::Boot {
        service: Text::of(alloc, "pubsub.example")?,
    };
    let mut service = Service::new(alloc)?;
    let accepted = service.accepts(&boot)?;
    assert!(rt; accepted);
    let _ = service.apply(rt, &boot)?;
    Ok(service)
}

/// A state before its first step, whose store may become so long.
pub fn opened(
    rt: &(impl Abort + Threads + Sync),
    alloc: Global,
    limits: Limits,
) -> Result<State, Fail>
    ensures { IfOk result IsStanding }
{
    assert!(rt; limits.changes <= 10_000);
    assert!(rt; limits.whole <= 10_000);
    let service = booted(rt, alloc)?;
    let queues = Outboxes::new(alloc)?;
    let rows = fresh_rows(alloc)?;
    Ok(state_of(alloc, service, queues, rows, limits))
}
