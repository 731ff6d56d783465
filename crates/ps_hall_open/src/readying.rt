// What is made ready before a store is opened.
ghost use Rattle.std.specs.Prelude.{◌≡◌, IfOk, None};
ghost use Rattle.ps_hall_open.specs.Fresh.{AreFreshRows, IsFreshRow};
ghost use Rattle.ps_hall_open.specs.Replayed.{IsFresh};
ghost use Rattle.ps_model.specs.Book.{empty_state};
ghost use Rattle.ps_types.specs.declared.entry.Entry.{Entry};

use crate::opened::Rebuilt;
use ps_base::Memory;
use ps_hall_state::{HostRow, Service};
use ps_outbox::Outboxes;
use ps_types::{Entry, Text};
use std::alloc::Global;
use std::random::RandomSource;

// A host before its first line.
fn fresh_row(alloc: Global, host: &Text) -> Result<HostRow, Memory>
    ensures host { IfOk result (λ row. row.host ≡ host.now) }
    ensures fresh { IfOk result (λ row. IsFreshRow row) }
{
    Ok(HostRow {
        host: host.clone()?,
        line: 0,
        waiting: Vec::with_capacity(alloc, 64)?,
        landing: None,
        reader_ended: false,
        writer_ended: false,
    })
}

// The rows of the hosts before their first lines.
fn rows_of(alloc: Global, hosts: &[Text]) -> Result<Vec<HostRow>, Memory>
    ensures { IfOk result (λ v. AreFreshRows hosts.now v.items) }
{
    let mut rows = Vec::new(alloc);
    'hosts: for host in hosts {
        let row = fresh_row(alloc, host)?;
        rows.push(row)?;
    }
    Ok(rows)
}

/// All that is wanted beside the store, but for what stands in the store.
#[derive(Drop)]
pub(crate) struct Ready {
    pub rebuilt: Rebuilt,
    pub boot: Entry,
    pub rows: Vec<HostRow>,
}

// A number that no stranger knows, or 0 where the system has none to give. The digests of the tables go by it, and no answer does.
fn secret<R: RandomSource>(rt: &R) -> u64 {
    let mut bytes = [0; 8];
    match rt.fill_bytes(&mut bytes) {
        Ok(()) => u64::from_le_bytes(bytes),
        Err(_) => 0,
    }
}

/// A service before the first entry. The runtime gives the secret by which rows are found; no answer rests on it.
pub fn fresh_service<R: RandomSource>(rt: &R, alloc: Global) -> Result<Service, Memory>
    ensures empty { IfOk result (λ s. s.state ≡ empty_state) }
{
    Service::seeded(alloc, secret(rt))
}

/// What is there before the first entry.
pub(crate) fn nothing<R: RandomSource>(rt: &R, alloc: Global) -> Result<Rebuilt, Memory>
    ensures { IfOk result (λ r. IsFresh r) }
{
    let seed = secret(rt);
    Ok(Rebuilt {
        service: Service::seeded(alloc, seed)?,
        queues: Outboxes::seeded(alloc, seed)?,
    })
}

/// Makes ready what is wanted.
pub(crate) fn make_ready<R: RandomSource>(
    rt: &R,
    alloc: Global,
    service: &Text,
    hosts: &[Text],
) -> Result<Ready, Memory>
    ensures fresh { IfOk result (λ r. IsFresh r.rebuilt) }
    ensures boot { IfOk result (λ r. r.boot ≡ Entry.Boot service.now) }
    ensures rows { IfOk result (λ r. AreFreshRows hosts.now r.rows.items) }
{
    let boot = Entry::Boot {
        service: service.clone()?,
    };
    let rows = rows_of(alloc, hosts)?;
    let rebuilt = nothing(rt, alloc)?;
    Ok(Ready {
        rebuilt,
        boot,
        rows,
    })
}
