// What events give, one after the other.
ghost use Rattle.std.specs.Prelude.{◌≡◌, true, IfOk};
ghost use Rattle.ps_access.specs.Tables.{book_of};
ghost use Rattle.ps_filter.specs.Wants.{AreWants};
ghost use Rattle.ps_model.specs.Addressed.{AreAddresses, AreEarly, is_early_event};
ghost use Rattle.ps_notices.specs.Due as model;
ghost use Rattle.ps_notices.specs.Due.{told_each};

use ps_access::Tables;
use ps_base::Memory;
use ps_drafts::Draft;
use ps_fanout::drafts;
use ps_filter::Wants;
use ps_types::{Event, Jid};
use std::alloc::Global;
use std::thread::Threads;

fn is_delete(event: &Event) -> bool
    ensures { result ≡ model.is_delete event.now }
{
    matches!(event, Event::Delete { .. })
}

// What an event gives, in the tables in which it is asked.
fn told_of<R: Threads + Sync>(
    rt: &R,
    alloc: Global,
    before: &Tables,
    after: &Tables,
    wants_before: &Wants,
    wants_after: &Wants,
    event: &Event,
) -> Result<Vec<(Jid, Draft)>, Memory>
    requires follows_before { AreWants wants_before.now.rows before.now.presence.rows }
    requires follows_after { AreWants wants_after.now.rows after.now.presence.rows }
    requires addresses_before { AreAddresses (book_of before.now) }
    requires addresses_after { AreAddresses (book_of after.now) }
    requires early { is_early_event event.now ≡ true }
    ensures { IfOk result (λ v. v.items ≡ model.told_of (book_of before.now) (book_of after.now) event.now) }
{
    if is_delete(event) {
        drafts(rt, alloc, before, wants_before, event)
    } else {
        drafts(rt, alloc, after, wants_after, event)
    }
}

/// What the events give, in their order.
pub(crate) fn all_told<R: Threads + Sync>(
    rt: &R,
    alloc: Global,
    before: &Tables,
    after: &Tables,
    wants_before: &Wants,
    wants_after: &Wants,
    events: &[Event],
) -> Result<Vec<(Jid, Draft)>, Memory>
    requires follows_before { AreWants wants_before.now.rows before.now.presence.rows }
    requires follows_after { AreWants wants_after.now.rows after.now.presence.rows }
    requires addresses_before { AreAddresses (book_of before.now) }
    requires addresses_after { AreAddresses (book_of after.now) }
    requires early { AreEarly events.now }
    ensures { IfOk result (λ v. v.items ≡ told_each (book_of before.now) (book_of after.now) events.now) }
{
    let mut all = Vec::new(alloc);
    for event in events {
        let mut told = told_of(rt, alloc, before, after, wants_before, wants_after, event)?;
        all.append(&mut told)?;
    }
    Ok(all)
}
