// A deed at each of two services.
ghost use Rattle.std.specs.Prelude.{◌≡◌, ◌<◌, ◌^◌, ◌↔◌, true, cond, None, IfOk, IsSome, IsTrue, OnErr, OnOk};
ghost use Rattle.ps_book_laws.specs.Addressed.{IsTimely};
ghost use Rattle.ps_secrecy.specs.Alike.{added};
ghost use Rattle.ps_secrecy_step.specs.Deeds.{IsDue, Says, made_by, printed, reply_by, state_after};
ghost use Rattle.ps_secrecy_step.specs.Outsider.{LearnsNothing, course};

use crate::deed::{Deed, Said};
use ps_base::Memory;
use ps_core::Service;
use ps_record::is_moment;
use ps_types::{Bytes, Elem, Entry, Jid};
use ps_wire::print_tree;
use std::alloc::Global;
use std::thread::Threads;

// What a service is to say of a deed, and whether it has prepared an entry.
#[derive(Drop)]
struct Ready {
    said: Said,
    is_prepared: bool,
}

// The reply to a deed, and the entry that it makes.
fn find(service: &Service, deed: &Deed) -> Result<(Option<Elem>, Option<Entry>), Memory>
    ensures reply { IfOk result (λ r. r.0 ≡ reply_by service.now.state deed.now) }
    ensures entry { IfOk result (λ r. r.1 ≡ made_by service.now.state deed.now) }
{
    match deed {
        Deed::Asked {
            host,
            line,
            arrival,
        } => Ok(service.answer(host, *line, arrival)?.into_said()),
        Deed::Done(entry) => {
            if service.accepts(entry)? {
                Ok((None, Some(entry.clone()?)))
            } else {
                Ok((None, None))
            }
        }
    }
}

// The moment of a change is one that a stamp can tell.
fn is_timely(entry: &Entry) -> bool
    ensures { IsTrue result ↔ IsTimely entry.now }
{
    match entry {
        Entry::Change { moment, .. } => is_moment(*moment),
        _ => true,
    }
}

/// Whether the deed may be done at the service: the entry that it makes, if any, is accepted there, and came before the year 9999.
pub fn is_due(service: &Service, deed: &Deed) -> Result<bool, Memory>
    ensures { IfOk result (λ b. IsTrue b ↔ IsDue service.now.state deed.now) }
{
    let (_, entry) = find(service, deed)?;
    match entry {
        Some(entry) => Ok(is_timely(&entry) && service.accepts(&entry)?),
        None => Ok(true),
    }
}

fn print_reply(alloc: Global, reply: &Option<Elem>) -> Result<Vec<Bytes>, Memory>
    ensures { IfOk result (λ v. v.items ≡ printed reply.now) }
{
    let mut replies = Vec::new(alloc);
    if let Some(reply) = reply {
        replies.push(print_tree(alloc, reply)?)?;
    }
    Ok(replies)
}

// All of a deed that may be refused memory. The State stays.
fn prepare<R: Threads + Sync>(
    rt: &R,
    alloc: Global,
    service: &mut Service,
    deed: &Deed,
) -> Result<Ready, Memory>
    requires due { IsDue service.old.state deed.now }
    requires few { service.old.state.count < 2 ^ 62 }
    ensures state { service.new.state ≡ service.old.state }
    ensures said { IfOk result (λ r. Says service.old.state deed.now r.said) }
    ensures entry { IfOk result
        (λ r. cond r.is_prepared service.new.prepared None ≡ made_by service.old.state deed.now) }
    ensures prepared { IfOk result (λ r. r.is_prepared ≡ true → IsSome service.new.prepared) }
{
    let (reply, entry) = find(service, deed)?;
    let replies = print_reply(alloc, &reply)?;
    let (notices, is_prepared) = match &entry {
        Some(entry) => (service.prepare(rt, entry)?, true),
        None => (Vec::new(alloc), false),
    };
    Ok(Ready {
        said: Said { replies, notices },
        is_prepared,
    })
}

// Takes the entry that is prepared, if one is. It takes no memory.
fn settle(service: &mut Service, is_prepared: bool)
    requires prepared { is_prepared ≡ true → IsSome service.old.prepared }
    ensures { service.new.state ≡ added service.old.state (cond is_prepared service.old.prepared None) }
{
    if is_prepared {
        service.commit();
    }
}

/// Does a deed at each of two services. Each answers and goes on as the definitions say. An outsider, an address that may not read some nodes of either, learns nothing where
/// the services differ in nothing but the items of these nodes and the deeds are a pair. Out of memory, the States are as before.
pub fn step<R: Threads + Sync>(
    rt: &R,
    alloc: Global,
    left: &mut Service,
    right: &mut Service,
    one: &Deed,
    other: &Deed,
    outsider: &Jid,
) -> Result<(Said, Said), Memory>
    requires due { IsDue left.old.state one.now }
    requires due_there { IsDue right.old.state other.now }
    requires few { left.old.state.count < 2 ^ 62 }
    requires few_there { right.old.state.count < 2 ^ 62 }

    ensures state { OnOk result (left.new.state ≡ state_after left.old.state one.now) }
    ensures state_there { OnOk result (right.new.state ≡ state_after right.old.state other.now) }
    ensures said { IfOk result (λ r. Says left.old.state one.now r.0) }
    ensures said_there { IfOk result (λ r. Says right.old.state other.now r.1) }
    ensures secret { IfOk result (λ r. LearnsNothing outsider.now
        (course left.old.state one.now left.new.state r.0) (course right.old.state other.now right.new.state r.1)) }
    ensures err { OnErr result (left.new.state ≡ left.old.state) }
    ensures err_there { OnErr result (right.new.state ≡ right.old.state) }
{
    let here = prepare(rt, alloc, left, one)?;
    let there = prepare(rt, alloc, right, other)?;
    settle(left, here.is_prepared);
    settle(right, there.is_prepared);
    Ok((here.said, there.said))
}
