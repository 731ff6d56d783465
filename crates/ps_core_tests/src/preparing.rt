// An entry that is prepared in the place of another, one that is prepared once more after memory was refused, one that is handed
// over, and one that is prepared only while it is accepted.
ghost use Rattle.std.specs.Prelude.{◌≡◌, ◌<◌, ◌^◌, true, IfOk, OnOk, Some};
ghost use Rattle.ps_model.specs.Replay.{accepted};
ghost use Rattle.ps_book_laws.specs.Addressed.{IsTimely};
ghost use Rattle.ps_core.specs.Requests.{IsRequestOf};

use crate::lines::{Line, answer_of, arrived, boot, is_timely, says};
use ps_core::Service;
use ps_types::{Entry, Request, Text};
use std::alloc::Global;
use std::process::Abort;
use std::test::Fail;
use std::thread::Threads;

const NEWS: &str =
    r#"{"a":{"from":"ann@a.example/1","id":"1","to":"pubsub.example","type":"set"},"c":[{"c":[{"a":{"node":"news"},"n":"create"}],"n":"pubsub","ns":"http://jabber.org/protocol/pubsub"}],"n":"iq"}"#;

const OTHER: &str =
    r#"{"a":{"from":"ann@a.example/1","id":"1","to":"pubsub.example","type":"set"},"c":[{"c":[{"a":{"node":"other"},"n":"create"}],"n":"pubsub","ns":"http://jabber.org/protocol/pubsub"}],"n":"iq"}"#;

const THIRD: &str =
    r#"{"a":{"from":"ann@a.example/1","id":"1","to":"pubsub.example","type":"set"},"c":[{"c":[{"a":{"node":"third"},"n":"create"}],"n":"pubsub","ns":"http://jabber.org/protocol/pubsub"}],"n":"iq"}"#;

const MADE: &str =
    r#"{"a":{"from":"pubsub.example","id":"1","to":"ann@a.example/1","type":"result"},"n":"iq"}"#;

const CONFLICT: &str =
    r#"{"a":{"from":"pubsub.example","id":"1","to":"ann@a.example/1","type":"error"},"c":[{"a":{"type":"cancel"},"c":[{"n":"conflict","ns":"urn:ietf:params:xml:ns:xmpp-stanzas"}],"n":"error"}],"n":"iq"}"#;

// The entry that the line of `a.example` makes, with its request.
fn made_by(
    alloc: Global,
    service: &Service,
    line: u64,
    text: &str,
) -> Result<(Entry, Option<Request>), Fail>
    ensures request { IfOk result (λ r. IsRequestOf service.now.state.book.service r.0 r.1) }
{
    let host = Text::of(alloc, "a.example")?;
    let arrival = arrived(alloc, text, None)?;
    let answered = service.answer_with_room(&host, line, &arrival)?;
    let (answer, request) = answered.into_parts();
    let (_, entry) = answer.into_said();
    match entry {
        Some(entry) => Ok((entry, request)),
        None => Err(Fail::new("no entry")),
    }
}

// The number of the line whose entry is prepared.
fn prepared_line(service: &Service) -> Option<u64> {
    match service.prepared() {
        Some(Entry::Change { line, .. }) => Some(*line),
        _ => None,
    }
}

// Once more after memory was refused: nothing was prepared, and the second copy is made anew.
fn prepare_at_last(
    rt: &(impl Threads + Sync),
    service: &mut Service,
    entry: &Entry,
) -> Result<(), Fail>
    requires fits { accepted service.old.state entry.now ≡ true }
    requires timely { IsTimely entry.now }
    requires few { service.old.state.count < 2 ^ 62 }
    ensures prepared { OnOk result (service.new.prepared ≡ Some entry.now) }
{
    match service.prepare(rt, entry) {
        Ok(_) => Ok(()),
        Err(_) => {
            service.prepare(rt, entry)?;
            Ok(())
        }
    }
}

// The line's entry is prepared, and committed unless another takes its place. `rt try --test --fail-alloc N` refuses the N-th growth: wherever that is in a
// preparation, what follows is answered all the same.
fn prepares(
    rt: &(impl Abort + Threads + Sync),
    alloc: Global,
    service: &mut Service,
    line: u64,
    text: &str,
    commits: bool,
) -> Result<(), Fail> {
    let (entry, _) = made_by(alloc, service, line, text)?;
    let accepted = service.accepts(&entry)?;
    assert!(rt; accepted);
    let timely = is_timely(&entry);
    assert!(rt; timely);
    assert!(rt; service.count() < 1000);
    prepare_at_last(rt, service, &entry)?;
    assert_eq!(rt; prepared_line(service), Some(line));
    if commits {
        service.commit();
        assert_eq!(rt; prepared_line(service), None);
    }
    Ok(())
}

// The entry is told from the time that it was handed over until it is committed.
fn hands_over(
    rt: &(impl Abort + Threads + Sync),
    alloc: Global,
    service: &mut Service,
    line: u64,
    text: &str,
) -> Result<(), Fail> {
    let (entry, request) = made_by(alloc, service, line, text)?;
    let accepted = service.accepts(&entry)?;
    assert!(rt; accepted);
    let timely = is_timely(&entry);
    assert!(rt; timely);
    assert!(rt; service.count() < 1000);
    service.prepare_own(rt, entry, request)?;
    assert_eq!(rt; prepared_line(service), Some(line));
    service.commit();
    assert_eq!(rt; prepared_line(service), None);
    Ok(())
}

// The entry is prepared since it is accepted. Once it is committed its line isn't the next any more, so it is accepted no longer and nothing
// is prepared.
fn is_taken_once(
    rt: &(impl Abort + Threads + Sync),
    alloc: Global,
    service: &mut Service,
    line: u64,
    text: &str,
) -> Result<(), Fail> {
    let (entry, _) = made_by(alloc, service, line, text)?;
    let again = entry.clone()?;
    let timely = is_timely(&entry) && is_timely(&again);
    assert!(rt; timely);
    assert!(rt; service.count() < 1000);
    match service.prepare_accepted(rt, entry)? {
        Some(_) => {
            assert_eq!(rt; prepared_line(service), Some(line));
            service.commit();
        }
        None => return Err(Fail::new("not accepted")),
    }
    assert!(rt; service.count() < 1000);
    let notices = service.prepare_accepted(rt, again)?;
    assert!(rt; notices.is_none());
    assert_eq!(rt; prepared_line(service), None);
    Ok(())
}

fn is_answered(
    rt: &impl Abort,
    alloc: Global,
    service: &Service,
    text: &str,
    reply: &str,
) -> Result<(), Fail> {
    let line = Line {
        host: "a.example",
        number: 9,
        moment: None,
        text,
    };
    let answer = answer_of(alloc, service, line)?;
    assert!(rt; says(alloc, &answer, reply)?, "{text}");
    Ok(())
}

// The second entry takes the place of the first, so the node of the first can still be made, by the copy that is committed then.
fn goes(
    rt: &(impl Abort + Threads + Sync),
    alloc: Global,
    service: &mut Service,
) -> Result<(), Fail> {
    boot(rt, alloc, service)?;
    prepares(rt, alloc, service, 1, NEWS, false)?;
    prepares(rt, alloc, service, 2, OTHER, true)?;
    assert_eq!(rt; service.count(), 2);
    is_answered(rt, alloc, service, OTHER, CONFLICT)?;
    is_answered(rt, alloc, service, NEWS, MADE)?;
    hands_over(rt, alloc, service, 7, NEWS)?;
    is_answered(rt, alloc, service, NEWS, CONFLICT)?;
    is_answered(rt, alloc, service, OTHER, CONFLICT)?;
    assert_eq!(rt; service.count(), 3);
    is_taken_once(rt, alloc, service, 8, THIRD)?;
    is_answered(rt, alloc, service, THIRD, CONFLICT)?;
    assert_eq!(rt; service.count(), 4);
    Ok(())
}

#[test]
fn an_entry_is_prepared_in_the_place_of_another_and_handed_over(
    rt: HostRuntime,
) -> Result<(), Fail> {
    let mut service = Service::new(rt.alloc())?;
    goes(&rt, rt.alloc(), &mut service)
}
