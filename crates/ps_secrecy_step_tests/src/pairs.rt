// Two services go through lines side by side.
use crate::rows::{commits, evictions, handed, items};
use ps_secrecy_step::{Deed, Said, Service, is_due, step};
use ps_types::{Arrival, Bytes, Entry, Jid, Notice, Text};
use std::alloc::Global;
use std::process::Abort;
use std::test::Fail;
use std::thread::Threads;

#[derive(Drop)]
struct Pair {
    left: Service,
    right: Service,
}

// A half of a step: the deed, whether it makes an entry, and what the service is to say.
#[derive(Drop)]
struct Half<'a> {
    deed: Deed,
    makes: bool,
    reply: &'a str,
    notices: &'a str,
}

// The first line, and those behind it.
fn cut(text: &str) -> (&str, &str) {
    match text.split_once('\n') {
        Some(cut) => cut,
        None => (text, ""),
    }
}

fn outsider(alloc: Global) -> Result<Jid, Fail> {
    Ok(Jid::read(alloc, "alf@b.example".as_bytes())?)
}

// An entry that records the first notice to the address as handed out.
fn hands(alloc: Global, who: &str) -> Result<Deed, Fail> {
    let to = Jid::read(alloc, who.as_bytes())?;
    Ok(Deed::Done(Entry::Handed { to }))
}

fn asks(alloc: Global, host: &str, line: u64, text: &str) -> Result<Deed, Fail> {
    let bytes = text.as_bytes().to_vec(alloc)?;
    Ok(Deed::Asked {
        host: Text::of(alloc, host)?,
        line,
        arrival: Arrival::Line {
            bytes: Bytes::from_vec(bytes),
            moment: None,
        },
    })
}

// The deed of a head, and whether it makes an entry. A line that makes one has a later number than those of the entries before.
fn deed_of(alloc: Global, head: &str, line: u64, text: &str) -> Result<(Deed, bool), Fail> {
    if let Some(who) = head.strip_prefix("handed ") {
        return Ok((hands(alloc, who)?, true));
    }
    if let Some(who) = head.strip_prefix("not handed ") {
        return Ok((hands(alloc, who)?, false));
    }
    match head.strip_suffix(" makes") {
        Some(host) => Ok((asks(alloc, host, line, text)?, true)),
        None => Ok((asks(alloc, head, line, text)?, false)),
    }
}

fn half_of(alloc: Global, line: u64, rows: &str) -> Result<Half<'_>, Fail> {
    let (head, rows) = cut(rows);
    let (text, rows) = cut(rows);
    let (reply, notices) = cut(rows);
    let (deed, makes) = deed_of(alloc, head, line, text)?;
    Ok(Half {
        deed,
        makes,
        reply,
        notices,
    })
}

// Whether a notice is that of its row: the address, the number and the stanza.
fn is_told(alloc: Global, notice: &Notice, row: &str) -> Result<bool, Fail> {
    let to = notice.to.text(alloc)?;
    let head = format!(in alloc; "> {} {} ", to.as_str(), notice.number)?;
    match row.strip_prefix(head.as_str()) {
        Some(line) => Ok(notice.line.as_slice() == line.as_bytes()),
        None => Ok(false),
    }
}

// What the service said is what its half says, with notices of the entry at this place.
fn says(
    rt: &impl Abort,
    alloc: Global,
    said: &Said,
    place: u64,
    half: &Half<'_>,
) -> Result<(), Fail> {
    match said.replies.as_slice() {
        [reply] => assert!(rt; reply.as_slice() == half.reply.as_bytes(), "{}", half.reply),
        _ => assert!(rt; said.replies.is_empty() && half.reply.is_empty()),
    }
    assert_eq!(rt; said.notices.len(), half.notices.lines().count());
    for (notice, row) in said.notices.iter().zip(half.notices.lines()) {
        assert!(rt;
            notice.place == place && is_told(alloc, notice, row)?,
            "{row}"
        );
    }
    Ok(())
}

// A deed at each service.
fn steps(
    rt: &(impl Abort + Threads + Sync),
    alloc: Global,
    pair: &mut Pair,
    one: &Deed,
    other: &Deed,
) -> Result<(Said, Said), Fail> {
    let due = is_due(&pair.left, one)?;
    assert!(rt; due);
    let due_there = is_due(&pair.right, other)?;
    assert!(rt; due_there);
    assert!(rt; pair.left.count() < 10_000);
    assert!(rt; pair.right.count() < 10_000);
    let alf = outsider(alloc)?;
    Ok(step(rt, alloc, &mut pair.left, &mut pair.right, one, other, &alf)?)
}

fn takes(
    rt: &(impl Abort + Threads + Sync),
    alloc: Global,
    pair: &mut Pair,
    step: &str,
) -> Result<(), Fail> {
    let (first, second) = step.split_once("\n=\n").ok_or("no step")?;
    let (before, before_there) = (pair.left.count(), pair.right.count());
    let one = half_of(alloc, before, first)?;
    let other = half_of(alloc, before_there, second)?;
    let (said, said_there) = steps(rt, alloc, pair, &one.deed, &other.deed)?;
    says(rt, alloc, &said, before, &one)?;
    says(rt, alloc, &said_there, before_there, &other)?;
    assert_eq!(rt; pair.left.count() != before, one.makes);
    assert_eq!(rt; pair.right.count() != before_there, other.makes);
    Ok(())
}

fn boots(rt: &(impl Abort + Threads + Sync), alloc: Global, pair: &mut Pair) -> Result<(), Fail> {
    let boot = Deed::Done(Entry::Boot {
        service: Text::of(alloc, "pubsub.example")?,
    });
    let (said, said_there) = steps(rt, alloc, pair, &boot, &boot)?;
    assert!(rt; said.replies.is_empty() && said_there.replies.is_empty());
    assert!(rt; said.notices.is_empty() && said_there.notices.is_empty());
    assert!(rt; pair.left.count() == 1 && pair.right.count() == 1);
    Ok(())
}

// Two new services go through a table.
fn runs(rt: &(impl Abort + Threads + Sync), alloc: Global, rows: &str) -> Result<(), Fail> {
    let mut pair = Pair {
        left: Service::new(alloc)?,
        right: Service::new(alloc)?,
    };
    boots(rt, alloc, &mut pair)?;
    for step in rows.split("\n-\n") {
        takes(rt, alloc, &mut pair, step)?;
    }
    Ok(())
}

#[test]
fn what_one_service_has_stays_unseen(rt: HostRuntime) -> Result<(), Fail> {
    for rows in [items::ROWS, commits::ROWS, evictions::ROWS, handed::ROWS] {
        runs(&rt, rt.alloc(), rows)?;
    }
    Ok(())
}
