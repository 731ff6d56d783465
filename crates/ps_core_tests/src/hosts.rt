// A service goes through lines on several hosts.
use crate::lines::{Line, answer_of, boot, says, take, take_silently};
use crate::rows::{
    access, approvals, bookmarks, capabilities, collections, dealt, handed, interest, items, last,
    reach, rosters, streams, subscribers,
};
use ps_core::Service;
use ps_types::{Entry, Jid, Notice, Text};
use std::alloc::Global;
use std::process::Abort;
use std::test::Fail;
use std::thread::Threads;

// The first line, and those behind it.
fn cut(text: &str) -> (&str, &str) {
    match text.split_once('\n') {
        Some(cut) => cut,
        None => (text, ""),
    }
}

// The head of a step: a host, then the line's moment if it has one.
fn line_of<'a>(head: &'a str, number: u64, text: &'a str) -> Result<Line<'a>, Fail> {
    let (host, moment) = match head.split_once(" at ") {
        Some((host, moment)) => (host, Some(moment.parse()?)),
        None => (head, None),
    };
    Ok(Line {
        host,
        number,
        moment,
        text,
    })
}

// Whether a notice is that of its row: the address, the number and the stanza.
fn is_told(alloc: Global, notice: &Notice, row: &str) -> Result<bool, Fail> {
    let to = notice.to.text(alloc)?;
    let head = format!(in alloc; "> {} {} ", to.as_str(), notice.number)?;
    match row.strip_prefix(head.as_str()) {
        Some(line) => Ok(notice.line.as_slice() == line.as_bytes()),
        None => Ok(false),
    }
}

// The notices of the entry at that place are those of the rows.
fn tells(
    rt: &impl Abort,
    alloc: Global,
    notices: &[Notice],
    place: u64,
    rows: &str,
) -> Result<(), Fail> {
    for (notice, row) in notices.iter().zip(rows.lines()) {
        assert!(rt;
            notice.place == place && is_told(alloc, notice, row)?,
            "{row}"
        );
    }
    assert_eq!(rt; notices.len(), rows.lines().count(), "{rows}");
    Ok(())
}

// Each line that makes an entry has a later number than the lines of the entries before.
fn answers(
    rt: &(impl Abort + Threads + Sync),
    alloc: Global,
    service: &mut Service,
    head: &str,
    rows: &str,
) -> Result<(), Fail> {
    let place = service.count();
    let makes = head.strip_suffix(" makes");
    let (text, rows) = cut(rows);
    let (reply, notices) = cut(rows);
    let line = line_of(makes.unwrap_or(head), place, text)?;
    let answer = answer_of(alloc, service, line)?;
    assert!(rt; says(alloc, &answer, reply)?, "{text}");
    match &answer.entry {
        Some(entry) => {
            assert!(rt; makes.is_some(), "{text}");
            let told = take(rt, service, entry)?;
            tells(rt, alloc, told.as_slice(), place, notices)
        }
        None => {
            assert!(rt; makes.is_none() && notices.is_empty(), "{text}");
            Ok(())
        }
    }
}

// The stream of a host ends.
fn leaves(
    rt: &(impl Abort + Threads + Sync),
    alloc: Global,
    service: &mut Service,
    host: &str,
) -> Result<(), Fail> {
    let gone = Entry::Gone {
        host: Text::of(alloc, host)?,
    };
    take_silently(rt, service, &gone)
}

// The first notice to the address that wasn't handed out yet is handed out, or there is none.
fn hands(
    rt: &(impl Abort + Threads + Sync),
    alloc: Global,
    service: &mut Service,
    who: &str,
    is_there: bool,
) -> Result<(), Fail> {
    let handed = Entry::Handed {
        to: Jid::read(alloc, who.as_bytes())?,
    };
    let accepted = service.accepts(&handed)?;
    assert_eq!(rt; accepted, is_there, "{who}");
    if is_there {
        take_silently(rt, service, &handed)?;
    }
    Ok(())
}

fn takes(
    rt: &(impl Abort + Threads + Sync),
    alloc: Global,
    service: &mut Service,
    step: &str,
) -> Result<(), Fail> {
    let (head, rows) = cut(step);
    if head == "boot" {
        return boot(rt, alloc, service);
    }
    if let Some(host) = head.strip_prefix("gone ") {
        return leaves(rt, alloc, service, host);
    }
    if let Some(who) = head.strip_prefix("handed ") {
        return hands(rt, alloc, service, who, true);
    }
    if let Some(who) = head.strip_prefix("not handed ") {
        return hands(rt, alloc, service, who, false);
    }
    answers(rt, alloc, service, head, rows)
}

fn goes(
    rt: &(impl Abort + Threads + Sync),
    alloc: Global,
    service: &mut Service,
    rows: &str,
) -> Result<(), Fail> {
    boot(rt, alloc, service)?;
    for step in rows.split("\n-\n") {
        takes(rt, alloc, service, step)?;
    }
    Ok(())
}

// How many features are known of the resource, or none where it isn't there.
fn known(alloc: Global, service: &Service, who: &str) -> Result<Option<usize>, Fail> {
    let who = Jid::read(alloc, who.as_bytes())?;
    Ok(match service.tables().presence.resource(&who) {
        Some(row) => Some(row.features.as_slice().len()),
        None => None,
    })
}

// An answer of another hash counts for its sender alone; an exact one counts for all who show the hash.
fn verifies(
    rt: &(impl Abort + Threads + Sync),
    alloc: Global,
    service: &mut Service,
) -> Result<(), Fail> {
    goes(rt, alloc, service, capabilities::ROWS)?;
    for (who, features) in [
        ("bob@b.example/p", Some(5)),
        ("bob@b.example/q", Some(4)),
        ("bob@b.example/r", Some(4)),
        ("ann@a.example/1", Some(4)),
        ("bob@b.example/z", None),
    ] {
        assert_eq!(rt; known(alloc, service, who)?, features, "{who}");
    }
    assert_eq!(rt; service.tables().cache.len(), 1);
    Ok(())
}

// A new service goes through a table; without one, through that of capabilities.
fn runs(rt: &(impl Abort + Threads + Sync), alloc: Global, rows: &str) -> Result<(), Fail> {
    let mut service = Service::new(alloc)?;
    if rows.is_empty() {
        return verifies(rt, alloc, &mut service);
    }
    goes(rt, alloc, &mut service, rows)
}

fn all_run(rt: &(impl Abort + Threads + Sync), alloc: Global, tables: &[&str]) -> Result<(), Fail> {
    for rows in tables {
        runs(rt, alloc, rows)?;
    }
    Ok(())
}

// Three tests, since each has a time of its own.
#[test]
fn lines_on_several_hosts_are_answered(rt: HostRuntime) -> Result<(), Fail> {
    let tables = [
        items::ROWS,
        access::ROWS,
        rosters::ROWS,
        bookmarks::ROWS,
        collections::ROWS,
    ];
    all_run(&rt, rt.alloc(), &tables)
}

#[test]
fn subscribers_and_owners_are_told(rt: HostRuntime) -> Result<(), Fail> {
    let tables = [
        streams::ROWS,
        dealt::ROWS,
        subscribers::ROWS,
        handed::ROWS,
        approvals::ROWS,
    ];
    all_run(&rt, rt.alloc(), &tables)
}

#[test]
fn resources_are_told_of_what_they_want(rt: HostRuntime) -> Result<(), Fail> {
    all_run(
        &rt,
        rt.alloc(),
        &[reach::ROWS, interest::ROWS, last::ROWS, ""],
    )
}
