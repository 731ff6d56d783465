// Many addresses, worked in parts beside one another.
ghost use Rattle.std.specs.Prelude.{◌≡◌, ◌<◌, IfOk};
ghost use Rattle.std.specs.Arc.{arc_value};
ghost use Rattle.ps_access.specs.Tables.{book_of};
ghost use Rattle.ps_filter.specs.Wants.{AreWants};
ghost use Rattle.ps_fanout.specs.Parts.{Joins};
ghost use Rattle.ps_fanout.specs.Hearing as model;
ghost use Rattle.ps_fanout.specs.Told.{given_to};

use crate::hearing::{form_of, told_among};
use crate::news::News;
use ps_access::Tables;
use ps_base::Memory;
use ps_drafts::{Draft, EventForm};
use ps_filter::Wants;
use ps_types::Jid;
use std::alloc::Global;
use std::sync::Arc;
use std::thread::Threads;
use std::{cmp, thread};

// How many addresses are worked one after the other at least: fewer are no work for a thread.
const PART: usize = 64;

// How many parts there are at most, since each may start a thread.
const PARTS: usize = 8;

// How many addresses stand in each part of so many.
fn part_of(whos: usize) -> usize
    ensures { 0 < result }
{
    cmp::max(PART, whos / PARTS + 1)
}

// The lists one after the other, where each is there.
fn joined(
    alloc: Global,
    parts: Vec<Result<Vec<(Jid, Draft)>, Memory>>,
) -> Result<Vec<(Jid, Draft)>, Memory>
    ensures { IfOk result (λ told. Joins parts.items told.items) }
{
    let mut all = Vec::new(alloc);
    for part in parts {
        let mut told = part?;
        all.append(&mut told)?;
    }
    Ok(all)
}

// Those that hear of it, worked in parts beside one another where they are many.
fn told_in_parts<R: Threads + Sync>(
    rt: &R,
    alloc: Global,
    tables: &Tables,
    wants: &Wants,
    news: &News<'_>,
    form: &Arc<EventForm>,
    whos: &[Jid],
) -> Result<Vec<(Jid, Draft)>, Memory>
    requires follows { AreWants wants.now.rows tables.now.presence.rows }
    requires form { arc_value form.now ≡ model.form_of news.now }
    ensures { IfOk result (λ told. told.items ≡ given_to (model.hears (book_of tables.now) news.now) whos.now) }
{
    let size = part_of(whos.len());
    if whos.len() <= size {
        return told_among(alloc, tables, wants, news, form, whos);
    }
    let parts = thread::map_chunks(
        rt,
        alloc,
        whos,
        size,
        &|_, part| { told_among(alloc, tables, wants, news, form, part) },
    )?;
    joined(alloc, parts)
}

/// Of these addresses those that hear of it, in their order, each with its stanza. Many are worked in parts beside one another.
pub(crate) fn told_beside<R: Threads + Sync>(
    rt: &R,
    alloc: Global,
    tables: &Tables,
    wants: &Wants,
    news: &News<'_>,
    whos: &[Jid],
) -> Result<Vec<(Jid, Draft)>, Memory>
    requires follows { AreWants wants.now.rows tables.now.presence.rows }
    ensures { IfOk result (λ told. told.items ≡ given_to (model.hears (book_of tables.now) news.now) whos.now) }
{
    if whos.is_empty() {
        return Ok(Vec::new(alloc));
    }
    let form = form_of(alloc, news)?;
    told_in_parts(rt, alloc, tables, wants, news, &form, whos)
}
