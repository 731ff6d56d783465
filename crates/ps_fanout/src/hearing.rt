// Who hears of an event of a node, and by what stanza.
ghost use Rattle.std.specs.Prelude.{◌≡◌, IfOk, option_map};
ghost use Rattle.std.specs.Arc.{arc_value};
ghost use Rattle.ps_access.specs.Tables.{book_of};
ghost use Rattle.ps_filter.specs.Wants.{AreWants};
ghost use Rattle.ps_fanout.specs.Hearing as model;
ghost use Rattle.ps_fanout.specs.Hearing.{way_seen};
ghost use Rattle.ps_fanout.specs.Told.{given_to};

use crate::news::News;
use crate::reading::may_read;
use crate::wanting::is_interested;
use crate::ways::{Way, may_pass, way_by};
use ps_access::Tables;
use ps_base::Memory;
use ps_drafts::{Draft, EventForm};
use ps_filter::Wants;
use ps_types::{Jid, Text};
use std::alloc::Global;
use std::sync::Arc;

fn is_delivered(tables: &Tables, news: &News<'_>, who: &Jid) -> bool
    ensures { result ≡ model.is_delivered (book_of tables.now) news.now who.now }
{
    news.is_on && (!news.config.presence_based_delivery || tables.presence.is_present(who))
}

fn way_in<'a>(tables: &Tables, news: &'a News<'_>, who: &Jid) -> Way<'a>
    ensures { way_seen result ≡ model.way_in (book_of tables.now) news.now who.now }
{
    let above = news.above.as_slice();
    way_by(tables, !news.joins, news.items, news.node, above, who)
}

fn is_wanted(
    alloc: Global,
    tables: &Tables,
    wants: &Wants,
    news: &News<'_>,
    who: &Jid,
) -> Result<bool, Memory>
    requires follows { AreWants wants.now.rows tables.now.presence.rows }
    ensures { IfOk result (λ is. is ≡ model.is_wanted (book_of tables.now) news.now who.now) }
{
    if news.joins {
        return Ok(false);
    }
    is_interested(alloc, tables, wants, news.node, who)
}

// By which way the address hears of it, if it does: by none as a resource.
fn heard<'a>(
    alloc: Global,
    tables: &Tables,
    wants: &Wants,
    news: &'a News<'_>,
    who: &Jid,
) -> Result<Option<Way<'a>>, Memory>
    requires follows { AreWants wants.now.rows tables.now.presence.rows }
    ensures { IfOk result (λ way. option_map way_seen way ≡ model.heard (book_of tables.now) news.now who.now) }
{
    if !(may_read(tables, news.node, who) && is_delivered(tables, news, who)) {
        return Ok(None);
    }
    let way = way_in(tables, news, who);
    if may_pass(tables, who, &way) {
        return Ok(Some(way));
    }
    if is_wanted(alloc, tables, wants, news, who)? {
        return Ok(Some(Way::NoWay));
    }
    Ok(None)
}

/// What the stanzas of the news have in common.
pub(crate) fn form_of(alloc: Global, news: &News<'_>) -> Result<Arc<EventForm>, Memory>
    ensures { IfOk result (λ f. arc_value f ≡ model.form_of news.now) }
{
    let kind = news.config.notification_type;
    let form = EventForm::new(alloc, &news.node.service, kind, &news.event)?;
    Ok(Arc::new(alloc, form)?)
}

// The collection that the stanza names.
fn named(news: &News<'_>, way: &Way<'_>) -> Result<Option<Text>, Memory>
    ensures { IfOk result (λ name. name ≡ model.named news.now.joins (way_seen way.now)) }
{
    if news.joins {
        return Ok(None);
    }
    match way {
        Way::Through(collection) => Ok(Some(collection.name.clone()?)),
        _ => Ok(None),
    }
}

fn heard_draft(
    alloc: Global,
    news: &News<'_>,
    form: &Arc<EventForm>,
    who: &Jid,
    way: &Way<'_>,
) -> Result<Draft, Memory>
    requires form { arc_value form.now ≡ model.form_of news.now }
    ensures { IfOk result (λ d. d ≡ model.heard_tree news.now who.now (way_seen way.now)) }
{
    let to = who.text(alloc)?;
    Draft::of_form(form, to, named(news, way)?)
}

// The stanza by which the address hears of it, if it does.
fn hears(
    alloc: Global,
    tables: &Tables,
    wants: &Wants,
    news: &News<'_>,
    form: &Arc<EventForm>,
    who: &Jid,
) -> Result<Option<Draft>, Memory>
    requires follows { AreWants wants.now.rows tables.now.presence.rows }
    requires form { arc_value form.now ≡ model.form_of news.now }
    ensures { IfOk result (λ t. t ≡ model.hears (book_of tables.now) news.now who.now) }
{
    match heard(alloc, tables, wants, news, who)? {
        Some(way) => Ok(Some(heard_draft(alloc, news, form, who, &way)?)),
        None => Ok(None),
    }
}

/// Of these addresses those that hear of it, in their order, each with its stanza.
pub(crate) fn told_among(
    alloc: Global,
    tables: &Tables,
    wants: &Wants,
    news: &News<'_>,
    form: &Arc<EventForm>,
    whos: &[Jid],
) -> Result<Vec<(Jid, Draft)>, Memory>
    requires follows { AreWants wants.now.rows tables.now.presence.rows }
    requires form { arc_value form.now ≡ model.form_of news.now }
    ensures { IfOk result (λ told. told.items ≡ given_to (model.hears (book_of tables.now) news.now) whos.now) }
{
    let mut told = Vec::new(alloc);
    for who in whos {
        let Some(draft) = hears(alloc, tables, wants, news, form, who)? else {
            continue;
        };
        told.push((who.clone()?, draft))?;
    }
    Ok(told)
}
