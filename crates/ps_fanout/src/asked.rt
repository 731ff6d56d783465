// The addresses that an event of a node may reach.
ghost use Rattle.std.specs.Prelude.{◌≡◌, ◌++◌, map, flat_map, IfOk, OnOk};
ghost use Rattle.ps_access.specs.Tables.{book_of};
ghost use Rattle.ps_fanout.specs.Hearing as model;
ghost use Rattle.ps_fanout.specs.Hearing.{subscribers};

use crate::news::News;
use ps_access::{Tables, is_account_address};
use ps_base::Memory;
use ps_filter::Wants;
use ps_types::{Jid, NodeKey, SubRow};
use std::alloc::Global;

fn add_whos(whos: &mut Vec<Jid>, rows: &[SubRow]) -> Result<(), Memory>
    ensures { OnOk result (whos.new.items ≡ whos.old.items ++ map (λ row. row.who) rows.now) }
{
    for row in rows {
        whos.push(row.who.clone()?)?;
    }
    Ok(())
}

fn add_subscribers(
    alloc: Global,
    tables: &Tables,
    node: &NodeKey,
    whos: &mut Vec<Jid>,
) -> Result<(), Memory>
    ensures { OnOk result (whos.new.items ≡ whos.old.items ++ subscribers (book_of tables.now) node.now) }
{
    let rows = tables.subs.of_node(alloc, node)?;
    add_whos(whos, rows.as_slice())
}

fn add_above(
    alloc: Global,
    tables: &Tables,
    above: &[NodeKey],
    whos: &mut Vec<Jid>,
) -> Result<(), Memory>
    ensures { OnOk result (whos.new.items ≡ whos.old.items ++ flat_map (subscribers (book_of tables.now)) above.now) }
{
    for collection in above {
        add_subscribers(alloc, tables, collection, whos)?;
    }
    Ok(())
}

// The resources that want the events of the node, which only that of an account has.
fn wanting(alloc: Global, wants: &Wants, node: &NodeKey) -> Result<Vec<Jid>, Memory>
    ensures { IfOk result (λ whos. whos.items ≡ model.wanting wants.now.rows node.now) }
{
    if !is_account_address(&node.service) {
        return Ok(Vec::new(alloc));
    }
    wants.resources(alloc, &node.name)
}

/// The resources that want the node, and the addresses with rows on it and on the collections above it.
pub(crate) fn candidates(
    alloc: Global,
    tables: &Tables,
    wants: &Wants,
    news: &News<'_>,
) -> Result<Vec<Jid>, Memory>
    ensures { IfOk result (λ whos. whos.items ≡ model.candidates (book_of tables.now) wants.now.rows news.now) }
{
    let mut whos = wanting(alloc, wants, news.node)?;
    add_subscribers(alloc, tables, news.node, &mut whos)?;
    add_above(alloc, tables, news.above.as_slice(), &mut whos)?;
    Ok(whos)
}
