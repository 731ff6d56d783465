// The nodes that a collection holds (XEP-0248), by the links to it, in the order of their making.
ghost use Rattle.std.specs.Prelude.{◌≡◌, ◌++◌, IfOk, OnOk, map};
ghost use Rattle.ps_access.specs.Tables.{book_of};
ghost use Rattle.ps_disco.specs.Entries.{Hold, held_rows, row_children, row_at};
ghost use Rattle.ps_disco.specs.Held.{AreFound, AreHeld, IsPlaceIn, children_at};
ghost use Rattle.ps_nodes.specs.Places.{rows_at};

use crate::entries::add_node;
use ps_access::Tables;
use ps_base::Memory;
use ps_types::{Kids, NodeKey, Text};
use std::alloc::Global;
use std::collections::BTreeSet;

// The place of a node, where the collection holds it.
fn place_of(tables: &Tables, child: &NodeKey, collection: &NodeKey) -> Option<u64>
    ensures { IsPlaceIn (book_of tables.now) collection.now child.now result }
{
    if tables.links.is_under(child, collection, false) {
        tables.nodes.place(child)
    } else {
        None
    }
}

// The places of those of these nodes that the collection holds.
fn places_among(
    alloc: Global,
    tables: &Tables,
    collection: &NodeKey,
    children: &[NodeKey],
) -> Result<BTreeSet<u64>, Memory>
    ensures { IfOk result (λ places. AreFound (book_of tables.now) collection.now children.now places.keys) }
{
    let mut places = BTreeSet::new(alloc);
    for child in children {
        let Some(place) = place_of(tables, child, collection) else {
            continue;
        };
        places.insert(place)?;
    }
    Ok(places)
}

// The places of the nodes that the collection holds.
fn places_of(alloc: Global, tables: &Tables, collection: &NodeKey) -> Result<BTreeSet<u64>, Memory>
    ensures { IfOk result (λ places. AreHeld (book_of tables.now) collection.now places.keys) }
{
    let children = tables.links.children(alloc, collection)?;
    let places = places_among(alloc, tables, collection, &children)?;
    Ok(places)
}

// Adds the entry of the node at a place.
fn add_place(
    alloc: Global,
    kids: &mut Kids,
    tables: &Tables,
    at: u64,
    jid: &Text,
) -> Result<(), Memory>
    ensures { OnOk result (kids.new ≡ kids.old ++ children_at jid.now at tables.now.nodes.rows) }
{
    match tables.nodes.row(at) {
        Some(row) => add_node(alloc, kids, jid, row.key),
        None => Ok(()),
    }
}

fn entries_at(alloc: Global, tables: &Tables, places: &[u64], jid: &Text) -> Result<Kids, Memory>
    ensures { IfOk result (λ kids. kids ≡ row_children jid.now (rows_at places.now tables.now.nodes.rows)) }
{
    let mut kids = Kids::new(alloc);
    for place in places {
        add_place(alloc, &mut kids, tables, *place, jid)?;
    }
    Ok(kids)
}

/// The entries of the nodes that a collection holds.
pub(crate) fn held_entries(
    alloc: Global,
    tables: &Tables,
    collection: &NodeKey,
    jid: &Text,
) -> Result<Kids, Memory>
    ensures { IfOk result (λ kids. Hold kids (map (row_at jid.now) (held_rows (book_of tables.now) collection.now))) }
{
    let places = places_of(alloc, tables, collection)?;
    let _len = places.len();
    let listed: Vec<u64> = places.into_iter().collect(alloc)?;
    let kids = entries_at(alloc, tables, &listed, jid)?;
    Ok(kids)
}
