// The rows that name a node.
ghost use Rattle.std.specs.Prelude.{◌≡◌, ◌≤◌, IfOk, filter, find, option_copied};
ghost use Rattle.std.specs.List.{list_any};
ghost use Rattle.ps_types.specs.Links.{is_link_of, is_link_to, is_link_at, collection_of, has_children, links_without};
ghost use Rattle.ps_coll.specs.Children.{children_in};

use crate::asks::{ChildOf, Under};
use ps_rows::{Index, Rows};
use ps_types::{LinkRow, Memory, NodeKey};
use std::alloc::Global;

/// The collection that a node is a child of, if it is one (XEP-0248 §3).
pub fn collection_among<'a>(rows: &'a Rows<LinkRow>, child: &NodeKey) -> Option<&'a NodeKey>
    ensures { option_copied result ≡ collection_of child.now rows.now.rows }
{
    match link_among(rows, child) {
        Some(row) => Some(&row.collection),
        None => None,
    }
}

fn link_among<'a>(rows: &'a Rows<LinkRow>, child: &NodeKey) -> Option<&'a LinkRow>
    ensures { option_copied result ≡ find (is_link_of child.now) rows.now.rows }
{
    let ask = ChildOf { child };
    rows.find(Index::Key, &ask)
}

fn is_child(rows: &Rows<LinkRow>, child: &NodeKey) -> bool
    ensures { result ≡ list_any (is_link_of child.now) rows.now.rows }
{
    let ask = ChildOf { child };
    rows.any(Index::Key, &ask)
}

/// Whether a collection has a child.
pub fn has_child(rows: &Rows<LinkRow>, collection: &NodeKey) -> bool
    ensures { result ≡ has_children collection.now rows.now.rows }
{
    let ask = Under { collection };
    rows.any(Index::Node, &ask)
}

fn links_to(
    alloc: Global,
    rows: &Rows<LinkRow>,
    collection: &NodeKey,
) -> Result<Vec<LinkRow>, Memory>
    ensures { IfOk result (λ found. found.items ≡ filter (is_link_to collection.now) rows.now.rows) }
{
    let ask = Under { collection };
    rows.list(Index::Node, &ask, alloc)
}

/// The children that the links to a collection name, in their order.
pub fn children_among(
    alloc: Global,
    rows: &Rows<LinkRow>,
    collection: &NodeKey,
) -> Result<Vec<NodeKey>, Memory>
    ensures { IfOk result (λ nodes. nodes.items ≡ children_in collection.now rows.now.rows) }
{
    let found = links_to(alloc, rows, collection)?;
    let mut nodes = Vec::new(alloc);
    for row in &found {
        nodes.push(row.child.clone()?)?;
    }
    Ok(nodes)
}

/// Whether a link names the node, as a child or as a collection.
pub fn is_named(rows: &Rows<LinkRow>, node: &NodeKey) -> bool
    ensures { result ≡ list_any (is_link_at node.now) rows.now.rows }
{
    is_child(rows, node) || has_child(rows, node)
}

/// Removes each link that names the node, as a child or as a collection.
pub fn remove_all_of(rows: &mut Rows<LinkRow>, node: &NodeKey)
    ensures rows { rows.new.rows ≡ links_without node.now rows.old.rows }
    ensures room { rows.old.spare ≤ rows.new.spare }
{
    let child = ChildOf { child: node };
    rows.take_away(Index::Key, &child);
    let under = Under { collection: node };
    rows.take_away(Index::Node, &under);
}
