// From a node up, along the links.
ghost use Rattle.std.specs.Prelude.{◌≡◌, IfOk};
ghost use Rattle.ps_types.specs.Links.{above, is_under};

use crate::named::collection_among;
use ps_rows::Rows;
use ps_types::{LinkRow, Memory, NodeKey};
use std::alloc::Global;

/// Whether a node stands under a collection: as its child, or, where `deep` says so, below its children too
/// (XEP-0248 §3).
pub fn is_reached(rows: &Rows<LinkRow>, node: &NodeKey, collection: &NodeKey, deep: bool) -> bool
    ensures { result ≡ is_under node.now collection.now deep rows.now.rows }
{
    let mut left = if deep { rows.len() } else { 1 };
    let mut at = collection_among(rows, node);
    while left > 0 {
        match at {
            None => return false,
            Some(key) => {
                if collection.is_same(key) {
                    return true;
                }
                at = collection_among(rows, key);
                left -= 1;
            }
        }
    }
    false
}

/// The collections above a node, the nearest first.
///
/// # Errors
/// Memory, where there is none for their names.
pub fn ancestors_of(
    alloc: Global,
    rows: &Rows<LinkRow>,
    node: &NodeKey,
) -> Result<Vec<NodeKey>, Memory>
    ensures { IfOk result (λ nodes. nodes.items ≡ above node.now rows.now.rows) }
{
    let mut nodes = Vec::new(alloc);
    let mut left = rows.len();
    let mut at = collection_among(rows, node);
    while left > 0 {
        match at {
            None => return Ok(nodes),
            Some(key) => {
                nodes.push(key.clone()?)?;
                at = collection_among(rows, key);
                left -= 1;
            }
        }
    }
    Ok(nodes)
}
