// The entries of a list (XEP-0030 §4).
ghost use Rattle.std.specs.Prelude.{◌≡◌, ◌++◌, ◌∷◌, [], IfOk, OnOk, map};
ghost use Rattle.ps_types.specs.declared.tree.Child.TheVariants as child;
ghost use Rattle.ps_disco.specs.Entries.{Hold, entry_at, named_at, published_at};

use ps_base::Memory;
use ps_names::{element, put_pair};
use ps_namespaces::DISCO_ITEMS;
use ps_types::{Attrs, Child, Elem, ItemRow, Kids, NodeKey, Text};
use std::alloc::Global;

// `item` of an address, with one more attribute.
fn entry(alloc: Global, jid: &Text, attr: &str, value: &Text) -> Result<Elem, Memory>
    ensures { IfOk result (λ t. t ≡ entry_at jid.now attr.now value.now) }
{
    let mut attrs = Attrs::new(alloc);
    put_pair(alloc, &mut attrs, attr, value.as_str())?;
    put_pair(alloc, &mut attrs, "jid", jid.as_str())?;
    element(alloc, "item", DISCO_ITEMS, attrs, Kids::new(alloc))
}

/// Adds the entry of a node.
pub(crate) fn add_node(
    alloc: Global,
    kids: &mut Kids,
    jid: &Text,
    key: &NodeKey,
) -> Result<(), Memory>
    ensures { OnOk result (kids.new ≡ kids.old ++ child.Tree (named_at jid.now key.now) ∷ []) }
{
    kids.push(Child::Tree(entry(alloc, jid, "node", &key.name)?))?;
    Ok(())
}

/// The entries of nodes.
pub(crate) fn node_entries(alloc: Global, jid: &Text, keys: &[NodeKey]) -> Result<Kids, Memory>
    ensures { IfOk result (λ kids. Hold kids (map (named_at jid.now) keys.now)) }
{
    let mut kids = Kids::new(alloc);
    for key in keys {
        add_node(alloc, &mut kids, jid, key)?;
    }
    Ok(kids)
}

/// The entries of items.
pub(crate) fn item_entries(alloc: Global, jid: &Text, rows: &[ItemRow]) -> Result<Kids, Memory>
    ensures { IfOk result (λ kids. Hold kids (map (published_at jid.now) rows.now)) }
{
    let mut kids = Kids::new(alloc);
    for row in rows {
        kids.push(Child::Tree(entry(alloc, jid, "name", &row.id)?))?;
    }
    Ok(kids)
}
