// The items, ids, rows and groups that a request names, as children.
ghost use Rattle.std.specs.Prelude.{◌≡◌, ◌≢◌, ◌∷◌, [], Some, map, codes, IfOk};
ghost use Rattle.ps_types.specs.Elem.{nodes};
ghost use Rattle.ps_types.specs.Shape.{holding};
ghost use Rattle.ps_request.specs.Written as written;

use crate::build::{element, one, only, put_pair, two, words};
use ps_namespaces::{CAPS, PUBSUB, PUBSUB_OWNER, ROSTER};
use ps_types::{AskContact, AskItem, AskRow, Attrs, Caps, Child, Elem, Kids, Memory, Text};
use std::alloc::Global;

fn payload_kids(alloc: Global, payloads: &[Elem]) -> Result<Kids, Memory>
    ensures { IfOk result (λ k. nodes k ≡ holding payloads.now) }
{
    let mut kids = Kids::new(alloc);
    for payload in payloads {
        kids.push(Child::Tree(payload.clone()?))?;
    }
    Ok(kids)
}

fn item_tree(alloc: Global, item: &AskItem) -> Result<Elem, Memory>
    ensures { IfOk result (λ t. t ≡ written.item_tree item.now) }
{
    let attrs = one(alloc, "id", item.id.as_str())?;
    let kids = payload_kids(alloc, item.payloads.as_slice())?;
    element(alloc, "item", PUBSUB, attrs, kids)
}

pub(crate) fn item_kids(alloc: Global, items: &[AskItem]) -> Result<Kids, Memory>
    ensures { IfOk result (λ k. nodes k ≡ holding (map written.item_tree items.now)) }
{
    let mut kids = Kids::new(alloc);
    for item in items {
        kids.push(Child::Tree(item_tree(alloc, item)?))?;
    }
    Ok(kids)
}

fn id_tree(alloc: Global, id: &Text) -> Result<Elem, Memory>
    ensures { IfOk result (λ t. t ≡ written.id_tree id.now) }
{
    let attrs = one(alloc, "id", id.as_str())?;
    element(alloc, "item", PUBSUB, attrs, Kids::new(alloc))
}

pub(crate) fn id_kids(alloc: Global, ids: &[Text]) -> Result<Kids, Memory>
    ensures { IfOk result (λ k. nodes k ≡ holding (map written.id_tree ids.now)) }
{
    let mut kids = Kids::new(alloc);
    for id in ids {
        kids.push(Child::Tree(id_tree(alloc, id)?))?;
    }
    Ok(kids)
}

fn row_tree(alloc: Global, name: &str, row: &AskRow) -> Result<Elem, Memory>
    requires { name.now ≢ [] }
    ensures { IfOk result (λ t. t ≡ written.row_tree name.now row.now) }
{
    let jid = row.jid.text(alloc)?;
    let attrs = two(alloc, "jid", jid.as_str(), name, row.value.as_str())?;
    element(alloc, name, PUBSUB_OWNER, attrs, Kids::new(alloc))
}

/// The rows of an owner's request; `name` is the name of each, and of the attribute of its value.
pub(crate) fn row_kids(alloc: Global, name: &str, rows: &[AskRow]) -> Result<Kids, Memory>
    requires { name.now ≢ [] }
    ensures { IfOk result (λ k. nodes k ≡ holding (map (written.row_tree name.now) rows.now)) }
{
    let mut kids = Kids::new(alloc);
    for row in rows {
        kids.push(Child::Tree(row_tree(alloc, name, row)?))?;
    }
    Ok(kids)
}

fn group_tree(alloc: Global, group: &Text) -> Result<Elem, Memory>
    ensures { IfOk result (λ t. t ≡ written.group_tree group.now) }
{
    let kids = words(alloc, group.as_str())?;
    element(alloc, "group", ROSTER, Attrs::new(alloc), kids)
}

fn group_kids(alloc: Global, groups: &[Text]) -> Result<Kids, Memory>
    ensures { IfOk result (λ k. nodes k ≡ holding (map written.group_tree groups.now)) }
{
    let mut kids = Kids::new(alloc);
    for group in groups {
        kids.push(Child::Tree(group_tree(alloc, group)?))?;
    }
    Ok(kids)
}

pub(crate) fn contact_tree(alloc: Global, item: &AskContact) -> Result<Elem, Memory>
    ensures { IfOk result (λ t. t ≡ written.contact_tree item.now) }
{
    let jid = item.jid.text(alloc)?;
    let attrs = two(
        alloc,
        "jid",
        jid.as_str(),
        "subscription",
        item.subscription.as_str(),
    )?;
    let kids = group_kids(alloc, item.groups.as_slice())?;
    element(alloc, "item", ROSTER, attrs, kids)
}

fn caps_tree(alloc: Global, caps: &Caps) -> Result<Elem, Memory>
    ensures { IfOk result (λ t. written.caps_trees (Some caps.now) ≡ t ∷ []) }
{
    let mut attrs = two(alloc, "node", caps.node.as_str(), "ver", caps.ver.as_str())?;
    put_pair(alloc, &mut attrs, "hash", caps.hash.as_str())?;
    element(alloc, "c", CAPS, attrs, Kids::new(alloc))
}

pub(crate) fn caps_kids(alloc: Global, caps: &Option<Caps>) -> Result<Kids, Memory>
    ensures { IfOk result (λ k. nodes k ≡ holding (written.caps_trees caps.now)) }
{
    match caps {
        None => Ok(Kids::new(alloc)),
        Some(caps) => only(alloc, caps_tree(alloc, caps)?),
    }
}
