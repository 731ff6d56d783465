// What an event says of the items of a node (XEP-0060 §7.1.2, §7.2.2, §8.5).
ghost use Rattle.std.specs.Prelude.{◌≡◌, IfOk, codes};
ghost use Rattle.ps_types.specs.Elem.{nodes};
ghost use Rattle.ps_types.specs.Namespaces.{event_ns};
ghost use Rattle.ps_types.specs.Shape.{trees_in, trees_of};
ghost use Rattle.ps_types.specs.Tree.{attr_of, child_of};
ghost use Rattle.ps_mirror.specs.Copy as copy;

use crate::copied::Copied;
use crate::said::Said;
use crate::trees::first_tree_of;
use ps_forms::{has_attr, has_name};
use ps_namespaces::PUBSUB_EVENT;
use ps_types::{Child, Elem, Text};
use std::alloc::AllocError;

// At most one payload.
fn payload_in(kids: &[Child]) -> Result<Option<Option<Elem>>, AllocError>
    ensures { IfOk result (λ p. p ≡ copy.payload_in (trees_in (nodes kids.now))) }
{
    match first_tree_of(kids) {
        None => Ok(Some(None)),
        Some((tree, true)) => Ok(Some(Some(tree.clone()?))),
        Some((_, false)) => Ok(None),
    }
}

// An item with an id.
fn published_in(item: &Elem) -> Result<Option<Said>, AllocError>
    ensures { IfOk result
        (λ s. s ≡ copy.published_in (attr_of (codes "id") item.now) (copy.payload_in (trees_of item.now))) }
{
    match item.attr("id") {
        None => Ok(None),
        Some(id) => match payload_in(item.kids.as_slice())? {
            None => Ok(None),
            Some(payload) => Ok(Some(Said::Published(Copied {
                id: id.clone()?,
                payload,
            }))),
        },
    }
}

fn retracted_in(item: &Elem) -> Result<Option<Said>, AllocError>
    ensures { IfOk result (λ s. s ≡ copy.retracted_in (attr_of (codes "id") item.now)) }
{
    match item.attr("id") {
        None => Ok(None),
        Some(id) => Ok(Some(Said::Retracted(id.clone()?))),
    }
}

// What the one tree in `items` says.
fn one_said(item: &Elem) -> Result<Option<Said>, AllocError>
    ensures { IfOk result (λ s. s ≡ copy.one_said item.now) }
{
    if has_name(item, "item", PUBSUB_EVENT) {
        published_in(item)
    } else if has_name(item, "retract", PUBSUB_EVENT) {
        retracted_in(item)
    } else {
        Ok(None)
    }
}

fn item_said(items: &Elem) -> Result<Option<Said>, AllocError>
    ensures { IfOk result (λ s. s ≡ copy.item_said (trees_of items.now)) }
{
    match first_tree_of(items.kids.as_slice()) {
        Some((item, true)) => one_said(item),
        _ => Ok(None),
    }
}

// What the first tree of an event says.
fn tree_said(name: &Text, tree: &Elem) -> Result<Option<Said>, AllocError>
    ensures { IfOk result (λ s. s ≡ copy.tree_said name.now tree.now) }
{
    let names = has_attr(tree, "node", name.as_str());
    if has_name(tree, "items", PUBSUB_EVENT) && names {
        item_said(tree)
    } else if has_name(tree, "purge", PUBSUB_EVENT) && names {
        Ok(Some(Said::Purged))
    } else {
        Ok(None)
    }
}

fn first_said(name: &Text, event: &Elem) -> Result<Option<Said>, AllocError>
    ensures { IfOk result (λ s. s ≡ copy.first_said name.now (trees_of event.now)) }
{
    match first_tree_of(event.kids.as_slice()) {
        Some((tree, _)) => tree_said(name, tree),
        None => Ok(None),
    }
}

/// What a stanza with such an event says, where it has one.
pub(crate) fn event_said(name: &Text, stanza: &Elem) -> Result<Option<Said>, AllocError>
    ensures { IfOk result (λ s. s ≡ copy.event_said name.now (child_of (codes "event") event_ns stanza.now)) }
{
    match stanza.child("event", PUBSUB_EVENT) {
        Some(event) => first_said(name, event),
        None => Ok(None),
    }
}
