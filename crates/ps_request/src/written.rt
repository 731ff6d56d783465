// What each kind of request is written as, within its stanza.
ghost use Rattle.std.specs.Prelude.{◌≡◌, ◌≢◌, ◌∷◌, [], codes, IfOk};
ghost use Rattle.ps_types.specs.Elem.{nodes};
ghost use Rattle.ps_types.specs.Namespaces.{pubsub_ns};
ghost use Rattle.ps_types.specs.Shape.{attrs_with, holding};
ghost use Rattle.ps_types.specs.Tree.{tree};
ghost use Rattle.ps_types.specs.Address.{jid_text};
ghost use Rattle.ps_types.specs.declared.request.Ask.TheVariants as ask;
ghost use Rattle.ps_request.specs.Written as written;

use crate::build::{element, one, only, put_pair, two};
use crate::rows::{contact_tree, id_kids, item_kids, row_kids};
use ps_namespaces::{PUBSUB, PUBSUB_OWNER, ROSTER};
use ps_types::{AskContact, AskItem, AskRow, Attrs, Child, Elem, Jid, Kids, Memory, Text};
use std::alloc::Global;

fn in_pubsub(alloc: Global, ns: &str, kids: Kids) -> Result<Kids, Memory>
    ensures { IfOk result (λ k. nodes k ≡ holding (tree (codes "pubsub") ns.now [] (nodes kids) ∷ [])) }
{
    only(
        alloc,
        element(alloc, "pubsub", ns, Attrs::new(alloc), kids)?,
    )
}

fn node_part(alloc: Global, name: &str, ns: &str, node: &Text, kids: Kids) -> Result<Elem, Memory>
    requires { name.now ≢ [] }
    ensures { IfOk result (λ t. t ≡ tree name.now ns.now (attrs_with ((codes "node", node.now) ∷ [])) (nodes kids)) }
{
    let attrs = one(alloc, "node", node.as_str())?;
    element(alloc, name, ns, attrs, kids)
}

fn jid_part(alloc: Global, name: &str, node: &Text, who: &Jid, kids: Kids) -> Result<Elem, Memory>
    requires { name.now ≢ [] }
    ensures { IfOk result (λ t. t ≡ tree name.now pubsub_ns
        (attrs_with ((codes "jid", jid_text who.now) ∷ (codes "node", node.now) ∷ [])) (nodes kids)) }
{
    let jid = who.text(alloc)?;
    let attrs = two(alloc, "jid", jid.as_str(), "node", node.as_str())?;
    element(alloc, name, PUBSUB, attrs, kids)
}

pub(crate) fn form_kids(alloc: Global, form: &Option<Elem>) -> Result<Kids, Memory>
    ensures { IfOk result (λ k. nodes k ≡ holding (written.form_trees form.now)) }
{
    match form {
        None => Ok(Kids::new(alloc)),
        Some(form) => only(alloc, form.clone()?),
    }
}

/// A part, and the part of a form behind it.
fn with_form(alloc: Global, part: Elem, name: &str, form: &Option<Elem>) -> Result<Kids, Memory>
    requires { name.now ≢ [] }
    ensures { IfOk result (λ k. nodes k ≡ holding (part ∷ written.form_part name.now form.now)) }
{
    match form {
        None => only(alloc, part),
        Some(form) => {
            let inside = only(alloc, form.clone()?)?;
            let behind = element(alloc, name, PUBSUB, Attrs::new(alloc), inside)?;
            let mut kids = Kids::new(alloc);
            kids.push(Child::Tree(part))?;
            kids.push(Child::Tree(behind))?;
            Ok(kids)
        }
    }
}

pub(crate) fn create(alloc: Global, node: &Text, form: &Option<Elem>) -> Result<Kids, Memory>
    ensures { IfOk result (λ k. nodes k ≡ holding (written.stanza_kids (ask.Create node.now form.now))) }
{
    let part = node_part(alloc, "create", PUBSUB, node, Kids::new(alloc))?;
    in_pubsub(alloc, PUBSUB, with_form(alloc, part, "configure", form)?)
}

pub(crate) fn publish(
    alloc: Global,
    node: &Text,
    items: &[AskItem],
    options: &Option<Elem>,
) -> Result<Kids, Memory>
    ensures { IfOk result (λ k. nodes k ≡ holding (written.stanza_kids (ask.Publish node.now items.now options.now))) }
{
    let part = node_part(alloc, "publish", PUBSUB, node, item_kids(alloc, items)?)?;
    in_pubsub(
        alloc,
        PUBSUB,
        with_form(alloc, part, "publish-options", options)?,
    )
}

fn flag_text(flag: bool) -> &'static str
    ensures { result.now ≡ written.flag_text flag }
{
    if flag { "1" } else { "" }
}

pub(crate) fn retract(
    alloc: Global,
    node: &Text,
    ids: &[Text],
    notify: bool,
) -> Result<Kids, Memory>
    ensures { IfOk result (λ k. nodes k ≡ holding (written.stanza_kids (ask.Retract node.now ids.now notify))) }
{
    let attrs = two(alloc, "node", node.as_str(), "notify", flag_text(notify))?;
    let part = element(alloc, "retract", PUBSUB, attrs, id_kids(alloc, ids)?)?;
    in_pubsub(alloc, PUBSUB, only(alloc, part)?)
}

/// One part of a node in `pubsub`.
pub(crate) fn part_alone(
    alloc: Global,
    name: &str,
    ns: &str,
    node: &Text,
    kids: Kids,
) -> Result<Kids, Memory>
    requires { name.now ≢ [] }
    ensures { IfOk result (λ k. nodes k ≡ holding (tree (codes "pubsub") ns.now []
        (holding (tree name.now ns.now (attrs_with ((codes "node", node.now) ∷ [])) (nodes kids) ∷ [])) ∷ [])) }
{
    let part = node_part(alloc, name, ns, node, kids)?;
    in_pubsub(alloc, ns, only(alloc, part)?)
}

pub(crate) fn config_set(alloc: Global, node: &Text, form: &Option<Elem>) -> Result<Kids, Memory>
    ensures { IfOk result (λ k. nodes k ≡ holding (written.stanza_kids (ask.ConfigSet node.now form.now))) }
{
    part_alone(
        alloc,
        "configure",
        PUBSUB_OWNER,
        node,
        form_kids(alloc, form)?,
    )
}

pub(crate) fn affils_set(alloc: Global, node: &Text, rows: &[AskRow]) -> Result<Kids, Memory>
    ensures { IfOk result (λ k. nodes k ≡ holding (written.stanza_kids (ask.AffilsSet node.now rows.now))) }
{
    part_alone(
        alloc,
        "affiliations",
        PUBSUB_OWNER,
        node,
        row_kids(alloc, "affiliation", rows)?,
    )
}

pub(crate) fn subs_set(alloc: Global, node: &Text, rows: &[AskRow]) -> Result<Kids, Memory>
    ensures { IfOk result (λ k. nodes k ≡ holding (written.stanza_kids (ask.SubsSet node.now rows.now))) }
{
    part_alone(
        alloc,
        "subscriptions",
        PUBSUB_OWNER,
        node,
        row_kids(alloc, "subscription", rows)?,
    )
}

pub(crate) fn subscribe(
    alloc: Global,
    node: &Text,
    who: &Jid,
    form: &Option<Elem>,
) -> Result<Kids, Memory>
    ensures { IfOk result (λ k. nodes k ≡ holding (written.stanza_kids (ask.Subscribe node.now who.now form.now))) }
{
    let part = jid_part(alloc, "subscribe", node, who, Kids::new(alloc))?;
    in_pubsub(alloc, PUBSUB, with_form(alloc, part, "options", form)?)
}

pub(crate) fn unsubscribe(
    alloc: Global,
    node: &Text,
    who: &Jid,
    subid: &Text,
) -> Result<Kids, Memory>
    ensures { IfOk result (λ k. nodes k ≡ holding (written.stanza_kids (ask.Unsubscribe node.now who.now subid.now))) }
{
    let jid = who.text(alloc)?;
    let mut attrs = two(alloc, "node", node.as_str(), "subid", subid.as_str())?;
    put_pair(alloc, &mut attrs, "jid", jid.as_str())?;
    let part = element(alloc, "unsubscribe", PUBSUB, attrs, Kids::new(alloc))?;
    in_pubsub(alloc, PUBSUB, only(alloc, part)?)
}

/// The options of a subscription, which are asked for or set.
pub(crate) fn options(alloc: Global, node: &Text, who: &Jid, kids: Kids) -> Result<Kids, Memory>
    ensures { IfOk result
        (λ k. nodes k ≡ holding (tree (codes "pubsub") pubsub_ns [] (holding (tree (codes "options") pubsub_ns
        (attrs_with ((codes "jid", jid_text who.now) ∷ (codes "node", node.now) ∷ [])) (nodes kids) ∷ [])) ∷ [])) }
{
    let part = jid_part(alloc, "options", node, who, kids)?;
    in_pubsub(alloc, PUBSUB, only(alloc, part)?)
}

pub(crate) fn items(alloc: Global, node: &Text, max: &Text, ids: &[Text]) -> Result<Kids, Memory>
    ensures { IfOk result (λ k. nodes k ≡ holding (written.stanza_kids (ask.ItemsGet node.now max.now ids.now))) }
{
    let attrs = two(alloc, "max_items", max.as_str(), "node", node.as_str())?;
    let part = element(alloc, "items", PUBSUB, attrs, id_kids(alloc, ids)?)?;
    in_pubsub(alloc, PUBSUB, only(alloc, part)?)
}

pub(crate) fn query(alloc: Global, ns: &str, node: &Text) -> Result<Kids, Memory>
    ensures { IfOk result (λ k. nodes k ≡ holding (written.node_part (codes "query") ns.now node.now [] ∷ [])) }
{
    let part = node_part(alloc, "query", ns, node, Kids::new(alloc))?;
    only(alloc, part)
}

pub(crate) fn roster(alloc: Global, item: &AskContact) -> Result<Kids, Memory>
    ensures { IfOk result (λ k. nodes k ≡ holding (written.stanza_kids (ask.RosterSet item.now))) }
{
    let inside = only(alloc, contact_tree(alloc, item)?)?;
    only(
        alloc,
        element(alloc, "query", ROSTER, Attrs::new(alloc), inside)?,
    )
}
