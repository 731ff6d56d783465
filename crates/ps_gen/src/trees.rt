// The trees of requests.
ghost use Rattle.std.specs.Prelude.{◌≡◌, ◌≢◌, ◌∷◌, [], IfOk};
ghost use Rattle.ps_types.specs.Elem.{nodes};
ghost use Rattle.ps_types.specs.Shape.{attrs_with, holding};
ghost use Rattle.ps_types.specs.Tree.{tree};
ghost use Rattle.ps_gen.specs.Dealt as dealt;

use crate::kind::Kind;
use ps_base::Memory;
use ps_names::{element, only, put_pair};
use ps_namespaces::{CLIENT, PUBSUB, PUBSUB_OWNER};
use ps_types::{Attrs, Child, Elem, Kids, Text};
use std::alloc::Global;

// `pubsub`, and in it the part of that name.
fn part(alloc: Global, ns: &str, name: &str, attrs: Attrs, kids: Kids) -> Result<Elem, Memory>
    requires { name.now ≢ [] }
    ensures { IfOk result (λ t. t ≡ dealt.holds ns.now (tree name.now ns.now attrs (nodes kids))) }
{
    let inner = only(alloc, element(alloc, name, ns, attrs, kids)?)?;
    element(alloc, "pubsub", ns, Attrs::new(alloc), inner)
}

fn at_node(alloc: Global, node: &str) -> Result<Attrs, Memory>
    ensures { IfOk result (λ a. a ≡ attrs_with (dealt.at_node node.now)) }
{
    let mut attrs = Attrs::new(alloc);
    put_pair(alloc, &mut attrs, "node", node)?;
    Ok(attrs)
}

fn of_subscriber(alloc: Global, who: &str, node: &str) -> Result<Attrs, Memory>
    ensures { IfOk result (λ a. a ≡ attrs_with (dealt.of_subscriber who.now node.now)) }
{
    let mut attrs = at_node(alloc, node)?;
    put_pair(alloc, &mut attrs, "jid", who)?;
    Ok(attrs)
}

// The item of the number drawn, with these children, as the only child.
fn item(alloc: Global, drawn: u64, kids: Kids) -> Result<Kids, Memory>
    ensures { IfOk result (λ k. nodes k ≡ holding (dealt.item drawn (nodes kids) ∷ [])) }
{
    let number = drawn % 5;
    let id = format!(in alloc; "i{number}")?;
    let mut attrs = Attrs::new(alloc);
    put_pair(alloc, &mut attrs, "id", id.as_str())?;
    only(alloc, element(alloc, "item", PUBSUB, attrs, kids)?)
}

// The payload, whose text is the number drawn.
fn entry(alloc: Global, drawn: u64) -> Result<Elem, Memory>
    ensures { IfOk result (λ t. t ≡ dealt.entry drawn) }
{
    let mut kids = Kids::new(alloc);
    kids.push(Child::Words(Text::from_string(drawn.to_string(alloc)?)))?;
    element(alloc, "entry", "urn:t", Attrs::new(alloc), kids)
}

fn about_node(alloc: Global, ns: &str, name: &str, node: &str) -> Result<Elem, Memory>
    requires { name.now ≢ [] }
    ensures { IfOk result (λ t. t ≡ dealt.about_node ns.now name.now node.now) }
{
    part(alloc, ns, name, at_node(alloc, node)?, Kids::new(alloc))
}

fn about_items(
    alloc: Global,
    name: &str,
    node: &str,
    drawn: u64,
    kids: Kids,
) -> Result<Elem, Memory>
    requires { name.now ≢ [] }
    ensures { IfOk result (λ t. t ≡ dealt.about_item name.now node.now drawn (nodes kids)) }
{
    let kids = item(alloc, drawn, kids)?;
    part(alloc, PUBSUB, name, at_node(alloc, node)?, kids)
}

fn about_subscriber(alloc: Global, name: &str, who: &str, node: &str) -> Result<Elem, Memory>
    requires { name.now ≢ [] }
    ensures { IfOk result (λ t. t ≡ dealt.about_subscriber name.now who.now node.now) }
{
    let attrs = of_subscriber(alloc, who, node)?;
    part(alloc, PUBSUB, name, attrs, Kids::new(alloc))
}

/// What is asked of the node by the account, at the number drawn.
pub(crate) fn asked(
    alloc: Global,
    kind: Kind,
    who: &str,
    node: &str,
    drawn: u64,
) -> Result<Elem, Memory>
    ensures { IfOk result (λ t. t ≡ dealt.asked kind who.now node.now drawn) }
{
    match kind {
        Kind::Create => about_node(alloc, PUBSUB, "create", node),
        Kind::Publish => {
            let kids = only(alloc, entry(alloc, drawn)?)?;
            about_items(alloc, "publish", node, drawn, kids)
        }
        Kind::Subscribe => about_subscriber(alloc, "subscribe", who, node),
        Kind::Items => about_node(alloc, PUBSUB, "items", node),
        Kind::Unsubscribe => about_subscriber(alloc, "unsubscribe", who, node),
        Kind::Retract => about_items(alloc, "retract", node, drawn, Kids::new(alloc)),
        Kind::Delete => about_node(alloc, PUBSUB_OWNER, "delete", node),
    }
}

/// The iq that asks it of the service.
pub(crate) fn iq(
    alloc: Global,
    from: &str,
    id: &str,
    kind: &str,
    child: Elem,
) -> Result<Elem, Memory>
    ensures { IfOk result (λ t. t ≡ dealt.iq from.now id.now kind.now child) }
{
    let mut attrs = Attrs::new(alloc);
    put_pair(alloc, &mut attrs, "type", kind)?;
    put_pair(alloc, &mut attrs, "to", "pubsub.example")?;
    put_pair(alloc, &mut attrs, "id", id)?;
    put_pair(alloc, &mut attrs, "from", from)?;
    element(alloc, "iq", CLIENT, attrs, only(alloc, child)?)
}
