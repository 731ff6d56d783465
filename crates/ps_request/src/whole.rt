// The stanza that a request is written as.
ghost use Rattle.std.specs.Prelude.{◌≡◌, IfOk};
ghost use Rattle.ps_types.specs.Elem.{nodes};
ghost use Rattle.ps_types.specs.Shape.{attrs_with, holding};
ghost use Rattle.ps_types.specs.declared.request.Ask.TheVariants as ask;
ghost use Rattle.ps_request.specs.Written as written;

use crate::build::{element, only, put_pair, two};
use crate::rows::caps_kids;
use crate::written::{
    affils_set, config_set, create, form_kids, items, options, part_alone, publish, query, retract,
    roster, subs_set, subscribe, unsubscribe,
};
use ps_forms::form_tree;
use ps_namespaces::{
    CLIENT, DISCO_INFO, DISCO_ITEMS, PUBSUB, PUBSUB_OWNER, SUBSCRIBE_AUTHORIZATION,
};
use ps_types::{
    Ask, Attrs, Elem, Field, Fields, Form, FormKind, Jid, Kids, Listed, Memory, Request, Text,
    Texts,
};
use std::alloc::Global;

fn field(alloc: Global, var: &str, kind: &str, value: &str) -> Result<Field, Memory>
    ensures { IfOk result (λ f. f ≡ written.field_by var.now kind.now value.now) }
{
    let mut values = Texts::new(alloc);
    values.push(Text::of(alloc, value)?)?;
    let var = Text::of(alloc, var)?;
    let kind = Text::of(alloc, kind)?;
    Ok(Field { var, kind, values })
}

fn approval_fields(alloc: Global, node: &str, who: &str, allow: &str) -> Result<Fields, Memory>
    ensures { IfOk result (λ fields. fields ≡ written.approval_fields node.now who.now allow.now) }
{
    let mut fields = Listed::new(alloc);
    fields.push(field(alloc, "FORM_TYPE", "hidden", SUBSCRIBE_AUTHORIZATION)?)?;
    fields.push(field(alloc, "pubsub#node", "", node)?)?;
    fields.push(field(alloc, "pubsub#subscriber_jid", "", who)?)?;
    fields.push(field(alloc, "pubsub#allow", "", allow)?)?;
    Ok(fields)
}

/// An owner's answer to the question whether an address may subscribe (XEP-0060 §8.6).
fn approve(alloc: Global, node: &Text, who: &Jid, allow: &Text) -> Result<Kids, Memory>
    ensures { IfOk result (λ k. nodes k ≡ holding (written.stanza_kids (ask.Approve node.now who.now allow.now))) }
{
    let who = who.text(alloc)?;
    let fields = approval_fields(alloc, node.as_str(), who.as_str(), allow.as_str())?;
    let form = Form {
        kind: FormKind::Submit,
        fields,
    };
    only(alloc, form_tree(alloc, &form)?)
}

fn stanza_name(ask: &Ask) -> &'static str
    ensures { result.now ≡ written.stanza_name ask.now }
{
    match ask {
        Ask::Approve { .. } | Ask::Silent => "message",
        Ask::Present { .. } | Ask::Absent => "presence",
        Ask::Create { .. } | Ask::Publish { .. } | Ask::Retract { .. } => "iq",
        Ask::Purge { .. } | Ask::Delete { .. } | Ask::ConfigGet { .. } => "iq",
        Ask::ConfigSet { .. } | Ask::AffilsGet { .. } | Ask::AffilsSet { .. } => "iq",
        Ask::SubsGet { .. } | Ask::SubsSet { .. } | Ask::MyAffils { .. } => "iq",
        Ask::MySubs { .. } | Ask::Subscribe { .. } | Ask::Unsubscribe { .. } => "iq",
        Ask::OptionsGet { .. } | Ask::OptionsSet { .. } | Ask::ItemsGet { .. } => "iq",
        Ask::InfoGet { .. } | Ask::NodesGet { .. } | Ask::RosterSet { .. } => "iq",
        Ask::CapsAnswer { .. } => "iq",
    }
}

fn stanza_type(ask: &Ask) -> &'static str
    ensures { result.now ≡ written.stanza_type ask.now }
{
    match ask {
        Ask::ConfigGet { .. } | Ask::AffilsGet { .. } | Ask::SubsGet { .. } => "get",
        Ask::MyAffils { .. } | Ask::MySubs { .. } | Ask::OptionsGet { .. } => "get",
        Ask::ItemsGet { .. } | Ask::InfoGet { .. } | Ask::NodesGet { .. } => "get",
        Ask::Approve { .. } | Ask::Present { .. } => "",
        Ask::Absent => "unavailable",
        Ask::CapsAnswer { .. } => "result",
        Ask::Silent => "error",
        Ask::Create { .. } | Ask::Publish { .. } | Ask::Retract { .. } => "set",
        Ask::Purge { .. } | Ask::Delete { .. } | Ask::ConfigSet { .. } => "set",
        Ask::AffilsSet { .. } | Ask::SubsSet { .. } | Ask::RosterSet { .. } => "set",
        Ask::Subscribe { .. } | Ask::Unsubscribe { .. } | Ask::OptionsSet { .. } => "set",
    }
}

/// The children of the stanza.
fn stanza_kids(alloc: Global, ask: &Ask) -> Result<Kids, Memory>
    ensures { IfOk result (λ k. nodes k ≡ holding (written.stanza_kids ask.now)) }
{
    match ask {
        Ask::Create { node, form } => create(alloc, node, form),
        Ask::Publish {
            node,
            items,
            options,
        } => publish(alloc, node, items.as_slice(), options),
        Ask::Retract { node, ids, notify } => retract(alloc, node, ids.as_slice(), *notify),
        Ask::Purge { node } => part_alone(alloc, "purge", PUBSUB_OWNER, node, Kids::new(alloc)),
        Ask::Delete { node } => part_alone(alloc, "delete", PUBSUB_OWNER, node, Kids::new(alloc)),
        Ask::ConfigGet { node } => part_alone(
            alloc,
            "configure",
            PUBSUB_OWNER,
            node,
            Kids::new(alloc),
        ),
        Ask::ConfigSet { node, form } => config_set(alloc, node, form),
        Ask::AffilsGet { node } => part_alone(
            alloc,
            "affiliations",
            PUBSUB_OWNER,
            node,
            Kids::new(alloc),
        ),
        Ask::AffilsSet { node, rows } => affils_set(alloc, node, rows.as_slice()),
        Ask::SubsGet { node } => part_alone(
            alloc,
            "subscriptions",
            PUBSUB_OWNER,
            node,
            Kids::new(alloc),
        ),
        Ask::SubsSet { node, rows } => subs_set(alloc, node, rows.as_slice()),
        Ask::MyAffils { node } => part_alone(alloc, "affiliations", PUBSUB, node, Kids::new(alloc)),
        Ask::MySubs { node } => part_alone(alloc, "subscriptions", PUBSUB, node, Kids::new(alloc)),
        Ask::Subscribe { node, who, form } => subscribe(alloc, node, who, form),
        Ask::Unsubscribe { node, who, subid } => unsubscribe(alloc, node, who, subid),
        Ask::OptionsGet { node, who } => options(alloc, node, who, Kids::new(alloc)),
        Ask::OptionsSet { node, who, form } => {
            options(alloc, node, who, form_kids(alloc, form)?)
        }
        Ask::ItemsGet { node, max, ids } => items(alloc, node, max, ids.as_slice()),
        Ask::InfoGet { node } => query(alloc, DISCO_INFO, node),
        Ask::NodesGet { node } => query(alloc, DISCO_ITEMS, node),
        Ask::RosterSet { item } => roster(alloc, item),
        Ask::Approve { node, who, allow } => approve(alloc, node, who, allow),
        Ask::Present { caps } => caps_kids(alloc, caps),
        Ask::Absent | Ask::Silent => Ok(Kids::new(alloc)),
        Ask::CapsAnswer { info, .. } => only(alloc, info.clone()?),
    }
}

fn is_senders_account(from: &Jid, target: &Jid) -> bool
    ensures { result ≡ written.is_senders_account from.now target.now }
{
    target.same_bare(from) && target.resource.is_empty()
}

fn to_text(alloc: Global, request: &Request) -> Result<Text, Memory>
    ensures { IfOk result (λ t. t ≡ written.to_text request.now) }
{
    if is_senders_account(&request.from, &request.target) {
        Ok(Text::of(alloc, "")?)
    } else {
        request.target.text(alloc)
    }
}

fn head_attrs(alloc: Global, kind: &str, request: &Request) -> Result<Attrs, Memory>
    ensures { IfOk result (λ a. a ≡ attrs_with (written.head_pairs kind.now request.now)) }
{
    let from = request.from.text(alloc)?;
    let to = to_text(alloc, request)?;
    let mut attrs = two(alloc, "to", to.as_str(), "type", kind)?;
    put_pair(alloc, &mut attrs, "id", request.id.as_str())?;
    put_pair(alloc, &mut attrs, "from", from.as_str())?;
    Ok(attrs)
}

fn written_tree(alloc: Global, request: &Request) -> Result<Elem, Memory>
    ensures { IfOk result (λ t. t ≡ written.written request.now) }
{
    let attrs = head_attrs(alloc, stanza_type(&request.ask), request)?;
    let kids = stanza_kids(alloc, &request.ask)?;
    element(alloc, stanza_name(&request.ask), CLIENT, attrs, kids)
}

/// The stanza that a request is written as (RFC 6120 §8, XEP-0060 §5 to §8): on whatever stream a tree is taken as the request,
/// this one is.
pub fn request_tree(alloc: Global, request: &Request) -> Result<Elem, Memory>
    ensures tree { IfOk result (λ t. t ≡ written.written request.now) }
    ensures taken { IfOk result (λ t. written.IsTakenWhereOneIs request.now t) }
{
    written_tree(alloc, request)
}
