// Each kind of request as it is spelled and written, and what a request and a denial hold.
use ps_request::{TakenTree, read_request, request_tree, take_tree};
use ps_types::{Ask, Condition, Elem, Request, Text};
use ps_wire::{print_tree, read_tree};
use std::alloc::Global;
use std::test::Fail;

// What is asked, and the line that the service writes for it.
const KINDS: &str = "\
Create {\"a\":{\"from\":\"ann@a.example/1\",\"id\":\"1\",\"type\":\"set\"},\"c\":[{\"c\":[{\"a\":{\"node\":\"news\"},\"n\":\"create\"},{\"c\":[{\"a\":{\"type\":\"submit\"},\"c\":[{\"a\":{\"var\":\"pubsub#title\"},\"c\":[{\"c\":[\"T\"],\"n\":\"value\"}],\"n\":\"field\"}],\"n\":\"x\",\"ns\":\"jabber:x:data\"}],\"n\":\"configure\"}],\"n\":\"pubsub\",\"ns\":\"http://jabber.org/protocol/pubsub\"}],\"n\":\"iq\"}\n\
Publish {\"a\":{\"from\":\"ann@a.example/1\",\"id\":\"1\",\"to\":\"pubsub.example\",\"type\":\"set\"},\"c\":[{\"c\":[{\"a\":{\"node\":\"news\"},\"c\":[{\"a\":{\"id\":\"i1\"},\"c\":[{\"c\":[\"hi\"],\"n\":\"entry\",\"ns\":\"urn:t\"}],\"n\":\"item\"},{\"n\":\"item\"}],\"n\":\"publish\"},{\"c\":[{\"a\":{\"type\":\"submit\"},\"c\":[{\"a\":{\"var\":\"pubsub#title\"},\"c\":[{\"c\":[\"T\"],\"n\":\"value\"}],\"n\":\"field\"}],\"n\":\"x\",\"ns\":\"jabber:x:data\"}],\"n\":\"publish-options\"}],\"n\":\"pubsub\",\"ns\":\"http://jabber.org/protocol/pubsub\"}],\"n\":\"iq\"}\n\
Retract {\"a\":{\"from\":\"ann@a.example/1\",\"id\":\"1\",\"to\":\"pubsub.example\",\"type\":\"set\"},\"c\":[{\"c\":[{\"a\":{\"node\":\"news\",\"notify\":\"1\"},\"c\":[{\"a\":{\"id\":\"i1\"},\"n\":\"item\"}],\"n\":\"retract\"}],\"n\":\"pubsub\",\"ns\":\"http://jabber.org/protocol/pubsub\"}],\"n\":\"iq\"}\n\
Purge {\"a\":{\"from\":\"ann@a.example/1\",\"id\":\"1\",\"to\":\"pubsub.example\",\"type\":\"set\"},\"c\":[{\"c\":[{\"a\":{\"node\":\"news\"},\"n\":\"purge\"}],\"n\":\"pubsub\",\"ns\":\"http://jabber.org/protocol/pubsub#owner\"}],\"n\":\"iq\"}\n\
Delete {\"a\":{\"from\":\"ann@a.example/1\",\"id\":\"1\",\"to\":\"pubsub.example\",\"type\":\"set\"},\"c\":[{\"c\":[{\"a\":{\"node\":\"news\"},\"n\":\"delete\"}],\"n\":\"pubsub\",\"ns\":\"http://jabber.org/protocol/pubsub#owner\"}],\"n\":\"iq\"}\n\
ConfigGet {\"a\":{\"from\":\"ann@a.example/1\",\"id\":\"1\",\"to\":\"pubsub.example\",\"type\":\"get\"},\"c\":[{\"c\":[{\"a\":{\"node\":\"news\"},\"n\":\"configure\"}],\"n\":\"pubsub\",\"ns\":\"http://jabber.org/protocol/pubsub#owner\"}],\"n\":\"iq\"}\n\
ConfigSet {\"a\":{\"from\":\"ann@a.example/1\",\"id\":\"1\",\"to\":\"pubsub.example\",\"type\":\"set\"},\"c\":[{\"c\":[{\"a\":{\"node\":\"news\"},\"c\":[{\"a\":{\"type\":\"submit\"},\"c\":[{\"a\":{\"var\":\"pubsub#title\"},\"c\":[{\"c\":[\"T\"],\"n\":\"value\"}],\"n\":\"field\"}],\"n\":\"x\",\"ns\":\"jabber:x:data\"}],\"n\":\"configure\"}],\"n\":\"pubsub\",\"ns\":\"http://jabber.org/protocol/pubsub#owner\"}],\"n\":\"iq\"}\n\
AffilsGet {\"a\":{\"from\":\"ann@a.example/1\",\"id\":\"1\",\"to\":\"pubsub.example\",\"type\":\"get\"},\"c\":[{\"c\":[{\"a\":{\"node\":\"news\"},\"n\":\"affiliations\"}],\"n\":\"pubsub\",\"ns\":\"http://jabber.org/protocol/pubsub#owner\"}],\"n\":\"iq\"}\n\
AffilsSet {\"a\":{\"from\":\"ann@a.example/1\",\"id\":\"1\",\"to\":\"pubsub.example\",\"type\":\"set\"},\"c\":[{\"c\":[{\"a\":{\"node\":\"news\"},\"c\":[{\"a\":{\"affiliation\":\"owner\",\"jid\":\"bob@b.example\"},\"n\":\"affiliation\"}],\"n\":\"affiliations\"}],\"n\":\"pubsub\",\"ns\":\"http://jabber.org/protocol/pubsub#owner\"}],\"n\":\"iq\"}\n\
SubsGet {\"a\":{\"from\":\"ann@a.example/1\",\"id\":\"1\",\"to\":\"pubsub.example\",\"type\":\"get\"},\"c\":[{\"c\":[{\"a\":{\"node\":\"news\"},\"n\":\"subscriptions\"}],\"n\":\"pubsub\",\"ns\":\"http://jabber.org/protocol/pubsub#owner\"}],\"n\":\"iq\"}\n\
SubsSet {\"a\":{\"from\":\"ann@a.example/1\",\"id\":\"1\",\"to\":\"pubsub.example\",\"type\":\"set\"},\"c\":[{\"c\":[{\"a\":{\"node\":\"news\"},\"c\":[{\"a\":{\"jid\":\"bob@b.example/1\",\"subscription\":\"none\"},\"n\":\"subscription\"}],\"n\":\"subscriptions\"}],\"n\":\"pubsub\",\"ns\":\"http://jabber.org/protocol/pubsub#owner\"}],\"n\":\"iq\"}\n\
MyAffils {\"a\":{\"from\":\"ann@a.example/1\",\"id\":\"1\",\"to\":\"bob@b.example\",\"type\":\"get\"},\"c\":[{\"c\":[{\"n\":\"affiliations\"}],\"n\":\"pubsub\",\"ns\":\"http://jabber.org/protocol/pubsub\"}],\"n\":\"iq\"}\n\
MySubs {\"a\":{\"from\":\"ann@a.example/1\",\"id\":\"1\",\"to\":\"pubsub.example\",\"type\":\"get\"},\"c\":[{\"c\":[{\"a\":{\"node\":\"news\"},\"n\":\"subscriptions\"}],\"n\":\"pubsub\",\"ns\":\"http://jabber.org/protocol/pubsub\"}],\"n\":\"iq\"}\n\
Subscribe {\"a\":{\"from\":\"ann@a.example/1\",\"id\":\"1\",\"to\":\"pubsub.example\",\"type\":\"set\"},\"c\":[{\"c\":[{\"a\":{\"jid\":\"ann@a.example/2\",\"node\":\"news\"},\"n\":\"subscribe\"},{\"c\":[{\"a\":{\"type\":\"submit\"},\"c\":[{\"a\":{\"var\":\"pubsub#title\"},\"c\":[{\"c\":[\"T\"],\"n\":\"value\"}],\"n\":\"field\"}],\"n\":\"x\",\"ns\":\"jabber:x:data\"}],\"n\":\"options\"}],\"n\":\"pubsub\",\"ns\":\"http://jabber.org/protocol/pubsub\"}],\"n\":\"iq\"}\n\
Unsubscribe {\"a\":{\"from\":\"ann@a.example/1\",\"id\":\"1\",\"to\":\"pubsub.example\",\"type\":\"set\"},\"c\":[{\"c\":[{\"a\":{\"jid\":\"ann@a.example/2\",\"node\":\"news\",\"subid\":\"s\"},\"n\":\"unsubscribe\"}],\"n\":\"pubsub\",\"ns\":\"http://jabber.org/protocol/pubsub\"}],\"n\":\"iq\"}\n\
OptionsGet {\"a\":{\"from\":\"ann@a.example/1\",\"id\":\"1\",\"to\":\"pubsub.example\",\"type\":\"get\"},\"c\":[{\"c\":[{\"a\":{\"jid\":\"ann@a.example/2\",\"node\":\"news\"},\"n\":\"options\"}],\"n\":\"pubsub\",\"ns\":\"http://jabber.org/protocol/pubsub\"}],\"n\":\"iq\"}\n\
OptionsSet {\"a\":{\"from\":\"ann@a.example/1\",\"id\":\"1\",\"to\":\"pubsub.example\",\"type\":\"set\"},\"c\":[{\"c\":[{\"a\":{\"jid\":\"ann@a.example/2\",\"node\":\"news\"},\"c\":[{\"a\":{\"type\":\"submit\"},\"c\":[{\"a\":{\"var\":\"pubsub#title\"},\"c\":[{\"c\":[\"T\"],\"n\":\"value\"}],\"n\":\"field\"}],\"n\":\"x\",\"ns\":\"jabber:x:data\"}],\"n\":\"options\"}],\"n\":\"pubsub\",\"ns\":\"http://jabber.org/protocol/pubsub\"}],\"n\":\"iq\"}\n\
ItemsGet {\"a\":{\"from\":\"ann@a.example/1\",\"id\":\"1\",\"to\":\"pubsub.example\",\"type\":\"get\"},\"c\":[{\"c\":[{\"a\":{\"max_items\":\"2\",\"node\":\"news\"},\"c\":[{\"a\":{\"id\":\"i1\"},\"n\":\"item\"},{\"a\":{\"id\":\"i2\"},\"n\":\"item\"}],\"n\":\"items\"}],\"n\":\"pubsub\",\"ns\":\"http://jabber.org/protocol/pubsub\"}],\"n\":\"iq\"}\n\
InfoGet {\"a\":{\"from\":\"ann@a.example/1\",\"id\":\"1\",\"to\":\"pubsub.example\",\"type\":\"get\"},\"c\":[{\"n\":\"query\",\"ns\":\"http://jabber.org/protocol/disco#info\"}],\"n\":\"iq\"}\n\
NodesGet {\"a\":{\"from\":\"ann@a.example/1\",\"id\":\"1\",\"to\":\"pubsub.example\",\"type\":\"get\"},\"c\":[{\"a\":{\"node\":\"news\"},\"n\":\"query\",\"ns\":\"http://jabber.org/protocol/disco#items\"}],\"n\":\"iq\"}\n\
RosterSet {\"a\":{\"from\":\"ann@a.example/1\",\"id\":\"1\",\"to\":\"pubsub.example\",\"type\":\"set\"},\"c\":[{\"c\":[{\"a\":{\"jid\":\"bob@b.example\",\"subscription\":\"both\"},\"c\":[{\"c\":[\"g\"],\"n\":\"group\"},{\"n\":\"group\"}],\"n\":\"item\"}],\"n\":\"query\",\"ns\":\"jabber:iq:roster\"}],\"n\":\"iq\"}\n\
Approve {\"a\":{\"from\":\"ann@a.example/1\",\"id\":\"1\",\"to\":\"pubsub.example\"},\"c\":[{\"a\":{\"type\":\"submit\"},\"c\":[{\"a\":{\"type\":\"hidden\",\"var\":\"FORM_TYPE\"},\"c\":[{\"c\":[\"http://jabber.org/protocol/pubsub#subscribe_authorization\"],\"n\":\"value\"}],\"n\":\"field\"},{\"a\":{\"var\":\"pubsub#node\"},\"c\":[{\"c\":[\"news\"],\"n\":\"value\"}],\"n\":\"field\"},{\"a\":{\"var\":\"pubsub#subscriber_jid\"},\"c\":[{\"c\":[\"bob@b.example\"],\"n\":\"value\"}],\"n\":\"field\"},{\"a\":{\"var\":\"pubsub#allow\"},\"c\":[{\"c\":[\"1\"],\"n\":\"value\"}],\"n\":\"field\"}],\"n\":\"x\",\"ns\":\"jabber:x:data\"}],\"n\":\"message\"}\n\
Present {\"a\":{\"from\":\"ann@a.example/1\",\"id\":\"1\"},\"c\":[{\"a\":{\"hash\":\"sha-1\",\"node\":\"urn:n\",\"ver\":\"v\"},\"n\":\"c\",\"ns\":\"http://jabber.org/protocol/caps\"}],\"n\":\"presence\"}\n\
Absent {\"a\":{\"from\":\"ann@a.example/1\",\"id\":\"1\",\"to\":\"pubsub.example\",\"type\":\"unavailable\"},\"n\":\"presence\"}\n\
CapsAnswer {\"a\":{\"from\":\"ann@a.example/1\",\"id\":\"1\",\"to\":\"pubsub.example\",\"type\":\"result\"},\"c\":[{\"a\":{\"node\":\"urn:n#v\"},\"c\":[{\"a\":{\"var\":\"urn:f\"},\"n\":\"feature\"}],\"n\":\"query\",\"ns\":\"http://jabber.org/protocol/disco#info\"}],\"n\":\"iq\"}\n\
Silent {\"a\":{\"from\":\"ann@a.example/1\",\"id\":\"1\",\"to\":\"pubsub.example\",\"type\":\"error\"},\"n\":\"message\"}\n\
";

// The tree of a line.
fn tree_of(alloc: Global, line: &str) -> Result<Elem, Fail> {
    match read_tree(alloc, line.as_bytes()) {
        Ok(tree) => Ok(tree),
        Err(_) => Err(Fail::from("the line is no tree")),
    }
}

// What a tree in the stream of `a.example` asks of `pubsub.example`.
fn asked(alloc: Global, tree: &Elem) -> Result<Request, Fail> {
    let host = Text::of(alloc, "a.example")?;
    let service = Text::of(alloc, "pubsub.example")?;
    match read_request(alloc, tree, &host, &service) {
        Ok(request) => Ok(request),
        Err(_) => Err(Fail::from("the line is no request")),
    }
}

// What a line of that stream asks.
fn request_of(alloc: Global, line: &str) -> Result<Request, Fail> {
    let tree = tree_of(alloc, line)?;
    asked(alloc, &tree)
}

fn name_of(ask: &Ask) -> &'static str {
    match ask {
        Ask::Create { .. } => "Create",
        Ask::Publish { .. } => "Publish",
        Ask::Retract { .. } => "Retract",
        Ask::Purge { .. } => "Purge",
        Ask::Delete { .. } => "Delete",
        Ask::ConfigGet { .. } => "ConfigGet",
        Ask::ConfigSet { .. } => "ConfigSet",
        Ask::AffilsGet { .. } => "AffilsGet",
        Ask::AffilsSet { .. } => "AffilsSet",
        Ask::SubsGet { .. } => "SubsGet",
        Ask::SubsSet { .. } => "SubsSet",
        Ask::MyAffils { .. } => "MyAffils",
        Ask::MySubs { .. } => "MySubs",
        Ask::Subscribe { .. } => "Subscribe",
        Ask::Unsubscribe { .. } => "Unsubscribe",
        Ask::OptionsGet { .. } => "OptionsGet",
        Ask::OptionsSet { .. } => "OptionsSet",
        Ask::ItemsGet { .. } => "ItemsGet",
        Ask::InfoGet { .. } => "InfoGet",
        Ask::NodesGet { .. } => "NodesGet",
        Ask::RosterSet { .. } => "RosterSet",
        Ask::Approve { .. } => "Approve",
        Ask::Present { .. } => "Present",
        Ask::Absent => "Absent",
        Ask::CapsAnswer { .. } => "CapsAnswer",
        Ask::Silent => "Silent",
    }
}

// Whether the request is written as that line.
fn is_written(alloc: Global, request: &Request, line: &str) -> Result<bool, Fail> {
    let tree = request_tree(alloc, request)?;
    is_printed(alloc, &tree, line)
}

fn is_printed(alloc: Global, tree: &Elem, line: &str) -> Result<bool, Fail> {
    let text = print_tree(alloc, tree)?;
    Ok(text.as_slice() == line.as_bytes())
}

// Whether the line asks that, and is written again as it stands.
fn is_kind(alloc: Global, want: &str, line: &str) -> Result<bool, Fail> {
    let request = request_of(alloc, line)?;
    if name_of(&request.ask) != want {
        return Ok(false);
    }
    is_written(alloc, &request, line)
}

// Whether each of the rows is of its kind.
fn are_kinds(alloc: Global, rows: &str) -> Result<bool, Fail> {
    for row in rows.lines() {
        match row.split_once(' ') {
            Some((want, line)) => {
                if !is_kind(alloc, want, line)? {
                    return Ok(false);
                }
            }
            None => return Ok(false),
        }
    }
    Ok(true)
}

#[test]
fn each_kind_is_read_and_written(rt: HostRuntime) -> Result<(), Fail> {
    assert!(rt; are_kinds(rt.alloc(), KINDS)?);
    Ok(())
}

fn taken_from(alloc: Global, tree: &Elem) -> Result<TakenTree, Fail> {
    let host = Text::of(alloc, "a.example")?;
    let service = Text::of(alloc, "pubsub.example")?;
    Ok(take_tree(alloc, tree, &host, &service)?)
}

fn taken(alloc: Global, line: &str) -> Result<TakenTree, Fail> {
    let tree = tree_of(alloc, line)?;
    taken_from(alloc, &tree)
}

// Whether it is a denied message with the id 7, whose reply goes from the service host to Ann.
fn is_denied_message(taken: &TakenTree) -> bool {
    match taken {
        TakenTree::Denied(head, why) => {
            *why == Condition::C13
                && head.name.is("message")
                && head.sender.local.is("ann")
                && head.target.host.is("pubsub.example")
                && head.id.is("7")
                && head.is_answered
        }
        _ => false,
    }
}

#[test]
fn a_denied_stanza_has_the_head_of_its_reply(rt: HostRuntime) -> Result<(), Fail> {
    let line =
        "{\"a\":{\"from\":\"Ann@A.example/1\",\"id\":\"7\",\"to\":\"a b@c\"},\"n\":\"message\"}";
    assert!(rt; is_denied_message(&taken(rt.alloc(), line)?));
    Ok(())
}

// Whether it is two items for `news`, the first of the id `i1` with a payload and the second without either, with options.
fn are_two_items(ask: &Ask) -> bool {
    match ask {
        Ask::Publish {
            node,
            items,
            options: Some(options),
        } => match items.as_slice() {
            [first, second] => {
                node.is("news")
                    && options.name.is("x")
                    && first.id.is("i1")
                    && first.payloads.as_slice().len() == 1
                    && second.id.is_empty()
                    && second.payloads.as_slice().is_empty()
            }
            _ => false,
        },
        _ => false,
    }
}

// The line of an item with a payload and one without, with options.
const TWO_ITEMS: &str =
    "{\"a\":{\"from\":\"ann@a.example/1\",\"id\":\"1\",\"to\":\"pubsub.example\",\"type\":\"set\"},\"c\":[{\"c\":[{\"a\":{\"node\":\"news\"},\"c\":[{\"a\":{\"id\":\"i1\"},\"c\":[{\"c\":[\"hi\"],\"n\":\"entry\",\"ns\":\"urn:t\"}],\"n\":\"item\"},{\"n\":\"item\"}],\"n\":\"publish\"},{\"c\":[{\"a\":{\"type\":\"submit\"},\"c\":[{\"a\":{\"var\":\"pubsub#title\"},\"c\":[{\"c\":[\"T\"],\"n\":\"value\"}],\"n\":\"field\"}],\"n\":\"x\",\"ns\":\"jabber:x:data\"}],\"n\":\"publish-options\"}],\"n\":\"pubsub\",\"ns\":\"http://jabber.org/protocol/pubsub\"}],\"n\":\"iq\"}";

#[test]
fn a_request_holds_what_its_tree_spells(rt: HostRuntime) -> Result<(), Fail> {
    let request = request_of(rt.alloc(), TWO_ITEMS)?;
    assert!(rt; are_two_items(&request.ask) && request.from.resource.is("1") && request.id.is("1"));
    Ok(())
}
