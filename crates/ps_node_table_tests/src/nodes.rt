// Nodes that are made, configured, listed and deleted.
use crate::words::{jid, node};
use ps_nodes::Nodes;
use ps_types::{
    Access, Most, NodeConfig, NodeKey, NodeKind, NodeRow, NoticeKind, PublishModel, SendLast, Text,
    Texts,
};
use std::alloc::Global;
use std::test::Fail;

fn config(alloc: Global, access_model: Access) -> Result<NodeConfig, Fail> {
    let title = Text::of(alloc, "")?;
    let collection = Text::of(alloc, "")?;
    Ok(NodeConfig {
        title,
        deliver_notifications: true,
        deliver_payloads: true,
        notify_config: false,
        notify_delete: true,
        notify_retract: true,
        persist_items: true,
        max_items: Most::new(10),
        access_model,
        publish_model: PublishModel::Publishers,
        roster_groups_allowed: Texts::new(alloc),
        send_last_published_item: SendLast::Never,
        presence_based_delivery: false,
        notification_type: NoticeKind::Headline,
        max_payload_size: 65536,
        node_type: NodeKind::Leaf,
        collection,
    })
}

fn row(alloc: Global, name: &str, creator: &str) -> Result<NodeRow, Fail> {
    let key = node(alloc, name)?;
    let creator = jid(alloc, creator)?;
    let config = config(alloc, Access::Everyone)?;
    Ok(NodeRow {
        key,
        creator,
        config,
    })
}

// Whether the node was made: its key was new.
fn makes(alloc: Global, nodes: &mut Nodes, name: &str, creator: &str) -> Result<bool, Fail> {
    nodes.reserve(1)?;
    Ok(nodes.create(row(alloc, name, creator)?).is_ok())
}

fn deletes(alloc: Global, nodes: &mut Nodes, name: &str) -> Result<bool, Fail> {
    Ok(nodes.delete(&node(alloc, name)?))
}

fn made_by(alloc: Global, nodes: &Nodes, who: &str) -> Result<u64, Fail> {
    Ok(nodes.made_by(&jid(alloc, who)?))
}

fn is_at(nodes: &Nodes, at: u64, name: &str) -> bool {
    match nodes.row(at) {
        Some(row) => row.key.name.is(name),
        None => false,
    }
}

// Three nodes are made, by two addresses; a fourth has the name of the first.
fn made(alloc: Global, nodes: &mut Nodes) -> Result<[bool; 4], Fail> {
    Ok([
        makes(alloc, nodes, "news", "ann@a.example/1")?,
        makes(alloc, nodes, "one", "Ann@a.example/2")?,
        makes(alloc, nodes, "w", "bob@a.example")?,
        makes(alloc, nodes, "news", "bob@b.example/1")?,
    ])
}

#[test]
fn a_node_is_made_once_and_the_others_keep_their_order(rt: HostRuntime) -> Result<(), Fail> {
    let alloc = rt.alloc();
    let mut nodes = Nodes::new(alloc)?;
    let new = made(alloc, &mut nodes)?;
    assert!(rt; new == [true, true, true, false]);
    let copy = nodes.copy()?;
    let gone = deletes(alloc, &mut nodes, "news")?;
    assert!(rt; gone && nodes.len() == 2 && is_at(&nodes, 0, "one") && is_at(&nodes, 1, "w"));
    let counts = (
        made_by(alloc, &nodes, "ann@a.example")?,
        made_by(alloc, &copy, "ann@a.example/3")?,
    );
    assert!(rt; counts == (1, 2));
    Ok(())
}

fn key_at(alloc: Global, service: &str, name: &str) -> Result<NodeKey, Fail> {
    let service = jid(alloc, service)?;
    let name = Text::of(alloc, name)?;
    Ok(NodeKey { service, name })
}

// Whether the node of a service host or an account was made, by its own address.
fn makes_at(alloc: Global, nodes: &mut Nodes, service: &str, name: &str) -> Result<bool, Fail> {
    let key = key_at(alloc, service, name)?;
    let creator = jid(alloc, service)?;
    let config = config(alloc, Access::Everyone)?;
    nodes.reserve(1)?;
    let made = nodes.create(NodeRow {
        key,
        creator,
        config,
    });
    Ok(made.is_ok())
}

// Whether the nodes of a name stand at these places, in this order.
fn are_at(alloc: Global, nodes: &Nodes, name: &str, places: &[u64]) -> Result<bool, Fail> {
    let name = Text::of(alloc, name)?;
    let found = nodes.places_named(alloc, &name)?;
    Ok(found.as_slice() == places)
}

// Nodes of three accounts and the service host, four of them of one name.
fn personal(alloc: Global, nodes: &mut Nodes) -> Result<[bool; 5], Fail> {
    Ok([
        makes_at(alloc, nodes, "ann@a.example", "mood")?,
        makes_at(alloc, nodes, "bob@b.example", "mood")?,
        makes_at(alloc, nodes, "ann@a.example", "tune")?,
        makes_at(alloc, nodes, "pubsub.example", "mood")?,
        makes_at(alloc, nodes, "eve@c.example", "mood")?,
    ])
}

#[test]
fn the_nodes_of_a_name_are_found(rt: HostRuntime) -> Result<(), Fail> {
    let alloc = rt.alloc();
    let mut nodes = Nodes::new(alloc)?;
    let new = personal(alloc, &mut nodes)?;
    assert!(rt; new == [true, true, true, true, true]);
    assert!(rt; are_at(alloc, &nodes, "mood", &[0, 1, 3, 4])?);
    assert!(rt; are_at(alloc, &nodes, "tune", &[2])?);
    assert!(rt; are_at(alloc, &nodes, "Mood", &[])?);
    Ok(())
}

#[test]
fn the_nodes_of_a_name_keep_their_order(rt: HostRuntime) -> Result<(), Fail> {
    let alloc = rt.alloc();
    let mut nodes = Nodes::new(alloc)?;
    let new = personal(alloc, &mut nodes)?;
    let copy = nodes.copy()?;
    let gone = nodes.delete(&key_at(alloc, "bob@b.example", "mood")?);
    assert!(rt; new == [true, true, true, true, true] && gone);
    assert!(rt; are_at(alloc, &nodes, "mood", &[0, 2, 3])?);
    assert!(rt; are_at(alloc, &nodes, "tune", &[1])?);
    assert!(rt; makes_at(alloc, &mut nodes, "bob@b.example", "mood")?);
    assert!(rt; are_at(alloc, &nodes, "mood", &[0, 2, 3, 4])?);
    assert!(rt; are_at(alloc, &copy, "mood", &[0, 1, 3, 4])?);
    Ok(())
}

#[test]
fn the_empty_places_are_taken_away(rt: HostRuntime) -> Result<(), Fail> {
    let alloc = rt.alloc();
    let mut nodes = Nodes::new(alloc)?;
    let new = personal(alloc, &mut nodes)?;
    let gone = [
        nodes.delete(&key_at(alloc, "bob@b.example", "mood")?),
        nodes.delete(&key_at(alloc, "ann@a.example", "tune")?),
    ];
    assert!(rt; new == [true, true, true, true, true] && gone == [true, true]);
    nodes.reserve(100)?;
    assert!(rt; are_at(alloc, &nodes, "mood", &[0, 1, 2])?);
    assert!(rt; makes_at(alloc, &mut nodes, "ann@a.example", "tune")?);
    assert!(rt; are_at(alloc, &nodes, "tune", &[3])?);
    Ok(())
}
