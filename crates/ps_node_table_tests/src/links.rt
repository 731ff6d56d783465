// Nodes in collections.
use crate::words::node;
use ps_coll::Links;
use ps_types::LinkRow;
use std::alloc::Global;
use std::process::Abort;
use std::test::Fail;

// Whether the node was put there.
fn attach(
    alloc: Global,
    links: &mut Links,
    child: &str,
    collection: &str,
    is_collection: bool,
) -> Result<bool, Fail> {
    links.reserve(1)?;
    let child = node(alloc, child)?;
    let collection = node(alloc, collection)?;
    let attached = links.attach(LinkRow { child, collection }, is_collection);
    Ok(attached.is_ok())
}

// `leaf` is in `mid`, which is in `top`.
fn tower(rt: &impl Abort, alloc: Global) -> Result<Links, Fail> {
    let mut links = Links::new(alloc)?;
    assert!(rt; attach(alloc, &mut links, "mid", "top", true)?);
    assert!(rt; attach(alloc, &mut links, "leaf", "mid", true)?);
    assert!(rt; !attach(alloc, &mut links, "n1", "news", false)?);
    Ok(links)
}

#[test]
fn a_collection_with_children_holds_them_until_they_go(rt: HostRuntime) -> Result<(), Fail> {
    let alloc = rt.alloc();
    let mut links = tower(&rt, alloc)?;
    let copy = links.copy()?;
    let mid = node(alloc, "mid")?;
    let leaf = node(alloc, "leaf")?;
    assert!(rt; links.has_children(&mid));
    assert!(rt; links.collection_of(&leaf).is_some());
    links.drop_node(&leaf);
    assert!(rt; !links.has_children(&mid));
    assert!(rt; !links.names(&leaf));
    assert_eq!(rt; links.len(), 1);
    assert!(rt; copy.row(1).is_some());
    Ok(())
}
