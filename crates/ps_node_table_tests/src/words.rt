// Addresses and nodes of the tests.
use ps_types::{Jid, NodeKey, Text};
use std::alloc::Global;
use std::test::Fail;

pub fn jid(alloc: Global, text: &str) -> Result<Jid, Fail> {
    Ok(Jid::read(alloc, text.as_bytes())?)
}

/// A node of the service host.
pub fn node(alloc: Global, name: &str) -> Result<NodeKey, Fail> {
    let service = jid(alloc, "pubsub.example")?;
    let name = Text::of(alloc, name)?;
    Ok(NodeKey { service, name })
}
