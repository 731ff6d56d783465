// The rows of nodes, read from trees.
ghost use Rattle.ps_compact_codec.specs.Answer.{Tells};
ghost use Rattle.ps_compact_codec.specs.Kinds.{affiliation_in, item_in, link_in, made_in, node_in, subscription_in};

use crate::parts::{Unread, config_at, jid_at, key_at, moment_at, number_at, payload_of};
use crate::row::StoredRow;
use crate::words::{affil_of, depth_of, sub_of, type_of};
use ps_forms::attr;
use ps_types::{
    AffilRow, CountRow, Elem, ItemRow, LinkRow, NodeKey, NodeRow, SubOptions, SubRow, Text,
};
use std::alloc::Global;

pub(crate) fn read_node(alloc: Global, tree: &Elem) -> Result<StoredRow, Unread>
    ensures { Tells result (node_in tree.now) }
{
    let creator = jid_at(alloc, tree, "creator")?;
    let key = key_at(alloc, tree)?;
    let config = config_at(alloc, tree)?;
    Ok(StoredRow::Node(NodeRow {
        key,
        creator,
        config,
    }))
}

pub(crate) fn read_affil(alloc: Global, tree: &Elem) -> Result<StoredRow, Unread>
    ensures { Tells result (affiliation_in tree.now) }
{
    let affil = affil_of(attr(tree, "affiliation")).ok_or(Unread::NoRow)?;
    let who = jid_at(alloc, tree, "jid")?;
    let node = key_at(alloc, tree)?;
    Ok(StoredRow::Affiliation(AffilRow { node, who, affil }))
}

pub(crate) fn read_sub(alloc: Global, tree: &Elem) -> Result<StoredRow, Unread>
    ensures { Tells result (subscription_in tree.now) }
{
    let deep = depth_of(attr(tree, "depth")).ok_or(Unread::NoRow)?;
    let who = jid_at(alloc, tree, "jid")?;
    let node = key_at(alloc, tree)?;
    let state = sub_of(attr(tree, "subscription")).ok_or(Unread::NoRow)?;
    let items = type_of(attr(tree, "type")).ok_or(Unread::NoRow)?;
    Ok(StoredRow::Subscription(SubRow {
        node,
        who,
        state,
        options: SubOptions { items, deep },
    }))
}

pub(crate) fn read_item(alloc: Global, tree: &Elem) -> Result<StoredRow, Unread>
    ensures { Tells result (item_in tree.now) }
{
    let publisher = jid_at(alloc, tree, "publisher")?;
    let node = key_at(alloc, tree)?;
    let moment = moment_at(tree)?;
    let id = Text::of(alloc, attr(tree, "id"))?;
    let payload = payload_of(tree)?;
    Ok(StoredRow::Item(ItemRow {
        node,
        id,
        publisher,
        payload,
        moment,
    }))
}

pub(crate) fn read_link(alloc: Global, tree: &Elem) -> Result<StoredRow, Unread>
    ensures { Tells result (link_in tree.now) }
{
    let child = key_at(alloc, tree)?;
    let collection = NodeKey {
        service: child.service.clone()?,
        name: Text::of(alloc, attr(tree, "collection"))?,
    };
    Ok(StoredRow::Link(LinkRow { child, collection }))
}

pub(crate) fn read_count(alloc: Global, tree: &Elem) -> Result<StoredRow, Unread>
    ensures { Tells result (made_in tree.now) }
{
    let who = jid_at(alloc, tree, "jid")?;
    let node = key_at(alloc, tree)?;
    let made = number_at(tree, "count")?;
    Ok(StoredRow::Made(CountRow { node, who, made }))
}
