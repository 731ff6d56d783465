// Events of nodes, as they are worked.
ghost use Rattle.std.specs.Prelude.{◌≡◌, ◌&&◌, ◌∷◌, IfOk};
ghost use Rattle.ps_types.specs.Links.{above};
ghost use Rattle.ps_access.specs.Tables.{book_of};
ghost use Rattle.ps_fanout.specs.Hearing.{Tells};
ghost use Rattle.ps_fanout.specs.Changed as model;

use crate::trees::{associate_inside, event_tree, items_inside, named_inside, retract_inside};
use ps_access::Tables;
use ps_base::Memory;
use ps_types::{Elem, ItemRow, NodeConfig, NodeKey, Text};
use std::alloc::Global;
use std::sync::Arc;

/// What became of a node, or of its items.
#[derive(Drop)]
pub(crate) enum Change<'a> {
    /// An item was published, or a publish carried none.
    Items(&'a Option<ItemRow>),
    Retract(&'a Text),
    Purge,
    Delete,
    Configuration,
}

/// An event of a node.
#[derive(Drop)]
pub(crate) struct News<'a> {
    /// Who may read this node may hear of it.
    pub(crate) node: &'a NodeKey,
    /// The node was put into a collection, so that rows on the node itself and resources that want it don't count.
    pub(crate) joins: bool,
    /// It is of items, not of nodes.
    pub(crate) items: bool,
    /// The collections whose rows may reach it, the nearest first.
    pub(crate) above: Vec<NodeKey>,
    /// The configuration that decides.
    pub(crate) config: &'a NodeConfig,
    /// That configuration has events of this kind delivered.
    pub(crate) is_on: bool,
    /// The `event` of its stanzas.
    pub(crate) event: Arc<Elem>,
}

fn is_of_items(change: &Change<'_>) -> bool
    ensures { result ≡ model.is_of_items change.now }
{
    matches!(
        change,
        Change::Items(_) | Change::Retract(_) | Change::Purge
    )
}

// Whether the configuration has it told, beside having notices delivered at all.
fn is_told(config: &NodeConfig, change: &Change<'_>) -> bool
    ensures { result ≡ model.is_told change.now config.now }
{
    match change {
        Change::Delete => config.notify_delete,
        Change::Configuration => config.notify_config,
        _ => true,
    }
}

fn is_on(config: &NodeConfig, change: &Change<'_>) -> bool
    ensures { result ≡ (config.now.deliver_notifications && model.is_told change.now config.now) }
{
    config.deliver_notifications && is_told(config, change)
}

fn inside(
    alloc: Global,
    config: &NodeConfig,
    node: &NodeKey,
    change: &Change<'_>,
) -> Result<Elem, Memory>
    ensures { IfOk result (λ t. t ≡ model.change_inside node.now change.now config.now) }
{
    match change {
        Change::Items(item) => items_inside(alloc, config, node, item),
        Change::Retract(id) => retract_inside(alloc, node, id),
        Change::Purge => named_inside(alloc, "purge", node),
        Change::Delete => named_inside(alloc, "delete", node),
        Change::Configuration => named_inside(alloc, "configuration", node),
    }
}

/// What a node tells of a change.
pub(crate) fn node_news<'a>(
    alloc: Global,
    tables: &'a Tables,
    node: &'a NodeKey,
    change: &Change<'_>,
) -> Result<Option<News<'a>>, Memory>
    ensures { IfOk result (Tells (book_of tables.now) (model.change_told (book_of tables.now) node.now change.now)) }
{
    let Some(config) = tables.nodes.config(node) else {
        return Ok(None);
    };
    let above = tables.links.ancestors(alloc, node)?;
    let inside = inside(alloc, config, node, change)?;
    let event = Arc::new(alloc, event_tree(alloc, inside)?)?;
    let is_on = is_on(config, change);
    let items = is_of_items(change);
    Ok(Some(News {
        node,
        joins: false,
        items,
        above,
        config,
        is_on,
        event,
    }))
}

// The collection, and those above it.
fn from_collection(
    alloc: Global,
    tables: &Tables,
    collection: &NodeKey,
) -> Result<Vec<NodeKey>, Memory>
    ensures { IfOk result (λ nodes. nodes.items ≡ collection.now ∷ above collection.now tables.now.links.rows) }
{
    let mut nodes = tables.links.ancestors(alloc, collection)?;
    nodes.insert(0, collection.clone()?)?;
    Ok(nodes)
}

/// The node was put into a collection, whose configuration decides.
pub(crate) fn join_news<'a>(
    alloc: Global,
    tables: &'a Tables,
    node: &'a NodeKey,
    collection: &NodeKey,
) -> Result<Option<News<'a>>, Memory>
    ensures { IfOk result (Tells (book_of tables.now) (model.join_told (book_of tables.now) node.now collection.now)) }
{
    let Some(config) = tables.nodes.config(collection) else {
        return Ok(None);
    };
    let above = from_collection(alloc, tables, collection)?;
    let inside = associate_inside(alloc, node, collection)?;
    let event = Arc::new(alloc, event_tree(alloc, inside)?)?;
    Ok(Some(News {
        node,
        joins: true,
        items: false,
        above,
        config,
        is_on: config.deliver_notifications,
        event,
    }))
}
