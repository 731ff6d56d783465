// The id of an item that is published (XEP-0060 §7.1.1).
ghost use Rattle.std.specs.Prelude.{◌≡◌, IfOk};
ghost use Rattle.ps_model.specs.ItemIds as model;
ghost use Rattle.ps_model.specs.ItemIds.{auto_id, next_made};
ghost use Rattle.ps_access.specs.Tables.{book_of};

use crate::tables::Tables;
use ps_base::Memory;
use ps_types::{Jid, NodeKey, Text};
use std::alloc::Global;

fn made_id(alloc: Global, made: u128, who: &Jid) -> Result<Text, Memory>
    ensures { IfOk result (λ t. t ≡ auto_id made who.now) }
{
    let who = who.to_bare(alloc)?.text(alloc)?;
    Ok(Text::from_string(format!(in alloc; "auto-{made}-{who}")?))
}

fn next(tables: &Tables, node: &NodeKey, who: &Jid) -> u128
    ensures { result ≡ next_made (book_of tables.now) node.now who.now }
{
    u128::from(tables.counts.get(node, who)) + 1
}

/// The id of an item as it was spelled, or a new one where it was spelled without.
pub fn item_id(
    alloc: Global,
    tables: &Tables,
    node: &NodeKey,
    who: &Jid,
    id: &Text,
) -> Result<Text, Memory>
    ensures id { IfOk result (λ t. t ≡ model.item_id id.now (book_of tables.now) node.now who.now) }
{
    if id.is_empty() {
        return made_id(alloc, next(tables, node, who), who);
    }
    Ok(id.clone()?)
}
