// The nodes of a service host or an account.
ghost use Rattle.std.specs.Prelude.{◌≡◌, ◌++◌, IfOk, OnOk, map};
ghost use Rattle.ps_chains.specs.Marks.{mark_at};
ghost use Rattle.ps_rows.specs.Standing.{passing, standing};
ghost use Rattle.ps_types.specs.Nodes.{is_node_of};
ghost use Rattle.ps_nodes.specs.Served.{key_in, keys_at};

use ps_base::Memory;
use ps_rows::{Index, Slots, bare_digest};
use ps_types::{Jid, NodeKey, NodeRow};
use std::alloc::Global;

/// Adds the key of the node at a place, if the node is of the service or the account.
fn add_key(
    keys: &mut Vec<NodeKey>,
    slots: &Slots<NodeRow>,
    place: usize,
    service: &Jid,
) -> Result<(), Memory>
    ensures { OnOk result (keys.new.items
        ≡ keys.old.items ++ map key_in (passing (is_node_of service.now) (mark_at slots.now.rows place))) }
{
    if let Some(row) = slots.get(place) {
        if service.is_same(&row.key.service) {
            keys.push(row.key.clone()?)?;
        }
    }
    Ok(())
}

/// The keys of the nodes of a service or an account, in the order of their making.
pub fn keys_among(
    alloc: Global,
    slots: &Slots<NodeRow>,
    service: &Jid,
) -> Result<Vec<NodeKey>, Memory>
    ensures { IfOk result (λ keys. keys.items ≡ keys_at service.now (standing slots.now.rows)) }
{
    let mut keys = Vec::new(alloc);
    let mut at = slots.first(Index::Bare, bare_digest(slots.seed(), service));
    while let Some(place) = at {
        add_key(&mut keys, slots, place, service)?;
        at = slots.next(Index::Bare, place);
    }
    Ok(keys)
}
