// The resources of an address.
ghost use Rattle.std.specs.Prelude.{◌≡◌, IfOk, map, filter};
ghost use Rattle.std.specs.List.{list_any};
ghost use Rattle.ps_types.specs.Resources.{is_resource_of, is_resource_at, is_bare_present, is_present, resources_of};

use crate::asks::{OfBare, ResourceOf};
use ps_rows::{Index, Rows};
use ps_types::{Jid, Memory, ResourceRow};
use std::alloc::Global;

fn has_resource(rows: &Rows<ResourceRow>, who: &Jid) -> bool
    ensures { result ≡ list_any (is_resource_of who.now) rows.now.rows }
{
    let ask = ResourceOf { who };
    rows.any(Index::Key, &ask)
}

fn has_bare(rows: &Rows<ResourceRow>, who: &Jid) -> bool
    ensures { result ≡ is_bare_present who.now rows.now.rows }
{
    let ask = OfBare { who };
    rows.any(Index::Node, &ask)
}

/// Whether an address is present: a full one by its own row, a bare one by a row of any of its resources
/// (RFC 6121 §4).
pub fn is_present_among(rows: &Rows<ResourceRow>, who: &Jid) -> bool
    ensures { result ≡ is_present who.now rows.now.rows }
{
    if who.resource.is_empty() {
        has_bare(rows, who)
    } else {
        has_resource(rows, who)
    }
}

fn rows_of(alloc: Global, rows: &Rows<ResourceRow>, bare: &Jid) -> Result<Vec<ResourceRow>, Memory>
    ensures { IfOk result (λ found. found.items ≡ filter (is_resource_at bare.now) rows.now.rows) }
{
    let ask = OfBare { who: bare };
    rows.list(Index::Node, &ask, alloc)
}

/// The resources of a bare address, in order.
pub fn listed(alloc: Global, rows: &Rows<ResourceRow>, bare: &Jid) -> Result<Vec<Jid>, Memory>
    ensures { IfOk result (λ jids. jids.items ≡ resources_of bare.now rows.now.rows) }
{
    let found = rows_of(alloc, rows, bare)?;
    let mut jids = Vec::new(alloc);
    for row in &found {
        jids.push(row.who.clone()?)?;
    }
    Ok(jids)
}
