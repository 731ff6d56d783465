// What events give, by address.
ghost use Rattle.std.specs.Prelude.{◌≡◌, IfOk};
ghost use Rattle.std.specs.BTreeMap.{values};
ghost use Rattle.ps_notices.specs.Due as model;

use ps_base::Memory;
use ps_drafts::Draft;
use ps_types::{Jid, Text};
use std::alloc::Global;
use std::collections::BTreeMap;

// Each by the text of its address, and for one address in the order in which they came.
fn by_text(
    alloc: Global,
    mut all: Vec<(Jid, Draft)>,
) -> Result<BTreeMap<(Text, usize), (Jid, Draft)>, Memory>
    ensures { IfOk result (λ m. values m ≡ model.arranged all.items) }
{
    let mut map = BTreeMap::new(alloc);
    while let Some(told) = all.pop() {
        let (who, tree) = told;
        let text = who.text(alloc)?;
        let turn = all.len();
        let _ = map.insert((text, turn), (who, tree))?;
    }
    Ok(map)
}

fn values_of(
    alloc: Global,
    mut map: BTreeMap<(Text, usize), (Jid, Draft)>,
) -> Result<Vec<(Jid, Draft)>, Memory>
    ensures { IfOk result (λ v. v.items ≡ values map) }
{
    let mut all = Vec::with_capacity(alloc, map.len())?;
    while let Some((_, told)) = map.pop_first() {
        all.push(told)?;
    }
    Ok(all)
}

/// What several events give, by the octets of the address, and for one address in the order in which they came.
pub(crate) fn arranged(alloc: Global, all: Vec<(Jid, Draft)>) -> Result<Vec<(Jid, Draft)>, Memory>
    ensures { IfOk result (λ v. v.items ≡ model.arranged all.items) }
{
    let map = by_text(alloc, all)?;
    values_of(alloc, map)
}
