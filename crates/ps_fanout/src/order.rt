// Addresses in the order of the octets of their printed form.
ghost use Rattle.std.specs.Prelude.{◌≡◌, IfOk};
ghost use Rattle.std.specs.BTreeMap.{values};
ghost use Rattle.std.specs.List.{AllByRecursion};
ghost use Rattle.ps_types.specs.Address.{IsAddress};
ghost use Rattle.ps_model.specs.Sorted as model;

use ps_base::Memory;
use ps_types::{Jid, Text};
use std::alloc::Global;
use std::collections::BTreeMap;

// Each address at its text, where one that is there is put in its own place.
fn by_text(alloc: Global, mut whos: Vec<Jid>) -> Result<BTreeMap<Text, Jid>, Memory>
    requires addresses { AllByRecursion IsAddress whos.items }
    ensures { IfOk result (λ m. values m ≡ model.sorted whos.items) }
{
    let mut map = BTreeMap::new(alloc);
    while let Some(who) = whos.pop() {
        let text = who.text(alloc)?;
        let _ = map.insert(text, who)?;
    }
    Ok(map)
}

fn values_of(alloc: Global, mut map: BTreeMap<Text, Jid>) -> Result<Vec<Jid>, Memory>
    ensures { IfOk result (λ v. v.items ≡ values map) }
{
    let mut whos = Vec::new(alloc);
    while let Some((_, who)) = map.pop_first() {
        whos.push(who)?;
    }
    Ok(whos)
}

/// The addresses in the order of the octets of their printed form, each once.
pub fn in_order(alloc: Global, whos: Vec<Jid>) -> Result<Vec<Jid>, Memory>
    requires addresses { AllByRecursion IsAddress whos.items }
    ensures { IfOk result (λ v. v.items ≡ model.sorted whos.items) }
{
    let map = by_text(alloc, whos)?;
    values_of(alloc, map)
}
