// Addresses in the order of their printed form.
ghost use Rattle.std.specs.Prelude.{◌≡◌, IfOk, OnOk, map};
ghost use Rattle.ps_model.specs.Sorted.{sorted};
ghost use Rattle.ps_filter.specs.Printed.{Puts, printed};

use crate::want::Want;
use ps_base::Memory;
use ps_types::{Jid, Text};
use std::alloc::Global;
use std::collections::BTreeMap;

// Puts an address where it belongs, unless it is there.
fn put(alloc: Global, found: &mut BTreeMap<Text, Jid>, who: &Jid) -> Result<(), Memory>
    ensures { OnOk result (Puts who.now found.old.entries found.new.entries) }
{
    let text = who.text(alloc)?;
    let _len = found.len();
    if found.contains_key(&text) {
        return Ok(());
    }
    found.insert(text, who.clone()?)?;
    Ok(())
}

fn ordered(alloc: Global, wants: &[Want]) -> Result<BTreeMap<Text, Jid>, Memory>
    ensures { IfOk result (λ found. found.entries ≡ printed (sorted (map (λ want. want.who) wants.now))) }
{
    let mut found = BTreeMap::new(alloc);
    let mut at = wants.len();
    while 0 < at {
        at -= 1;
        put(alloc, &mut found, &wants[at].who)?;
    }
    Ok(found)
}

/// Who has these wants, each once.
pub(crate) fn sorted(alloc: Global, wants: &[Want]) -> Result<Vec<Jid>, Memory>
    ensures { IfOk result (λ whos. whos.items ≡ sorted (map (λ want. want.who) wants.now)) }
{
    let found = ordered(alloc, wants)?;
    Ok(found.into_values().collect(alloc)?)
}
