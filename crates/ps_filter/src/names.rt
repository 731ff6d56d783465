// The names that features ask for (XEP-0163 §4.2).
ghost use Rattle.std.specs.Prelude.{IfOk};
ghost use Rattle.ps_filter.specs.Names.{IsNameOf};
ghost use Rattle.ps_filter.specs.Wants.{AreAsked};

use crate::want::Want;
use ps_base::Memory;
use ps_types::{Jid, Text};
use std::alloc::Global;

// The name of the nodes that a feature asks for.
fn name_in(feature: &Text) -> Option<&str>
    ensures { IsNameOf feature.now result }
{
    feature.as_str().strip_suffix("+notify")
}

/// What a resource of these features wants.
pub(crate) fn asked(alloc: Global, who: &Jid, features: &[Text]) -> Result<Vec<Want>, Memory>
    ensures { IfOk result (λ rows. AreAsked who.now features.now rows.items) }
{
    let mut rows = Vec::new(alloc);
    for feature in features {
        let Some(name) = name_in(feature) else {
            continue;
        };
        rows.push(Want {
            who: who.clone()?,
            name: Text::of(alloc, name)?,
        })?;
    }
    Ok(rows)
}
