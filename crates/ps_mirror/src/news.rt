// What a stanza tells the copy.
ghost use Rattle.std.specs.Prelude.{◌≡◌, IfOk, Ok};
ghost use Rattle.ps_mirror.specs.Copy as copy;

use crate::numbers::number_in;
use crate::reading::event_said;
use crate::said::{News, Said};
use ps_base::Memory;
use ps_forms::{attr, has_attr, has_name};
use ps_namespaces::CLIENT;
use ps_types::{Elem, Jid, NodeKey};
use std::alloc::Global;

// Whether it is a message of the node's service to the address.
fn is_sent(alloc: Global, node: &NodeKey, who: &Jid, stanza: &Elem) -> Result<bool, Memory>
    ensures { IfOk result (λ b. b ≡ copy.is_sent node.now who.now stanza.now) }
{
    let from = node.service.text(alloc)?;
    let to = who.text(alloc)?;
    Ok(
        has_name(stanza, "message", CLIENT)
            && has_attr(stanza, "from", from.as_str())
            && has_attr(stanza, "to", to.as_str()),
    )
}

// What it says, whatever its number.
fn said_of(alloc: Global, node: &NodeKey, who: &Jid, stanza: &Elem) -> Result<Option<Said>, Memory>
    ensures { IfOk result (λ s. s ≡ copy.said_of node.now who.now stanza.now) }
{
    if is_sent(alloc, node, who, stanza)? {
        Ok(event_said(&node.name, stanza)?)
    } else {
        Ok(None)
    }
}

/// What it tells, with its number.
pub(crate) fn news_of(
    alloc: Global,
    node: &NodeKey,
    who: &Jid,
    stanza: &Elem,
) -> Result<Option<News>, Memory>
    ensures { IfOk result (λ n. n ≡ copy.news_of node.now who.now (Ok stanza.now)) }
{
    match number_in(alloc, attr(stanza, "id"))? {
        None => Ok(None),
        Some(number) => match said_of(alloc, node, who, stanza)? {
            None => Ok(None),
            Some(said) => Ok(Some(News { number, said })),
        },
    }
}
