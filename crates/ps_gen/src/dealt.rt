// The stanza of a place in the row of a seed.
ghost use Rattle.std.specs.Prelude.{◌≡◌, ◌<◌, IfOk, string_bytes};
ghost use Rattle.ps_gen.specs.Dealt.{drawn as drawn_by, generated, host_name as host_by, who_of, node_of};

use crate::kind::kind_of;
use crate::trees::{asked, iq};
use ps_base::Memory;
use ps_types::Elem;
use std::alloc::Global;

/// A stanza, and the host whose stream it comes on: 0 is `a.example`, 1 is `b.example`.
#[derive(Drop)]
pub struct Generated {
    pub host: u8,
    pub tree: Elem,
}

// The number that a seed and a place draw.
fn drawn(seed: u64, k: u64) -> u64
    ensures value { result ≡ drawn_by seed k }
    ensures few { result < 1000003 }
{
    let sum = u128::from(seed % 1000003) * 31 + u128::from(k) * 7919;
    (sum % 1000003) as u64
}

fn host_name(k: u64) -> &'static str
    ensures { result.now ≡ host_by k }
{
    if k % 2 == 0 { "a.example" } else { "b.example" }
}

// The account that asks.
fn who(alloc: Global, host: &str, drawn: u64) -> Result<String, Memory>
    ensures { IfOk result (λ w. string_bytes w ≡ who_of host.now drawn) }
{
    let user = drawn / 64 % 4;
    Ok(format!(in alloc; "u{user}@{host}")?)
}

// The node that is asked of.
fn node(alloc: Global, host: &str, drawn: u64) -> Result<String, Memory>
    ensures { IfOk result (λ n. string_bytes n ≡ node_of host.now drawn) }
{
    let number = drawn / 8 % 8;
    Ok(format!(in alloc; "{host}-{number}")?)
}

/// The stanza at the place `k`, from 0, in the row of the seed.
pub fn stanza(alloc: Global, seed: u64, k: u64) -> Result<Generated, Memory>
    ensures { IfOk result (λ g. g ≡ generated seed k) }
{
    let drawn = drawn(seed, k);
    let host = host_name(k);
    let who = who(alloc, host, drawn)?;
    let node = node(alloc, host, drawn)?;
    let kind = kind_of(drawn);
    let child = asked(alloc, kind, who.as_str(), node.as_str(), drawn)?;
    let sender = format!(in alloc; "{who}/r")?;
    let id = k.to_string(alloc)?;
    let tree = iq(
        alloc,
        sender.as_str(),
        id.as_str(),
        kind.stanza_type(),
        child,
    )?;
    Ok(Generated {
        host: (k % 2) as u8,
        tree,
    })
}
