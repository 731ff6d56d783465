// By what rows are found.
ghost use Rattle.std.specs.Prelude.{◌≡◌, ◌<◌, ◌^◌};
ghost use Rattle.ps_chains.specs.Seeding.{begun};
ghost use Rattle.ps_rows.specs.Digests.{with_text, with_bare, with_jid, with_node, ended, node_digest, item_digest, bare_at_digest, jid_at_digest, bare_digest, jid_digest, pair_digest, text_digest};

use ps_chains::Seeded;
use ps_types::{Jid, NodeKey, Text};
use std::hash::{BuildHasher, DefaultHasher, Hasher};

fn begin(seed: u64) -> DefaultHasher
    ensures { result ≡ begun seed }
{
    let seeded = Seeded { seed };
    seeded.build_hasher()
}

#[tactic(auto, unfolding(crate::specs::Digests::with_text))]
fn add_text(hasher: &mut DefaultHasher, text: &Text)
    ensures { hasher.new ≡ with_text hasher.old text.now }
{
    hasher.write(text.as_str().as_bytes());
    hasher.write(&[0xff]);
}

#[tactic(auto, unfolding(crate::specs::Digests::with_bare))]
fn add_bare(hasher: &mut DefaultHasher, who: &Jid)
    ensures { hasher.new ≡ with_bare hasher.old who.now }
{
    add_text(hasher, &who.local);
    add_text(hasher, &who.host);
}

#[tactic(auto, unfolding(crate::specs::Digests::with_jid))]
fn add_jid(hasher: &mut DefaultHasher, who: &Jid)
    ensures { hasher.new ≡ with_jid hasher.old who.now }
{
    add_bare(hasher, who);
    add_text(hasher, &who.resource);
}

#[tactic(auto, unfolding(crate::specs::Digests::with_node))]
fn add_node(hasher: &mut DefaultHasher, node: &NodeKey)
    ensures { hasher.new ≡ with_node hasher.old node.now }
{
    add_jid(hasher, &node.service);
    add_text(hasher, &node.name);
}

#[tactic(auto, unfolding(crate::specs::Digests::ended))]
fn end(hasher: &DefaultHasher) -> u64
    ensures digest { result ≡ ended hasher.now }
    ensures small { result < 2 ^ 63 }
{
    hasher.finish() / 2
}

/// The digest of a node.
#[tactic(auto, unfolding(crate::specs::Digests::node_digest))]
pub fn node_digest(seed: u64, node: &NodeKey) -> u64
    ensures digest { result ≡ node_digest seed node.now }
    ensures small { result < 2 ^ 63 }
{
    let mut hasher = begin(seed);
    add_node(&mut hasher, node);
    end(&hasher)
}

/// The digest of a node and the id of an item.
#[tactic(auto, unfolding(crate::specs::Digests::item_digest))]
pub fn item_digest(seed: u64, node: &NodeKey, id: &Text) -> u64
    ensures digest { result ≡ item_digest seed node.now id.now }
    ensures small { result < 2 ^ 63 }
{
    let mut hasher = begin(seed);
    add_node(&mut hasher, node);
    add_text(&mut hasher, id);
    end(&hasher)
}

/// The digest of a node and a bare address.
#[tactic(auto, unfolding(crate::specs::Digests::bare_at_digest))]
pub fn bare_at_digest(seed: u64, node: &NodeKey, who: &Jid) -> u64
    ensures digest { result ≡ bare_at_digest seed node.now who.now }
    ensures small { result < 2 ^ 63 }
{
    let mut hasher = begin(seed);
    add_node(&mut hasher, node);
    add_bare(&mut hasher, who);
    end(&hasher)
}

/// The digest of a node and an address with its resource.
#[tactic(auto, unfolding(crate::specs::Digests::jid_at_digest))]
pub fn jid_at_digest(seed: u64, node: &NodeKey, who: &Jid) -> u64
    ensures digest { result ≡ jid_at_digest seed node.now who.now }
    ensures small { result < 2 ^ 63 }
{
    let mut hasher = begin(seed);
    add_node(&mut hasher, node);
    add_jid(&mut hasher, who);
    end(&hasher)
}

/// The digest of a bare address.
#[tactic(auto, unfolding(crate::specs::Digests::bare_digest))]
pub fn bare_digest(seed: u64, who: &Jid) -> u64
    ensures digest { result ≡ bare_digest seed who.now }
    ensures small { result < 2 ^ 63 }
{
    let mut hasher = begin(seed);
    add_bare(&mut hasher, who);
    end(&hasher)
}

/// The digest of an address with its resource.
#[tactic(auto, unfolding(crate::specs::Digests::jid_digest))]
pub fn jid_digest(seed: u64, who: &Jid) -> u64
    ensures digest { result ≡ jid_digest seed who.now }
    ensures small { result < 2 ^ 63 }
{
    let mut hasher = begin(seed);
    add_jid(&mut hasher, who);
    end(&hasher)
}

/// The digest of two bare addresses.
#[tactic(auto, unfolding(crate::specs::Digests::pair_digest))]
pub fn pair_digest(seed: u64, a: &Jid, b: &Jid) -> u64
    ensures digest { result ≡ pair_digest seed a.now b.now }
    ensures small { result < 2 ^ 63 }
{
    let mut hasher = begin(seed);
    add_bare(&mut hasher, a);
    add_bare(&mut hasher, b);
    end(&hasher)
}

/// The digest of a text.
#[tactic(auto, unfolding(crate::specs::Digests::text_digest))]
pub fn text_digest(seed: u64, text: &Text) -> u64
    ensures digest { result ≡ text_digest seed text.now }
    ensures small { result < 2 ^ 63 }
{
    let mut hasher = begin(seed);
    add_text(&mut hasher, text);
    end(&hasher)
}
