// What is asked of subscriptions.
ghost use Rattle.std.specs.Prelude.{◌≡◌};
ghost use Rattle.ps_types.specs.Subs.{is_sub_of, is_sub_at, is_sub_by, is_subscribed, subscribes};
ghost use Rattle.ps_subs.specs.Among.{is_among};
ghost use Rattle.ps_rows.specs.Digests.{bare_digest, jid_at_digest, node_digest};

use crate::subs::Subs;
use ps_rows::{Ask, bare_digest, jid_at_digest, node_digest};
use ps_types::{Jid, NodeKey, SubRow, SubState};

fn is_subscribed(state: SubState) -> bool
    ensures { result ≡ is_subscribed state }
{
    matches!(state, SubState::Subscribed)
}

/// The subscription of a node and an address with its resource.
#[derive(Drop)]
pub struct SubOf<'a> {
    pub node: &'a NodeKey,
    pub who: &'a Jid,
}

impl<'a> Ask<SubRow> for SubOf<'a> {
    ghost passes = { λ ask row. is_sub_of ask.node.now ask.who.now row };

    ghost seeks = { λ seed ask. jid_at_digest seed ask.node.now ask.who.now };

    fn passes(&self, row: &SubRow) -> bool {
        self.node.is_same(&row.node) && self.who.is_same(&row.who)
    }

    fn digest(&self, seed: u64) -> u64 {
        jid_at_digest(seed, self.node, self.who)
    }
}

/// The subscriptions of a node.
#[derive(Drop)]
pub struct AtNode<'a> {
    pub node: &'a NodeKey,
}

impl<'a> Ask<SubRow> for AtNode<'a> {
    ghost passes = { λ ask row. is_sub_at ask.node.now row };

    ghost seeks = { λ seed ask. node_digest seed ask.node.now };

    fn passes(&self, row: &SubRow) -> bool {
        self.node.is_same(&row.node)
    }

    fn digest(&self, seed: u64) -> u64 {
        node_digest(seed, self.node)
    }
}

/// The subscriptions of a bare address.
#[derive(Drop)]
pub struct Held<'a> {
    pub who: &'a Jid,
}

impl<'a> Ask<SubRow> for Held<'a> {
    ghost passes = { λ ask row. is_sub_by ask.who.now row };

    ghost seeks = { λ seed ask. bare_digest seed ask.who.now };

    fn passes(&self, row: &SubRow) -> bool {
        self.who.same_bare(&row.who)
    }

    fn digest(&self, seed: u64) -> u64 {
        bare_digest(seed, self.who)
    }
}

/// The subscriptions of a bare address to a node that are not pending.
#[derive(Drop)]
pub struct SubscribedBy<'a> {
    pub node: &'a NodeKey,
    pub who: &'a Jid,
}

impl<'a> Ask<SubRow> for SubscribedBy<'a> {
    ghost passes = { λ ask row. subscribes ask.node.now ask.who.now row };

    ghost seeks = { λ seed ask. bare_digest seed ask.who.now };

    fn passes(&self, row: &SubRow) -> bool {
        self.node.is_same(&row.node) && (self.who.same_bare(&row.who) && is_subscribed(row.state))
    }

    fn digest(&self, seed: u64) -> u64 {
        bare_digest(seed, self.who)
    }
}

/// The subscriptions at a node of addresses of which others have a row there.
#[derive(Drop)]
pub struct Among<'a> {
    pub node: &'a NodeKey,
    pub others: &'a Subs,
}

impl<'a> Ask<SubRow> for Among<'a> {
    ghost passes = { λ ask row. is_among ask.node.now ask.others.now.rows row };

    ghost seeks = { λ seed ask. node_digest seed ask.node.now };

    fn passes(&self, row: &SubRow) -> bool {
        self.node.is_same(&row.node) && self.others.row_of(self.node, &row.who).is_some()
    }

    fn digest(&self, seed: u64) -> u64 {
        node_digest(seed, self.node)
    }
}
