//! Stanzas for a rehearsal: [`stanza`] deals the stanza of a place in the row of a seed.
//!
//! It is a function of two numbers, `generated` of `specs/Dealt.antt`: a seed and a place give the number drawn (`drawn`), which says what is asked
//! (`kind_of`), of which node (`node_of`), by whom (`who_of`) and with which item (`item`). Stanzas at even places come from the host 0, `a.example`, the
//! others from the host 1, `b.example`, and each asks of the service `pubsub.example` about a node whose name begins with its own host's.
//!
//! The contract of [`stanza`] is equality with it for all seeds and places below 2^64; out of memory may come in its place.
#![tactic(auto)]

mod dealt;
mod kind;
mod trees;

pub use dealt::{Generated, stanza};
pub use kind::Kind;
