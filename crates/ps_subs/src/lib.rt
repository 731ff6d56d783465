//! The subscriptions of addresses to nodes (XEP-0060 §6).
//!
//! [`Subs`] is seen as the list of its rows, in order of making, and its spare (`ps_base`, `specs/Rows.antt`). What each call
//! does with that list is said in `ps_types`, `specs/Subs.antt`: a row is of a node and an address with its resource, an address
//! without a row has no subscription, and where one is set to none its row goes. All other rows stay, in their order. A row is found
//! by the digest of its node and address, those of a node and those of a bare address by theirs (`ps_rows`).
#![tactic(auto)]

mod asks;
mod subs;

pub use subs::Subs;
