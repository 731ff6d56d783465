//! The resources that are present (RFC 6121 §4), and the capability strings that were verified (XEP-0115 §5.4).
//!
//! [`Presence`] and [`Cache`] are each seen as the list of their rows, in order of making, and a spare (`ps_base`,
//! `specs/Rows.antt`). What each call does with that list is said in `ps_types`, `specs/Resources.antt` and `specs/Vers.antt`: a
//! row of the first is of an address with its resource, a row of the second of a capability string, and a string that is there
//! keeps its row. All other rows stay, in their order. A resource is found by the digest of its address, those of a bare address and
//! those of a host by theirs, and a string by its own (`ps_rows`).
#![tactic(auto)]

mod asks;
mod cache;
mod presence;
mod resources;

pub use cache::Cache;
pub use presence::Presence;
