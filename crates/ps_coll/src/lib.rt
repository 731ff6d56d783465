//! Which collection holds a node, and what is above it (XEP-0248).
//!
//! [`Links`] is seen as the list of its rows, in order of making, and its spare (`ps_base`, `specs/Rows.antt`). What each call
//! does with that list is said in `ps_types`, `specs/Links.antt`: a row is of a child and its collection; above a node stand the
//! collections that following the links from it reaches, the nearest first, in no more steps than there are links. So every
//! search here ends, whatever the rows are. A row is found by the digest of its child, those of a collection by that of the
//! collection (`ps_rows`), so a search costs a step for each collection above.
#![tactic(auto)]

mod asks;
mod climb;
mod links;
mod named;

pub use links::{Links, NotCollection};
