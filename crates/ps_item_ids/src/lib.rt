//! How many item ids were made for bare addresses at nodes.
//!
//! [`Counts`] is seen as the list of its rows, in order of making, and its spare (`ps_base`, `specs/Rows.antt`). What each call
//! does with that list is said in `ps_types`, `specs/Counts.antt`: a row is of a node and a bare address, and without a row none
//! were made. All other rows stay, in their order. A row is found by the digest of its node and address, those of a node by that
//! of the node (`ps_rows`).
#![tactic(auto)]

mod asks;
mod counts;

pub use counts::Counts;
