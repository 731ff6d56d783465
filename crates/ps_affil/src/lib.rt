//! The affiliations of addresses at nodes (XEP-0060 §4.1).
//!
//! [`Affils`] is seen as the list of its rows, in order of making, and its spare (`ps_base`, `specs/Rows.antt`). What each call
//! does with that list is said in `ps_types`, `specs/Affils.antt`: a row is of a node and a bare address, an address without a
//! row has no affiliation, and where one is set to none its row goes. All other rows stay, in their order. A row is found by
//! the digest of its node and bare address, those of a node and those of an address by theirs (`ps_rows`).
#![tactic(auto)]

mod affils;
mod asks;

pub use affils::Affils;
