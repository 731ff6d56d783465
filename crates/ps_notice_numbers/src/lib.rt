//! How many notices were made for bare addresses, and how many were handed to them.
//!
//! [`Tallies`] is seen as the list of its rows, in order of making, and its spare (`ps_base`, `specs/Rows.antt`). What each call
//! does with that list is said in `ps_model`, `specs/Tallies.antt`: a row is of a bare address, and without a row no notice was made
//! for it and none was handed to it. All other rows stay, in their order. A row is found by the digest of its bare address
//! (`ps_rows`; `specs/Keys.antt`).
#![tactic(auto)]

mod asks;
mod tallies;

pub use asks::Tally;
pub use tallies::Tallies;
