//! The rosters of accounts (RFC 6121 §2).
//!
//! [`Roster`] is seen as the list of its rows, in order of making, and its spare (`ps_base`, `specs/Rows.antt`). What each call
//! does with that list is said in `ps_types`, `specs/Rosters.antt`: a row is of an account and a contact, both compared bare.
//! All other rows stay, in their order. A row is found by the digest of its account and contact, those of an account by that of the
//! account (`ps_rows`).
#![tactic(auto)]

mod asks;
mod roster;

pub use roster::Roster;
