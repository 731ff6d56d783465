//! Tables of which all rows have one digest, and rows that come and go: every answer is right all the same.
//!
//! A stranger who knew how digests are made could choose names that share one. [`Lump`] is a row whose digests all are one, so each index of a
//! table of lumps is one chain, and each call goes through rows that are not asked for.
#![tactic(auto)]

mod calls;
mod lump;
#[cfg(test)]
mod tests;

pub use calls::{count, keep, list, newest, put, take};
pub use lump::{InGroup, Lump};
