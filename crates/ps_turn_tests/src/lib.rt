//! Tests of the lock with one value, by several threads: a diary that keeps its list, and a count of visits.
//!
//! They stand in a crate of their own, since a crate with tests is proved twice. Nothing stands on this crate, and it has no public function.
#![tactic(auto)]

#[cfg(test)]
mod diary;
#[cfg(test)]
mod pair;
#[cfg(test)]
mod seats;
#[cfg(test)]
mod visits;
