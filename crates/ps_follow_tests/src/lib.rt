//! Tests of `ps_follow`: records in pieces, with repeats and cuts, and records that are refused. What a follower answers is tried on the program, by `tests/follow`.
//!
//! They stand in a crate of their own, since a crate with tests is proved twice. Nothing stands on this crate, and it has no public function.
#![tactic(auto)]

#[cfg(test)]
mod feeds;
#[cfg(test)]
mod made;
