//! Tests of `ps_secrecy_step`: pairs of deeds at two services in memory, of which each is answered and told what its row says, and refusals of memory in between.
//!
//! They stand in a crate of their own, since a crate with tests is proved twice. Nothing stands on this crate, and it has no public function.
#![tactic(auto)]

#[cfg(test)]
mod pairs;
#[cfg(test)]
mod rows;
