//! Tests of the tables of addresses: contacts of an account, resources, what these want, the notices that wait for an address, and their numbers. Each call
//! once, and what stays.
//!
//! They stand in a crate of their own, since a crate with tests is proved twice. Nothing stands on this crate, and it has no public function.
#![tactic(auto)]

#[cfg(test)]
mod presence;
#[cfg(test)]
mod queues;
#[cfg(test)]
mod roster;
#[cfg(test)]
mod tallies;
#[cfg(test)]
mod wants;
#[cfg(test)]
mod words;
