//! What the words of the service do, seen from outside: texts, trees and addresses of `ps_types`, lines and ends of `ps_wire`.
//!
//! The tests stand apart since each crate is proved once more with its own. Nothing stands on this crate, and it has no public function.
#![tactic(auto)]

#[cfg(test)]
mod addresses;
#[cfg(test)]
mod lines;
#[cfg(test)]
mod trees;
