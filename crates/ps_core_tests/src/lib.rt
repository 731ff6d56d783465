//! Tests of `ps_effects` and `ps_core`: lines over a service in memory, on several hosts, and how an entry is prepared. The rows that it begins with are tried
//! by `tests/rows`, which runs the program.
//!
//! They stand in a crate of their own, since a crate with tests is proved twice. Nothing stands on this crate, and it has no public function.
#![tactic(auto)]

#[cfg(test)]
mod hosts;
#[cfg(test)]
mod lines;
#[cfg(test)]
mod preparing;
#[cfg(test)]
mod rows;
