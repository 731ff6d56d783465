//! Tests of the streams that the words of a command name, over a world in memory. The words themselves are tried on the program, by `tests/operating`.
//!
//! They stand in a crate of their own, since a crate with tests is proved twice. Nothing stands on this crate, and it has no public function.
#![tactic(auto)]

#[cfg(test)]
mod ports;
